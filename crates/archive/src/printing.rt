// The index on a printed page.
ghost use Rattle.std.specs.Prelude.{◌≡◌, length};
ghost use Rattle.answers.specs.Answers.{output_of, written_of};
ghost use Rattle.sheet.specs.Sheet.{sheet_of};

use answers::Written;

// Code 0: the package's sheet, of that length, and zeros following it. 21: a bad package, or a row that has not exactly one slot. 35: a page too short.
// After a refusal the length is 0 and the page is zeros.
#[unsafe(no_mangle)]
pub extern "C" fn barthovin_sheet(package: &[u8], page: &mut [u8]) -> Written
    ensures answer { result ≡ written_of (sheet_of «package».now (length page.old)) }
    ensures page { page.new ≡ output_of (sheet_of «package».now (length page.old)) (length page.old) }
{
    sheet::writing::write_sheet(package, page)
}
