// The sheet on a page that is lent. All of the page is written: following the lines, and after a refusal, it is zero.
ghost use Rattle.std.specs.Prelude.{◌≡◌, length};
ghost use Rattle.octets.specs.Octets.{zeros};
ghost use Rattle.answers.specs.Answers.{output_of, written_of};
ghost use Rattle.answers.specs.Written.{written_as};
ghost use Rattle.sheet.specs.Sheet.{sheet_of};

use answers::{Unwritten, Written};
use lookup::package::Package;
use numbers::refusals::Refusal;
use numbers::tables::{COMPILATION, TYPE};

// Stores the sheet on a page of zeros, and says how long it is.
#[tactic(auto, using(crate::proofs::LawSheet::sheet_cases), unfolding(octets::specs::Checked::mapped))]
fn put_sheet(package: &[u8], page: &mut [u8]) -> Result<usize, Unwritten>
    requires { page.old ≡ zeros (length page.old) }
    ensures answer { written_as result ≡ written_of (sheet_of «package».now (length page.old)) }
    ensures page { page.new ≡ output_of (sheet_of «package».now (length page.old)) (length page.old) }
{
    let package = Package::open(package)?;
    let compilations = crate::tables::measure_table(&package, COMPILATION)?;
    let types = crate::tables::measure_table(&package, TYPE)?;
    if page.len() < compilations || page.len() - compilations < types {
        return Err(Unwritten::Refused(Refusal::PageShort));
    }
    crate::tables::write_tables(&package, compilations, page);
    Ok(compilations + types)
}

#[tactic(auto, unfolding(octets::specs::Octets::zeros))]
pub fn write_sheet(package: &[u8], page: &mut [u8]) -> Written
    ensures answer { result ≡ written_of (sheet_of «package».now (length page.old)) }
    ensures page { page.new ≡ output_of (sheet_of «package».now (length page.old)) (length page.old) }
{
    page.fill(0);
    Written::from(put_sheet(package, page))
}
