// Refusal 21: a package is opened once, and the lookups go by what was found.
ghost use Rattle.std.specs.Prelude.{◌≡◌, ◌+◌, ◌≤◌, ◌<◌, length, slice_index};
ghost use Rattle.numbers.specs.Sections.{section_codes};
ghost use Rattle.numbers.specs.Refused.{told};
ghost use Rattle.octets.specs.Octets.{part};
ghost use Rattle.index.specs.Index.{index_of};
ghost use Rattle.lookup.specs.Lookup.{package_of};
ghost use Rattle.lookup.specs.Answers.{empty, opened, single, index_by, Alone, Entering};

use bundle::encoding::ObjectEncoding;
use bundle::{Item, Scan};
use index::reading::{Index, IndexHead};
use numbers::limits::PACKAGE_LIMIT;
use numbers::refusals::Refusal;
use numbers::sections::{CU_INDEX, TU_INDEX};

// What the one object of a package states, and where its sections and indexes lie.
#[derive(Clone, Copy)]
pub struct PackageHead {
    pub encoding: ObjectEncoding,
    pub sections: Scan,
    pub cu: Option<IndexHead>,
    pub tu: Option<IndexHead>,
}

// A package without objects.
#[tactic(auto, unfolding(crate::specs::Answers::empty, crate::specs::Answers::coded, bundle::specs::Encoding::encoding_of))]
fn without_object(big: bool) -> PackageHead
    ensures { result ≡ empty big }
{
    PackageHead {
        encoding: ObjectEncoding {
            big,
            five: false,
            wide: false,
            long: false,
        },
        sections: bundle::no_sections(8),
        cu: None,
        tu: None,
    }
}

// No section stands there twice, by how many there are of each.
fn are_single(counts: &[usize]) -> bool
    ensures { result ≡ single counts.now }
{
    counts.iter().all(|n| *n <= 1)
}

// The index in the section of a code, if it is there. The caller has seen that the section lies in the package.
#[tactic(auto, using(crate::proofs::Opened::index_cases))]
fn read_index(
    package: &[u8],
    big: bool,
    sections: &Scan,
    code: usize,
) -> Result<Option<IndexHead>, Refusal>
    requires { (code < section_codes) × (slice_index sections.now.start code + slice_index sections.now.size code ≤ length «package».now) }
    ensures { told result ≡ index_by (slice_index sections.now.count code) (index_of big (part «package».now (slice_index sections.now.start code) (slice_index sections.now.size code))) }
{
    if sections.count[code] == 0 {
        return Ok(None);
    }
    let start = sections.start[code];
    let end = start + sections.size[code];
    let index = Index::read(big, &package[start..end]).map_err(|_| Refusal::BadPackage)?;
    Ok(Some(index.head()))
}

// The package of one object, of that word and those sections. The caller has scanned it.
fn open_sections(
    package: &[u8],
    big: bool,
    word: u32,
    sections: Scan,
) -> Result<PackageHead, Refusal>
    requires { Alone «package».now big word sections }
    ensures { told result ≡ opened (package_of «package».now) }
{
    // no `map_err`, as the other two have it: the proof did not close with it
    let Ok(encoding) = bundle::encoding::read_word(big, word) else {
        return Err(Refusal::BadPackage);
    };
    if !are_single(&sections.count[1..]) {
        return Err(Refusal::BadPackage);
    }
    let cu = read_index(package, big, &sections, CU_INDEX)?;
    let tu = read_index(package, big, &sections, TU_INDEX)?;
    Ok(PackageHead {
        encoding,
        sections,
        cu,
        tu,
    })
}

// The package whose first object has that word, which ends at 8. The caller has checked its length and its words.
fn open_object(package: &[u8], big: bool, word: u32) -> Result<PackageHead, Refusal>
    requires { Entering «package».now big word }
    ensures { told result ≡ opened (package_of «package».now) }
{
    let sections = bundle::scan_object(package, 8);
    match bundle::next_item(package, sections.next) {
        Ok(Item::End) => open_sections(package, big, word, sections),
        _ => Err(Refusal::BadPackage),
    }
}

#[tactic(auto, using(crate::proofs::Entering::words_cases))]
pub fn open_package(package: &[u8]) -> Result<PackageHead, Refusal>
    ensures { told result ≡ opened (package_of «package».now) }
{
    if !bundle::length_good(PACKAGE_LIMIT, package) {
        return Err(Refusal::BadPackage);
    }
    let big = bundle::check_words(package).map_err(|_| Refusal::BadPackage)?;
    match bundle::next_item(package, 4) {
        Ok(Item::Object { word, .. }) => open_object(package, big, word),
        Ok(Item::End) => Ok(without_object(big)),
        _ => Err(Refusal::BadPackage),
    }
}
