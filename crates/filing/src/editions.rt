// 6 and 7, by how many sections of each code an object has.
ghost use Rattle.std.specs.List.{All, list_all};
ghost use Rattle.std.specs.Prelude.{◌≡◌, not, ◌&&◌, ◌||◌, ◌<◌, nat_le, nat_lt, slice_index};
ghost use Rattle.numbers.specs.Sections.{section_codes};
ghost use Rattle.octets.specs.Lists.{all};
ghost use Rattle.filing.specs.Counted.{edition_by, complete_by, wrong_for};
ghost use Rattle.package.specs.Input.{only_once};

use numbers::sections::{
    ABBREV, CODES, CU_INDEX, INFO, LINE, LOC, LOCLISTS, MACINFO, MACRO, RNGLISTS, STR, STR_OFFSETS,
    TU_INDEX, TYPES,
};

const WRONG_FOUR: [usize; 2] = [LOCLISTS, RNGLISTS];

const WRONG_FIVE: [usize; 3] = [TYPES, LOC, MACINFO];

const ONLY_ONCE: [usize; 11] = [
    ABBREV,
    LINE,
    LOC,
    STR_OFFSETS,
    MACINFO,
    MACRO,
    LOCLISTS,
    RNGLISTS,
    STR,
    CU_INDEX,
    TU_INDEX,
];

// Whether no code of a list has so many sections or more. The lists here hold codes of sections alone.
fn none_reaches(codes: &[usize], count: [usize; CODES], least: usize) -> bool
    requires { All (λ c. c < section_codes) codes.now }
    ensures { result ≡ list_all (λ c. nat_lt (slice_index count c) least) codes.now }
{
    codes.iter().all(|c| count[*c] < least)
}

// Whether no section is of the wrong edition.
fn edition_right(five: bool, count: [usize; CODES]) -> bool
    ensures { result ≡ all (λ c. not (nat_le 1 (slice_index count c))) (wrong_for five) }
{
    if five {
        none_reaches(&WRONG_FIVE, count, 1)
    } else {
        none_reaches(&WRONG_FOUR, count, 1)
    }
}

// Whether no code other than info and types has a second section.
fn all_once(count: [usize; CODES]) -> bool
    ensures { result ≡ all (λ c. not (nat_le 2 (slice_index count c))) only_once }
{
    none_reaches(&ONLY_ONCE, count, 2)
}

// Whether an object is a package of version 5, by how many indexes it has.
pub fn is_packed(five: bool, cu: usize, tu: usize) -> bool
    ensures { result ≡ (five && (nat_le 1 cu || nat_le 1 tu)) }
{
    five && (cu >= 1 || tu >= 1)
}

// 6. An index allows one info only: that of the compilation units and, in version 5, that of the type units too. That of the type units allows one types only.
#[tactic(auto, using(std::proofs::lemmas::Bool::Decides::nat_tests), unfolding(crate::specs::Counted::edition_by))]
pub fn edition_good(five: bool, count: [usize; CODES]) -> bool
    ensures { result ≡ edition_by five count }
{
    let cu = count[CU_INDEX] >= 1;
    let tu = count[TU_INDEX] >= 1;
    edition_right(five, count)
        && all_once(count)
        && !((cu || five && tu) && count[INFO] >= 2)
        && !(tu && count[TYPES] >= 2)
}

// 7
#[tactic(auto, unfolding(crate::specs::Counted::complete_by))]
pub fn complete(count: [usize; CODES]) -> bool
    ensures { result ≡ complete_by count }
{
    count[ABBREV] >= 1 && count[INFO] >= 1 && (count[STR_OFFSETS] == 0 || count[STR] >= 1)
}
