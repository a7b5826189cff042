// Both lookups as callers are told them: numbers, or the part of the lent package itself with the numbers beside it.
ghost use Rattle.std.specs.Prelude.{◌≡◌, ◌+◌, ◌≤◌, length};
ghost use Rattle.lookup.specs.Lookup.{looked_up, string_found};
ghost use Rattle.lookup.specs.Answers.{bytes_in, found_as, numbered};

use crate::searching::{Located, UnitAsked};
use numbers::refusals::Refusal;
use strings::table::Place;

// Code 0: found, at that place of the package. 1: absent. Else the refusal, with zeros.
// A struct for C, so it has numbers for what `Located` and `Refusal` say.
#[repr(C)]
#[derive(Clone, Copy)]
pub struct Answer {
    pub code: u32,
    pub start: usize,
    pub length: usize,
    pub looks: usize,
}

impl From<Result<Located, Refusal>> for Answer {
    ghost from_gives = { λ r a. a ≡ numbered (found_as r) };

    #[tactic(auto, unfolding(crate::specs::Answers::numbered))]
    fn from(answer: Result<Located, Refusal>) -> Answer {
        match answer {
            Ok(
                Located {
                    place: Some(Place { start, size }),
                    looks,
                },
            ) => Answer {
                code: 0,
                start,
                length: size,
                looks,
            },
            Ok(Located { place: None, looks }) => Answer {
                code: 1,
                start: 0,
                length: 0,
                looks,
            },
            Err(refusal) => Answer {
                code: refusal.number(),
                start: 0,
                length: 0,
                looks: 0,
            },
        }
    }
}

// A section's part here and an entry's string in the following function: each is a line or two beside its twin. One function of both would take an enum
// of the two questions, and its clause would have to tell them apart again. So it is with `look_up` and with `locate`.
pub fn answer_part(package: &[u8], unit: UnitAsked, section: u32) -> Answer
    ensures { result ≡ numbered (looked_up «package».now unit.version unit.table unit.identity section) }
{
    Answer::from(crate::searching::locate(package, unit, section))
}

pub fn answer_string(package: &[u8], unit: UnitAsked, entry: u64) -> Answer
    ensures { result ≡ numbered (string_found «package».now unit.version unit.table unit.identity entry) }
{
    Answer::from(crate::searching::locate_string(package, unit, entry))
}

// A part of the lent package itself, and the numbers beside it. The part is empty where nothing is found.
#[derive(Clone, Copy)]
pub struct Handed<'a> {
    pub part: &'a [u8],
    pub answer: Answer,
}

// The bytes that an answer names, and the answer. The caller has found them in the package.
#[tactic(auto, using(octets::proofs::Parts::part_cut), unfolding(crate::specs::Answers::bytes_in))]
fn hand_out(package: &[u8], answer: Answer) -> Handed<'_>
    requires { answer.start + answer.length ≤ length «package».now }
    ensures part { result.part.now ≡ bytes_in «package».now answer }
    ensures answer { result.answer ≡ answer }
{
    Handed {
        part: &package[answer.start..answer.start + answer.length],
        answer,
    }
}

// The part of a section.
#[tactic(auto, using(crate::proofs::Bounds::part_fits))]
pub fn look_up(package: &[u8], unit: UnitAsked, section: u32) -> Handed<'_>
    ensures part { result.part.now ≡ bytes_in «package».now (numbered (looked_up «package».now unit.version unit.table unit.identity section)) }
    ensures answer { result.answer ≡ numbered (looked_up «package».now unit.version unit.table unit.identity section) }
{
    let answer = answer_part(package, unit, section);
    hand_out(package, answer)
}

// The string of an entry, without its zero.
#[tactic(auto, using(crate::proofs::Bounds::string_fits))]
pub fn look_up_string(package: &[u8], unit: UnitAsked, entry: u64) -> Handed<'_>
    ensures part { result.part.now ≡ bytes_in «package».now (numbered (string_found «package».now unit.version unit.table unit.identity entry)) }
    ensures answer { result.answer ≡ numbered (string_found «package».now unit.version unit.table unit.identity entry) }
{
    let answer = answer_string(package, unit, entry);
    hand_out(package, answer)
}
