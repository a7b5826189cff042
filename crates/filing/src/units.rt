// What is read while the units of an object are filed.
ghost use Rattle.std.specs.Prelude.{◌≡◌, ℕ, ◌<◌, ◌≤◌, ◌^◌, length, slice_index};

use crate::input::InputObject;

// The section of units at hand: its code, and where it lies in the bundle.
#[derive(Clone, Copy)]
pub struct HomeSection {
    // A number, as sections' codes are: numbers/src/sections.rt says why.
    pub home: usize,
    pub start: usize,
    pub stop: usize,
}

impl HomeSection {
    ghost use Rattle.filing.specs.ByPlace.{heads_for};

    // A chain for each word of the section.
    #[tactic(auto, unfolding(crate::specs::ByPlace::heads_for))]
    pub fn heads(self) -> usize
        requires { (self.start ≤ self.stop) × (self.stop < 2 ^ 32) }
        ensures { result ≡ heads_for self }
    {
        (self.stop - self.start + 3) / 4
    }
}

// The bundle, the object and the section at hand, which lies in the bundle.
#[derive(Clone, Copy)]
pub struct Reading<'a> {
    pub bundle: &'a [u8],
    pub object: &'a InputObject,
    pub section: HomeSection,
    ghost order: { section.start ≤ section.stop },
    ghost within: { section.stop ≤ length bundle.now },
    // As its type says. It is here for a unit's identity, which is read of the bundle by one function and kept by another.
    ghost bytes: { (i : ℕ) → slice_index bundle.now i < 256 },
}
