// What is known of the objects that are filed, by value. Records, strings and slots stand in work.
ghost use Rattle.std.specs.Prelude.{◌≡◌, ◌<◌, ◌^◌};
ghost use Rattle.kept.specs.State.{counted_one, skipped_one};

use crate::Units;
use numbers::sections::CODES;
use strings::table::StringTable;

// How many type units were skipped: those whose bytes agree with the kept one's, and the others.
#[derive(Clone, Copy)]
pub struct Skipped {
    pub repeats: usize,
    pub namesakes: usize,
}

// The bases say how many bytes of each section the objects have together.
#[derive(Clone, Copy)]
pub struct InProgress {
    pub units: Units,
    pub bases: [usize; CODES],
    pub strings: StringTable,
    pub skipped: Skipped,
}

impl Skipped {
    #[tactic(auto, unfolding(package::specs::Filing::of_kind))]
    fn count_one(&mut self, agrees: bool)
        requires { (self.old.repeats < 2 ^ 32) × (self.old.namesakes < 2 ^ 32) }
        ensures { self.new ≡ counted_one self.old agrees }
    {
        if agrees {
            self.repeats += 1;
        } else {
            self.namesakes += 1;
        }
    }
}

impl InProgress {
    // One unit more is skipped. Callers have few units.
    pub fn skip_one(&mut self, agrees: bool)
        requires { (self.old.skipped.repeats < 2 ^ 32) × (self.old.skipped.namesakes < 2 ^ 32) }
        ensures { self.new ≡ skipped_one self.old agrees }
    {
        self.skipped.count_one(agrees);
    }
}
