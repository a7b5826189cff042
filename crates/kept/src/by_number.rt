// What is known of the kept units by value: asked by the number of a table or of a section, and with one unit more.
ghost use Rattle.std.specs.Prelude.{◌≡◌, ◌<◌, ◌^◌, ◌==◌};
ghost use Rattle.kept.specs.Held.{pick, picked, with_unit};

use crate::regions::COMPILATION;
use crate::{Table, Units};
use numbers::sections::INFO;

// A table and a section of units are asked by their numbers, and any number is answered: an enum would ask more of callers.

// What there is of the kind that has a number, or else of the other.
#[tactic(auto, unfolding(crate::specs::Held::picked))]
fn pick<T: Copy>(number: usize, kind: usize, its: T, other: T) -> T
    ensures { result ≡ picked (number == kind) its other }
{
    if number == kind { its } else { other }
}

impl Units {
    #[tactic(auto, unfolding(crate::specs::Held::pick, crate::specs::Held::picked))]
    pub fn table_of(self, table: usize) -> Table
        ensures { result ≡ pick table self.cu self.tu }
    {
        pick(table, COMPILATION, self.cu, self.tu)
    }

    // How many bytes of info, or of types, the units have.
    #[tactic(auto, unfolding(crate::specs::Held::pick, crate::specs::Held::picked))]
    pub fn bytes_of(self, home: usize) -> usize
        ensures { result ≡ pick home self.info self.types }
    {
        pick(home, INFO, self.info, self.types)
    }

    // With one unit more, after which its table is t and its section has so many bytes. Callers have few units.
    #[tactic(auto, unfolding(crate::specs::Held::pick, crate::specs::Held::picked))]
    pub fn with_unit(self, table: usize, t: Table, home: usize, bytes: usize) -> Units
        requires { self.count < 2 ^ 32 }
        ensures { result ≡ with_unit self table t home bytes }
    {
        Units {
            count: self.count + 1,
            cu: pick(table, COMPILATION, t, self.cu),
            tu: pick(table, COMPILATION, self.tu, t),
            info: pick(home, INFO, bytes, self.info),
            types: pick(home, INFO, self.types, bytes),
        }
    }
}
