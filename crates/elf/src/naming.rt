// Which sections are wanted, by their names.
ghost use Rattle.std.specs.Prelude.{◌≡◌, ◌≢◌, ◌<◌, ℕ, drop, length, slice_index, EachIndex, MatchOption, nat_eq, nat_lt};
ghost use Rattle.octets.specs.Lists.{any};
ghost use Rattle.numbers.specs.Names.{section_names};
ghost use Rattle.elf.specs.File.{starts_with, code_among, code_of};
ghost use Rattle.elf.specs.Held.{header_is, code_found, LastZeroAt};

use crate::file::{ElfFile, Header};
use numbers::names::section_names;
use numbers::sections::CODES;

// Whether s starts with a name and the zero that ends it.
#[tactic(auto, using(crate::proofs::Names::starts_short, crate::proofs::Names::starts_other, crate::proofs::Names::starts_same))]
fn starts_with(s: &[u8], name: &[u8]) -> bool
    ensures { result ≡ starts_with s.now name.now }
{
    let n = name.len();
    n < s.len() && s[n] == 0 && octets::same_bytes(&s[..n], name)
}

// The code of the name that s starts with, if it is one's. The table of names is taken once, in
// front of the search: a constant table is stored anew wherever it is named.
fn code_at(s: &[u8]) -> Option<usize>
    ensures { result ≡ code_found (code_among (drop 1 section_names) 1 s.now) }
{
    let names = section_names();
    (1..CODES).find(|code| starts_with(s, names[*code]))
}

impl ElfFile<'_> {
    // The code of a header's section by its name, if it is wanted.
    pub fn code_of(&self, h: Header) -> Option<usize>
        ensures { result ≡ code_found (code_of self.now.names.now (header_is h)) }
    {
        code_at(self.names.get(h.name..)?)
    }
}

// The place of the last zero byte.
fn last_zero(names: &[u8]) -> Option<usize>
    ensures { LastZeroAt names.now result }
{
    names.iter().rposition(|b| *b == 0)
}

// The place that follows the last zero byte, 0 where there is none: a name ends in the table exactly if it starts before this place.
pub fn last_end(names: &[u8]) -> usize
    ensures { (n : ℕ) → any (nat_eq 0) (drop n names.now) ≡ nat_lt n result }
{
    match last_zero(names) {
        Some(i) => i + 1,
        None => 0,
    }
}
