// The abbreviation tables that were judged, by where they start in the bundle: units that share a table are read without judging it again, also where they
// take turns with others. A table ends with its own zero code, and nothing behind that is read, so that parts that start together and end apart have the same.
//
// Lent words hold the tables, one word for each byte of the bundle. The first twenty-fifth is a directory, a tree by where tables start, and a node of it takes
// five words. Behind it each table has two words and then the tree of its declarations. The words say how many those are, which is where the tree ends, and how
// many bytes the table takes, so that a part that ends before its table does is told apart without a reading.
//
// Where the directory is full, or the words behind it are, all is forgotten, and the table at hand
// has the words behind the directory for itself: its reading goes on there, so that each table that
// is judged is read once. It is the last one, and the next new table is put over it. The directory
// does not have it: there would be room for one table less, and of tables that have hardly room
// together each would be forgotten the sooner.
//
// The directory has a node for each 125 bytes of the bundle, and a unit takes at least 20: tables
// are forgotten for it at most six times, and each is judged once more then, and the one at hand
// twice. The words behind it suffice wherever long tables lie apart: all but 127 declarations of a
// table take at least six bytes, and five words. Short tables that lie apart may fill them, but a
// table that has a root takes more bytes than words: their units have less than a twenty-fifth of
// the bundle then, and each judges a short table. A table that has no room even in all the words
// behind the directory is judged anew, with all the words for itself: only in a bundle of less than
// 700 bytes.
//
// The directory has runs of attributes too, which the units of a root are to walk once: flags that are present take no bytes of a unit, and a root may have very
// many of them. Their keys are above those of tables. Runs that lie apart do not fill the directory: a run that is noted takes 128 bytes and more, and an
// attribute stands between two of them. Where the directory has no room for one more, its entries are forgotten, tables and runs, but for the last table: its units
// go on without judging it again.
ghost use Rattle.std.specs.Prelude.{◌≡◌, ◌⊎◌, true, List, ℕ, ◌+◌, ◌*◌, ◌/◌, ◌≤◌, ◌<◌, ◌^◌, ◌-◌, length, take, drop, IfSome, Err};
ghost use Rattle.unit.specs.Trees.{node_words, Fresh};
ghost use Rattle.unit.specs.Runs.{Quiet};
ghost use Rattle.unit.specs.TableTrees.{
  directory_share,
  head_words,
  directory,
  Lies,
  Enters,
  Enterable,
  Remembers,
  Knows,
  KnownAt,
  Joins,
  Recalls,
  Lent,
  run_key,
  Notable,
  Notes,
  Free,
  Begun,
};
ghost use Rattle.unit.specs.declared.abbreviations.Unheld.TheVariants.{Full};

use crate::abbreviations::{Extent, Unheld};
use crate::tree::{CodeTree, NODE};
use numbers::refusals::Refusal;

// The directory has one of so many words.
const SHARE: usize = 25;

// The words in front of a table's tree.
const HEAD: usize = 2;

// The high words of the keys of runs before which the identity is not stated, and is.
const UNKNOWN: u32 = 1;

const KNOWN: u32 = 2;

// A run of fewer bytes is walked again about as fast as it is found. In a bundle that has one so long the directory has room for a node.
pub const WORTH: usize = 128;

// A part of the bundle. It is another type than strings' `Place`, which has start and size: unit stands beside strings and below what uses both, and a
// table is read to an end.
#[derive(Clone, Copy)]
pub struct Span {
    pub at: usize,
    pub end: usize,
}

// Where a table lies in the bundle, up to behind its zero code, the word from which its tree stands, and how many declarations it has.
#[derive(Clone, Copy)]
pub struct JudgedTable {
    pub place: Span,
    pub from: usize,
    pub count: usize,
}

// The table that was asked for last, how many entries the directory has, and the first word behind those of its tables.
#[derive(Clone, Copy, Default)]
pub struct Judged {
    pub last: Option<JudgedTable>,
    pub entries: usize,
    pub free: usize,
}

// A run's key in the directory. A table's is where it starts, which is below 2 ^ 32.
#[tactic(auto, unfolding(crate::specs::TableTrees::run_key))]
fn run_key(at: usize, known: bool) -> u64
    requires { at < 2 ^ 32 }
    ensures { result ≡ run_key at known }
{
    if known {
        octets::number_of(at as u32, KNOWN)
    } else {
        octets::number_of(at as u32, UNKNOWN)
    }
}

impl Judged {
    // Before any table.
    #[tactic(auto, using(crate::proofs::Holding::entries_none), unfolding(crate::specs::TableTrees::Remembers))]
    pub fn nothing() -> Judged
        ensures empty { result.entries ≡ 0 }
        ensures memory { (b w : List ℕ) → Remembers b w result }
    {
        Judged::default()
    }

    // The word where a new table starts, among n: behind the directory and its tables. None where the directory is full, or too few words are left.
    fn start(self, n: usize) -> Option<usize>
        requires { node_words * self.entries ≤ n / directory_share }
        ensures { IfSome result (Free n self) }
    {
        let size = n / SHARE;
        let start = self.free.max(size);
        if NODE * self.entries + NODE <= size && start <= n && HEAD <= n - start {
            Some(start)
        } else {
            None
        }
    }

    // The directory has a table more, whose tree stands behind the two words from start on already. It is the last.
    fn enter(&mut self, codes: &mut [u32], size: usize, start: usize, table: JudgedTable)
        requires { Enterable codes.old size start table self.old }
        ensures { (b : List ℕ) → Enters b codes.old size start table self.old → Knows b codes.new table.place self.new table }
    {
        let bytes = table.place.end - table.place.at;
        codes[start..start + HEAD].copy_from_slice(&[table.count as u32, bytes as u32]);
        let key = table.place.at as u64;
        crate::tree::add_code(&mut codes[..size], self.entries, start, key);
        self.last = Some(table);
        self.entries += 1;
        self.free = table.from + NODE * table.count;
    }

    // With all the words for this table, which suffice: the others are forgotten.
    #[tactic(auto, using(crate::proofs::Recalling::unheld_bad, crate::proofs::Recalling::judged_within, crate::proofs::Cuts::between_length))]
    fn judge_alone(
        &mut self,
        b: &[u8],
        place: Span,
        codes: &mut [u32],
    ) -> Result<JudgedTable, Refusal>
        requires { Lies b.now place × (length b.now ≤ length codes.old) × (length b.now < 2 ^ 32) }
        ensures { Recalls b.now codes.new place self.new result }
    {
        *self = Judged::nothing();
        let extent = crate::abbreviations::judge_table(&b[place.at..place.end], codes)?;
        let table = JudgedTable {
            place: Span {
                at: place.at,
                end: place.at + extent.size,
            },
            from: 0,
            count: extent.count,
        };
        self.last = Some(table);
        Ok(table)
    }

    // A table that was not judged before: its tree stands behind those of the others, and the words
    // in front of it from start on. Where it is not held, since it is bad or the words that are
    // left do not suffice, all is forgotten: the last table, if it was judged alone, may have stood
    // where words are written over now. What was judged of the table until the words were full is
    // moved to the front of those behind the directory, and begun says how much that is.
    #[tactic(auto, using(crate::proofs::Holding::entries_room, crate::proofs::Holding::remembers_entries, crate::proofs::Recalling::judged_within, crate::proofs::Cuts::between_length, crate::proofs::Judging::judging_start, crate::proofs::Judging::judging_room))]
    fn judge_behind(
        &mut self,
        b: &[u8],
        place: Span,
        codes: &mut [u32],
        start: usize,
        begun: &mut Extent,
    ) -> Result<JudgedTable, Unheld>
        requires new { Lies b.now place × Lent b.now codes.old self.old × Fresh (directory b.now codes.old) self.old.entries place.at × Free (length b.now) self.old start }
        requires none { (begun.old.size ≡ 0) × (begun.old.count ≡ 0) }
        ensures table { Joins b.now codes.new place self.new result }
        ensures begun { result ≡ Err Full → Begun b.now codes.new place begun.new }
    {
        let n = b.len();
        let from = start + HEAD;
        match crate::abbreviations::judge_on(&b[place.at..place.end], &mut codes[from..n], begun) {
            Ok(extent) => {
                let table = JudgedTable {
                    place: Span {
                        at: place.at,
                        end: place.at + extent.size,
                    },
                    from,
                    count: extent.count,
                };
                self.enter(codes, n / SHARE, start, table);
                Ok(table)
            }
            Err(Unheld::Full) => {
                *self = Judged::nothing();
                codes.copy_within(from..from + NODE * begun.count, n / SHARE);
                Err(Unheld::Full)
            }
            Err(Unheld::Bad) => {
                *self = Judged::nothing();
                Err(Unheld::Bad)
            }
        }
    }

    // A table that was begun at the front of the words behind the directory, which has them for
    // itself: the others are forgotten, and the next new table is put over it.
    #[tactic(auto, using(crate::proofs::Recalling::judged_within, crate::proofs::Cuts::between_length))]
    fn judge_front(
        &mut self,
        b: &[u8],
        place: Span,
        codes: &mut [u32],
        begun: &mut Extent,
    ) -> Result<JudgedTable, Unheld>
        requires { Lies b.now place × (length b.now ≤ length codes.old) × (length b.now < 2 ^ 32) × Begun b.now codes.old place begun.old }
        ensures { Joins b.now codes.new place self.new result }
    {
        *self = Judged::nothing();
        let front = b.len() / SHARE;
        let bytes = &b[place.at..place.end];
        match crate::abbreviations::judge_on(bytes, &mut codes[front..b.len()], begun) {
            Ok(extent) => {
                let table = JudgedTable {
                    place: Span {
                        at: place.at,
                        end: place.at + extent.size,
                    },
                    from: front,
                    count: extent.count,
                };
                self.last = Some(table);
                Ok(table)
            }
            Err(unheld) => Err(unheld),
        }
    }

    // A table that was not judged before, read once: behind the others, and where they leave it no
    // room the reading goes on without them.
    #[tactic(auto, using(crate::proofs::Holding::entries_room, crate::proofs::Holding::remembers_entries))]
    fn judge_once(
        &mut self,
        b: &[u8],
        place: Span,
        codes: &mut [u32],
    ) -> Result<JudgedTable, Unheld>
        requires { Lies b.now place × Lent b.now codes.old self.old × Fresh (directory b.now codes.old) self.old.entries place.at }
        ensures { Joins b.now codes.new place self.new result }
    {
        let mut begun = Extent { count: 0, size: 0 };
        let Some(start) = self.start(b.len()) else {
            return self.judge_front(b, place, codes, &mut begun);
        };
        match self.judge_behind(b, place, codes, start, &mut begun) {
            Err(Unheld::Full) => self.judge_front(b, place, codes, &mut begun),
            answer => answer,
        }
    }

    // The same, and with all the words for itself where those behind the directory do not suffice:
    // the table takes most of a bundle of few bytes.
    fn judge_new(
        &mut self,
        b: &[u8],
        place: Span,
        codes: &mut [u32],
    ) -> Result<JudgedTable, Refusal>
        requires { Lies b.now place × Lent b.now codes.old self.old × Fresh (directory b.now codes.old) self.old.entries place.at }
        ensures { Recalls b.now codes.new place self.new result }
    {
        match self.judge_once(b, place, codes) {
            Ok(table) => Ok(table),
            Err(Unheld::Bad) => Err(Refusal::NoIdentity),
            Err(Unheld::Full) => self.judge_alone(b, place, codes),
        }
    }

    // The table that starts at a place of the bundle, if it was judged: the last one, or one of the directory.
    #[tactic(auto, using(crate::proofs::Recalling::sought_cases))]
    fn known(self, b: &[u8], at: usize, codes: &[u32]) -> Option<JudgedTable>
        requires { (at ≤ length b.now) × Lent b.now codes.now self }
        ensures { KnownAt b.now codes.now self at result }
    {
        if let Some(last) = self.last {
            if last.place.at == at {
                return Some(last);
            }
        }
        let directory = CodeTree {
            words: &codes[..b.len() / SHARE],
            count: self.entries,
        };
        let start = directory.find(at as u64)?;
        Some(JudgedTable {
            place: Span {
                at,
                end: at + codes[start + 1] as usize,
            },
            from: start + HEAD,
            count: codes[start] as usize,
        })
    }

    // The table at the front of a part, judged now or before. It is the last one then. A table that goes on behind the part's end is no table of the part: the
    // part is judged for itself, which ends in a refusal.
    pub fn recall(
        &mut self,
        b: &[u8],
        place: Span,
        codes: &mut [u32],
    ) -> Result<JudgedTable, Refusal>
        requires { Lies b.now place × Lent b.now codes.old self.old }
        ensures { Recalls b.now codes.new place self.new result }
    {
        let Some(table) = self.known(b, place.at, codes) else {
            return self.judge_new(b, place, codes);
        };
        if place.end < table.place.end {
            return self.judge_alone(b, place, codes);
        }
        self.last = Some(table);
        Ok(table)
    }

    // Whether the last table's tree leaves the directory alone, which has so many words. It does not where the table was judged with all the words for itself.
    fn spares(self, size: usize) -> bool
        ensures { result ≡ true → IfSome self.last (λ t. size ≤ t.from) }
    {
        match self.last {
            Some(table) => size <= table.from,
            None => true,
        }
    }

    // How many entries the directory goes on with, which has so many words: with none where it has no room for one more.
    fn kept(self, size: usize) -> usize
        requires { (node_words * self.entries ≤ size) × (node_words ≤ size) }
        ensures { (node_words * result + node_words ≤ size) × ((result ≡ 0) ⊎ (result ≡ self.entries)) }
    {
        if size - NODE * self.entries < NODE {
            0
        } else {
            self.entries
        }
    }

    // The directory has a run more, if it is long enough to be worth it. Where the last table was judged alone it has none: that table would be judged anew at
    // each unit.
    #[tactic(auto, using(crate::proofs::Noting::kept_rising))]
    fn note(&mut self, codes: &mut [u32], size: usize, run: usize, key: u64)
        requires { Notable codes.old size run self.old }
        ensures { (b : List ℕ) → Notes b codes.old size run key self.old → Remembers b codes.new self.new }
    {
        if run < WORTH || !self.spares(size) {
            return;
        }
        let count = self.kept(size);
        crate::tree::add_code(&mut codes[..size], count, run, key);
        self.entries = count + 1;
    }

    // How many bytes at the front of a place are a run of flags that are present, where the identity is stated already or not: as it was noted, or walked now.
    // A run that goes on behind the place's end is walked by the caller.
    #[tactic(auto, using(crate::proofs::Noting::run_notable, crate::proofs::Flags::quiet_none, crate::proofs::Holding::entries_rising, crate::proofs::Holding::remembers_entries))]
    pub fn pass_run(&mut self, b: &[u8], place: Span, known: bool, codes: &mut [u32]) -> usize
        requires { Lies b.now place × Lent b.now codes.old self.old }
        ensures run { (result ≤ place.end - place.at) × Quiet known (take result (drop place.at b.now)) }
        ensures memory { Lent b.now codes.new self.new }
    {
        let key = run_key(place.at, known);
        let size = b.len() / SHARE;
        let directory = CodeTree {
            words: &codes[..size],
            count: self.entries,
        };
        match directory.find(key) {
            Some(run) if run <= place.end - place.at => run,
            Some(_) => 0,
            None => {
                let run = crate::runs::run_size(&b[place.at..place.end], known);
                self.note(codes, size, run, key);
                run
            }
        }
    }
}
