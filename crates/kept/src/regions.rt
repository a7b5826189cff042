// The regions of lent work, in words for each word of the bundle. No other file knows where a region starts.
ghost use Rattle.std.specs.Prelude.{◌≡◌, ◌+◌, ◌*◌, ◌≤◌, ◌<◌, ◌^◌, length};
ghost use Rattle.numbers.specs.Limits.{work_for_word};
ghost use Rattle.kept.specs.Regions.{slots_region, region, table_words};

use numbers::limits::STRING_WORDS;

// One record of so many words for each kept unit. A unit takes at least five words of the bundle, so that 23 for each five fit.
pub const RECORD: usize = 23;

pub const LEAST_UNIT: usize = 5;

// The two tables, by their numbers. A table and a section stay numbers: they stand so in the words of a record, from which they are read and compared.
pub const COMPILATION: usize = numbers::tables::COMPILATION as usize;

pub const TYPE: usize = numbers::tables::TYPE as usize;

// Where a region starts, and how many words it has, for each word of the bundle.
#[derive(Clone, Copy)]
pub struct Share {
    pub start: usize,
    pub words: usize,
}

pub const RECORDS: Share = Share { start: 0, words: 5 };

const COMPILATION_SLOTS: Share = Share { start: 5, words: 1 };

const TYPE_SLOTS: Share = Share { start: 6, words: 1 };

// Words for a table of the strings with as many entries as the bundle has words. The table takes the front of them, by its room: see `table_words`.
pub const STRINGS: Share = Share {
    start: 7,
    words: STRING_WORDS,
};

// The codes of an object's abbreviation tables; what stands there counts for that object alone.
pub const CODES: Share = Share {
    start: 14,
    words: 4,
};

// The strings, and behind them what is remembered of an object's str by a string's start, a word for each byte. The memory stands
// where the codes do: these count while units are filed, the memory while strings are put or written.
pub const STORE: Share = Share {
    start: 7,
    words: 11,
};

// The rows of an object's index by the place of their unit: a word for each word of a section, and one for each row. What stands there counts for that
// object alone.
pub const ROWS_BY_PLACE: Share = Share {
    start: 18,
    words: 2,
};

// The slots of a table.
#[tactic(auto, unfolding(crate::specs::Regions::slots_region))]
pub fn slots(table: usize) -> Share
    ensures is { result ≡ slots_region table }
    ensures within { result.start + result.words ≤ work_for_word }
{
    if table == COMPILATION {
        COMPILATION_SLOTS
    } else {
        TYPE_SLOTS
    }
}

// Where a region starts in work, and how many words it has there.
#[derive(Clone, Copy)]
pub struct Region {
    pub start: usize,
    pub size: usize,
}

impl Share {
    // For a bundle of n words. Callers have a bundle of fewer than 2 to the power 32.
    pub fn of(self, n: usize) -> Region
        requires { (self.start + self.words ≤ work_for_word) × (n < 2 ^ 32) }
        ensures start { result.start ≡ self.start * n }
        ensures size { result.size ≡ self.words * n }
    {
        Region {
            start: self.start * n,
            size: self.words * n,
        }
    }

    // The words of a region in work. No sibling lends them to be written: what is written comes back to work only where the caller itself cuts the part out.
    #[tactic(auto, using(octets::proofs::Parts::part_cut), unfolding(crate::specs::Regions::region))]
    pub fn part(self, work: &[u32], n: usize) -> &[u32]
        requires { (self.start + self.words ≤ work_for_word) × (n < 2 ^ 32) × (work_for_word * n ≤ length work.now) }
        ensures { result.now ≡ region work.now n self }
    {
        let region = self.of(n);
        &work[region.start..region.start + region.size]
    }
}

// The words of the strings' table, to be read, by its room: a bundle has far fewer entries than the region has words for, and what is used stands close
// together. Those who write the table cut it out of work themselves, as `Share::part` says.
#[tactic(auto, unfolding(crate::specs::Regions::table_words))]
pub fn table_words(work: &[u32], n: usize, room: usize) -> &[u32]
    requires { (n < 2 ^ 32) × (work_for_word * n ≤ length work.now) × (room ≤ n) }
    ensures { result.now ≡ table_words work.now n room }
{
    &STRINGS.part(work, n)[..STRING_WORDS * room]
}
