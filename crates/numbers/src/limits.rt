// Limits, in bytes where nothing else is said.
// The longest bundle that is packed (1).
pub const BUNDLE_LIMIT: usize = 4_194_304;

// The longest package that is looked into (21), written as a file or read from one.
pub const PACKAGE_LIMIT: usize = 117_440_512;

// The greatest length that a section word can state.
pub const SECTION_LIMIT: usize = 8_388_607;

// Words of work for each word of the bundle.
pub const WORK_FOR_WORD: usize = 20;

// Words of work for each kept string: three of its row, two links, the place of an entry and a root.
pub const STRING_WORDS: usize = 7;

// The small packer: the longest bundle, and its own words of work.
pub const SMALL_BUNDLE: usize = 1_024;

pub const SMALL_WORK: usize = 5_120;

pub const SMALL_OUTPUT: usize = 65_536;

// The most questions that one call answers.
pub const QUESTIONS_LIMIT: usize = 1_024;
