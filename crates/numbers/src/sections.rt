// The codes of an object's sections. Numbers, and no enum: arrays are indexed by them, and the words of bundles and of work hold them.
// Many contracts say `code < section_codes`, and no ghost field of a type does: a code indexes arrays of CODES cells, and callers count through them.
pub const INFO: usize = 1;

pub const TYPES: usize = 2;

pub const ABBREV: usize = 3;

pub const LINE: usize = 4;

pub const LOC: usize = 5;

pub const STR_OFFSETS: usize = 6;

pub const MACINFO: usize = 7;

pub const MACRO: usize = 8;

pub const LOCLISTS: usize = 9;

pub const RNGLISTS: usize = 10;

pub const STR: usize = 11;

pub const CU_INDEX: usize = 12;

pub const TU_INDEX: usize = 13;

// One more than the greatest code: the length of an array that is indexed by codes.
pub const CODES: usize = 14;

// The shared sections, of which a unit has a part, are the codes from abbrev to rnglists.
pub const FIRST_SHARED: usize = 3;

pub const LAST_SHARED: usize = 10;
