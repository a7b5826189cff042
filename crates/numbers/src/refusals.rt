// The numbers by which calls refuse, each with what it says.
ghost use Rattle.std.specs.Prelude.{◌≡◌};
ghost use Rattle.numbers.specs.Refused.{number_of};

#[derive(Clone, Copy, Debug, PartialEq, Eq)]
pub enum Refusal {
    // ---- packing
    // the length of the bundle
    BadLength = 1,
    // too few words of work
    WorkShort = 2,
    // the word format is broken
    BadWords = 3,
    // version, offset width or address size of an object
    BadEncoding = 4,
    // the object word differs from the first object's
    OtherEncoding = 5,
    // a section of the wrong edition, or a second one
    WrongEdition = 6,
    // no abbrev, no info, or str_offsets without str
    SectionMissing = 7,
    // str_offsets, or a part of it, ill-formed
    BadStrOffsets = 8,
    // an entry without a string
    NoString = 9,
    // an index ill-formed
    BadIndex = 10,
    // a unit's header
    BadHeader = 11,
    // a unit's identity can't be read
    NoIdentity = 12,
    // a unit's identity is 0
    IdentityZero = 13,
    // a compilation identity already seen
    IdentitySeen = 14,
    // no row for a unit, several, or a needed column missing
    NoRow = 15,
    // a part of a unit's row ends outside its section or cuts entries, or the row names another place
    BadRow = 16,
    // the output is too short; 17 is not used
    OutputShort = 18,
    // a section, or what is written, is too long
    SectionTooLong = 19,
    // ---- looking up
    // what is handed in is no package
    BadPackage = 21,
    // an index of another version than the one given
    OtherVersion = 22,
    // no such table, or no such section code
    BadQuestion = 23,
    // a part ends outside its section, or its section is missing
    PartOutside = 24,
    // no such entry
    NoEntry = 25,
    // no string there
    NoStringThere = 26,
    // ---- reading an ELF file
    // no such ELF file, or not all of it is there
    NotElf = 31,
    // a wanted section is compressed, relocated or not stored
    UnreadableSection = 32,
    // no unit in info that states the encoding
    NoUnit = 33,
    // ---- packing a package of version 5
    // parts of str_offsets end outside it, overlap, or leave a byte out
    BadParts = 34,
    // ---- the sheet
    // the page is too short
    PageShort = 35,
    // ---- writing an ELF file
    // another machine
    OtherMachine = 36,
    // the output is too short for the file
    FileShort = 37,
    // ---- many questions
    // no questions, too many, or too little room for their answers
    BadQuestions = 38,
}

impl Refusal {
    // The number that callers are told.
    pub fn number(self) -> u32
        ensures { result ≡ number_of self }
    {
        self as u32
    }
}
