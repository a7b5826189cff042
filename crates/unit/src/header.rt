// The header of a unit, and the unit read whole.
ghost use Rattle.std.specs.Prelude.{◌≡◌, ◌+◌, ◌≤◌, length};
ghost use Rattle.octets.specs.Checked.{mapped};
ghost use Rattle.bundle.specs.Encoded.{encoding_is};
ghost use Rattle.numbers.specs.Refused.{told};
ghost use Rattle.bundle.specs.InitialLength.{length_stated};
ghost use Rattle.unit.specs.UnitRead.{length_good, unit_of, address_place, common_size};
ghost use Rattle.unit.specs.Headers.{
  unit_inside,
  common_good,
  fields_good,
  five_kind,
  kind_of,
  header_size,
  signature_at,
  head_of,
  root_stated,
  identity_is,
  identity_by,
  identity_good,
  unit_is,
  address_of,
};
ghost use Rattle.unit.specs.TableTrees.{
  Remembers,
  Lent,
  unit_bytes,
  abbreviations_bytes,
  Inside,
};

use crate::judged::{Judged, Span};
use bundle::encoding::ObjectEncoding;
use bundle::initial_length;
use numbers::refusals::Refusal;
use numbers::tables::{SKELETON_UNIT, SPLIT_TYPE_UNIT, SPLIT_UNIT, TYPE_UNIT, Table};

// The least number of 4 bytes that is no length.
const FIRST_RESERVED: u64 = 0xFFFF_FFF0;

// The code of info, as a unit's home has it. A home is only compared with it, and stays a number of 32 bits: a narrower type would ask more of callers.
const INFO: u32 = numbers::sections::INFO as u32;

// Where a unit's identity stands.
#[derive(Clone, Copy)]
pub enum Kind {
    // behind the common fields: a compilation identity, or a type signature and a type offset
    Compilation,
    Signature,
    // among the root's attributes
    Root,
    Other,
}

// The table that a unit is handed in for, and its identity.
#[derive(Clone, Copy)]
pub struct Identity {
    pub table: Table,
    pub identity: u64,
}

// Where a unit lies in the bundle, and where the abbreviations that it is read with.
#[derive(Clone, Copy)]
pub struct UnitPlace {
    pub at: usize,
    pub size: usize,
    pub abbreviations: Span,
}

// A unit's size, and what it is handed in for.
#[derive(Clone, Copy)]
pub struct UnitRead {
    pub size: usize,
    pub handed_in: Identity,
}

// The bytes of a unit, or of its section from the unit on, with the object's encoding.
#[derive(Clone, Copy)]
struct Unit<'a> {
    e: ObjectEncoding,
    bytes: &'a [u8],
}

#[tactic(auto, unfolding(crate::specs::Headers::five_kind))]
fn five_kind(unit_type: u8) -> Kind
    ensures { result ≡ five_kind unit_type }
{
    match unit_type {
        SKELETON_UNIT | SPLIT_UNIT => Kind::Compilation,
        TYPE_UNIT | SPLIT_TYPE_UNIT => Kind::Signature,
        _ => Kind::Other,
    }
}

impl<'a> Unit<'a> {
    #[tactic(auto, using(crate::proofs::Fields::five_or_four, crate::proofs::Fields::width_le, bundle::proofs::InitialLengths::field_most))]
    fn address_place(self) -> usize
        ensures { result ≡ address_place (encoding_is self.entry.e) }
    {
        let field = self.e.field_size();
        if self.e.five {
            field + 3
        } else {
            field + 2 + self.e.width()
        }
    }

    // The header fields that all types have.
    #[tactic(auto, using(crate::proofs::Fields::five_or_four, crate::proofs::Fields::width_le, bundle::proofs::InitialLengths::field_most))]
    fn common_size(self) -> usize
        ensures { result ≡ common_size (encoding_is self.entry.e) }
    {
        let fields = if self.e.five { 4 } else { 3 };
        self.e.field_size() + fields + self.e.width()
    }

    // Whether the length field starts as the width wants it. `stated` is the number that the field states.
    #[tactic(auto, using(crate::proofs::Fields::length_cases), unfolding(bundle::specs::Encoded::encoding_is))]
    fn length_good(self, stated: u64) -> bool
        requires { stated ≡ length_stated (encoding_is self.e) self.bytes.now }
        ensures { result ≡ length_good (encoding_is self.entry.e) self.entry.bytes.now }
    {
        if self.e.wide {
            initial_length::is_marked(self.e.big, self.bytes)
        } else {
            stated < FIRST_RESERVED
        }
    }

    // The size of a unit that ends in the bytes.
    #[tactic(auto, using(crate::proofs::Fields::inside_cases))]
    fn size(self) -> Result<usize, Refusal>
        ensures { told result ≡ unit_inside (encoding_is self.entry.e) self.entry.bytes.now }
    {
        let field = self.e.field_size();
        if self.bytes.len() < field {
            return Err(Refusal::BadHeader);
        }
        let stated = self.e.stated_length(self.bytes);
        if !self.length_good(stated) {
            return Err(Refusal::BadHeader);
        }
        let rest = stated as usize;
        if self.bytes.len() - field < rest {
            return Err(Refusal::BadHeader);
        }
        Ok(field + rest)
    }

    // The common fields are there, and the version is the object's.
    #[tactic(auto, using(crate::proofs::HeaderAlone::fields_cases))]
    fn fields_good(self) -> bool
        ensures { result ≡ fields_good (encoding_is self.entry.e) self.entry.bytes.now }
    {
        if self.bytes.len() < self.common_size() {
            return false;
        }
        let version = octets::u16_at(self.e.big, self.bytes, self.e.field_size());
        u32::from(version) == self.e.version()
    }

    // And the address size is the object's too.
    #[tactic(auto, using(crate::proofs::HeaderAlone::common_cases))]
    fn common_good(self) -> bool
        ensures { result ≡ common_good (encoding_is self.entry.e) self.entry.bytes.now }
    {
        self.fields_good() && self.bytes[self.address_place()] as usize == self.e.address()
    }

    // Home is the code of the unit's section. The common fields are there: `unit_head` has tested it.
    #[tactic(auto, using(crate::proofs::Fields::kind_cases, crate::proofs::Fields::common_ge, bundle::proofs::InitialLengths::field_most))]
    fn kind(self, home: u32) -> Kind
        requires { common_size (encoding_is self.e) ≤ length self.bytes.now }
        ensures { result ≡ kind_of (encoding_is self.entry.e) home self.entry.bytes.now }
    {
        if self.e.five {
            five_kind(self.bytes[self.e.field_size() + 2])
        } else if home == INFO {
            Kind::Root
        } else {
            Kind::Signature
        }
    }

    #[tactic(auto, using(crate::proofs::Fields::width_le, crate::proofs::Fields::common_le, bundle::proofs::InitialLengths::field_most), unfolding(crate::specs::Headers::header_size))]
    fn header_size(self, kind: Kind) -> usize
        ensures { result ≡ header_size (encoding_is self.entry.e) kind }
    {
        let common = self.common_size();
        match kind {
            Kind::Compilation => common + 8,
            Kind::Signature => common + (8 + self.e.width()),
            Kind::Root | Kind::Other => common,
        }
    }

    // The number of 8 bytes behind the common fields. Its kind's header is there.
    #[tactic(auto, unfolding(crate::specs::Headers::signature_at, bundle::specs::Encoded::encoding_is))]
    fn signature(self) -> u64
        requires { common_size (encoding_is self.e) + 8 ≤ length self.bytes.now }
        ensures { result ≡ signature_at (encoding_is self.entry.e) self.entry.bytes.now }
    {
        octets::u64_at(self.e.big, self.bytes, self.common_size())
    }

    // What the root states. The common fields are there.
    #[tactic(auto, using(crate::proofs::Cuts::table_parts, crate::proofs::Fields::field_sizes, bundle::proofs::InitialLengths::field_most), unfolding(crate::specs::Headers::table_at))]
    fn root_stated(
        self,
        b: &[u8],
        place: UnitPlace,
        codes: &mut [u32],
        judged: &mut Judged,
    ) -> Result<u64, Refusal>
        requires { (common_size (encoding_is self.e) ≤ length self.bytes.now) × Inside b.now place × Lent b.now codes.old judged.old }
        ensures is { told result ≡ root_stated (encoding_is self.entry.e) (abbreviations_bytes b.now place) self.entry.bytes.now }
        ensures memory { Remembers b.now codes.new judged.new }
    {
        let field = self.e.field_size() + 2;
        let offset = octets::number_at(self.e.big, self.e.width(), self.bytes, field) as usize;
        let Span { at, end } = place.abbreviations;
        if end - at < offset {
            return Err(Refusal::NoIdentity);
        }
        let table = Span {
            at: at + offset,
            end,
        };
        let common = self.common_size();
        crate::root::root_identity(self.e, b, table, &self.bytes[common..], codes, judged)
    }

    // The identity, of a unit whose kind's header is there. A unit with a root is handed in for the compilation table; whatever keeps its identity from being
    // read gives 12.
    #[tactic(auto, using(octets::proofs::Checks::then_pass, octets::proofs::Checks::then_refuse, crate::proofs::Rooted::root_refused), unfolding(crate::specs::Headers::identity_by, crate::specs::Headers::header_size, octets::specs::Checked::mapped))]
    fn identity(
        self,
        kind: Kind,
        b: &[u8],
        place: UnitPlace,
        codes: &mut [u32],
        judged: &mut Judged,
    ) -> Result<Identity, Refusal>
        requires { (header_size (encoding_is self.e) kind ≤ length self.bytes.now) × Inside b.now place × Lent b.now codes.old judged.old }
        ensures is { mapped identity_is (told result) ≡ identity_by (encoding_is self.entry.e) kind (abbreviations_bytes b.now place) self.entry.bytes.now }
        ensures memory { Remembers b.now codes.new judged.new }
    {
        match kind {
            Kind::Compilation => Ok(Identity {
                table: Table::Compilation,
                identity: self.signature(),
            }),
            Kind::Signature => Ok(Identity {
                table: Table::Type,
                identity: self.signature(),
            }),
            Kind::Root => {
                let Ok(identity) = self.root_stated(b, place, codes, judged) else {
                    return Err(Refusal::NoIdentity);
                };
                Ok(Identity {
                    table: Table::Compilation,
                    identity,
                })
            }
            Kind::Other => Err(Refusal::NoIdentity),
        }
    }
}

// The size of the unit at the front of s, whose common fields are good.
#[tactic(auto, using(crate::proofs::Heads::head_cases))]
pub fn unit_head(e: ObjectEncoding, s: &[u8]) -> Result<usize, Refusal>
    ensures { told result ≡ head_of (encoding_is e) s.now }
{
    let size = Unit { e, bytes: s }.size()?;
    let unit = Unit {
        e,
        bytes: &s[..size],
    };
    if unit.common_good() {
        Ok(size)
    } else {
        Err(Refusal::BadHeader)
    }
}

// The identity of a unit whose head was read, and the table that it is handed in for. Home is the code of its section. An identity of 0 is refused.
// Bundle, words and `Judged` stay three parameters: the words are lent for one call out of a larger slice, and put in a struct with the others they would
// come back with nothing known of what was written, as strings/src/table.rt says of its table.
#[tactic(auto, using(crate::proofs::Cuts::answer_cases), unfolding(octets::specs::Checked::mapped))]
pub fn unit_identity(
    e: ObjectEncoding,
    home: u32,
    b: &[u8],
    place: UnitPlace,
    codes: &mut [u32],
    judged: &mut Judged,
) -> Result<Identity, Refusal>
    requires { (common_size (encoding_is e) ≤ place.size) × Inside b.now place × Lent b.now codes.old judged.old }
    ensures is { mapped identity_is (told result) ≡ identity_good (encoding_is e) home (abbreviations_bytes b.now place) (unit_bytes b.now place) }
    ensures memory { Remembers b.now codes.new judged.new }
{
    let unit = Unit {
        e,
        bytes: &b[place.at..place.at + place.size],
    };
    let kind = unit.kind(home);
    if place.size < unit.header_size(kind) {
        return Err(Refusal::BadHeader);
    }
    let identity = unit.identity(kind, b, place, codes, judged)?;
    if identity.identity == 0 {
        return Err(Refusal::IdentityZero);
    }
    Ok(identity)
}

// A whole unit, whose section goes on to the end of the place's bytes.
#[tactic(auto, using(crate::proofs::Cuts::unit_cases), unfolding(octets::specs::Checked::mapped))]
pub fn read_unit(
    e: ObjectEncoding,
    home: u32,
    b: &[u8],
    place: UnitPlace,
    codes: &mut [u32],
    judged: &mut Judged,
) -> Result<UnitRead, Refusal>
    requires { Inside b.now place × Lent b.now codes.old judged.old }
    ensures is { mapped unit_is (told result) ≡ unit_of (encoding_is e) home (abbreviations_bytes b.now place) (unit_bytes b.now place) }
    ensures memory { Remembers b.now codes.new judged.new }
{
    let size = unit_head(e, &b[place.at..place.at + place.size])?;
    let own = UnitPlace { size, ..place };
    let handed_in = unit_identity(e, home, b, own, codes, judged)?;
    Ok(UnitRead { size, handed_in })
}

// The address size that the header of a unit in info states, whatever it is, where the header passes 11 otherwise. Of e it takes the byte order,
// the version and the width.
#[tactic(auto, using(crate::proofs::HeaderAlone::alone_cases, crate::proofs::Heads::own_length, crate::proofs::Fields::place_lt))]
pub fn stated_address(e: ObjectEncoding, s: &[u8]) -> Result<u8, Refusal>
    ensures { told result ≡ address_of (encoding_is e) s.now }
{
    let size = Unit { e, bytes: s }.size()?;
    let unit = Unit {
        e,
        bytes: &s[..size],
    };
    if !unit.fields_good() || size < unit.header_size(unit.kind(INFO)) {
        return Err(Refusal::BadHeader);
    }
    Ok(unit.bytes[unit.address_place()])
}
