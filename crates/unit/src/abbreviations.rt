// The abbreviation table at the front of lent bytes, read to its zero code. Every fault gives 12.
ghost use Rattle.std.specs.Prelude.{◌≡◌, true, Err, List, ℕ, ◌≤◌, ◌<◌, ◌^◌, length};
ghost use Rattle.octets.specs.Checked.{pass, mapped};
ghost use Rattle.numbers.specs.Refused.{told};
ghost use Rattle.numbers.specs.declared.refusals.Refusal.TheVariants.{NoIdentity};
ghost use Rattle.leb128.specs.Leb128.{unsigned};
ghost use Rattle.unit.specs.Abbreviations.{attribute_at};
ghost use Rattle.unit.specs.declared.abbreviations.Unheld.TheVariants.{Bad, Full};
ghost use Rattle.unit.specs.Tables.{
  attribute_is,
  attributes_size,
  place_at,
  place_is,
  declared_at,
  declared_is,
  Headed,
  Finds,
};
ghost use Rattle.unit.specs.TableTrees.{TableHeld, Judging, Judges};

use crate::tree::{CodeTree, NODE};
use numbers::refusals::Refusal;

// The form of version 5 whose value stands in the table.
const IMPLICIT_CONST: u64 = 0x21;

// A name, a form, and the bytes that they take. A name of 0 ends the attributes, as the format has it: its size is asked for too, so that an Option would be
// no plainer.
#[derive(Clone, Copy)]
pub struct Attribute {
    pub name: u64,
    pub form: u64,
    pub size: usize,
}

// What stands behind a declaration's code: the tag, where the attributes start, and where they end.
#[derive(Clone, Copy)]
struct Place {
    tag: u64,
    start: usize,
    end: usize,
}

// A declaration: its code, and what stands behind it, by places that count from the code on.
#[derive(Clone, Copy)]
struct Declaration {
    code: u64,
    place: Place,
}

// A declaration's tag, and where its attributes start. `Place` repeats both fields and does not hold a `Heading`: wherever a start is moved, two structs
// would have to be taken apart and put together.
#[derive(Clone, Copy)]
pub struct Heading {
    pub tag: u64,
    pub start: usize,
}

// How much a table takes: so many declarations, in so many bytes with the zero code that ends it. What stands behind them is never read.
#[derive(Clone, Copy)]
pub struct Extent {
    pub count: usize,
    pub size: usize,
}

// Why a table is not held: it is bad, or the words do not suffice.
#[derive(Clone, Copy)]
pub enum Unheld {
    Bad,
    Full,
}

impl From<Refusal> for Unheld {
    ghost from_gives = { λ _ e. e ≡ Bad };

    fn from(_r: Refusal) -> Unheld {
        Unheld::Bad
    }
}

impl From<Unheld> for Refusal {
    ghost from_gives = { λ _ e. e ≡ NoIdentity };

    fn from(_u: Unheld) -> Refusal {
        Refusal::NoIdentity
    }
}

// A name and a form, zero together; form 21 hexadecimal, `IMPLICIT_CONST`, is refused.
#[tactic(auto, using(crate::proofs::Attributes::attribute_cases, crate::proofs::Sizes::behind_number, crate::proofs::Sizes::short_most), unfolding(octets::specs::Checked::mapped))]
pub fn attribute_at(s: &[u8]) -> Result<Attribute, Refusal>
    ensures { mapped attribute_is (told result) ≡ attribute_at s.now }
{
    let (name, n) = leb128::read_short(s)?;
    let (form, m) = leb128::read_short(&s[n..])?;
    if (name == 0) != (form == 0) || form == IMPLICIT_CONST {
        return Err(Refusal::NoIdentity);
    }
    Ok(Attribute {
        name,
        form,
        size: n + m,
    })
}

// Whether the pair of zeros that ends attributes is in front.
#[tactic(auto, using(crate::proofs::Attributes::size_none, std::proofs::lemmas::Bool::Decides::nat_tests))]
fn has_none(s: &[u8]) -> bool
    ensures { result ≡ true → attributes_size s.now ≡ pass 2 }
{
    s.len() >= 2 && s[0] == 0 && s[1] == 0
}

// The bytes of a declaration's attributes, with the pair of zeros that ends them. A loop, since each attribute says where the next starts: the `next` of an
// iterator of our own would hold the same step, with laws of its own.
#[tactic(auto, using(crate::proofs::Attributes::walk_cases, crate::proofs::Sizes::rest), unfolding(octets::specs::Checked::mapped))]
fn walk_attributes(s: &[u8]) -> Result<usize, Refusal>
    ensures { told result ≡ attributes_size s.now }
{
    let mut at = 0;
    loop {
        let attribute = attribute_at(&s[at..])?;
        at += attribute.size;
        if attribute.name == 0 {
            return Ok(at);
        }
    }
}

// The same. Most declarations of a table made to take long have none, so that this is asked first.
fn attributes_size(s: &[u8]) -> Result<usize, Refusal>
    ensures { told result ≡ attributes_size s.now }
{
    if has_none(s) {
        Ok(2)
    } else {
        walk_attributes(s)
    }
}

#[tactic(auto, using(crate::proofs::Places::place_cases, crate::proofs::Sizes::behind_number, crate::proofs::Sizes::short_most), unfolding(octets::specs::Checked::mapped))]
fn place_at(s: &[u8]) -> Result<Place, Refusal>
    ensures { mapped place_is (told result) ≡ place_at s.now }
{
    let (tag, n) = leb128::read_short(s)?;
    if tag == 0 || s.len() <= n || s[n] > 1 {
        return Err(Refusal::NoIdentity);
    }
    let start = n + 1;
    let size = attributes_size(&s[start..])?;
    Ok(Place {
        tag,
        start,
        end: start + size,
    })
}

// The declaration at the front of s, or none where the zero code ends the table.
#[tactic(auto, using(crate::proofs::Places::declared_cases, crate::proofs::Sizes::behind_number), unfolding(octets::specs::Checked::mapped))]
fn declared_at(s: &[u8]) -> Result<Option<Declaration>, Refusal>
    ensures { mapped declared_is (told result) ≡ declared_at s.now }
{
    let (code, n) = leb128::read_unsigned(s)?;
    if code == 0 {
        return Ok(None);
    }
    let behind = place_at(&s[n..])?;
    let place = Place {
        start: n + behind.start,
        end: n + behind.end,
        ..behind
    };
    Ok(Some(Declaration { code, place }))
}

// The bytes of the code at the front of s. It may be padded, so that a zero code too may take more than one.
#[tactic(auto, using(crate::proofs::Judging::code_cases))]
fn code_size(s: &[u8]) -> usize
    ensures { (code n : ℕ) → unsigned s.now ≡ pass (code, n) → result ≡ n }
{
    match leb128::read_unsigned(s) {
        Ok((_, n)) => n,
        Err(_) => 0,
    }
}

// Goes on judging the table at the front of s from where its reading stands: codes hold where each
// of the declarations read so far stands, which begun counts with their bytes. Where the words do
// not suffice, begun says how far the reading came, so that it can go on in more words.
// A loop, since each declaration says where the next starts: the `next` of an iterator of our own
// would hold the same step, with laws of its own.
pub fn judge_on(s: &[u8], codes: &mut [u32], begun: &mut Extent) -> Result<Extent, Unheld>
    requires { (length s.now < 2 ^ 32) × Judging s.now codes.old begun.old.size begun.old.count }
    ensures table { Judges s.now codes.new result }
    ensures begun { result ≡ Err Full → Judging s.now codes.new begun.new.size begun.new.count }
{
    let mut at = begun.size;
    let mut count = begun.count;
    loop {
        let Some(declaration) = declared_at(&s[at..])? else {
            let size = at + code_size(&s[at..]);
            return Ok(Extent { count, size });
        };
        if codes.len() < NODE * count + NODE {
            *begun = Extent { count, size: at };
            return Err(Unheld::Full);
        }
        if !crate::tree::add_code(codes, count, at, declaration.code) {
            return Err(Unheld::Bad);
        }
        at += declaration.place.end;
        count += 1;
    }
}

// Judges the table at the front of s, which is good where a zero code ends it and no code repeats. It answers how many declarations the table has and how
// many bytes it takes, and then codes hold where each of them stands. A word for each byte suffices: a declaration takes at least five bytes, and a node five
// words. The bytes are read once, but for the code that ends them, and each declaration takes one walk in the tree.
#[tactic(auto, using(crate::proofs::Judging::judging_start))]
pub fn judge_table(s: &[u8], codes: &mut [u32]) -> Result<Extent, Unheld>
    requires { length s.now < 2 ^ 32 }
    ensures { Judges s.now codes.new result }
{
    let mut begun = Extent { count: 0, size: 0 };
    judge_on(s, codes, &mut begun)
}

// The tag of the declaration at the front of s, and where its attributes start behind the children byte. They were read as the table was judged,
// and may be very many, so that they are not read here.
#[tactic(auto, using(crate::proofs::Places::heading_cases, crate::proofs::Sizes::behind_number))]
fn heading_at(s: &[u8]) -> Option<Heading>
    ensures { Headed s.now result }
{
    let (_, n) = leb128::read_unsigned(s).ok()?;
    let (tag, m) = leb128::read_short(&s[n..]).ok()?;
    Some(Heading {
        tag,
        start: n + m + 1,
    })
}

// The declaration of a code, in a table that was judged.
#[tactic(auto, using(crate::proofs::Finding::found_inside))]
pub fn find_in(s: &[u8], codes: CodeTree<'_>, code: u64) -> Option<Heading>
    requires { TableHeld s.now codes.words.now codes.count }
    ensures { Finds s.now code result }
{
    let at = codes.find(code)?;
    let heading = heading_at(&s[at..])?;
    Some(Heading {
        start: at + heading.start,
        ..heading
    })
}
