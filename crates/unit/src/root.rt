// The root of a unit of version 4 in info: its attributes are walked to their end, and the first 2131 hexadecimal states the identity.
ghost use Rattle.std.specs.Prelude.{◌≡◌, ◌+◌, ◌-◌, ◌≤◌, length, take, drop};
ghost use Rattle.std.specs.Option.{is_some};
ghost use Rattle.std.proofs.Math.Option.{none};
ghost use Rattle.octets.specs.Checked.{mapped};
ghost use Rattle.bundle.specs.Encoded.{encoding_is};
ghost use Rattle.numbers.specs.Refused.{told};
ghost use Rattle.unit.specs.Root.{plain_value, value_of, identity_at, root_tag, root_identity};
ghost use Rattle.unit.specs.TableTrees.{span_bytes, TableHeld, Lies, Remembers, Lent};
ghost use Rattle.unit.specs.Roots.{
  value_is,
  seen_is,
  attribute_step,
  moved_is,
  identity_from,
  RootFound,
};
ghost use Rattle.unit.specs.Runs.{Quiet};

use crate::judged::{Judged, Span, WORTH};
use crate::runs::{DWO_ID, FLAG_PRESENT};
use crate::tree::{CodeTree, NODE};
use bundle::encoding::ObjectEncoding;
use numbers::refusals::Refusal;

// The form of a number of 8 bytes.
const DATA8: u64 = 0x07;

// The form of a value that has its real form in front.
const INDIRECT: u64 = 0x16;

// The tags of a root.
const COMPILE_UNIT_TAG: u64 = 0x11;

const TYPE_UNIT_TAG: u64 = 0x41;

// Attributes of so many bytes that take none of the unit are passed before a run is asked for, seven
// whose names have two: few enough that a unit is quick at hostile roots, and more than the roots of
// compilers have.
const NEAR: usize = 21;

// An attribute's value: its form, where it starts behind an indirect form, and the bytes that it takes.
#[derive(Clone, Copy)]
struct Value {
    form: u64,
    start: usize,
    size: usize,
}

// Past one attribute: its bytes in the table, those of its value, and what is stated then.
#[derive(Clone, Copy)]
struct Move {
    taken: usize,
    passed: usize,
    seen: Option<u64>,
}

// So far in a root's attributes: where those that are left lie in the bundle, where their values
// start in the unit, what is stated, and where the last attribute stands that takes bytes of the
// unit, if there is one, or else the first: it pays for those before it.
#[derive(Clone, Copy)]
struct Walk {
    left: Span,
    at: usize,
    seen: Option<u64>,
    paid: usize,
}

// Where a root's attributes start in its table, and their values in the unit.
#[derive(Clone, Copy)]
struct Root {
    attributes: usize,
    values: usize,
}

// Here and in forms.rt an encoding and bytes stay two parameters: each step cuts the bytes anew, so that a struct of both would be made at each. `Unit` of
// header.rt is that pair where it is kept.

// A value that ends in s, of a form that is not indirect.
#[tactic(auto, using(crate::proofs::Values::plain_cases), unfolding(octets::specs::Checked::mapped))]
fn plain_value(e: ObjectEncoding, form: u64, s: &[u8]) -> Result<Value, Refusal>
    ensures { mapped value_is (told result) ≡ plain_value (encoding_is e) form s.now }
{
    let width = crate::forms::width_of(form).ok_or(Refusal::NoIdentity)?;
    let size = crate::forms::value_size(e, width, s)?;
    Ok(Value {
        form,
        start: 0,
        size,
    })
}

// Indirect, 16 hexadecimal, only once.
#[tactic(auto, using(crate::proofs::Values::value_cases, crate::proofs::Sizes::behind_number), unfolding(octets::specs::Checked::mapped))]
fn value_of(e: ObjectEncoding, form: u64, s: &[u8]) -> Result<Value, Refusal>
    ensures { mapped value_is (told result) ≡ value_of (encoding_is e) form s.now }
{
    if form != INDIRECT {
        return plain_value(e, form, s);
    }
    let (real, n) = leb128::read_short(s)?;
    let value = plain_value(e, real, &s[n..])?;
    Ok(Value { start: n, ..value })
}

// A flag that is present takes no bytes. A root may have very many of them, so that they are answered first.
#[tactic(auto, using(crate::proofs::Values::value_flag), unfolding(octets::specs::Checked::mapped))]
fn attribute_value(e: ObjectEncoding, form: u64, s: &[u8]) -> Result<Value, Refusal>
    ensures { mapped value_is (told result) ≡ value_of (encoding_is e) form s.now }
{
    if form == FLAG_PRESENT {
        return Ok(Value {
            form,
            start: 0,
            size: 0,
        });
    }
    value_of(e, form, s)
}

// What is stated once an attribute is passed: only the first 2131 hexadecimal states it, and its form is data8.
#[tactic(auto, using(crate::proofs::Stepping::identity_cases), unfolding(octets::specs::Checked::mapped, bundle::specs::Encoded::encoding_is))]
fn identity_at(
    e: ObjectEncoding,
    name: u64,
    value: Value,
    s: &[u8],
    seen: Option<u64>,
) -> Result<Option<u64>, Refusal>
    requires { value.form ≡ 7 → value.start + 8 ≤ length s.now }
    ensures { mapped seen_is (told result) ≡ identity_at (encoding_is e) name (value_is value) s.now (seen_is seen) }
{
    match seen {
        Some(x) => Ok(Some(x)),
        None if name != DWO_ID => Ok(None),
        None if value.form != DATA8 => Err(Refusal::NoIdentity),
        None => Ok(Some(octets::u64_at(e.big, s, value.start))),
    }
}

// One attribute: t is the table from it on, and s the unit from its value on. None at the pair of zeros that ends attributes.
#[tactic(auto, using(crate::proofs::Stepping::step_cases, crate::proofs::Values::value_ends, crate::proofs::Values::value_eight), unfolding(octets::specs::Checked::mapped))]
fn attribute_step(
    e: ObjectEncoding,
    t: &[u8],
    s: &[u8],
    seen: Option<u64>,
) -> Result<Option<Move>, Refusal>
    ensures { mapped moved_is (told result) ≡ attribute_step (encoding_is e) t.now s.now (seen_is seen) }
{
    let attribute = crate::abbreviations::attribute_at(t)?;
    if attribute.name == 0 {
        return Ok(None);
    }
    let value = attribute_value(e, attribute.form, s)?;
    let next = identity_at(e, attribute.name, value, s, seen)?;
    Ok(Some(Move {
        taken: attribute.size,
        passed: value.start + value.size,
        seen: next,
    }))
}

// How many bytes at the front of what is left are passed at once: flags that are present, which take
// no bytes of the unit. Those whose name has one byte are passed by pairs of bytes. Where they go on
// for as many as are worth it, or a few attributes have taken no bytes of the unit, the directory is
// asked for a run. The attribute behind that is none of them. So a unit takes no more steps than some
// seventy for each of its bytes, and as many pairs, however many attributes its root has: 8 for
// attributes, and up to 63 for a run that is too short to be noted. Only the units of a table that
// was judged alone walk each run anew, since the directory's words are that table's; a bundle that
// has such a table is short.
#[tactic(auto, using(crate::proofs::AttributeWalk::pairs_pass))]
fn run_behind(walk: Walk, b: &[u8], codes: &mut [u32], judged: &mut Judged) -> usize
    requires { Lies b.now walk.left × Lent b.now codes.old judged.old × (walk.paid ≤ walk.left.at) }
    ensures run { (result ≤ walk.left.end - walk.left.at) × Quiet (is_some walk.seen) (take result (drop walk.left.at b.now)) }
    ensures memory { Lent b.now codes.new judged.new }
{
    if walk.left.at - walk.paid < NEAR {
        let near = walk.left.end.min(walk.left.at + WORTH);
        let pairs = crate::runs::pairs_size(&b[walk.left.at..near]);
        if pairs < WORTH {
            return pairs;
        }
    }
    judged.pass_run(b, walk.left, walk.seen.is_some(), codes)
}

// Where the last attribute stands that takes bytes of the unit, past one that stands at start.
fn paid_at(walk: Walk, start: usize, passed: usize) -> usize
    requires { walk.paid ≤ start }
    ensures { result ≤ start }
{
    if passed == 0 { walk.paid } else { start }
}

// The identity that the attributes at a place of the bundle state, whose values stand at the front of s. A loop, since each attribute says where the next
// starts: the `next` of an iterator of our own would hold the same step, with laws of its own.
fn identity_in(
    e: ObjectEncoding,
    b: &[u8],
    place: Span,
    s: &[u8],
    codes: &mut [u32],
    judged: &mut Judged,
) -> Result<u64, Refusal>
    requires { Lies b.now place × Lent b.now codes.old judged.old }
    ensures is { told result ≡ identity_from (encoding_is e) (span_bytes b.now place) s.now none }
    ensures memory { Remembers b.now codes.new judged.new }
{
    let mut walk = Walk {
        left: place,
        at: 0,
        seen: None,
        paid: place.at,
    };
    loop {
        let run = run_behind(walk, b, codes, judged);
        let start = walk.left.at + run;
        let t = &b[start..walk.left.end];
        let Some(step) = attribute_step(e, t, &s[walk.at..], walk.seen)? else {
            return walk.seen.ok_or(Refusal::NoIdentity);
        };
        walk = Walk {
            left: Span {
                at: start + step.taken,
                ..walk.left
            },
            at: walk.at + step.passed,
            seen: step.seen,
            paid: paid_at(walk, start, step.passed),
        };
    }
}

// A compile or a type unit's tag.
#[tactic(auto, using(std::proofs::lemmas::Bool::Decides::nat_tests), unfolding(crate::specs::Root::root_tag))]
fn root_tag(tag: u64) -> bool
    ensures { result ≡ root_tag tag }
{
    tag == COMPILE_UNIT_TAG || tag == TYPE_UNIT_TAG
}

// In a table that was judged, whose declarations codes hold. s is the unit behind its header.
#[tactic(auto, using(crate::proofs::Sizes::behind_number))]
fn root_in(table: &[u8], codes: CodeTree<'_>, s: &[u8]) -> Result<Root, Refusal>
    requires { TableHeld table.now codes.words.now codes.count }
    ensures { RootFound table.now s.now result }
{
    let (code, values) = leb128::read_unsigned(s)?;
    let Some(root) = crate::abbreviations::find_in(table, codes, code) else {
        return Err(Refusal::NoIdentity);
    };
    if !root_tag(root.tag) {
        return Err(Refusal::NoIdentity);
    }
    Ok(Root {
        attributes: root.start,
        values,
    })
}

// The table stands at the front of a place of the bundle, which is abbrev from the header's offset on. s is the unit behind its header.
#[tactic(auto, using(crate::proofs::Rooted::root_table, crate::proofs::Recalling::known_cases))]
pub fn root_identity(
    e: ObjectEncoding,
    b: &[u8],
    place: Span,
    s: &[u8],
    codes: &mut [u32],
    judged: &mut Judged,
) -> Result<u64, Refusal>
    requires { Lies b.now place × Lent b.now codes.old judged.old }
    ensures is { told result ≡ root_identity (encoding_is e) (span_bytes b.now place) s.now }
    ensures memory { Remembers b.now codes.new judged.new }
{
    let table = judged.recall(b, place, codes)?;
    let to = table.from + NODE * table.count;
    let declarations = CodeTree {
        words: &codes[table.from..to],
        count: table.count,
    };
    let own = table.place;
    let root = root_in(&b[own.at..own.end], declarations, s)?;
    let attributes = Span {
        at: own.at + root.attributes,
        end: own.end,
    };
    identity_in(e, b, attributes, &s[root.values..], codes, judged)
}
