// Runs of attributes that take no bytes of a unit. A root may have very many of them, and other units may have the same root: a run is to be walked once,
// so that a unit takes no longer than its own bytes let it.
ghost use Rattle.std.specs.Prelude.{◌≡◌, true, Bool, [], ◌∷◌, ◌≤◌, length, take, IfSome};
ghost use Rattle.unit.specs.Runs.{Quiet};

// The form of a flag that is there without a value.
pub const FLAG_PRESENT: u64 = 0x19;

// The name of the attribute that states the identity.
pub const DWO_ID: u64 = 0x2131;

// The greatest name that has one byte.
const ONE_BYTE: u8 = 0x7F;

// Whether a name and a form of one byte each are a flag that is present. None of these is of
// the identity's name, which has two bytes.
#[tactic(auto, using(crate::proofs::Flags::pair_quiet))]
fn pair_passes(name: u8, form: u8) -> bool
    ensures { result ≡ true → (known : Bool) → Quiet known (name ∷ form ∷ []) }
{
    u64::from(form) == FLAG_PRESENT && name != 0 && name <= ONE_BYTE
}

// How many bytes of such pairs are at the front of t. A root may have very many of them, and two
// bytes are told faster than two numbers are read.
pub fn pairs_size(t: &[u8]) -> usize
    ensures { (result ≤ length t.now) × ((known : Bool) → Quiet known (take result t.now)) }
{
    let mut at = 0;
    while at + 1 < t.len() && pair_passes(t[at], t[at + 1]) {
        at += 2;
    }
    at
}

// The bytes of the attribute at the front of t, where it is a flag that is present and states nothing: one of the identity's name would be refused before
// the identity is known, and states nothing behind it.
#[tactic(auto, using(crate::proofs::Flags::flag_passes), unfolding(octets::specs::Checked::mapped))]
fn flag_at(t: &[u8], known: bool) -> Option<usize>
    ensures { IfSome result (λ size. (1 ≤ size) × (size ≤ length t.now) × Quiet known (take size t.now)) }
{
    if t.len() >= 2 && pair_passes(t[0], t[1]) {
        return Some(2);
    }
    let attribute = crate::abbreviations::attribute_at(t).ok()?;
    if attribute.form != FLAG_PRESENT {
        return None;
    }
    if !known && attribute.name == DWO_ID {
        return None;
    }
    Some(attribute.size)
}

// How many bytes of such flags are at the front of t. A loop, since each attribute says where the next starts: the `next` of an iterator of our own would
// hold the same step, with laws of its own.
pub fn run_size(t: &[u8], known: bool) -> usize
    ensures { (result ≤ length t.now) × Quiet known (take result t.now) }
{
    let mut at = 0;
    while let Some(size) = flag_at(&t[at..], known) {
        at += size;
    }
    at
}
