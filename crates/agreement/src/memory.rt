// What was compared already. Units share the parts of their object, so each part is compared once, however many units have it.
ghost use Rattle.std.specs.Prelude.{◌≡◌, ◌⊎◌, ◌+◌, ◌*◌, ◌<◌, IsTrue, IfSome, length, set, slice_index};

use strings::table::Place;

// The first of the two words for a place, where there are both.
fn words_of(memory: &[u32], place: Place) -> Option<usize>
    ensures { IfSome result (λ at. (at ≡ 2 * place.start) × (at + 1 < length memory.now)) }
{
    let at = place.start.checked_mul(2)?;
    if at < memory.len() && at + 1 < memory.len() {
        Some(at)
    } else {
        None
    }
}

// Whether p's part at `a` was compared with q's part at `b`, and was the same.
pub fn is_known(memory: &[u32], a: Place, b: Place) -> bool
    ensures { IsTrue result → (a.size ≡ b.size) × (slice_index memory.now (2 * b.start) ≡ a.start + 1) × (slice_index memory.now (2 * b.start + 1) ≡ b.size) }
{
    let Some(at) = words_of(memory, b) else {
        return false;
    };
    memory[at] != 0
        && memory[at] as usize - 1 == a.start
        && memory[at + 1] as usize == b.size
        && a.size == b.size
}

// Remembers it, in place of what was remembered of q's part; or nothing, where there is no room for it.
pub fn remember(memory: &mut [u32], a: Place, b: Place)
    ensures { (memory.new ≡ memory.old) ⊎ ((2 * b.start + 1 < length memory.old) × (memory.new ≡ set (set memory.old (2 * b.start) (a.start + 1)) (2 * b.start + 1) b.size)) }
{
    let Some(at) = words_of(memory, b) else {
        return;
    };
    let Ok(start) = u32::try_from(a.start) else {
        return;
    };
    let Ok(size) = u32::try_from(b.size) else {
        return;
    };
    if start == u32::MAX {
        return;
    }
    memory[at] = start + 1;
    memory[at + 1] = size;
}
