// The index beside the kept strings: trees of rows. A hash of all bytes of a string picks the root where its search starts. From a row that is another
// string's one of two links leads on, and the string's own bits say which: no string needs more steps than it has bits, and eight more, whatever
// strings are chosen.
ghost use Rattle.std.specs.Prelude.{◌≡◌, List, ℕ, ◌+◌, ◌*◌, ◌≤◌, ◌<◌, ◌^◌, length};
ghost use Rattle.octets.specs.Lists.{same};
ghost use Rattle.strings.specs.Indexed.{
  mixed,
  hash_of,
  root_of,
  side,
  link_of,
  SoughtIs,
};
ghost use Rattle.strings.specs.Kept.{bytes_at, Inside, row_place, Held, Seekable};

use crate::table::{LINK_WORDS, Place, ROOTS_FROM, ROW_WORDS, row_place};
use numbers::limits::STRING_WORDS;

// Two primes below 2 to the power 30, so that the sum of products stays within 64 bits.
const LOW: u64 = 798_746_317;

const HIGH: u64 = 982_451_653;

const HALF: u64 = 0x1_0000_0000;

// Eight bytes more.
#[tactic(auto, unfolding(crate::specs::Indexed::mixed, crate::specs::Indexed::product))]
fn mixed(h: u64, w: u64) -> u64
    requires { h < 2 ^ 32 }
    ensures { result ≡ mixed h w }
{
    let x = (h + w % HALF) * LOW + w / HALF * HIGH;
    (x / HALF + x) % HALF
}

// So many bytes as one number, fewer than eight.
#[tactic(auto, using(crate::proofs::Hashing::hash_short))]
fn short_hash(s: &[u8]) -> u64
    requires { length s.now < 8 }
    ensures { result ≡ hash_of s.now }
{
    mixed(0, octets::number_at(false, s.len(), s, 0))
}

// Eight bytes or more, in groups of eight: the last group ends where the string does.
#[tactic(auto, using(crate::proofs::Hashing::long_turns))]
fn long_hash(s: &[u8]) -> u64
    requires { 8 ≤ length s.now }
    ensures { result ≡ hash_of s.now }
{
    let last = s.len() - 8;
    let mut h: u64 = 0;
    for at in (0..last).step_by(8) {
        h = mixed(h, octets::u64_at(false, s, at));
    }
    mixed(h, octets::u64_at(false, s, last))
}

fn hash_of(s: &[u8]) -> u64
    ensures { result ≡ hash_of s.now }
{
    if s.len() < 8 {
        short_hash(s)
    } else {
        long_hash(s)
    }
}

// Where the search for a string starts, in a region with room for so many rows.
#[tactic(auto, using(crate::proofs::Hashing::hash_lt), unfolding(crate::specs::Indexed::root_of))]
fn root_of(room: usize, s: &[u8]) -> usize
    requires { room < 2 ^ 31 }
    ensures { result ≡ root_of room s.now }
{
    let h = hash_of(s);
    ROOTS_FROM * room + (h * room as u64 / HALF) as usize
}

// The side on which the search for a string goes on after so many steps.
#[tactic(auto, using(crate::proofs::Hashing::side_behind, crate::proofs::Hashing::side_is))]
fn side(s: &[u8], step: usize) -> usize
    ensures { result ≡ side s.now step }
{
    match s.get(step / 8) {
        Some(byte) => (*byte >> (step % 8)) as usize % 2,
        None => 0,
    }
}

// The link of the row with a number, on a side.
#[tactic(auto, unfolding(crate::specs::Indexed::link_of))]
fn link_of(room: usize, number: usize, on: usize) -> usize
    requires { (room < 2 ^ 31) × (1 ≤ number) × (number < 2 ^ 32) × (on < 2) }
    ensures { result ≡ link_of room number on }
{
    ROW_WORDS * room + LINK_WORDS * (number - 1) + on
}

// Whether row i is a string. Lengths are compared before bytes.
#[tactic(auto, using(crate::proofs::Holding::other_row))]
fn row_same(b: &[u8], table: &[u32], i: usize, s: &[u8]) -> bool
    requires { (3 * i + 3 ≤ length table.now) × Inside b.now (row_place table.now i) }
    ensures { result ≡ same s.now (bytes_at b.now (row_place table.now i)) }
{
    let row = row_place(table, i);
    row.size == s.len() && octets::same_bytes(s, row.of(b))
}

// Seeks a string of the bundle through the index of count rows: its row, or else the free word where its number would stand. The caller has room for a row more.
#[tactic(auto, using(crate::proofs::Holding::root_inside))]
pub fn seek_string(b: &[u8], table: &[u32], count: usize, at: Place) -> Result<usize, usize>
    requires { Seekable b.now at table.now × ((ts : List (List ℕ)) × Held b.now table.now count ts) }
    ensures { (ts : List (List ℕ)) → Held b.now table.now count ts → SoughtIs table.now count ts (bytes_at b.now at) result }
{
    let s = at.of(b);
    let room = table.len() / STRING_WORDS;
    let mut word = root_of(room, s);
    let mut number = table[word] as usize;
    let mut step = 0;
    // By links: each string that is met says where the next one is, and each step has a bit of its own.
    // A root or link of 0 leads nowhere: the work area has words, and an Option takes more than one.
    while number != 0 {
        if row_same(b, table, number - 1, s) {
            return Ok(number - 1);
        }
        word = link_of(room, number, side(s, step));
        number = table[word] as usize;
        step += 1;
    }
    Err(word)
}
