// Numbers of any width in lent bytes, in either byte order; bytes copied and compared.
#![tactic(auto)]

ghost use Rattle.std.specs.Prelude.{◌≡◌, false, List, [], ◌∷◌, ℕ, ◌+◌, ◌*◌, ◌/◌, ◌%◌, ◌≤◌, ◌<◌, ◌^◌, length, nat_eq};
ghost use Rattle.octets.specs.Octets.{
  part,
  little,
  big_from,
  number_at,
  little_of,
  big_of,
  bytes_of,
  numbers_of,
  placed,
  zero_marks,
};
ghost use Rattle.octets.specs.Lists.{all, same, ZeroFound};

// One more than the greatest number of four bytes.
const WORD: u64 = 0x1_0000_0000;

// Bytes that are read at once.
const EIGHT: usize = 8;

// The bits of a byte, and the low seven of each of eight bytes.
const BITS: u32 = 8;

const LOW_BITS: u64 = 0x7F7F_7F7F_7F7F_7F7F;

// ---- numbers of two, four and eight bytes
pub trait Number {
    ghost width: { ℕ };

    ghost value: { Self → ℕ };

    // The number at a place. Callers have tested that its bytes are there.
    fn read(big_endian: bool, s: &[u8], at: usize) -> Self
        requires { at + width ≤ length s.now }
        ensures { value result ≡ number_at big_endian width s.now at };

    // Stores the number at a place. Callers have tested that there is room.
    fn put(self, big_endian: bool, d: &mut [u8], at: usize)
        requires { at + width ≤ length d.old }
        ensures { d.new ≡ placed d.old at (bytes_of big_endian width (value self)) };
}

// The N bytes at a place.
fn bytes_at<const N: usize>(s: &[u8], at: usize) -> [u8; N]
    requires { at + N ≤ length s.now }
    ensures { result ≡ part s.now at N }
{
    let mut bytes = [0; N];
    bytes.copy_from_slice(&s[at..at + N]);
    bytes
}

impl Number for u16 {
    ghost width = { 2 };

    ghost value = { λ n. n };

    fn read(big_endian: bool, s: &[u8], at: usize) -> u16 {
        let bytes = bytes_at(s, at);
        if big_endian {
            u16::from_be_bytes(bytes)
        } else {
            u16::from_le_bytes(bytes)
        }
    }

    fn put(self, big_endian: bool, d: &mut [u8], at: usize) {
        if big_endian {
            put_bytes(d, at, &u16::to_be_bytes(self));
        } else {
            put_bytes(d, at, &u16::to_le_bytes(self));
        }
    }
}

impl Number for u32 {
    ghost width = { 4 };

    ghost value = { λ n. n };

    fn read(big_endian: bool, s: &[u8], at: usize) -> u32 {
        let bytes = bytes_at(s, at);
        if big_endian {
            u32::from_be_bytes(bytes)
        } else {
            u32::from_le_bytes(bytes)
        }
    }

    fn put(self, big_endian: bool, d: &mut [u8], at: usize) {
        if big_endian {
            put_bytes(d, at, &u32::to_be_bytes(self));
        } else {
            put_bytes(d, at, &u32::to_le_bytes(self));
        }
    }
}

impl Number for u64 {
    ghost width = { 8 };

    ghost value = { λ n. n };

    fn read(big_endian: bool, s: &[u8], at: usize) -> u64 {
        let bytes = bytes_at(s, at);
        if big_endian {
            u64::from_be_bytes(bytes)
        } else {
            u64::from_le_bytes(bytes)
        }
    }

    fn put(self, big_endian: bool, d: &mut [u8], at: usize) {
        if big_endian {
            put_bytes(d, at, &u64::to_be_bytes(self));
        } else {
            put_bytes(d, at, &u64::to_le_bytes(self));
        }
    }
}

// ---- numbers read
// One byte more, behind those that n states.
fn shifted(n: u64, b: u8) -> u64
    requires { n * 256 + b < 2 ^ 64 }
    ensures { result ≡ n * 256 + b }
{
    n * 256 + b as u64
}

// The number that a part states, greatest byte first.
fn big(s: &[u8]) -> u64
    requires { length s.now ≤ 8 }
    ensures { result ≡ big_from 0 s.now }
{
    let mut n = 0;
    for b in s {
        n = shifted(n, *b);
    }
    n
}

// The number that a part states, least byte first.
fn little(s: &[u8]) -> u64
    requires { length s.now ≤ 8 }
    ensures { result ≡ little s.now }
{
    let mut n = 0;
    for b in s.iter().rev() {
        n = shifted(n, *b);
    }
    n
}

// The number in the w bytes at a place. Callers have tested that the bytes are there. Most numbers take 4 or 8.
pub fn number_at(big_endian: bool, w: usize, s: &[u8], at: usize) -> u64
    requires { (w ≤ 8) × (at + w ≤ length s.now) }
    ensures { result ≡ number_at big_endian w s.now at }
{
    match w {
        4 => u64::from(u32::read(big_endian, s, at)),
        8 => u64::read(big_endian, s, at),
        _ if big_endian => big(&s[at..at + w]),
        _ => little(&s[at..at + w]),
    }
}

// The public names, one line each over the trait, which callers of readers and stores in nine crates cite, and their proofs: `u32::read(..)` in their place says the same in no fewer words.
pub fn u16_at(big_endian: bool, s: &[u8], at: usize) -> u16
    requires { at + 2 ≤ length s.now }
    ensures { result ≡ number_at big_endian 2 s.now at }
{
    u16::read(big_endian, s, at)
}

pub fn u32_at(big_endian: bool, s: &[u8], at: usize) -> u32
    requires { at + 4 ≤ length s.now }
    ensures { result ≡ number_at big_endian 4 s.now at }
{
    u32::read(big_endian, s, at)
}

pub fn u64_at(big_endian: bool, s: &[u8], at: usize) -> u64
    requires { at + 8 ≤ length s.now }
    ensures { result ≡ number_at big_endian 8 s.now at }
{
    u64::read(big_endian, s, at)
}

// A word of a bundle, which is little-endian whatever the bundle's byte order.
pub fn word_at(s: &[u8], at: usize) -> u32
    requires { at + 4 ≤ length s.now }
    ensures { result ≡ number_at false 4 s.now at }
{
    u32_at(false, s, at)
}

// ---- numbers stored
// The lowest byte of n.
fn low(n: u64) -> u8
    ensures { result ≡ n % 256 }
{
    (n % 256) as u8
}

// Stores the low w bytes of n, least byte first.
fn put_little(w: usize, n: u64, d: &mut [u8], at: usize)
    requires { at + w ≤ length d.old }
    ensures { d.new ≡ placed d.old at (little_of w n) }
{
    let mut m = n;
    for i in at..at + w {
        d[i] = low(m);
        m /= 256;
    }
}

// Stores the low w bytes of n, greatest byte first.
fn put_big(w: usize, n: u64, d: &mut [u8], at: usize)
    requires { at + w ≤ length d.old }
    ensures { d.new ≡ placed d.old at (big_of w n) }
{
    let mut m = n;
    for i in (at..at + w).rev() {
        d[i] = low(m);
        m /= 256;
    }
}

// Stores the low w bytes of n in a byte order. Callers have tested that there is room. Most numbers take 4 or 8.
pub fn put_number(big_endian: bool, w: usize, n: u64, d: &mut [u8], at: usize)
    requires { at + w ≤ length d.old }
    ensures { d.new ≡ placed d.old at (bytes_of big_endian w n) }
{
    match w {
        4 => ((n % WORD) as u32).put(big_endian, d, at),
        8 => n.put(big_endian, d, at),
        _ if big_endian => put_big(w, n, d, at),
        _ => put_little(w, n, d, at),
    }
}

// The public names of the stores, which callers and their proofs cite, as those of the readers above.
pub fn put_u16(big_endian: bool, n: u16, d: &mut [u8], at: usize)
    requires { at + 2 ≤ length d.old }
    ensures { d.new ≡ placed d.old at (bytes_of big_endian 2 n) }
{
    n.put(big_endian, d, at);
}

pub fn put_u32(big_endian: bool, n: u32, d: &mut [u8], at: usize)
    requires { at + 4 ≤ length d.old }
    ensures { d.new ≡ placed d.old at (bytes_of big_endian 4 n) }
{
    n.put(big_endian, d, at);
}

// Stores a word of a bundle, which is little-endian whatever the bundle's byte order.
pub fn put_word(n: u32, d: &mut [u8], at: usize)
    requires { at + 4 ≤ length d.old }
    ensures { d.new ≡ placed d.old at (bytes_of false 4 n) }
{
    put_u32(false, n, d, at);
}

// Stores words one behind the other, w bytes for each, in a byte order.
pub fn put_numbers(big_endian: bool, w: usize, words: &[u32], d: &mut [u8], at: usize)
    requires { (w ≤ 8) × (at + w * length words.now ≤ length d.old) }
    ensures { d.new ≡ placed d.old at (numbers_of big_endian w words.now) }
{
    let mut o = at;
    for word in words {
        put_number(big_endian, w, u64::from(*word), d, o);
        o += w;
    }
}

// ---- bytes stored
pub fn put_byte(d: &mut [u8], at: usize, b: u8)
    requires { at < length d.old }
    ensures { d.new ≡ placed d.old at (b ∷ []) }
{
    d[at] = b;
}

// Copies all of s to a place.
pub fn put_bytes(d: &mut [u8], at: usize, s: &[u8])
    requires { at + length s.now ≤ length d.old }
    ensures { d.new ≡ placed d.old at s.now }
{
    d[at..at + s.len()].copy_from_slice(s);
}

// ---- bytes compared
// Whether two parts hold the same bytes.
pub fn same_bytes(a: &[u8], b: &[u8]) -> bool
    ensures { result ≡ same a.now b.now }
{
    a == b
}

// Whether a part holds zeros only.
pub fn all_zero(s: &[u8]) -> bool
    ensures { result ≡ all (nat_eq 0) s.now }
{
    s.iter().all(|b| *b == 0)
}

// Marks the bytes of x that are zero. The low seven bits of a byte and 127 make 128 or more, and no carry, where one of the seven is set: so a byte that is
// not zero is filled with ones, and a zero byte is left at 127.
fn zero_marks(x: u64) -> u64
    ensures { result ≡ little (zero_marks (little_of 8 x)) }
{
    let filled = ((x & LOW_BITS) + LOW_BITS) | x | LOW_BITS;
    u64::MAX - filled
}

// The place of the first zero byte from a place on: eight bytes at a time, and the last ones singly. The place is counted by hand: `as_chunks` is no plainer,
// since it gives the number of a chunk, from which the place would have to be made, and the rest apart.
#[tactic(auto, using(crate::proofs::ZeroBytes::first_behind))]
pub fn first_zero(s: &[u8], from: usize) -> Option<usize>
    requires { from ≤ length s.now }
    ensures { ZeroFound s.now from result }
{
    let mut at = from;
    while EIGHT <= s.len() - at {
        let marks = zero_marks(u64::read(false, s, at));
        if marks != 0 {
            return Some(at + (marks.trailing_zeros() / BITS) as usize);
        }
        at += EIGHT;
    }
    first_zero_singly(s, at)
}

// A loop, which the check proves from its invariant: of `position` it would need laws that say for the whole what a search says of a part.
fn first_zero_singly(s: &[u8], from: usize) -> Option<usize>
    requires { from ≤ length s.now }
    ensures { ZeroFound s.now from result }
{
    for (i, b) in s[from..].iter().enumerate() {
        if *b == 0 {
            return Some(from + i);
        }
    }
    None
}

// ---- words of a work area
// A number of 64 bits that two words hold, the low one first.
pub fn number_of(low: u32, high: u32) -> u64
    ensures { result ≡ low + 2 ^ 32 * high }
{
    u64::from(low) + WORD * u64::from(high)
}

// The two words that hold it.
pub fn words_of(n: u64) -> [u32; 2]
    ensures { result ≡ (n % 2 ^ 32) ∷ (n / 2 ^ 32) ∷ [] }
{
    [(n % WORD) as u32, (n / WORD) as u32]
}

pub fn set_word(words: &mut [u32], i: usize, n: usize)
    requires { (i < length words.old) × (n < 2 ^ 32) }
    ensures { words.new ≡ placed words.old i (n ∷ []) }
{
    words[i] = n as u32;
}
