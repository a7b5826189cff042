// LEB128 numbers at the front of lent bytes, with the limits that refusal 12 sets. A padded number counts by its value.
#![tactic(auto)]

ghost use Rattle.std.specs.Prelude.{◌≡◌, ◌≤◌};
ghost use Rattle.numbers.specs.Refused.{told};
ghost use Rattle.leb128.specs.Leb128.{short, unsigned, signed_size};
ghost use Rattle.leb128.specs.Answers.{groups_read};

use numbers::refusals::Refusal;

// What a number of bytes say: they hold the last byte of a number, or none of them is the last, or there are not so many.
#[derive(Clone, Copy)]
pub enum Groups {
    Ended(u64, usize),
    Open(u64),
    Cut,
}

// Groups of seven bits, least first, in at most k bytes. Nine groups are below 2 to the power 63; the readers below ask for no more.
fn read_groups(k: usize, s: &[u8]) -> Groups
    requires { k ≤ 9 }
    ensures { result ≡ groups_read k s.now }
{
    let mut value: u64 = 0;
    let mut factor: u64 = 1;
    for i in 0..k {
        if s.len() <= i {
            return Groups::Cut;
        }
        let b = u64::from(s[i]);
        if b < 128 {
            return Groups::Ended(value + factor * b, i + 1);
        }
        value += factor * (b - 128);
        factor *= 128;
    }
    Groups::Open(value)
}

// A tag, a name or a form, and the bytes that it takes: at most 3 bytes, and at most 65,535. Most are one byte, which needs no loop.
pub fn read_short(s: &[u8]) -> Result<(u64, usize), Refusal>
    ensures { told result ≡ short s.now }
{
    match s {
        [first, ..] if *first < 128 => Ok((u64::from(*first), 1)),
        _ => match read_groups(3, s) {
            Groups::Ended(value, _) if value > 65535 => Err(Refusal::NoIdentity),
            Groups::Ended(value, size) => Ok((value, size)),
            Groups::Open(_) | Groups::Cut => Err(Refusal::NoIdentity),
        },
    }
}

// Any other unsigned number: at most 10 bytes, of whose last only one bit is left.
fn read_long(s: &[u8]) -> Result<(u64, usize), Refusal>
    ensures { told result ≡ unsigned s.now }
{
    match read_groups(9, s) {
        Groups::Ended(value, size) => Ok((value, size)),
        Groups::Open(value) => match s.get(9) {
            Some(b) if *b <= 1 => Ok((value + 0x8000_0000_0000_0000 * u64::from(*b), 10)),
            _ => Err(Refusal::NoIdentity),
        },
        Groups::Cut => Err(Refusal::NoIdentity),
    }
}

// The same. Most take one byte or two, which need no loop.
pub fn read_unsigned(s: &[u8]) -> Result<(u64, usize), Refusal>
    ensures { told result ≡ unsigned s.now }
{
    match s {
        [first, _, ..] if *first < 128 => Ok((u64::from(*first), 1)),
        [first, second, ..] if *second < 128 => {
            Ok((u64::from(*first) - 128 + 128 * u64::from(*second), 2))
        }
        _ => read_long(s),
    }
}

// The bytes that a signed number takes: a tenth byte may only repeat the sign.
pub fn read_signed_size(s: &[u8]) -> Result<usize, Refusal>
    ensures { told result ≡ signed_size s.now }
{
    match read_groups(9, s) {
        Groups::Ended(_, size) => Ok(size),
        Groups::Open(_) => match s.get(9) {
            Some(b) if *b == 0 || *b == 127 => Ok(10),
            _ => Err(Refusal::NoIdentity),
        },
        Groups::Cut => Err(Refusal::NoIdentity),
    }
}
