// Lent words and bytes cleared, with no store to a page that is zero. A system gives memory its pages when it is first stored to, and most of the work that is
// lent is never used, nor the output behind a package: so packing takes pages for what it uses, and not for all that it is lent.
ghost use Rattle.std.specs.Prelude.{◌≡◌, length};
ghost use Rattle.octets.specs.Octets.{zeros};

// Words that are cleared together, as many as a page of memory has.
const PAGE: usize = 1_024;

// The words of s taken together, bit by bit: zero only where all are. All are read, several at a time: for a page of zeros `any` took six times as long.
#[tactic(auto, using(crate::proofs::Zeros::zero_none, crate::proofs::Zeros::zero_one, crate::proofs::Zeros::zero_all))]
fn joined(s: &[u32]) -> u32
    ensures { result ≡ 0 → s.now ≡ zeros (length s.now) }
{
    let mut all: u32 = 0;
    for word in s {
        all |= *word;
    }
    all
}

#[tactic(auto, unfolding(octets::specs::Octets::zeros))]
fn clear_page(s: &mut [u32])
    ensures { s.new ≡ zeros (length s.old) }
{
    if joined(s) != 0 {
        s.fill(0);
    }
}

// Page by page, also where all words were used before: a page that was just read takes its zeros faster than memory that was not. By index: over `chunks_mut` the
// proof was tried and did not close, since it knows nothing of words that were lent page by page.
pub fn clear_lent(s: &mut [u32])
    ensures { s.new ≡ zeros (length s.old) }
{
    let n = s.len();
    for page in 0..n.div_ceil(PAGE) {
        let from = PAGE * page;
        let to = n.min(from + PAGE);
        clear_page(&mut s[from..to]);
    }
}

// ---- the same of bytes
// Functions of their own: one for both would be over a trait whose `joined` and whose zero each type gives, with the same lines twice there, and its laws over
// lists of any type.
// So many bytes are a page.
const BYTE_PAGE: usize = 4_096;

#[tactic(auto, using(crate::proofs::Zeros::zero_none, crate::proofs::Zeros::zero_one, crate::proofs::Zeros::zero_all))]
fn joined_bytes(s: &[u8]) -> u8
    ensures { result ≡ 0 → s.now ≡ zeros (length s.now) }
{
    let mut all: u8 = 0;
    for byte in s {
        all |= *byte;
    }
    all
}

#[tactic(auto, unfolding(octets::specs::Octets::zeros))]
fn clear_byte_page(s: &mut [u8])
    ensures { s.new ≡ zeros (length s.old) }
{
    if joined_bytes(s) != 0 {
        s.fill(0);
    }
}

pub fn clear_bytes(s: &mut [u8])
    ensures { s.new ≡ zeros (length s.old) }
{
    let n = s.len();
    for page in 0..n.div_ceil(BYTE_PAGE) {
        let from = BYTE_PAGE * page;
        let to = n.min(from + BYTE_PAGE);
        clear_byte_page(&mut s[from..to]);
    }
}
