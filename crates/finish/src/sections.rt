// The sections of a package by code: their sizes, and what the package with its frame takes.
ghost use Rattle.std.specs.Prelude.{◌≡◌, true, ◌≤◌};
ghost use Rattle.numbers.specs.Limits.{section_limit};
ghost use Rattle.finish.specs.Sections.{sizes_good, framed_size, length_of};

use bundle::FRAME;
use numbers::limits::SECTION_LIMIT;
use numbers::sections::CODES;

// 19: whether no section is above the limit.
pub fn sizes_good(sizes: &[usize; CODES]) -> bool
    ensures { result ≡ sizes_good sizes.now }
{
    sizes.iter().all(|size| *size <= SECTION_LIMIT)
}

// What a section of this size takes with its word, filled up to whole words; nothing where it is empty.
#[tactic(auto, using(bundle::proofs::Next::filled_up_most), unfolding(crate::specs::Sections::framed_size))]
fn framed_size(size: usize) -> usize
    requires { size ≤ section_limit }
    ensures { result ≡ framed_size size }
{
    if size == 0 {
        return 0;
    }
    4 + bundle::filled_up(size)
}

// The length of a package with sections of these sizes: the sections that aren't empty, in the package's frame. The caller has seen that the sizes are good.
pub fn package_length(sizes: &[usize; CODES]) -> usize
    requires { sizes_good sizes.now ≡ true }
    ensures { result ≡ length_of sizes.now }
{
    let mut n = FRAME;
    for c in 1..CODES {
        n += framed_size(sizes[c]);
    }
    n
}
