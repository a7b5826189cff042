// A mark for each number, one bit in a word of 32, in words that are lent.
ghost use Rattle.std.specs.Prelude.{◌≡◌, ◌/◌, ◌<◌, length};
ghost use Rattle.sheet.specs.Held.{marked, with_mark};

// Whether a number is marked, in words that are only read; `Marks` has words that are written too.
#[tactic(auto, unfolding(crate::specs::Held::marked))]
pub fn is_marked(marks: &[u32], n: usize) -> bool
    requires { n / 32 < length marks.now }
    ensures { result ≡ marked marks.now n }
{
    (marks[n / 32] >> (n % 32)) % 2 == 1
}

#[derive(Drop)]
pub struct Marks<'a> {
    pub words: &'a mut [u32],
}

impl Marks<'_> {
    pub fn has(&self, n: usize) -> bool
        requires { n / 32 < length self.now.words.now }
        ensures { result ≡ marked self.now.words.now n }
    {
        is_marked(self.words, n)
    }

    #[tactic(auto, using(crate::proofs::LawMarks::bit_fits), unfolding(crate::specs::Held::with_mark))]
    pub fn set(&mut self, n: usize)
        requires { n / 32 < length self.old.words.now }
        ensures { self.new.words.now ≡ with_mark self.old.words.now n }
    {
        self.words[n / 32] |= 1 << (n % 32);
    }
}
