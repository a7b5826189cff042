// Codes in a digital search tree, in lent words that need not be clear: a node is written when it is made.
// A walk takes a bit of the code at each step. Two codes that differ part by their 64th bit, so that no node lies deeper than 64: n codes take at most
// 65 n steps, whichever codes they are.
ghost use Rattle.std.specs.Prelude.{◌≡◌, List, ℕ, ◌+◌, ◌*◌, ◌<◌, ◌≤◌, ◌^◌, length};
ghost use Rattle.octets.specs.Octets.{placed};
ghost use Rattle.unit.specs.Trees.{
  node_words,
  code_at,
  carried_at,
  node_of,
  Rising,
  Tree,
  Ends,
  Seeks,
  Added,
};

// The words of a node: the nodes on its left and on its right, what it carries, and its code. No structs, since memory is lent as words and there is no heap.
// A link of 0 leads nowhere: words are lent as numbers, and the root, node 0, is never a child.
pub const NODE: usize = 5;

const CARRIED: usize = 2;

const LOW: usize = 3;

const HIGH: usize = 4;

// So many codes, in the words that hold them. Their links lead to later nodes, so that each walk ends.
#[derive(Clone, Copy)]
pub struct CodeTree<'a> {
    pub words: &'a [u32],
    pub count: usize,
    ghost rising: { Rising words.now count },
}

impl<'a> CodeTree<'a> {
    #[tactic(auto, unfolding(crate::specs::Trees::code_at))]
    fn code_at(self, node: usize) -> u64
        requires { node_words * node + node_words ≤ length self.words.now }
        ensures { result ≡ code_at self.entry.words.now node }
    {
        octets::number_of(
            self.words[NODE * node + LOW],
            self.words[NODE * node + HIGH],
        )
    }

    #[tactic(auto, unfolding(crate::specs::Trees::carried_at))]
    pub fn carried_at(self, node: usize) -> usize
        requires { node_words * node + node_words ≤ length self.words.now }
        ensures { result ≡ carried_at self.entry.words.now node }
    {
        self.words[NODE * node + CARRIED] as usize
    }

    // Where the walk of a code ends, answered as a search of a sorted slice is: its node; or else the word of the empty link that its node would hang from.
    // A loop, since it follows links and has no index.
    #[tactic(auto, using(crate::proofs::Trees::walking_free))]
    pub fn walk(self, code: u64) -> Result<usize, usize>
        requires { 0 < self.count }
        ensures { Ends self.entry.words.now self.entry.count code result }
    {
        let mut node = 0;
        let mut rest = code;
        loop {
            if self.code_at(node) == code {
                return Ok(node);
            }
            let link = NODE * node + (rest % 2) as usize;
            let next = self.words[link] as usize;
            if next == 0 {
                return Err(link);
            }
            node = next;
            rest /= 2;
        }
    }

    // What the node of a code carries.
    #[tactic(auto, using(crate::proofs::Trees::seek_cases))]
    pub fn find(self, code: u64) -> Option<usize>
        ensures { Seeks self.entry.words.now self.entry.count code result }
    {
        if self.count == 0 {
            return None;
        }
        match self.walk(code) {
            Ok(node) => Some(self.carried_at(node)),
            Err(_) => None,
        }
    }
}

// A node without links.
fn store_node(codes: &mut [u32], node: usize, carried: usize, code: u64)
    requires { (node_words * node + node_words ≤ length codes.old) × (carried < 2 ^ 32) }
    ensures { codes.new ≡ placed codes.old (node_words * node) (node_of carried code) }
{
    let at = NODE * node;
    let [low, high] = octets::words_of(code);
    codes[at..at + NODE].copy_from_slice(&[0, 0, carried as u32, low, high]);
}

// One code more behind count others, or false where it is one of them. Callers keep room for a node.
#[tactic(auto, using(crate::proofs::Trees::added_first, crate::proofs::Trees::added_not, crate::proofs::Trees::ends_within))]
pub fn add_code(codes: &mut [u32], count: usize, carried: usize, code: u64) -> bool
    requires { Rising codes.old count × (node_words * count + node_words ≤ length codes.old) × (count < 2 ^ 32) × (carried < 2 ^ 32) }
    ensures { (cs : List ℕ) → length cs ≡ count → Tree codes.old cs → Added codes.old codes.new cs carried code result }
{
    if count == 0 {
        store_node(codes, 0, carried, code);
        return true;
    }
    let tree = CodeTree {
        words: codes,
        count,
    };
    let Err(link) = tree.walk(code) else {
        return false;
    };
    codes[link] = count as u32;
    store_node(codes, count, carried, code);
    true
}
