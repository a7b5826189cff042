// Open addressing: where an identity's search begins, how far it steps, and where it ends.
ghost use Rattle.std.specs.Prelude.{◌≡◌, ◌+◌, ◌%◌, ◌<◌, ◌^◌};
ghost use Rattle.index.specs.Probing.{first_slot, stride, probe};
ghost use Rattle.index.specs.Held.{PowerOfTwo, one_power, Well, probed_of};

use crate::reading::Index;

// So many slots that are searched. Their number was judged, or chosen, to be a power of two.
#[derive(Clone, Copy)]
pub struct Probing {
    pub slots: usize,
    ghost power: { PowerOfTwo slots } by { one_power slots },
}

impl Probing {
    // Where the search for an identity begins.
    #[tactic(auto, using(crate::proofs::Masks::positive), unfolding(crate::specs::Probing::first_slot))]
    pub fn first(self, x: u64) -> usize
        ensures { result ≡ first_slot x self.slots }
    {
        (x & (self.slots as u64 - 1)) as usize
    }

    // How far it steps. Odd, so that a search visits every slot.
    #[tactic(auto, using(crate::proofs::Masks::positive), unfolding(crate::specs::Probing::stride))]
    pub fn stride(self, x: u64) -> usize
        ensures { result ≡ stride x self.slots }
    {
        (((x >> 32) & (self.slots as u64 - 1)) | 1) as usize
    }

    // The slot behind one, as many slots on as the stride says.
    #[tactic(auto, using(crate::proofs::Masks::positive, crate::proofs::Masks::masked))]
    pub fn next(self, at: usize, by: usize) -> usize
        requires { at + «by» < 2 ^ 64 }
        ensures { result ≡ (at + «by») % self.slots }
    {
        (at + by) & (self.slots - 1)
    }
}

// The slot where a search ends, if it holds the identity, and the number of slots looked at.
#[derive(Clone, Copy, Debug, PartialEq, Eq)]
pub struct Probed {
    pub slot: Option<usize>,
    pub looks: usize,
}

impl<'a> Index<'a> {
    // A slot of row number 0 is unused, whatever identity it holds. Callers have read the index well.
    // `Slots::seek` of `kept` has a loop of this form too. One walk for both would take a closure for what a slot holds and what ends the walk, and both contracts
    // would say of that closure what they say of the slots now: no plainer.
    #[tactic(auto, using(crate::proofs::Looks::search_ends))]
    pub fn find(&self, x: u64) -> Probed
        requires { Well self.now }
        ensures { result ≡ probed_of (probe self.now x) }
    {
        let slots = self.head().slots;
        let probing = Probing { slots };
        let by = probing.stride(x);
        let mut at = probing.first(x);
        for passed in 0..slots {
            let looks = passed + 1;
            if self.row_at(at) == 0 {
                return Probed { slot: None, looks };
            }
            if self.identity_at(at) == x {
                return Probed {
                    slot: Some(at),
                    looks,
                };
            }
            at = probing.next(at, by);
        }
        Probed {
            slot: None,
            looks: slots,
        }
    }
}
