// The law on joined files, as the contract of a function that does nothing.
ghost use Rattle.join.specs.Laws.{JoinedHolds};

// What is joined of files holds exactly their objects, in the files' order.
#[tactic(auto, using(crate::proofs::Joined::joined_holds))]
pub fn joined_holds()
    ensures { JoinedHolds }
{}
