// Calls after one test, over every list of them: with the state that the test found each is the public call, and the state stays true. And which state the
// public calls leave, so that a caller who uses both need not test again.
//
//   specs/Law      proofs/Sessions   every list of calls with a state
//   specs/States   proofs/States     the state after open, load, record and the two install calls; crate `index_tested` has it after finish
//   specs/Growth   proofs/Growth     tables that grow keep the state

#![tactic(auto)]

ghost use Rattle.sessions.specs.Law.{Sessions};
ghost use Rattle.sessions.specs.States.{StatesFollow};
ghost use Rattle.sessions.specs.Growth.{GrowthKeeps};

// Whatever calls with a true state follow one another, they are the public calls.
pub fn sessions_hold()
    ensures { Sessions }
{}

// An accepted open leaves an open index, an accepted load a closed one; records, calendars and lists of days leave the state as it was.
#[tactic(auto, using(crate::proofs::States::states_follow))]
pub fn states_follow()
    ensures { StatesFollow }
{}

// A state that is true of an index's tables is true of longer ones.
#[tactic(auto, using(crate::proofs::Growth::growth_keeps))]
pub fn growth_keeps()
    ensures { GrowthKeeps }
{}
