//! What the reports tell, over any closed index, after every list of calls, and after a load: theorems, each the contract of a function without work.
//!
//! - `specs/Occupation`: occupied cells are those of the history
//! - `proofs/Shown`: of any closed index, and of one that calls have reached
//! - `proofs/Loaded`: of one that was written and loaded again

#![tactic(auto)]

ghost use Rattle.reports_law.specs.Occupation.{OccupationShown};

/// The occupation report tells the history: over any closed index its counts, after every list of calls those of the history, and after a load the same.
#[tactic(auto, using(crate::proofs::Loaded::occupation_shown))]
pub fn occupation_shows_history()
    ensures { OccupationShown }
{}
