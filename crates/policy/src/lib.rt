// The two choices that a step is given: who may be flipped, and where numbers come from.
#![tactic(auto)]

pub mod admission;
pub mod any;
pub mod generator;
pub mod recorded;
pub mod source;
