// The result sheet of a run, and the line that tells of a refusal.
#![tactic(auto)]

pub mod print;
pub mod refused;
pub mod sheet;
