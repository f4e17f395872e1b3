// Tables of rules: limits, refusals, and the checks that every later layer rests on.
#![tactic(auto)]

pub mod refusal;
pub mod table;
pub mod tally;
