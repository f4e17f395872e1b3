// Sets of numbers below 1,024.
#![tactic(auto)]

mod lowest;
pub mod set;
