// The rows of a search: scores, marks, true counts and the cost are kept up to date through flips, weighings and restarts.
#![tactic(auto)]

pub mod restart;
pub mod revise;
pub mod table;
pub mod unsatisfied;
pub mod weigh;
