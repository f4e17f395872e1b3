// A policy and a source of another author's, and small uses of any policy and any source.
#![tactic(auto)]

pub mod countdown;
pub mod threshold;
pub mod uses;
