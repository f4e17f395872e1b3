// The state of a search: an assignment, weights and stamps, with scores that are kept up to date.
#![tactic(auto)]

pub mod calls;
pub mod laws;
pub mod questions;
pub mod search;
