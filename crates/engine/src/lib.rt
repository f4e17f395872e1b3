// The engine: every call with its refusals, and steps and runs over any policy and source.
#![tactic(auto)]

pub mod answers;
pub mod calls;
pub mod engine;
mod picks;
pub mod questions;
mod runs;
mod steps;
