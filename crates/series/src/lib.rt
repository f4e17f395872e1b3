// A series of calls: each in plain numbers, made on an engine one after the other.
#![tactic(auto)]

pub mod call;
pub mod perform;
pub mod replay;
