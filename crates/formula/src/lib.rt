// A formula's own copy: the words as they were given, each clause as entries, and the clauses that name each variable.
#![tactic(auto)]

pub mod entry;
pub mod formula;
pub mod given;
pub mod laws;
pub mod occurrences;
pub mod span;
