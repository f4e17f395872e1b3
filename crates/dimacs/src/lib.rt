// Rule tables as text: the DIMACS CNF form.
#![tactic(auto)]

mod clauses;
pub mod head;
pub mod read;
pub mod write;
