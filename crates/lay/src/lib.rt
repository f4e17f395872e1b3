// Bytes and decimal numbers, written into lent memory from a place on.
#![tactic(auto)]

pub mod pieces;
pub mod put;
