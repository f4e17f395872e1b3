// The words of a text, the numbers that they write, and the faults of the reader's layers.
#![tactic(auto)]

pub mod faults;
pub mod number;
pub mod reader;
pub mod word;
