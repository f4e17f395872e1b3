// What the words of a table amount to so far.
ghost use Rattle.std.specs.Prelude.{◌≡◌};
ghost use Rattle.cnf.specs.Scans.{no_words, tallied, tallied_end, tallied_literal, closed};

use crate::refusal::{Check, Refusal};

// The most variables, clauses and literals that a table may have.
pub const MOST_VARIABLES: usize = 256;

pub const MOST_CLAUSES: usize = 1024;

pub const MOST_LITERALS: usize = 4096;

// The clauses that are ended, the literals, repeats counted, and whether a clause is begun and not ended.
#[derive(Clone, Copy, Debug, PartialEq, Eq)]
pub struct Tally {
    pub ended: usize,
    pub literals: usize,
    pub begun: bool,
}

impl Tally {
    // The tally of no words.
    pub fn new() -> Tally
        ensures { result ≡ no_words }
    {
        Tally {
            ended: 0,
            literals: 0,
            begun: false,
        }
    }

    // The tally with one word more of a table over so many variables.
    pub fn word(self, variables: usize, word: i32) -> Result<Tally, Check>
        ensures { result ≡ tallied variables self word }
    {
        if word == 0 {
            self.end()
        } else {
            self.literal(variables, word)
        }
    }

    // The same where the word is the 0 that ends a clause.
    fn end(self) -> Result<Tally, Check>
        ensures { result ≡ tallied_end self }
    {
        if !self.begun {
            return Err(Check::EmptyClause);
        }
        if self.ended >= MOST_CLAUSES {
            return Err(Check::Limits);
        }
        Ok(Tally {
            ended: self.ended + 1,
            begun: false,
            ..self
        })
    }

    // The same where the word is a literal.
    fn literal(self, variables: usize, word: i32) -> Result<Tally, Check>
        ensures { result ≡ tallied_literal variables self word }
    {
        if word.unsigned_abs() as usize > variables {
            return Err(Check::VariableRange);
        }
        if self.literals >= MOST_LITERALS {
            return Err(Check::LiteralCount);
        }
        Ok(Tally {
            literals: self.literals + 1,
            begun: true,
            ..self
        })
    }

    // The number of clauses of a table that ends here, at the place given.
    pub fn close(self, place: usize) -> Result<usize, Refusal>
        ensures { result ≡ closed place self }
    {
        if self.begun {
            return Err(Check::ClauseCount.at(place));
        }
        if self.ended == 0 {
            return Err(Check::Limits.at(0));
        }
        Ok(self.ended)
    }
}
