// What every call of the library refuses with.
ghost use Rattle.std.specs.Prelude.{◌≡◌, Some};
ghost use Rattle.cnf.specs.Refusals.{number_of, refused, told};

use std::fmt;

// A question that a call asks of what it is given; a refusal names the first that is answered by a no.
#[derive(Clone, Copy, Debug, PartialEq, Eq)]
pub enum Check {
    // The text has at most 65,535 bytes.
    TextLength = 1,
    // The first line that is no comment is a problem line.
    ProblemLine = 2,
    // The word is a number.
    NumberForm = 3,
    // The number's magnitude is at most 99,999.
    NumberSize = 4,
    // The numbers of variables and of clauses are within their limits.
    Limits = 5,
    // There are exactly as many clauses as were said, and the last one is ended.
    ClauseCount = 6,
    // The variable is one of the table's.
    VariableRange = 7,
    // The clause has a literal.
    EmptyClause = 8,
    // There are at most 4,096 literals.
    LiteralCount = 9,
    // The words table has a place for every word.
    WordsRoom = 10,
    // The start has a byte for each variable, and each is 0 or 1.
    StartValues = 11,
    // The engine has a formula.
    HasFormula = 12,
    // The variable, the clause or the place is within range.
    InRange = 13,
    // Ticks are left.
    TicksLeft = 14,
    // The budget is at most 65,535, and the trail at least as long.
    BudgetFits = 15,
    // The seed is 1 to 2,147,483,646.
    SeedRange = 16,
    // The bytes to be written fit.
    BytesRoom = 17,
    // A value is due when one is added, and none is at closing.
    ValueDue = 18,
}

impl Check {
    // The number that a refusal is printed with.
    pub fn number(self) -> u32
        ensures { result ≡ number_of self }
    {
        self as u32
    }

    // What a call refuses with where this check gives a no at the place given.
    pub fn at(self, place: usize) -> Refusal
        ensures { result ≡ refused self place }
    {
        Refusal { check: self, place }
    }
}

// The first check that gave a no, and where: an index, a byte offset, a length, or 0 where nothing has a place.
#[derive(Clone, Copy, Debug, PartialEq, Eq)]
pub struct Refusal {
    pub check: Check,
    pub place: usize,
}

impl fmt::Display for Refusal {
    ghost output = { λ r. Some (told r) };

    fn fmt<W: fmt::Write>(&self, f: &mut fmt::Formatter<W>) -> fmt::Result {
        let number = self.check.number();
        let place = self.place;
        write!(f, "refused {number} at {place}")
    }
}
