// The clauses of a formula as entries.
ghost use Rattle.formula.specs.Made.{Made, made_prop};

use crate::entry::{Entry, entry_of};
use crate::span::Span;
use arrayvec::ArrayVec;
use cnf::table::first_clause;

// Each clause has its entries in one span, by rising variable.
#[derive(Drop)]
pub struct Formula {
    pub variables: u16,
    pub(crate) spans: ArrayVec<Span, 1024>,
    pub(crate) entries: ArrayVec<Entry, 4096>,
    ghost made: { Made variables spans.items entries.items } by { made_prop variables spans.items entries.items },
}

impl Formula {
    ghost use Rattle.std.specs.Prelude.{◌≡◌, ◌+◌, ◌<◌, ◌≤◌, length};
    ghost use Rattle.cnf.specs.Tables.{Legal, clauses_of};
    ghost use Rattle.formula.specs.Formulas.{clause_count, entry_count, entries_of, Added, Holds};

    // No clause yet.
    pub fn new() -> Formula
        ensures { clause_count result ≡ 0 }
    {
        Formula {
            variables: 0,
            spans: ArrayVec::new(),
            entries: ArrayVec::new(),
        }
    }

    // How many clauses there are.
    pub fn clauses(&self) -> usize
        ensures { result ≡ clause_count self.now }
    {
        self.spans.len()
    }

    // The entries of a clause, by rising variable.
    pub fn entries_of(&self, clause: usize) -> &[Entry]
        requires { clause < clause_count self.now }
        ensures { result.now ≡ entries_of self.now clause }
    {
        self.spans[clause].part_of(&self.entries)
    }

    // Puts a clause behind the others, its entries by rising variable.
    fn add_clause(&mut self, clause: &[i32])
        requires few { clause_count self.old < 1024 }
        requires room { entry_count self.old + length clause.now ≤ 4096 }
        ensures { Added clause.now self.old self.new }
    {
        let start = self.entries.len() as u16;
        // Stays (no plainer): the numbers themselves are gone over, and each turn changes what is made.
        for v in 0..self.variables {
            let e = entry_of(clause, v as u8);
            if e.is_named() {
                self.entries.push(e);
            }
        }
        let end = self.entries.len() as u16;
        self.spans.push(Span { start, end });
    }

    // Stays (rule): a table is handed over as the number of its variables and a lent slice of words.
    // Takes over the clauses of a table.
    pub fn load(&mut self, variables: u16, words: &[i32])
        requires { Legal variables words.now }
        ensures { Holds variables (clauses_of words.now) self.new }
    {
        self.variables = variables;
        self.spans.clear();
        self.entries.clear();
        let mut rest = words;
        while let Some((clause, behind)) = first_clause(rest) {
            self.add_clause(clause);
            rest = behind;
        }
    }
}
