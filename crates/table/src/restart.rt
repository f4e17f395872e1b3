// The start of a search.
ghost use Rattle.std.specs.Prelude.{◌≡◌, ℕ, ◌^◌, ◌<◌, ◌≤◌, length, slice_index};
ghost use Rattle.formula.specs.Clauses.{sum_to};
ghost use Rattle.formula.specs.Entries.{count as count_of};
ghost use Rattle.formula.specs.Formulas.{clause_count};
ghost use Rattle.table.specs.Rows.{row_at, row_from, value_at, weight_at};
ghost use Rattle.table.specs.Sound.{Sound, Weighing, Counted, Begun};

use crate::table::{ClauseRow, Row, Table};
use formula::entry::Entry;
use formula::formula::Formula;

impl Table {
    // The variables' rows at the start of a search, before any clause has weight.
    fn reset_rows(&mut self, start: &[u8])
        requires { length start.now ≤ 256 }
        ensures clauses { self.new.clauses ≡ self.old.clauses }
        ensures rows { (k : ℕ) → k < length start.now → row_at self.new k ≡ row_from (slice_index start.now k) }
    {
        for (v, bit) in start.iter().enumerate() {
            self.rows[v] = Row {
                value: *bit == 1,
                score: 0,
                stamp: 0,
                changed: true,
            };
        }
    }

    // How many different literals of a clause are true.
    fn count_of(&self, es: &[Entry]) -> u16
        requires { length es.now ≤ 4096 }
        ensures { result ≡ count_of (value_at self.now) es.now }
    {
        let mut n = 0;
        for e in es {
            n += e.true_at(self.rows[e.variable as usize].value);
        }
        n
    }

    // Counts every clause's true literals, and takes its weight away.
    fn reset_clauses(&mut self, f: &Formula)
        ensures counted { Counted f.now (clause_count f.now) self.new }
        ensures rows { self.new.rows ≡ self.old.rows }
    {
        // Stays (no plainer): the index is that of the formula's clause and of the row, and the rows of the variables are read beside it.
        for i in 0..f.clauses() {
            let count = self.count_of(f.entries_of(i));
            self.clauses[i] = ClauseRow { weight: 0, count };
        }
    }

    // Gives every clause the weight 1.
    fn level(&mut self, f: &Formula)
        requires sound { Sound f.now self.old }
        requires light { sum_to (clause_count f.now) (weight_at self.old) < 2 ^ 39 }
        ensures { Weighing f.now (λ _. 1) (clause_count f.now) self.old self.new }
    {
        self.reweigh_all(f, |_| 1);
    }

    // Begins a search at the given assignment.
    pub fn restart(&mut self, f: &Formula, start: &[u8])
        requires { length start.now ≡ f.now.variables }
        ensures { Begun f.now start.now self.new }
    {
        self.reset_rows(start);
        self.reset_clauses(f);
        self.cost = 0;
        self.total = 0;
        self.tick = 0;
        self.level(f);
    }
}
