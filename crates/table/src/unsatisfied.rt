// The unsatisfied clauses: those with no true literal.
ghost use Rattle.std.specs.Prelude.{◌≡◌, ◌<◌, length, nat_eq, slice_index};
ghost use Rattle.formula.specs.Occurrences.{passing};
ghost use Rattle.table.specs.Rows.{count_at};

use crate::table::Table;

impl Table {
    // How many of the first `clauses` clauses are unsatisfied.
    // By a sum, of which LLVM makes vector code; of filter and count it does not, and every step and every dive asks this.
    pub fn unsatisfied_count(&self, clauses: usize) -> usize
        requires { clauses < 1025 }
        ensures { result ≡ length (passing (λ k. nat_eq (count_at self.now k) 0) clauses) }
    {
        self.clauses[..clauses]
            .iter()
            .map(|row| (row.count == 0) as usize)
            .sum()
    }

    // The clause at a place of the rising list of the unsatisfied ones.
    pub fn unsatisfied_at(&self, clauses: usize, place: usize) -> usize
        requires few { clauses < 1025 }
        requires inside { place < length (passing (λ k. nat_eq (count_at self.now k) 0) clauses) }
        ensures is { result ≡ slice_index (passing (λ k. nat_eq (count_at self.now k) 0) clauses) place }
        ensures below { result < clauses }
    {
        self.clauses[..clauses]
            .iter()
            .enumerate()
            .filter(|(_, row)| row.count == 0)
            .nth(place)
            .unwrap()
            .0
    }
}
