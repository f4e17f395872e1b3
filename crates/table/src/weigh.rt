// Weights: what an unsatisfied clause gains, and smoothing.
ghost use Rattle.std.specs.Prelude.{◌≡◌, ℕ, ◌+◌, ◌*◌, ◌/◌, ◌^◌, ◌<◌, ◌≤◌};
ghost use Rattle.formula.specs.Clauses.{sum_to};
ghost use Rattle.formula.specs.Formulas.{clause_count};
ghost use Rattle.table.specs.Weights.{heavy, share_of, eased};
ghost use Rattle.table.specs.Rows.{clause_at, weight_at, reweighted, gained, eased_at};
ghost use Rattle.table.specs.Sound.{Sound, Makes, Reweighed, Weighing, Weighed};

use crate::revise::Change;
use crate::table::{ClauseRow, Table};
use formula::formula::Formula;

// The part of the weights' sum that smoothing gives to each clause.
fn share_of(f: &Formula, total: u64) -> u32
    requires some { 0 < clause_count f.now }
    requires light { total < 2 ^ 31 }
    ensures { result ≡ share_of f.now.variables (clause_count f.now) total }
{
    let clauses = f.clauses() as u64;
    if clauses <= 15 * f.variables as u64 {
        0
    } else {
        (7 * total / (10 * clauses)) as u32
    }
}

impl ClauseRow {
    // The weight of the clause after smoothing, where each clause gets `share` alike.
    fn smoothed(self, share: u32) -> u32
        requires { (self.weight < 2 ^ 31) × (share < 2 ^ 31) }
        ensures { result ≡ eased share self.weight }
    {
        (3 * self.weight as u64 / 10) as u32 + share
    }
}

impl Table {
    // Gives the clause `i` another weight, and brings the scores, the cost and the weights' sum up to date.
    // Inlined, so that the clauses whose weight stays cost no call.
    #[inline(always)]
    fn reweigh(&mut self, f: &Formula, i: usize, weight: u32)
        requires i_bound { i < clause_count f.now }
        requires sound { Sound f.now self.old }
        requires light { sum_to (clause_count f.now) (reweighted (weight_at self.old) i weight) < 2 ^ 40 }
        ensures { Reweighed f.now i weight self.old self.new }
    {
        let before = self.clauses[i];
        if weight != before.weight {
            let after = ClauseRow {
                weight,
                count: before.count,
            };
            self.revise_entries(f.entries_of(i), None, Change { before, after }, false);
            self.settle(i, after);
        }
    }

    // Gives each clause the weight that the rule makes of its row.
    pub(crate) fn reweigh_all<R: Fn(ClauseRow) -> u32>(&mut self, f: &Formula, rule: R)
        requires sound { Sound f.now self.old }
        requires callable { (k : ℕ) → k < clause_count f.now → R.pre rule (clause_at self.old k) }
        requires light { (V : ℕ → ℕ) × Makes (R.post rule) f.now self.old V × (sum_to (clause_count f.now) (weight_at self.old) + sum_to (clause_count f.now) V < 2 ^ 40) }
        ensures { (V : ℕ → ℕ) → Makes (R.post rule) f.now self.old V → Weighing f.now V (clause_count f.now) self.old self.new }
    {
        // Stays (no plainer): each turn needs the whole table, and the clause's number.
        for i in 0..f.clauses() {
            let weight = rule(self.clauses[i]);
            self.reweigh(f, i, weight);
        }
    }

    // Each unsatisfied clause gains weight 1.
    fn gain_weights(&mut self, f: &Formula)
        requires sound { Sound f.now self.old }
        requires light { sum_to (clause_count f.now) (weight_at self.old) < 2 ^ 31 }
        ensures { Weighing f.now (gained self.old) (clause_count f.now) self.old self.new }
    {
        self.reweigh_all(f, |row| row.weight + (row.count == 0) as u32);
    }

    // Smooths every weight.
    fn smooth(&mut self, f: &Formula, share: u32)
        requires sound { Sound f.now self.old }
        requires light { sum_to (clause_count f.now) (weight_at self.old) < 2 ^ 31 }
        requires shares { (clause_count f.now * share < 2 ^ 31) × (share < 2 ^ 31) }
        ensures { Weighing f.now (eased_at self.old share) (clause_count f.now) self.old self.new }
    {
        self.reweigh_all(f, |row| row.smoothed(share));
    }

    // Whether the weights are more than 300 on average.
    fn is_heavy(&self, f: &Formula) -> bool
        ensures { result ≡ heavy (clause_count f.now) self.now.total }
    {
        self.total > 300 * f.clauses() as u64
    }

    // Each unsatisfied clause gains weight 1, and weights of more than 300 on average are smoothed.
    pub fn weigh(&mut self, f: &Formula)
        requires some { 0 < clause_count f.now }
        requires sound { Sound f.now self.old }
        requires light { self.old.total < 2 ^ 30 }
        ensures { Weighed f.now self.old self.new }
    {
        self.gain_weights(f);
        if self.is_heavy(f) {
            let share = share_of(f, self.total);
            self.smooth(f, share);
        }
    }
}
