// Flips, and how scores, marks, true counts and the cost follow them: only the clauses that name the flipped variable are looked at.
ghost use Rattle.std.specs.Prelude.{◌≡◌, ℕ, ◌+◌, ◌^◌, ◌<◌, ◌≤◌, true, false, length, ◌+ℤ◌, MatchOption, unwrap_or, ◌≢◌};
ghost use Rattle.formula.specs.Clauses.{flip_at};
ghost use Rattle.formula.specs.Entries.{trues, count as count_of, named_in, Distinct};
ghost use Rattle.formula.specs.Formulas.{clause_count, entries_of};
ghost use Rattle.formula.specs.Occurrences.{Occurs};
ghost use Rattle.table.specs.Rows.{gain_z, shift_z, turn, Within, Bumped, Settled, TurnedRow, score_at, value_at, count_at, weight_at};
ghost use Rattle.table.specs.Sound.{Midway, Turned, Revised, Flipped, Sound};

use crate::table::{ClauseRow, Table};
use formula::entry::Entry;
use formula::formula::Formula;
use formula::occurrences::Occurrences;

impl ClauseRow {
    // What the clause adds to the score of a variable that has `t` true and `f` false literals in it.
    fn gain(self, t: u16, f: u16) -> i64
        requires count_bound { (t ≤ self.count) × (self.count ≤ 8192) }
        requires f_bound { f ≤ 2 }
        ensures { result ≡ gain_z self.weight self.count t f }
    {
        let w = self.weight as i64;
        if self.count == 0 {
            if f == 0 { 0 } else { w }
        } else if self.count - t + f == 0 {
            -w
        } else {
            0
        }
    }
}

// The row of a clause before and after a revision.
#[derive(Clone, Copy)]
pub(crate) struct Change {
    pub(crate) before: ClauseRow,
    pub(crate) after: ClauseRow,
}

impl Change {
    // By how much the clause's share of the score of the entry's variable changes.
    fn shift(self, e: Entry, value: bool) -> i64
        requires count_bound { (self.before.count ≤ 8192) × (self.after.count ≤ 8192) }
        requires e_bound { (trues value e ≤ self.before.count) × (trues value e ≤ self.after.count) }
        ensures { result ≡ shift_z self.before self.after value e }
    {
        let t = e.true_at(value);
        let f = e.true_at(!value);
        self.after.gain(t, f) - self.before.gain(t, f)
    }
}

impl Table {
    // Adds `delta` to one variable's score, and marks it changed if `mark`; every other row is left as it is.
    fn bump(&mut self, y: usize, delta: i64, mark: bool)
        requires y_bound { y < 256 }
        requires within { Within (score_at self.old y +ℤ delta) }
        ensures { Bumped y delta mark self.old self.new }
    {
        let row = &mut self.rows[y];
        row.score += delta;
        row.changed |= mark;
    }

    // Brings the score of an entry's variable from one row of its clause to another.
    fn revise_entry(&mut self, e: Entry, change: Change, mark: bool)
        requires count_bound { (change.before.count ≤ 8192) × (change.after.count ≤ 8192) }
        requires e_bound { (trues (value_at self.old e.variable) e ≤ change.before.count) × (trues (value_at self.old e.variable) e ≤ change.after.count) }
        requires within { Within (score_at self.old e.variable +ℤ shift_z change.before change.after (value_at self.old e.variable) e) }
        ensures { Bumped e.variable (shift_z change.before change.after (value_at self.old e.variable) e) mark self.old self.new }
    {
        let y = e.variable as usize;
        let value = self.rows[y].value;
        self.bump(y, change.shift(e, value), mark);
    }

    // The same for every entry of a clause but that of the variable that is about to be flipped, if there is one and the clause names it.
    // Inlined, so that a weighing goes over entries without a flipped variable to compare them with.
    #[inline(always)]
    pub(crate) fn revise_entries(
        &mut self,
        es: &[Entry],
        flipped: Option<usize>,
        change: Change,
        mark: bool,
    )
        requires es_len_bound { (length es.now ≤ 4096) × Distinct es.now }
        requires count_value { (change.before.count ≡ count_of (value_at self.old) es.now) × (change.after.count ≡ count_of (flip_at (unwrap_or flipped 256) (value_at self.old)) es.now) }
        requires by_index { (y : ℕ) → (y ≢ unwrap_or flipped 256) → named_in es.now y ≡ true → Within (score_at self.old y +ℤ turn change.before.weight change.after.weight (value_at self.old) (flip_at (unwrap_or flipped 256) (value_at self.old)) es.now y) }
        ensures { Turned es.now change.before.weight change.after.weight (unwrap_or flipped 256) mark self.old self.new }
    {
        for e in es {
            if flipped != Some(e.variable as usize) {
                self.revise_entry(*e, change, mark);
            }
        }
    }

    // The true count of a clause once `x` is flipped, or none where the clause does not name `x`.
    fn count_after(&self, es: &[Entry], x: usize, before: u16) -> Option<u16>
        requires x_bound { x < 256 }
        requires es_len_bound { (length es.now ≤ 4096) × Distinct es.now }
        requires count_value { before ≡ count_of (value_at self.now) es.now }
        ensures { MatchOption result (named_in es.now x ≡ false) (λ m. (named_in es.now x ≡ true) × (m ≡ count_of (flip_at x (value_at self.now)) es.now)) }
    {
        let value = self.rows[x].value;
        for e in es {
            if e.variable as usize == x {
                return Some(before - e.true_at(value) + e.true_at(!value));
            }
        }
        None
    }

    // Gives the clause `i` the row `after`, and corrects the cost and the sum of the weights.
    pub(crate) fn settle(&mut self, i: usize, after: ClauseRow)
        requires i_bound { i < 1024 }
        requires cost { (count_at self.old i ≡ 0 → weight_at self.old i ≤ self.old.cost) × (self.old.cost < 2 ^ 40) }
        requires total { (weight_at self.old i ≤ self.old.total) × (self.old.total < 2 ^ 40) }
        ensures { Settled i after self.old self.new }
    {
        let before = self.clauses[i];
        if before.count == 0 {
            self.cost -= before.weight as u64;
        }
        if after.count == 0 {
            self.cost += after.weight as u64;
        }
        self.total = self.total - before.weight as u64 + after.weight as u64;
        self.clauses[i] = after;
    }

    // Brings the table over clause `i` towards a flip of `x`.
    fn revise(&mut self, f: &Formula, i: usize, x: usize)
        requires i_bound { i < clause_count f.now }
        requires x_bound { x < 256 }
        requires midway { Midway f.now self.old x i }
        ensures midway { Midway f.now self.new x (i + 1) }
        ensures revised { Revised (entries_of f.now i) x self.old self.new }
    {
        let es = f.entries_of(i);
        let before = self.clauses[i];
        if let Some(count) = self.count_after(es, x, before.count) {
            let after = ClauseRow {
                weight: before.weight,
                count,
            };
            self.revise_entries(es, Some(x), Change { before, after }, true);
            self.settle(i, after);
        }
    }

    // The row of `x` at its flip, at the next tick. Flipping back would undo what the flip gained.
    fn turn_row(&mut self, x: usize)
        requires x_bound { x < 256 }
        requires tick { self.old.tick < 1000000 }
        requires within { Within (score_at self.old x) }
        ensures { TurnedRow x self.old self.new }
    {
        self.tick += 1;
        let tick = self.tick;
        let row = &mut self.rows[x];
        row.value = !row.value;
        row.score = -row.score;
        row.stamp = tick;
        row.changed = false;
    }

    // Flips `x`, and brings every score, mark, true count and the cost up to date.
    pub fn flip(&mut self, f: &Formula, o: &Occurrences, x: usize)
        requires occurs { Occurs f.now o.now }
        requires x_bound { x < f.now.variables }
        requires tick { self.old.tick < 1000000 }
        requires sound { Sound f.now self.old }
        ensures { Flipped f.now x self.old self.new }
    {
        for i in o.clauses_of(x) {
            self.revise(f, *i as usize, x);
        }
        self.turn_row(x);
    }
}
