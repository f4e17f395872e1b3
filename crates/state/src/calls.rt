// What a search can be told to do.
ghost use Rattle.std.specs.Prelude.{◌≡◌, ℕ, ◌+◌, ◌<◌, ◌≤◌, false, length, pos, ◌-ℤ◌, ◌≢◌};
ghost use Rattle.cnf.specs.Tables.{Legal};
ghost use Rattle.state.specs.Model.{loaded, restarted, flipped, weighed, ticked, Paced, cost, score, total, neighbours};
ghost use Rattle.state.specs.Searches.{model};
ghost use Rattle.state.specs.Theorems.{Alike};

use crate::search::Search;
use formula::formula::Formula;
use formula::given::Given;
use formula::occurrences::Occurrences;
use table::table::Table;

impl Search {
    // Stays (rule): a table is handed over as the number of its variables and a lent slice of words, and a start as a byte for each variable.
    // A search over a table, begun at the given assignment.
    pub fn load(variables: usize, words: &[i32], start: &[u8]) -> Search
        requires table { Legal variables words.now }
        requires values { length start.now ≡ variables }
        ensures { model result ≡ loaded variables words.now start.now }
    {
        let mut given = Given::new();
        given.copy(words);
        let mut formula = Formula::new();
        formula.load(variables as u16, words);
        let mut occurrences = Occurrences::new();
        occurrences.fill(&formula);
        let mut table = Table::new();
        table.restart(&formula, start);
        Search {
            given,
            formula,
            occurrences,
            table,
        }
    }

    // Takes over another table in place of the one that is there, and begins at the given assignment.
    pub fn reload(&mut self, variables: usize, words: &[i32], start: &[u8])
        requires table { Legal variables words.now }
        requires values { length start.now ≡ variables }
        ensures { model self.new ≡ loaded variables words.now start.now }
    {
        self.given.copy(words);
        self.formula.load(variables as u16, words);
        let formula = &self.formula;
        self.occurrences.fill(formula);
        self.table.restart(formula, start);
    }

    // Begins anew at the given assignment.
    pub fn restart(&mut self, start: &[u8])
        requires { length start.now ≡ (model self.old).variables }
        ensures { model self.new ≡ restarted (model self.old) start.now }
    {
        self.table.restart(&self.formula, start);
    }

    // Gives the variable `x` its other value, at the next tick.
    pub fn flip(&mut self, x: usize)
        requires variable { x < (model self.old).variables }
        requires tick { (model self.old).tick < 1000000 }
        ensures flips { model self.new ≡ flipped x (model self.old) }
        ensures pays { pos (cost (model self.new)) ≡ pos (cost (model self.old)) -ℤ score (model self.old) x }
        ensures near { (y : ℕ) → (y ≢ x) → neighbours (model self.old) x y ≡ false → Alike y (model self.old) (model self.new) }
    {
        self.table.flip(&self.formula, &self.occurrences, x);
    }

    // Each unsatisfied clause gains weight 1, and weights of more than 300 on average are smoothed. No tick passes: one has to pass before the next weighing.
    // Stays (no plainer): the pace and the tick are clauses, and no facts of the type. Between a weighing and its tick a search is not paced, and at the last tick it can still be asked.
    pub fn weigh(&mut self)
        requires pace { Paced (model self.old) }
        requires tick { (model self.old).tick < 1000000 }
        ensures weighs { model self.new ≡ weighed (model self.old) }
        ensures slow { total (model self.new) ≤ total (model self.old) + length (model self.old).clauses }
    {
        self.table.weigh(&self.formula);
    }

    // A tick passes.
    pub fn pass_tick(&mut self)
        requires { (model self.old).tick < 1000000 }
        ensures { model self.new ≡ ticked (model self.old) }
    {
        self.table.tick += 1;
    }
}
