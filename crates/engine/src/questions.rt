// What the engine can be asked. Variables and clauses go by their numbers, from 1; places of the unsatisfied list from 0. Asking alters nothing.
ghost use Rattle.std.specs.Prelude.{◌≡◌, ℕ, ◌<◌, Some, None, MatchResult};
ghost use Rattle.std.specs.Borrow.{Bor};
ghost use Rattle.state.specs.declared.search.Search.{Search};
ghost use Rattle.cnf.specs.Refusals.{refused};
ghost use Rattle.state.specs.Model.{Model, assignment, stamp_of, weight_of, cost as costOf, score as scoreOf, changed as changedOf};
ghost use Rattle.state.specs.Searches.{model};
ghost use Rattle.engine.specs.Engines.{held};
ghost use Rattle.engine.specs.Calls.{of_variable, of_clause, of_model, tick_of, unsatisfied_count, unsatisfied_at};

use crate::calls::check_range;
use crate::engine::Engine;
use cnf::refusal::{Check, Refusal};
use state::search::Search;

impl Engine {
    // The search, where there is a formula.
    fn loaded(&self) -> Result<&Search, Refusal>
        ensures { MatchResult result (λ s. self.now.search ≡ Some s.now) (λ r. (self.now.search ≡ None) × (r ≡ refused Check.HasFormula 0)) }
    {
        self.search.as_ref().ok_or(Check::HasFormula.at(0))
    }

    // What the search answers of a variable.
    fn of_variable<T, F: FnOnce(&Search, usize) -> T>(
        &self,
        variable: usize,
        ask: F,
    ) -> Result<T, Refusal>
        requires { (s : Bor Search) (x : ℕ) → x < (model s.now).variables → F.pre ask s x }
        ensures { (k : Model → ℕ → T) → ((s : Bor Search) (x : ℕ) (t : T) → F.post ask s x t → t ≡ k (model s.now) x) → result ≡ of_variable k variable (held self.now) }
    {
        let search = self.loaded()?;
        check_range(search.variables(), variable)?;
        Ok(ask(search, variable - 1))
    }

    // The value of a variable.
    pub fn value(&self, variable: usize) -> Result<bool, Refusal>
        ensures { result ≡ of_variable assignment variable (held self.now) }
    {
        self.of_variable(variable, |s, x| s.value(x))
    }

    // The cost now less the cost with only the variable flipped.
    pub fn score(&self, variable: usize) -> Result<i32, Refusal>
        ensures { result ≡ of_variable scoreOf variable (held self.now) }
    {
        self.of_variable(variable, |s, x| s.score(x))
    }

    // The tick of the last flip of a variable, or 0.
    pub fn stamp(&self, variable: usize) -> Result<u32, Refusal>
        ensures { result ≡ of_variable stamp_of variable (held self.now) }
    {
        self.of_variable(variable, |s, x| s.stamp(x))
    }

    // Whether a variable has had no flip, or a neighbour has had a later one.
    pub fn changed(&self, variable: usize) -> Result<bool, Refusal>
        ensures { result ≡ of_variable changedOf variable (held self.now) }
    {
        self.of_variable(variable, |s, x| s.changed(x))
    }

    // The weight of a clause.
    pub fn weight(&self, clause: usize) -> Result<u32, Refusal>
        ensures { result ≡ of_clause weight_of clause (held self.now) }
    {
        let search = self.loaded()?;
        check_range(search.clauses(), clause)?;
        Ok(search.weight(clause - 1))
    }

    // The sum of the weights of the unsatisfied clauses.
    pub fn cost(&self) -> Result<u32, Refusal>
        ensures { result ≡ of_model costOf (held self.now) }
    {
        Ok(self.loaded()?.cost())
    }

    // The number of ticks since the search began.
    pub fn tick(&self) -> Result<u32, Refusal>
        ensures { result ≡ of_model tick_of (held self.now) }
    {
        Ok(self.loaded()?.tick())
    }

    // How many clauses are unsatisfied.
    pub fn unsatisfied_count(&self) -> Result<usize, Refusal>
        ensures { result ≡ of_model unsatisfied_count (held self.now) }
    {
        Ok(self.loaded()?.unsatisfied_count())
    }

    // The number of the clause at a place of the rising list of the unsatisfied ones.
    pub fn unsatisfied_at(&self, place: usize) -> Result<usize, Refusal>
        ensures { result ≡ unsatisfied_at place (held self.now) }
    {
        let search = self.loaded()?;
        if place >= search.unsatisfied_count() {
            return Err(Check::InRange.at(0));
        }
        Ok(search.unsatisfied_at(place) + 1)
    }
}
