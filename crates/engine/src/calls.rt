// What the engine can be told to do. Every call refuses instead of asking anything of its caller, and a refusal alters nothing.
ghost use Rattle.std.specs.Prelude.{◌≡◌, ◌≤◌, length, Some, None};
ghost use Rattle.cnf.specs.Tables.{Legal};
ghost use Rattle.state.specs.Model.{loaded};
ghost use Rattle.state.specs.Searches.{model};
ghost use Rattle.engine.specs.Engines.{held};
ghost use Rattle.engine.specs.Calls.{in_range, ticks_left, budget_fits, load_reply, restart_reply, flip_reply, weigh_reply, step_reply, run_reply, run_trail};

use crate::answers::{Move, Outcome, Stepped};
use crate::engine::Engine;
use crate::runs::run_on;
use crate::steps::advance;
use cnf::refusal::{Check, Refusal};
use cnf::table::{check_start, check_table};
use policy::admission::Policy;
use policy::source::Source;
use state::search::Search;

// The last tick that a search can come to.
pub const LAST_TICK: u32 = 1_000_000;
// The most steps that a run can be given.
pub const MOST_STEPS: usize = 65_535;

// A number from 1 to the greatest.
pub(crate) fn check_range(greatest: usize, number: usize) -> Result<(), Refusal>
    ensures { result ≡ in_range greatest number }
{
    if number < 1 || number > greatest {
        Err(Check::InRange.at(0))
    } else {
        Ok(())
    }
}

// So many ticks are left.
fn check_ticks(search: &Search, wanted: usize) -> Result<(), Refusal>
    requires { wanted ≤ 65535 }
    ensures { result ≡ ticks_left wanted (model search.now) }
{
    if search.tick() as usize + wanted > LAST_TICK as usize {
        Err(Check::TicksLeft.at(0))
    } else {
        Ok(())
    }
}

fn check_budget(budget: usize, trail: &[Move]) -> Result<(), Refusal>
    ensures { result ≡ budget_fits budget trail.now }
{
    if budget > MOST_STEPS || budget > trail.len() {
        Err(Check::BudgetFits.at(0))
    } else {
        Ok(())
    }
}

impl Engine {
    // An engine that has no formula yet.
    pub fn new() -> Engine
        ensures { held result ≡ None }
    {
        Engine { search: None }
    }

    // The load of a table where a search has to be made. A function pays at its entry for the locals that it may need, and a search is a large one: so this stands by itself.
    #[inline(never)]
    fn load_first(&mut self, variables: usize, words: &[i32], start: &[u8])
        requires table { Legal variables words.now }
        requires values { length start.now ≡ variables }
        ensures { held self.new ≡ Some (loaded variables words.now start.now) }
    {
        self.search = Some(Search::load(variables, words, start));
    }

    // Stays (rule): a table is handed over as the number of its variables and a lent slice of words, and a start as a byte for each variable.
    // Takes over a table, and begins at the given assignment.
    pub fn load(&mut self, variables: usize, words: &[i32], start: &[u8]) -> Result<(), Refusal>
        ensures answer { result ≡ (load_reply variables words.now start.now (held self.old)).answer }
        ensures model { held self.new ≡ (load_reply variables words.now start.now (held self.old)).model }
    {
        check_table(variables, words)?;
        check_start(variables, start)?;
        match &mut self.search {
            Some(search) => search.reload(variables, words, start),
            None => self.load_first(variables, words, start),
        }
        Ok(())
    }

    // Begins anew at the given assignment, with the table that is loaded.
    pub fn restart(&mut self, start: &[u8]) -> Result<(), Refusal>
        ensures answer { result ≡ (restart_reply start.now (held self.old)).answer }
        ensures model { held self.new ≡ (restart_reply start.now (held self.old)).model }
    {
        let Some(search) = &mut self.search else {
            return Err(Check::HasFormula.at(0));
        };
        check_start(search.variables(), start)?;
        search.restart(start);
        Ok(())
    }

    // Flips a variable.
    pub fn flip(&mut self, variable: usize) -> Result<(), Refusal>
        ensures answer { result ≡ (flip_reply variable (held self.old)).answer }
        ensures model { held self.new ≡ (flip_reply variable (held self.old)).model }
    {
        let Some(search) = &mut self.search else {
            return Err(Check::HasFormula.at(0));
        };
        check_range(search.variables(), variable)?;
        check_ticks(search, 1)?;
        search.flip(variable - 1);
        Ok(())
    }

    // Weighs, and lets a tick pass.
    pub fn weigh(&mut self) -> Result<(), Refusal>
        ensures answer { result ≡ (weigh_reply (held self.old)).answer }
        ensures model { held self.new ≡ (weigh_reply (held self.old)).model }
    {
        let Some(search) = &mut self.search else {
            return Err(Check::HasFormula.at(0));
        };
        check_ticks(search, 1)?;
        search.weigh();
        search.pass_tick();
        Ok(())
    }

    // One step.
    pub fn step<P: Policy, S: Source>(
        &mut self,
        policy: &P,
        source: &mut S,
    ) -> Result<Stepped, Refusal>
        ensures answer { result ≡ (step_reply (P.Policy.level policy.now) S.Source.meaning (held self.old) source.old).answer }
        ensures model { held self.new ≡ (step_reply (P.Policy.level policy.now) S.Source.meaning (held self.old) source.old).model }
        ensures source { source.new ≡ (step_reply (P.Policy.level policy.now) S.Source.meaning (held self.old) source.old).source }
    {
        let Some(search) = &mut self.search else {
            return Err(Check::HasFormula.at(0));
        };
        check_ticks(search, 1)?;
        Ok(advance(search, policy, source))
    }

    // At most so many steps, whose records fill the trail from the front; gives the outcome, the steps that moved and the dives among them.
    pub fn run<P: Policy, S: Source>(
        &mut self,
        policy: &P,
        source: &mut S,
        budget: usize,
        trail: &mut [Move],
    ) -> Result<(Outcome, usize, usize), Refusal>
        ensures answer { result ≡ (run_reply (P.Policy.level policy.now) S.Source.meaning budget (held self.old) source.old trail.old).answer }
        ensures model { held self.new ≡ (run_reply (P.Policy.level policy.now) S.Source.meaning budget (held self.old) source.old trail.old).model }
        ensures source { source.new ≡ (run_reply (P.Policy.level policy.now) S.Source.meaning budget (held self.old) source.old trail.old).source }
        ensures trail { trail.new ≡ run_trail (P.Policy.level policy.now) S.Source.meaning budget (held self.old) source.old trail.old }
    {
        let Some(search) = &mut self.search else {
            return Err(Check::HasFormula.at(0));
        };
        check_budget(budget, trail)?;
        check_ticks(search, budget)?;
        Ok(run_on(search, policy, source, budget, trail))
    }
}
