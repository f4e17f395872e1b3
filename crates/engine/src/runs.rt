// A run: steps until one finds every clause satisfied, is dry, or the budget is made.
ghost use Rattle.std.specs.Prelude.{◌≡◌, ◌+◌, ◌≤◌, length, if◌then◌else◌};
ghost use Rattle.state.specs.Model.{Paced};
ghost use Rattle.state.specs.Searches.{model};
ghost use Rattle.engine.specs.Steps.{run, ran_to, is_dive, counts, trailed};

use crate::answers::{Move, Outcome, Stepped};
use crate::steps::advance;
use policy::admission::Policy;
use policy::source::Source;
use state::search::Search;

// How many dives a record counts for.
fn dives_of(entry: Move) -> usize
    ensures { result ≡ (if is_dive entry then 1 else 0) }
{
    usize::from(entry.mode == 0)
}

// The outcome of a run that has made its whole budget.
fn last_look(search: &Search) -> Outcome
    ensures { result ≡ ran_to (model search.now) }
{
    if search.unsatisfied_count() == 0 {
        Outcome::Found
    } else {
        Outcome::Unknown
    }
}

// At most so many steps, whose records fill the trail from the front; gives the outcome, the steps and the dives.
pub(crate) fn run_on<P: Policy, S: Source>(
    search: &mut Search,
    policy: &P,
    source: &mut S,
    budget: usize,
    trail: &mut [Move],
) -> (Outcome, usize, usize)
    requires ticks { (model search.old).tick + budget ≤ 1000000 }
    requires pace { Paced (model search.old) }
    requires trail { budget ≤ length trail.old }
    ensures answer { result ≡ counts (run (P.Policy.level policy.now) S.Source.meaning budget (model search.old) source.old) }
    ensures model { model search.new ≡ (run (P.Policy.level policy.now) S.Source.meaning budget (model search.old) source.old).model }
    ensures source { source.new ≡ (run (P.Policy.level policy.now) S.Source.meaning budget (model search.old) source.old).source }
    ensures trail { trail.new ≡ trailed (run (P.Policy.level policy.now) S.Source.meaning budget (model search.old) source.old).moves trail.old }
{
    let mut dives = 0;
    for (i, record) in trail[..budget].iter_mut().enumerate() {
        match advance(search, policy, source) {
            Stepped::Found => return (Outcome::Found, i, dives),
            Stepped::Dry => return (Outcome::Dry, i, dives),
            Stepped::Moved(entry) => {
                *record = entry;
                dives += dives_of(entry);
            }
        }
    }
    (last_look(search), budget, dives)
}
