// One step of a search.
// Stays (no plainer): search, policy and source are three parameters. The search and the source are changed and the policy is only asked, and in a struct of them each clause would have to name its part.
ghost use Rattle.std.specs.Prelude.{◌≡◌, ◌<◌, length};
ghost use Rattle.policy.specs.Numbers.{level_number};
ghost use Rattle.state.specs.Model.{Paced, unsatisfied, flipped};
ghost use Rattle.state.specs.Searches.{model};
ghost use Rattle.engine.specs.Steps.{moved, place_of, dive as diveWith, stepped, offer, left};

use crate::answers::{Move, Stepped};
use crate::picks::{level_of, scan, top_of_clause};
use policy::admission::{Level, Policy};
use policy::source::Source;
use state::search::Search;

// The mode of a greedy flip: the number of the variable's level.
fn mode_of(level: Option<Level>) -> u8
    ensures { result ≡ level_number level }
{
    level.map_or(0, |level| level as u8)
}

// Flips the variable at a place, and gives the record of it.
fn flip_by(search: &mut Search, mode: u8, x: usize) -> Move
    requires x { x < (model search.old).variables }
    requires tick { (model search.old).tick < 1000000 }
    ensures recorded { result ≡ moved mode x (model search.old) }
    ensures model { model search.new ≡ flipped x (model search.old) }
{
    let score = search.score(x);
    search.flip(x);
    Move {
        mode,
        variable: x + 1,
        score,
        cost: search.cost(),
    }
}

// The place in a list of so many clauses that a drawn number gives.
fn place_of(number: u32, count: usize) -> usize
    requires { 0 < count }
    ensures is { result ≡ place_of number count }
    ensures below { result < count }
{
    number as usize % count
}

// Weighs, and flips the best ranked variable of the unsatisfied clause that the number gives.
fn dive(search: &mut Search, number: u32) -> Move
    requires tick { (model search.old).tick < 1000000 }
    requires pace { Paced (model search.old) }
    requires left { 0 < length (unsatisfied (model search.old)) }
    ensures recorded { Stepped.Moved result ≡ (diveWith number (model search.old)).answer }
    ensures model { model search.new ≡ (diveWith number (model search.old)).model }
{
    let place = place_of(number, search.unsatisfied_count());
    let clause = search.unsatisfied_at(place);
    search.weigh();
    // Stays (no plainer): 0 where a clause names no variable, as the definition of a dive says of every clause. That a loaded one names some would be one clause more of a search, for this line alone.
    let x = top_of_clause(search, clause).unwrap_or(0);
    flip_by(search, 0, x)
}

// One step.
pub(crate) fn advance<P: Policy, S: Source>(
    search: &mut Search,
    policy: &P,
    source: &mut S,
) -> Stepped
    requires tick { (model search.old).tick < 1000000 }
    requires pace { Paced (model search.old) }
    ensures answer { result ≡ (stepped (P.Policy.level policy.now) (offer S.Source.meaning source.old) (model search.old)).answer }
    ensures model { model search.new ≡ (stepped (P.Policy.level policy.now) (offer S.Source.meaning source.old) (model search.old)).model }
    ensures source { source.new ≡ left S.Source.meaning result source.old }
{
    if search.unsatisfied_count() == 0 {
        return Stepped::Found;
    }
    if let Some(x) = scan(search, policy) {
        let mode = mode_of(level_of(search, policy, x));
        return Stepped::Moved(flip_by(search, mode, x));
    }
    if !source.ready() {
        return Stepped::Dry;
    }
    Stepped::Moved(dive(search, source.draw()))
}
