// Which variable goes first. Variables go by their places, from 0.
ghost use Rattle.std.specs.Prelude.{◌≡◌, ◌<◌, length};
ghost use Rattle.policy.specs.Numbers.{level_number};
ghost use Rattle.state.specs.Model.{score, stamp_of};
ghost use Rattle.state.specs.Searches.{model};
ghost use Rattle.engine.specs.Picks.{level_of, pick as greedyPick, dive_pick, Within};

use policy::admission::{Level, Policy, View};
use state::search::Search;
use std::cmp::Reverse;

// How a variable ranks beside others: a greater score goes first, then a lesser stamp.
#[derive(Clone, Copy, Debug, PartialEq, Eq, PartialOrd, Ord)]
struct Rank {
    score: Reverse<i32>,
    stamp: u32,
}

// The rank of a variable.
fn rank_of(search: &Search, x: usize) -> Rank
    requires { x < (model search.now).variables }
    ensures score { result.score.0 ≡ score (model search.now) x }
    ensures stamp { result.stamp ≡ stamp_of (model search.now) x }
{
    Rank {
        score: Reverse(search.score(x)),
        stamp: search.stamp(x),
    }
}

// The level that the policy gives a variable.
pub(crate) fn level_of<P: Policy>(search: &Search, policy: &P, x: usize) -> Option<Level>
    requires { x < (model search.now).variables }
    ensures { level_number result ≡ level_of (P.Policy.level policy.now) (model search.now) x }
{
    policy.level(View {
        score: search.score(x),
        changed: search.changed(x),
        total: search.total(),
        clauses: search.clauses() as u32,
    })
}

// What tells which variable the policy picks: the level, then the rank.
fn standing_of<P: Policy>(search: &Search, policy: &P, x: usize) -> (Option<Level>, Rank)
    requires { x < (model search.now).variables }
    ensures level { level_number result.0 ≡ level_of (P.Policy.level policy.now) (model search.now) x }
    ensures score { result.1.score.0 ≡ score (model search.now) x }
    ensures stamp { result.1.stamp ≡ stamp_of (model search.now) x }
{
    (level_of(search, policy, x), rank_of(search, x))
}

// The variable that the policy picks: the least level above 0, then the greatest score, then the least stamp, then the least number.
pub(crate) fn scan<P: Policy>(search: &Search, policy: &P) -> Option<usize>
    ensures is { result ≡ greedyPick (P.Policy.level policy.now) (model search.now) }
    ensures within { Within result (model search.now).variables }
{
    let admitted = (0..search.variables()).filter(|x| level_of(search, policy, *x).is_some());
    admitted.min_by_key(|x| standing_of(search, policy, *x))
}

// The variable of a clause with the greatest score, then the least stamp, then the least number.
pub(crate) fn top_of_clause(search: &Search, clause: usize) -> Option<usize>
    requires { clause < length (model search.now).clauses }
    ensures is { result ≡ dive_pick (model search.now) clause }
    ensures within { Within result (model search.now).variables }
{
    let variables = search
        .entries(clause)
        .iter()
        .map(|entry| entry.variable as usize);
    variables.min_by_key(|x| rank_of(search, *x))
}
