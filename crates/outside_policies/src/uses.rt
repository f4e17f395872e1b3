// What generic code may lean on, and series of calls that mix policies and sources.
ghost use Rattle.std.specs.Prelude.{false, ◌≡◌, ltb, get_or};
ghost use Rattle.policy.specs.Generators.{next};
ghost use Rattle.policy.specs.Numbers.{level_number};
ghost use Rattle.policy.specs.Policies.{cca, descent};
ghost use Rattle.outside_policies.specs.Threshold.{threshold};

use crate::countdown::Countdown;
use crate::threshold::Threshold;
use policy::admission::{Cca, Descent, Level, Policy, View};
use policy::any::{AnyPolicy, AnySource};
use policy::generator::Generator;
use policy::recorded::Recorded;
use policy::source::Source;

// Whether the policy admits the variable. Where the laws of every policy tell, it is not asked.
pub fn admits<P: Policy>(policy: &P, view: View) -> bool
    ensures { result ≡ ltb 0 (P.Policy.level policy.now view.score view.changed view.total view.clauses) }
{
    if view.score <= 0 {
        return false;
    }
    view.changed || policy.level(view).is_some()
}

// A number from the source; one that has none is left as it was.
pub fn number<S: Source>(source: &mut S) -> u32
    ensures number { result ≡ S.Source.meaning.number source.old }
    ensures after { source.new ≡ S.Source.meaning.after source.old }
    ensures none { S.Source.meaning.ready source.old ≡ false → result ≡ 0 }
    ensures same { S.Source.meaning.ready source.old ≡ false → source.new ≡ source.old }
{
    source.draw()
}

// Whether a policy that holds a reference admits the variable.
pub fn admits_from(least: &u32, view: View) -> bool
    ensures { result ≡ ltb 0 (threshold (record { least = least.entry }) view.score view.changed view.total view.clauses) }
{
    admits(&Threshold::new(least), view)
}

// The first number of a countdown.
pub fn first_number(from: u32) -> u32
    ensures { result ≡ from }
{
    number(&mut Countdown::new(from))
}

// The levels that the two policies give one variable.
pub fn both_levels(view: View) -> (Option<Level>, Option<Level>)
    ensures first { level_number result.0 ≡ cca view.score view.changed view.total view.clauses }
    ensures second { level_number result.1 ≡ descent view.score view.changed view.total view.clauses }
{
    let [first, second] = [AnyPolicy::Cca(Cca), AnyPolicy::Descent(Descent)];
    (first.level(view), second.level(view))
}

// A number from a generator and one from a record.
pub fn both_numbers(generator: Generator, words: &[u32]) -> (u32, u32)
    ensures { result ≡ (next generator.state, get_or words.now 0 0) }
{
    let mut sources = [
        AnySource::Generator(generator),
        AnySource::Recorded(Recorded::new(words)),
    ];
    let first = number(&mut sources[0]);
    let second = number(&mut sources[1]);
    (first, second)
}
