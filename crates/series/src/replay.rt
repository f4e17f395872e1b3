// A series of calls on a new engine.
ghost use Rattle.std.specs.Prelude.{◌≡◌, length};
ghost use Rattle.engine.specs.Engines.{held};
ghost use Rattle.series.specs.Promises.{series, GivesWhatTheCallsGive, MakesItsHistory, EnginesAreExact, LawsOfSearch};

use crate::call::{Answer, Call, Lent};
use crate::perform::perform;
use cnf::refusal::Refusal;
use engine::answers::Move;
use engine::engine::Engine;
use policy::admission::Policy;
use policy::source::Source;

// Goes through the calls in their order, as many as there are places for their answers, and gives the engine then. Every call is lent the words, the starts and the trail, and each step or run one of the policies and one of the sources.
pub fn replay<P: Policy, S: Source>(
    calls: &[Call],
    lent: Lent<P>,
    sources: &mut [S],
    trail: &mut [Move],
    answers: &mut [Result<Answer, Refusal>],
) -> Engine
    ensures gives { GivesWhatTheCallsGive (series P.Policy.level S.Source.meaning lent.entry.words.now lent.entry.starts.now lent.entry.policies.now calls.now sources.old trail.old (length answers.old)) (held result) sources.new trail.new answers.old answers.new }
    ensures history { MakesItsHistory (series P.Policy.level S.Source.meaning lent.entry.words.now lent.entry.starts.now lent.entry.policies.now calls.now sources.old trail.old (length answers.old)).history (held result) }
    ensures exact { EnginesAreExact }
    ensures laws { LawsOfSearch S }
{
    let mut engine = Engine::new();
    // Stays (proof): the call by its place, and no zip of calls and answers. With a zip the invariant could not say which answers are written, which only the iterator's own borrow tells.
    for (i, answer) in answers.iter_mut().enumerate() {
        let Some(call) = calls.get(i) else {
            break;
        };
        *answer = perform(&mut engine, *call, lent, sources, trail);
    }
    engine
}
