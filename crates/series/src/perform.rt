// One call of a series.
ghost use Rattle.std.specs.Prelude.{◌≡◌, ℕ, List, []};
ghost use Rattle.engine.specs.Calls.{weigh_reply};
ghost use Rattle.engine.specs.Engines.{held};
ghost use Rattle.series.specs.Series.{lent as part_lent, look, load_with, restart_with, step_with, run_with, given, ran_as, answered, perform as performed};

use crate::call::{Answer, Call, Lent, Part, Question};
use cnf::refusal::{Check, Refusal};
use engine::answers::{Move, Outcome, Stepped};
use engine::engine::Engine;
use policy::admission::Policy;
use policy::source::Source;

// A load from parts of lent words and starts.
fn load_from<P>(
    engine: &mut Engine,
    lent: Lent<P>,
    variables: usize,
    words: Part,
    start: Part,
) -> Result<Answer, Refusal>
    ensures reply { result ≡ (load_with {Σ = ℕ} variables (part_lent lent.entry.words.now words) (part_lent lent.entry.starts.now start) (held engine.old) [] []).reply }
    ensures model { held engine.new ≡ (load_with {Σ = ℕ} variables (part_lent lent.entry.words.now words) (part_lent lent.entry.starts.now start) (held engine.old) [] []).model }
{
    let words = words.of(lent.words)?;
    let start = start.of(lent.starts)?;
    done(engine.load(variables, words, start))
}

// A restart from a part of lent starts.
fn restart_from<P>(engine: &mut Engine, lent: Lent<P>, start: Part) -> Result<Answer, Refusal>
    ensures reply { result ≡ (restart_with {Σ = ℕ} (part_lent lent.entry.starts.now start) (held engine.old) [] []).reply }
    ensures model { held engine.new ≡ (restart_with {Σ = ℕ} (part_lent lent.entry.starts.now start) (held engine.old) [] []).model }
{
    let start = start.of(lent.starts)?;
    done(engine.restart(start))
}

// A question.
fn ask(engine: &Engine, question: Question) -> Result<Answer, Refusal>
    ensures { result ≡ answered question (held engine.now) }
{
    match question {
        Question::Value(variable) => engine.value(variable).map(Answer::Flag),
        Question::Score(variable) => engine.score(variable).map(Answer::Score),
        Question::Stamp(variable) => engine.stamp(variable).map(Answer::Number),
        Question::Changed(variable) => engine.changed(variable).map(Answer::Flag),
        Question::Weight(clause) => engine.weight(clause).map(Answer::Number),
        Question::Cost => engine.cost().map(Answer::Number),
        Question::Tick => engine.tick().map(Answer::Number),
        Question::Unsatisfied => engine.unsatisfied_count().map(Answer::Count),
        Question::UnsatisfiedAt(place) => engine.unsatisfied_at(place).map(Answer::Count),
    }
}

// What a call that answers nothing else answered, as the answer of a series.
fn done(res: Result<(), Refusal>) -> Result<Answer, Refusal>
    ensures { result ≡ given (λ _. Answer.Done) res }
{
    res.map(|()| Answer::Done)
}

// A step with one of the lent policies and one of the lent sources.
// Stays (proof): the source by a test and an index. Where get_mut finds none, the library does not say that the sources are as they were.
fn step_with<P: Policy, S: Source>(
    engine: &mut Engine,
    lent: Lent<P>,
    sources: &mut [S],
    policy: usize,
    source: usize,
) -> Result<Answer, Refusal>
    ensures reply { result ≡ (step_with P.Policy.level S.Source.meaning (look lent.entry.policies.now policy) (look sources.old source) source (held engine.old) sources.old []).reply }
    ensures model { held engine.new ≡ (step_with P.Policy.level S.Source.meaning (look lent.entry.policies.now policy) (look sources.old source) source (held engine.old) sources.old []).model }
    ensures sources { sources.new ≡ (step_with P.Policy.level S.Source.meaning (look lent.entry.policies.now policy) (look sources.old source) source (held engine.old) sources.old []).sources }
{
    let policy = lent.policies.get(policy).ok_or(Check::InRange.at(0))?;
    if source >= sources.len() {
        return Err(Check::InRange.at(0));
    }
    engine
        .step(policy, &mut sources[source])
        .map(Answer::Stepped)
}

// A run with one of the lent policies and one of the lent sources.
// Stays (proof): the source by a test and an index, for the same reason.
fn run_with<P: Policy, S: Source>(
    engine: &mut Engine,
    lent: Lent<P>,
    sources: &mut [S],
    trail: &mut [Move],
    policy: usize,
    source: usize,
    budget: usize,
) -> Result<Answer, Refusal>
    ensures reply { result ≡ (run_with P.Policy.level S.Source.meaning (look lent.entry.policies.now policy) (look sources.old source) source budget (held engine.old) sources.old trail.old).reply }
    ensures model { held engine.new ≡ (run_with P.Policy.level S.Source.meaning (look lent.entry.policies.now policy) (look sources.old source) source budget (held engine.old) sources.old trail.old).model }
    ensures sources { sources.new ≡ (run_with P.Policy.level S.Source.meaning (look lent.entry.policies.now policy) (look sources.old source) source budget (held engine.old) sources.old trail.old).sources }
    ensures trail { trail.new ≡ (run_with P.Policy.level S.Source.meaning (look lent.entry.policies.now policy) (look sources.old source) source budget (held engine.old) sources.old trail.old).trail }
{
    let policy = lent.policies.get(policy).ok_or(Check::InRange.at(0))?;
    if source >= sources.len() {
        return Err(Check::InRange.at(0));
    }
    let ran = engine.run(policy, &mut sources[source], budget, trail);
    ran.map(|(outcome, steps, dives)| Answer::Ran(outcome, steps, dives))
}

// A weighing.
fn weigh_once(engine: &mut Engine) -> Result<Answer, Refusal>
    ensures reply { result ≡ given (λ _. Answer.Done) (weigh_reply (held engine.old)).answer }
    ensures model { held engine.new ≡ (weigh_reply (held engine.old)).model }
{
    done(engine.weigh())
}

// One call, lent words, starts, policies, sources and a trail.
pub fn perform<P: Policy, S: Source>(
    engine: &mut Engine,
    call: Call,
    lent: Lent<P>,
    sources: &mut [S],
    trail: &mut [Move],
) -> Result<Answer, Refusal>
    ensures reply { result ≡ (performed P.Policy.level S.Source.meaning lent.entry.words.now lent.entry.starts.now lent.entry.policies.now call (held engine.old) sources.old trail.old).reply }
    ensures model { held engine.new ≡ (performed P.Policy.level S.Source.meaning lent.entry.words.now lent.entry.starts.now lent.entry.policies.now call (held engine.old) sources.old trail.old).model }
    ensures sources { sources.new ≡ (performed P.Policy.level S.Source.meaning lent.entry.words.now lent.entry.starts.now lent.entry.policies.now call (held engine.old) sources.old trail.old).sources }
    ensures trail { trail.new ≡ (performed P.Policy.level S.Source.meaning lent.entry.words.now lent.entry.starts.now lent.entry.policies.now call (held engine.old) sources.old trail.old).trail }
{
    match call {
        Call::Load {
            variables,
            words,
            start,
        } => load_from(engine, lent, variables, words, start),
        Call::Restart { start } => restart_from(engine, lent, start),
        Call::Flip { variable } => done(engine.flip(variable)),
        Call::Weigh => weigh_once(engine),
        Call::Step { policy, source } => step_with(engine, lent, sources, policy, source),
        Call::Run {
            policy,
            source,
            budget,
        } => run_with(engine, lent, sources, trail, policy, source, budget),
        Call::Ask { question } => ask(engine, question),
    }
}
