// Goes through a mixed series of calls with two policies and a recorded source, and prints what each call answered.
#![tactic(auto)]

use cnf::refusal::Refusal;
use engine::answers::Move;
use policy::admission::{Cca, Descent};
use policy::any::AnyPolicy;
use policy::recorded::Recorded;
use series::call::{Answer, Call, Lent, Part, Question};
use series::replay::replay;
use std::io;

const CALLS: usize = 18;

fn series() -> [Call; CALLS] {
    let start = Part { from: 0, to: 2 };
    [
        Call::Step {
            policy: 0,
            source: 0,
        },
        Call::Load {
            variables: 2,
            words: Part { from: 0, to: 9 },
            start,
        },
        Call::Ask {
            question: Question::Score(1),
        },
        Call::Ask {
            question: Question::Cost,
        },
        Call::Step {
            policy: 0,
            source: 0,
        },
        Call::Step {
            policy: 1,
            source: 0,
        },
        Call::Ask {
            question: Question::Weight(3),
        },
        Call::Flip { variable: 3 },
        Call::Flip { variable: 2 },
        Call::Weigh,
        Call::Ask {
            question: Question::Tick,
        },
        Call::Ask {
            question: Question::UnsatisfiedAt(0),
        },
        Call::Run {
            policy: 0,
            source: 0,
            budget: 4,
        },
        Call::Run {
            policy: 1,
            source: 0,
            budget: 9,
        },
        Call::Ask {
            question: Question::Changed(2),
        },
        Call::Restart { start },
        Call::Ask {
            question: Question::Unsatisfied,
        },
        Call::Load {
            variables: 2,
            words: Part { from: 0, to: 99 },
            start,
        },
    ]
}

fn show(rt: &HostRuntime, number: usize, answer: Result<Answer, Refusal>) -> io::Result<()> {
    match answer {
        Ok(answer) => println!(rt; "{number}: {answer:?}"),
        Err(refusal) => println!(rt; "{number}: {refusal}"),
    }
}

fn main(rt: HostRuntime) -> io::Result<()> {
    let words = [1, 1, 0, -1, 2, 0, -1, -2, 0];
    let numbers = [7u32, 4_294_967_295, 2, 0, 5];
    let policies = [AnyPolicy::Cca(Cca), AnyPolicy::Descent(Descent)];
    let mut sources = [Recorded::new(&numbers)];
    let mut trail = [Move::default(); 4];
    let mut answers = vec![in rt.alloc(); Ok(Answer::Done); CALLS]?;
    let engine = replay(
        &series(),
        Lent {
            words: &words,
            starts: &[0, 0],
            policies: &policies,
        },
        &mut sources,
        &mut trail,
        &mut answers,
    );
    for (i, answer) in answers.iter().enumerate() {
        show(&rt, i.saturating_add(1), *answer)?;
    }
    match engine.cost() {
        Ok(cost) => println!(rt; "cost {cost}"),
        Err(_) => println!(rt; "no formula"),
    }
}
