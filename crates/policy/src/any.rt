// One of several policies, and one of several sources: a series of calls can so mix them.
// Stays (no plainer): an enum and a match for each method, and no dyn. The kinds are few and known here, and the laws are said of each of them.
ghost use Rattle.std.specs.Prelude.{◌≡◌};
ghost use Rattle.policy.specs.Any.{any_level, any_lawful, any_source, any_source_lawful};

use crate::admission::{Cca, Descent, Level, Policy, View};
use crate::generator::Generator;
use crate::recorded::Recorded;
use crate::source::Source;

// A policy of this crate.
#[derive(Clone, Copy)]
pub enum AnyPolicy {
    Cca(Cca),
    Descent(Descent),
}

impl Policy for AnyPolicy {
    ghost level = { any_level };

    ghost lawful = { any_lawful };

    fn level(&self, view: View) -> Option<Level> {
        match self {
            AnyPolicy::Cca(policy) => policy.level(view),
            AnyPolicy::Descent(policy) => policy.level(view),
        }
    }
}

// A source of this crate.
#[derive(Drop)]
pub enum AnySource<'a> {
    Generator(Generator),
    Recorded(Recorded<'a>),
}

impl<'a> Source for AnySource<'a> {
    ghost meaning = { any_source };

    ghost lawful = { any_source_lawful };

    fn ready(&self) -> bool {
        match self {
            AnySource::Generator(source) => source.ready(),
            AnySource::Recorded(source) => source.ready(),
        }
    }

    fn draw(&mut self) -> u32 {
        match self {
            AnySource::Generator(source) => source.draw(),
            AnySource::Recorded(source) => source.draw(),
        }
    }
}
