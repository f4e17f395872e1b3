// For each variable the clauses that name it.
ghost use Rattle.std.specs.Prelude.{◌≡◌, length};
ghost use Rattle.formula.specs.Spans.{Inside};

use crate::entry::names;
use crate::formula::Formula;
use crate::span::Span;
use arrayvec::ArrayVec;

// Each variable has the numbers of its clauses in one span, rising.
#[derive(Drop)]
pub struct Occurrences {
    pub(crate) spans: [Span; 256],
    pub(crate) clauses: ArrayVec<u16, 4096>,
    ghost rows: { length spans ≡ 256 },
    ghost inside: { Inside spans (length clauses.items) },
}

impl Occurrences {
    ghost use Rattle.std.specs.Prelude.{◌+◌, ◌<◌, ◌≤◌};
    ghost use Rattle.formula.specs.Formulas.{clause_count};
    ghost use Rattle.formula.specs.Occurrences.{OccursTo, Occurs, passing, names_at, listed, occurring_in};

    // No variable occurs yet.
    pub fn new() -> Occurrences
        ensures { listed result ≡ 0 }
    {
        Occurrences {
            spans: [Span { start: 0, end: 0 }; 256],
            clauses: ArrayVec::new(),
        }
    }

    // The clauses that name the variable, rising.
    pub fn clauses_of(&self, variable: usize) -> &[u16]
        requires { variable < 256 }
        ensures { result.now ≡ occurring_in self.now variable }
    {
        self.spans[variable].part_of(&self.clauses)
    }

    // Lists the clauses that name the next variable.
    fn add_variable(&mut self, f: &Formula, variable: u8)
        requires next { (variable < f.now.variables) × (OccursTo f.now variable self.old) }
        requires clauses_bound { listed self.old + length (passing (names_at f.now variable) (clause_count f.now)) ≤ 4096 }
        ensures occurs { OccursTo f.now (variable + 1) self.new }
        ensures more { listed self.new ≡ listed self.old + length (passing (names_at f.now variable) (clause_count f.now)) }
    {
        let start = self.clauses.len() as u16;
        // Stays (no plainer): the clause's number is what is listed.
        for i in 0..f.clauses() {
            if names(f.entries_of(i), variable) {
                self.clauses.push(i as u16);
            }
        }
        let end = self.clauses.len() as u16;
        self.spans[variable as usize] = Span { start, end };
    }

    // Lists for each variable the clauses that name it.
    pub fn fill(&mut self, f: &Formula)
        ensures { Occurs f.now self.new }
    {
        self.spans = [Span { start: 0, end: 0 }; 256];
        self.clauses.clear();
        // Stays (no plainer): the numbers themselves are gone over, and each turn changes what is made.
        for v in 0..f.variables {
            self.add_variable(f, v as u8);
        }
    }
}
