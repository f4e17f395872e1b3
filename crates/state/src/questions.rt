// What a search can be asked. Variables and clauses go by their places, from 0.
ghost use Rattle.std.specs.Prelude.{◌≡◌, ◌<◌, ◌≤◌, EachIndex, length, map, slice_index, slice_index_or};
ghost use Rattle.formula.specs.declared.entry.Entry.{Entry};
ghost use Rattle.formula.specs.Entries.{entry0};
ghost use Rattle.state.specs.Model.{assignment, stamp_of, weight_of, cost as costOf, score as scoreOf, total as total_of, changed as changedOf, unsatisfied, variables_in};
ghost use Rattle.state.specs.Searches.{model};

use crate::search::Search;
use formula::entry::Entry;

impl Search {
    // The number of variables.
    pub fn variables(&self) -> usize
        ensures is { result ≡ (model self.now).variables }
        ensures few { (0 < result) × (result ≤ 256) }
    {
        self.formula.variables as usize
    }

    // The number of clauses.
    pub fn clauses(&self) -> usize
        ensures is { result ≡ length (model self.now).clauses }
        ensures few { (0 < result) × (result ≤ 1024) }
    {
        self.formula.clauses()
    }

    pub fn value(&self, x: usize) -> bool
        requires { x < (model self.now).variables }
        ensures { result ≡ assignment (model self.now) x }
    {
        self.table.rows[x].value
    }

    pub fn score(&self, x: usize) -> i32
        requires { x < (model self.now).variables }
        ensures { result ≡ scoreOf (model self.now) x }
    {
        self.table.rows[x].score as i32
    }

    pub fn stamp(&self, x: usize) -> u32
        requires { x < (model self.now).variables }
        ensures { result ≡ stamp_of (model self.now) x }
    {
        self.table.rows[x].stamp
    }

    pub fn changed(&self, x: usize) -> bool
        requires { x < (model self.now).variables }
        ensures { result ≡ changedOf (model self.now) x }
    {
        self.table.rows[x].changed
    }

    pub fn weight(&self, clause: usize) -> u32
        requires { clause < length (model self.now).clauses }
        ensures { result ≡ weight_of (model self.now) clause }
    {
        self.table.clauses[clause].weight
    }

    pub fn cost(&self) -> u32
        ensures { result ≡ costOf (model self.now) }
    {
        self.table.cost as u32
    }

    // The sum of all weights.
    pub fn total(&self) -> u32
        ensures { result ≡ total_of (model self.now) }
    {
        self.table.total as u32
    }

    pub fn tick(&self) -> u32
        ensures { result ≡ (model self.now).tick }
    {
        self.table.tick
    }

    // How many clauses are unsatisfied.
    pub fn unsatisfied_count(&self) -> usize
        ensures { result ≡ length (unsatisfied (model self.now)) }
    {
        self.table.unsatisfied_count(self.formula.clauses())
    }

    // The clause at a place of the rising list of the unsatisfied ones.
    pub fn unsatisfied_at(&self, place: usize) -> usize
        requires { place < length (unsatisfied (model self.now)) }
        ensures is { result ≡ slice_index (unsatisfied (model self.now)) place }
        ensures below { result < length (model self.now).clauses }
    {
        self.table.unsatisfied_at(self.formula.clauses(), place)
    }

    // The entries of a clause, by rising variable: one for each that it names.
    pub fn entries(&self, clause: usize) -> &[Entry]
        requires { clause < length (model self.now).clauses }
        ensures variables { map (λ (e : Entry). e.variable) result.now ≡ variables_in (model self.now) clause }
        ensures below { EachIndex result.now (λ j. (slice_index_or result.now j entry0).variable < (model self.now).variables) }
    {
        self.formula.entries_of(clause)
    }
}
