// Writes tables that are drawn by chance, reads each back, and prints how many came back the same.
#![tactic(auto)]

use cnf::refusal::Check;
use dimacs::read::{Problem, read};
use dimacs::write::write;
use std::alloc::AllocError;
use std::io;

const TABLES: u32 = 300;

// The most bytes that a table's text takes.
const LONGEST: usize = 22_543;

// Numbers from a linear congruence.
#[derive(Drop)]
struct Dice {
    state: u32,
}

impl Dice {
    // A number below 32,768 and below the one given, or 0 where that is 0.
    fn below(&mut self, most: u32) -> u32 {
        self.state = ((self.state as u64 * 1_103_515_245 + 12_345) % 2_147_483_648) as u32;
        if most == 0 {
            0
        } else {
            self.state / 65_536 % most
        }
    }

    // A literal of one of so many variables.
    fn literal(&mut self, variables: u32) -> i32 {
        let variable = (1 + self.below(variables) % 256) as i32;
        if self.below(2) == 0 {
            variable
        } else {
            -variable
        }
    }
}

// A table's size: variables, clauses and literals.
#[derive(Clone, Copy)]
struct Size {
    variables: u32,
    clauses: u32,
    literals: u32,
}

// Every third table is small, every tenth is at its limits.
fn draw_size(dice: &mut Dice, n: u32) -> Size {
    if n % 10 == 9 {
        return Size {
            variables: 256,
            clauses: 1_024,
            literals: 4_096,
        };
    }
    let most = if n % 3 == 0 { 4 } else { 1_024 };
    let clauses = 1 + dice.below(most) % 1_024;
    let literals = clauses + dice.below(4_097 - clauses) % 3_072;
    Size {
        variables: 1 + dice.below(if n % 3 == 0 { 3 } else { 256 }) % 256,
        clauses,
        literals,
    }
}

// A table, and how many variables and clauses it has.
#[derive(Drop)]
struct Table {
    variables: usize,
    clauses: usize,
    words: Vec<i32>,
}

impl Table {
    // A table of a size: each clause takes a few literals, and the last one what is left.
    fn draw(rt: &HostRuntime, dice: &mut Dice, size: Size) -> Result<Table, AllocError> {
        let mut words = Vec::new(rt.alloc());
        let mut left = size.literals;
        for behind in (0..size.clauses).rev() {
            let spare = left.saturating_sub(behind).saturating_sub(1);
            let more = if behind == 0 {
                spare
            } else {
                dice.below(8).min(spare)
            };
            for _ in 0..more {
                words.push(dice.literal(size.variables))?;
            }
            words.push(dice.literal(size.variables))?;
            words.push(0)?;
            left = left.saturating_sub(more).saturating_sub(1);
        }
        Ok(Table {
            variables: size.variables as usize,
            clauses: size.clauses as usize,
            words,
        })
    }

    // The table with the longest text.
    fn widest(rt: &HostRuntime) -> Result<Table, AllocError> {
        let mut words = Vec::new(rt.alloc());
        for _ in 0..1_024 {
            words.extend_from_slice(&[-256, -256, -256, -256, 0])?;
        }
        Ok(Table {
            variables: 256,
            clauses: 1_024,
            words,
        })
    }

    // The text of the table, if it is accepted.
    fn text(&self, rt: &HostRuntime) -> Result<Option<Vec<u8>>, AllocError> {
        let mut text = vec![in rt.alloc(); 0u8; LONGEST]?;
        let Ok(n) = write(self.variables, &self.words, &mut text) else {
            return Ok(None);
        };
        text.truncate(n);
        Ok(Some(text))
    }

    // Whether a text reads to the table, and no word more is written.
    fn is_read_from(&self, rt: &HostRuntime, text: &[u8]) -> Result<bool, AllocError> {
        let mut back = vec![in rt.alloc(); 0i32; self.words.len()]?;
        let problem = Problem {
            variables: self.variables,
            clauses: self.clauses,
            words: self.words.len(),
        };
        Ok(read(text, &mut back) == Ok(problem) && back == self.words)
    }

    // Whether so few bytes are refused as too few, and left unaltered.
    fn is_refused(&self, rt: &HostRuntime, room: usize) -> Result<bool, AllocError> {
        let mut out = vec![in rt.alloc(); 7u8; room]?;
        let answer = write(self.variables, &self.words, &mut out);
        Ok(answer == Err(Check::BytesRoom.at(0)) && out.iter().all(|b| *b == 7))
    }
}

// The tables that came back the same, those that were refused for one byte less, and the bytes of the longest text.
#[derive(Drop)]
struct Counts {
    same: u32,
    refused: u32,
    longest: usize,
}

impl Counts {
    // Writes a table and reads it back.
    fn take(&mut self, rt: &HostRuntime, table: &Table) -> Result<(), AllocError> {
        let Some(text) = table.text(rt)? else {
            return Ok(());
        };
        self.longest = self.longest.max(text.len());
        if table.is_read_from(rt, &text)? {
            self.same = self.same.saturating_add(1);
        }
        if table.is_refused(rt, text.len().saturating_sub(1))? {
            self.refused = self.refused.saturating_add(1);
        }
        Ok(())
    }
}

fn main(rt: HostRuntime) -> io::Result<()> {
    let mut dice = Dice { state: 1 };
    let mut counts = Counts {
        same: 0,
        refused: 0,
        longest: 0,
    };
    for n in 0..TABLES {
        let size = draw_size(&mut dice, n);
        counts.take(&rt, &Table::draw(&rt, &mut dice, size)?)?;
    }
    counts.take(&rt, &Table::widest(&rt)?)?;
    let Counts {
        same,
        refused,
        longest,
    } = counts;
    println!(rt;
        "{TABLES} tables and the widest: {same} came back the same, {refused} were refused for one byte less; the longest text has {longest} bytes"
    )
}
