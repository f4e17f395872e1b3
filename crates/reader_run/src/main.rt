// Runs the reader and the table check on texts and tables at their limits, and prints what they answer.
#![tactic(auto)]

use cnf::refusal::Refusal;
use cnf::table::{check, check_table};
use dimacs::read::{Problem, read};
use std::alloc::AllocError;
use std::io;

const ROOM: usize = 5_200;

fn show(rt: &HostRuntime, name: &str, text: &[u8]) -> io::Result<()> {
    let mut words = vec![in rt.alloc(); 0i32; ROOM]?;
    match read(text, &mut words) {
        Ok(
            Problem {
                variables,
                clauses,
                words: count,
            },
        ) => println!(rt; "{name}: {variables} variables, {clauses} clauses, {count} words"),
        Err(fault) => {
            let refusal = Refusal::from(fault);
            println!(rt; "{name}: {refusal}")
        }
    }
}

fn show_table(rt: &HostRuntime, name: &str, variables: usize, words: &[i32]) -> io::Result<()> {
    match check_table(variables, words) {
        Ok(clauses) => println!(rt; "{name}: {clauses} clauses"),
        Err(refusal) => println!(rt; "{name}: {refusal}"),
    }
}

fn show_check(
    rt: &HostRuntime,
    name: &str,
    variables: usize,
    words: &[i32],
    start: &[u8],
) -> io::Result<()> {
    match check(variables, words, start) {
        Ok(Some(clause)) => println!(rt; "{name}: clause {clause} is broken"),
        Ok(None) => println!(rt; "{name}: satisfied"),
        Err(refusal) => println!(rt; "{name}: {refusal}"),
    }
}

// A head, then a piece so many times, then an end.
fn repeated<T: Copy>(
    rt: &HostRuntime,
    head: &[T],
    piece: &[T],
    times: usize,
    end: &[T],
) -> Result<Vec<T>, AllocError> {
    let mut whole = Vec::new(rt.alloc());
    whole.extend_from_slice(head)?;
    for _ in 0..times {
        whole.extend_from_slice(piece)?;
    }
    whole.extend_from_slice(end)?;
    Ok(whole)
}

fn small_texts(rt: &HostRuntime) -> io::Result<()> {
    show(rt, "variable above the limit", b"p cnf 1 1\n2 0")?;
    show(rt, "empty clause", b"p cnf 1 1\n0")?;
    show(rt, "unended clause", b"p cnf 1 1\n1")?;
    show(rt, "both signs", b"p cnf 1 1\n1 -1 0")?;
    show(rt, "no text", b"")?;
    show(rt, "blank line first", b"c a\n\np cnf 1 1\n1 0\n")?;
    show(rt, "comments alone", b"c a\nc b\n")?;
    show(rt, "comments first", b"c\nc p cnf 9 9\np cnf 2 1\n-1 2 0\n")?;
    show(rt, "comment later", b"p cnf 1 1\nc a\n1 0\n")?;
    show(rt, "minus zero", b"p cnf 1 1\n-0")?;
    show(rt, "plus", b"p cnf 1 1\n+1 0")?;
    show(rt, "leading zero", b"p cnf 1 1\n01 0")?;
    show(rt, "extra clause", b"p cnf 1 1\n1 0 1 0")?;
    show(rt, "missing clause", b"p cnf 1 2\n1 0\n")
}

fn heads(rt: &HostRuntime) -> io::Result<()> {
    show(rt, "space before p", b" p cnf 1 1\n1 0")?;
    show(rt, "three words", b"p cnf 1\n1 0")?;
    show(rt, "five words", b"p cnf 1 1 1\n1 0")?;
    show(rt, "other form", b"p sat 1 1\n1 0")?;
    show(rt, "no variables", b"p cnf 0 1\n1 0")?;
    show(rt, "negative variables", b"p cnf -3 1\n1 0")?;
    show(rt, "257 variables", b"p cnf 257 x\n1 0")?;
    show(rt, "variables are a name", b"p cnf v 0\n1 0")?;
    show(rt, "no clauses", b"p cnf 1 0\n")?;
    show(rt, "1,025 clauses said", b"p cnf 1 1025\n")?;
    show(rt, "100,000 variables", b"p cnf 100000 1\n1 0")
}

fn bytes(rt: &HostRuntime) -> io::Result<()> {
    show(
        rt,
        "tabs and returns",
        b"p\tcnf\r2 \t1\r\n\t1\r-2\n\n 0 \t\r\n",
    )?;
    show(rt, "byte 0 in a word", b"p cnf 1 1\n1\x00 0")?;
    show(rt, "byte 11 between words", b"p cnf 1 1\n1\x0b0")?;
    show(rt, "byte 255 in a word", b"p cnf 1 1\n\xff1 0")?;
    show(
        rt,
        "forty digits",
        b"p cnf 1 1\n1234567890123456789012345678901234567890 0",
    )?;
    show(
        rt,
        "forty digits, negative",
        b"p cnf 1 1\n-9999999999999999999999999999999999999999 0",
    )
}

fn limits(rt: &HostRuntime) -> io::Result<()> {
    show(
        rt,
        "65,535 bytes",
        repeated(rt, b"p cnf 1 1\n1 0", b" ", 65_522, b"")?.as_slice(),
    )?;
    show(
        rt,
        "65,536 bytes",
        repeated(rt, b"p cnf 1 1\n1 0", b" ", 65_523, b"")?.as_slice(),
    )?;
    show(
        rt,
        "4,096 literals",
        repeated(rt, b"p cnf 1 1\n", b"1 ", 4_096, b"0")?.as_slice(),
    )?;
    show(
        rt,
        "4,097 literals",
        repeated(rt, b"p cnf 1 1\n", b"1 ", 4_097, b"0")?.as_slice(),
    )?;
    show(
        rt,
        "1,024 clauses",
        repeated(rt, b"p cnf 1 1024\n", b"1 0\n", 1_024, b"")?.as_slice(),
    )?;
    show(
        rt,
        "a 1,025th clause",
        repeated(rt, b"p cnf 1 1024\n", b"1 0\n", 1_025, b"")?.as_slice(),
    )
}

fn tables(rt: &HostRuntime) -> io::Result<()> {
    show_table(rt, "least word", 256, &[i32::MIN, 0])?;
    show_table(rt, "empty table", 1, &[])?;
    show_table(rt, "no variables", 0, &[1, 0])?;
    show_table(
        rt,
        "1,025 clauses",
        1,
        repeated(rt, &[], &[1, 0], 1_025, &[])?.as_slice(),
    )?;
    show_table(
        rt,
        "1,024 clauses",
        1,
        repeated(rt, &[], &[1, 0], 1_024, &[])?.as_slice(),
    )?;
    show_check(rt, "both signs", 1, &[1, -1, 0], &[0])?;
    show_check(rt, "second clause", 2, &[-1, 0, 1, 2, 0], &[0, 0])?;
    show_check(rt, "short start", 2, &[1, 0], &[0])?;
    show_check(rt, "bad start", 2, &[1, 0], &[0, 2])
}

fn main(rt: HostRuntime) -> io::Result<()> {
    small_texts(&rt)?;
    heads(&rt)?;
    bytes(&rt)?;
    limits(&rt)?;
    tables(&rt)
}
