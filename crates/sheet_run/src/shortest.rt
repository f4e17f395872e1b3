// The least room in which a call is accepted, where every shorter buffer is refused with all bytes as they were.
use cnf::refusal::{Check, Refusal};
use sheet::print::print as print_sheet;
use sheet::refused::refused_line;
use sheet::sheet::{Effort, Sheet};

pub const ROOM: usize = 2048;

pub const BLANK: u8 = b'#';

pub type Bytes = [u8; ROOM];

// A table, an assignment of its variables, and the values that their sheet takes.
#[derive(Clone, Copy)]
pub struct Case<'a> {
    pub variables: usize,
    pub words: &'a [i32],
    pub assignment: &'a [u8],
    pub values: &'a [u8],
}

const EFFORT: Effort = Effort {
    steps: u32::MAX,
    dives: 17,
};

// Makes a call in more and more room, from so much on, and gives what it made and the room that it took. It gives back what the
// last call was made of where none is accepted, where one is refused for more than want of room, or where one altered a byte.
fn shortest<S, T, C: Fn(S, &mut [u8]) -> Result<T, (S, Refusal)>>(
    state: S,
    from: usize,
    out: &mut Bytes,
    call: C,
) -> Result<(T, usize), S>
    requires { C.IsAlwaysCallable call }
{
    let before = *out;
    let mut state = state;
    for room in from..ROOM {
        match call(state, &mut out[..room]) {
            Ok(made) => return Ok((made, room)),
            Err((given_back, refusal)) => {
                state = given_back;
                if refusal != Check::BytesRoom.at(0) || *out != before {
                    break;
                }
            }
        }
    }
    Err(state)
}

// The same for a call that is made of nothing, tried from no room on.
fn shortest_anew<T, C: Fn(&mut [u8]) -> Result<T, Refusal>>(
    out: &mut Bytes,
    call: C,
) -> Option<(T, usize)>
    requires { C.IsAlwaysCallable call }
{
    shortest((), 0, out, |(), lent| {
        call(lent).map_err(|refusal| ((), refusal))
    })
    .ok()
}

// The number of bytes, where a call took just the room that there was.
fn exactly(written: usize, room: usize) -> Option<usize> {
    (written == room).then_some(room)
}

pub fn print(case: Case, out: &mut Bytes) -> Option<usize> {
    let (written, room) = shortest_anew(out, |lent| {
        print_sheet(EFFORT, case.variables, case.words, case.assignment, lent)
    })?;
    exactly(written, room)
}

pub fn refused(refusal: Refusal, out: &mut Bytes) -> Option<usize> {
    let (written, room) = shortest_anew(out, |lent| refused_line(refusal, lent))?;
    exactly(written, room)
}

fn begin(case: Case, out: &mut Bytes) -> Option<(Sheet, usize)> {
    shortest_anew(out, |lent| {
        Sheet::begin(EFFORT, case.variables, case.words, case.assignment, lent)
    })
}

fn add(sheet: Sheet, value: u8, from: usize, out: &mut Bytes) -> Result<(Sheet, usize), Sheet> {
    shortest(sheet, from, out, |sheet, lent| {
        let (sheet, outcome) = sheet.add(value, lent);
        match outcome {
            Ok(()) => Ok(sheet),
            Err(refusal) => Err((sheet, refusal)),
        }
    })
}

fn close(sheet: Sheet, from: usize, out: &mut Bytes) -> Option<usize> {
    match shortest(sheet, from, out, |sheet, lent| sheet.close(lent)) {
        Ok((written, room)) => exactly(written, room),
        Err(sheet) => {
            let _ = sheet.tear();
            None
        }
    }
}

// Begins a sheet, adds the values and closes it, each call tried from a byte less than is written already.
pub fn series(case: Case, out: &mut Bytes) -> Option<usize> {
    let (mut sheet, mut written) = begin(case, out)?;
    for value in case.values {
        match add(sheet, *value, written.saturating_sub(1), out) {
            Ok((next, room)) => {
                sheet = next;
                written = room;
            }
            Err(sheet) => {
                let _ = sheet.tear();
                return None;
            }
        }
    }
    close(sheet, written.saturating_sub(1), out)
}
