// Calls and their lines. A plan file stands at the front of the case, its length in two bytes before it; then comes a
// state, where one is given, and how many bytes are lent.
use crate::{called, given, print, same};
use machine_calls::CallBytes;
use machine_state::State;
use print_calls::{Batch, CallLine};
use print_lines::LINE;
use refusals::Refusal;
use std::io;

// A buffer for the lines of a list.
const LINES: usize = 1024;

// Makes a call, with so many bytes of the buffer lent for its line.
fn call(
    file: &[u8],
    state: State,
    room: usize,
    bytes: CallBytes,
    buf: &mut [u8],
) -> Result<CallLine, Refusal> {
    let lent = room.min(buf.len());
    print_calls::call_line(file, state, bytes, &mut buf[0..lent])
}

// The line of one call, or why there is none; whether what lies behind it is as it was, or all where there is none.
fn next(
    rt: &impl Print,
    file: &[u8],
    state: State,
    room: usize,
    bytes: CallBytes,
) -> io::Result<State> {
    let mut buf = [same::FILL; LINE];
    print::text(rt, b"; ")?;
    match call(file, state, room, bytes, &mut buf) {
        Ok(made) => {
            print::text(rt, given::without_end(&buf, made.length))?;
            print::which(rt, same::untouched(&buf, made.length), b"", b" and behind")?;
            Ok(made.state)
        }
        Err(refusal) => {
            print::refused(rt, refusal)?;
            print::unchanged(rt, same::untouched(&buf, 0))?;
            Ok(state)
        }
    }
}

// Calls, each made on the state that the last one returned; how many bytes are lent for each line stands before them.
fn each(rt: &impl Print, file: &[u8], start: State, rest: &[u8]) -> io::Result<()> {
    let room = usize::from(given::byte(rest, 0));
    let calls = given::part(rest, 1, rest.len());
    let mut state = start;
    for x in 0..given::call_count(calls) {
        let after = next(rt, file, state, room, given::call(calls, x))?;
        state = after;
    }
    Ok(())
}

// The calls of a list, from a fresh machine on.
pub fn list(rt: &impl Print, case: &[u8]) -> io::Result<()> {
    let file = given::front(case);
    print::text(rt, b"start")?;
    each(rt, file, machine::start(file).state, given::behind(case))
}

// The same from a given state on.
pub fn from_state(rt: &impl Print, case: &[u8]) -> io::Result<()> {
    let rest = given::behind(case);
    print::text(rt, b"state")?;
    each(
        rt,
        given::front(case),
        given::state(rest),
        given::part(rest, given::STATE, rest.len()),
    )
}

// Makes calls from a given state on in one go, with so many bytes of the buffer lent for their lines as two bytes behind the state say.
fn make(case: &[u8], state: State, buf: &mut [u8]) -> Result<Batch, Refusal> {
    let rest = given::behind(case);
    let lent = given::size(rest, given::STATE).min(buf.len());
    let calls = given::part(rest, given::STATE + 2, rest.len());
    print_calls::lines(given::front(case), state, calls, &mut buf[0..lent])
}

// What came of many calls: how many of their bytes were made, how long the lines are, whether what lies behind them is as it was, and
// what the state shows; then the lines.
fn told(rt: &impl Print, file: &[u8], batch: Batch, buf: &[u8]) -> io::Result<()> {
    print::text(rt, b"lines")?;
    print::number(rt, batch.used as u64)?;
    print::number(rt, batch.length as u64)?;
    print::which(rt, same::untouched(buf, batch.length), b" right", b" wrong")?;
    called::shown(rt, file, batch.state)?;
    print::which(rt, batch.length == 0, b"", b"\n")?;
    print::text(rt, given::without_end(buf, batch.length))
}

// That, or why nothing was made.
pub fn many(rt: &impl Print, case: &[u8]) -> io::Result<()> {
    let state = given::state(given::behind(case));
    let mut buf = [same::FILL; LINES];
    match make(case, state, &mut buf) {
        Ok(batch) => told(rt, given::front(case), batch, &buf),
        Err(refusal) => {
            print::refused(rt, refusal)?;
            print::unchanged(rt, same::untouched(&buf, 0))
        }
    }
}
