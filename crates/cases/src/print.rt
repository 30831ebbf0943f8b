// The lines that are printed.
ghost use Rattle.std.specs.Prelude.{◌+◌, ◌≤◌, IfOk, length};

use crate::given;
use plan::Reading;
use refusals::Refusal;
use std::io;

// A buffer for many numbers, and the most that a space and one of them take.
const NUMBERS: usize = 4096;

const NUMBER: usize = 21;

pub fn text(rt: &impl Print, s: &[u8]) -> io::Result<()> {
    rt.write_all(s)
}

pub fn digits(rt: &impl Print, n: u64) -> io::Result<()> {
    rt.print(n)
}

pub fn number(rt: &impl Print, n: u64) -> io::Result<()> {
    text(rt, b" ")?;
    digits(rt, n)
}

// Where the next number goes: behind what is in the buffer, or at its front, once that is written, where too little room is left.
fn room(rt: &impl Print, buf: &[u8], at: usize) -> io::Result<usize>
    requires { 21 ≤ length buf.now }
    ensures { IfOk result (λ r. r + 21 ≤ length buf.now) }
{
    if at <= buf.len() - NUMBER {
        return Ok(at);
    }
    text(rt, given::part(buf, 0, at))?;
    Ok(0)
}

// Puts a number behind a space: where it ends.
fn put(buf: &mut [u8], at: usize, n: u8) -> usize
    requires { at + 21 ≤ length buf.old }
{
    let digits = print_text::put(buf, at, b" ");
    print_text::put_decimal(buf, digits, u64::from(n))
}

// Bytes as numbers, in as few writes as the buffer allows.
pub fn numbers(rt: &impl Print, s: &[u8]) -> io::Result<()> {
    let mut buf = [0u8; NUMBERS];
    let mut at = 0;
    for b in s {
        let free = room(rt, &buf, at)?;
        at = put(&mut buf, free, *b);
    }
    text(rt, given::part(&buf, 0, at))
}

// With a minus where it is below zero.
pub fn signed(rt: &impl Print, z: i64) -> io::Result<()> {
    let mut buf = [0u8; 21];
    let end = print_text::put_signed(&mut buf, 0, z);
    text(rt, b" ")?;
    text(rt, given::part(&buf, 0, end))
}

// A refusal, by the number that it is told by.
pub fn number_refused(rt: &impl Print, code: u8) -> io::Result<()> {
    text(rt, b"refused")?;
    number(rt, u64::from(code))
}

pub fn refused(rt: &impl Print, refusal: Refusal) -> io::Result<()> {
    number_refused(rt, refusal.number())
}

pub fn reading(rt: &impl Print, answer: Result<Reading, Refusal>) -> io::Result<()> {
    match answer {
        Ok(read) => {
            text(rt, b"plan")?;
            number(rt, u64::from(read.counts.processors))?;
            number(rt, u64::from(read.counts.tasks))?;
            number(rt, u64::from(read.counts.resources))?;
            number(rt, u64::from(read.counts.sections))
        }
        Err(refusal) => refused(rt, refusal),
    }
}

pub fn which(rt: &impl Print, right: bool, yes: &[u8], no: &[u8]) -> io::Result<()> {
    if right { text(rt, yes) } else { text(rt, no) }
}

// Whether all that was lent, or the state, is as it was.
pub fn unchanged(rt: &impl Print, as_before: bool) -> io::Result<()> {
    which(rt, as_before, b" unchanged", b" changed")
}

pub fn written(rt: &impl Print, len: u16, right: bool, again: bool) -> io::Result<()> {
    text(rt, b"written")?;
    number(rt, u64::from(len))?;
    which(rt, right, b" same", b" differs")?;
    which(rt, again, b" again", b"")
}
