// Runs the cases that are not for proof, as standard input lists them, and prints what each gives.
// Standard input is a sequence of records: 4 bytes of length, then a kind, a label and the case.
#![tactic(auto)]

mod asked;
mod called;
mod given;
mod lent;
mod print;
mod printed;
mod same;

use refusals::Refusal;
use std::io;
use std::io::Read;

// The longest file that a case is read as.
const READ: usize = 131072;

// The longest record.
const RECORD: usize = 65536;

// A buffer in which every plan file has room.
const WRITTEN: usize = 2048;

// Reading a file: its length in 4 bytes, then its first bytes; the others are zero.
fn read_case(rt: &impl Print, case: &[u8]) -> io::Result<()> {
    let mut file = [0u8; READ];
    given::copy(given::part(case, 4, case.len()), &mut file);
    let len = given::length(case);
    print::reading(rt, plan::read(given::part(&file, 0, len)))
}

// The name of a resource: the resource, then the file.
fn name_case(rt: &impl Print, case: &[u8]) -> io::Result<()> {
    let resource = given::byte(case, 0);
    let file = given::part(case, 1, case.len());
    let name = plan::name(file, resource);
    match plan::check_name(file, resource) {
        Ok(()) => print::text(rt, name),
        Err(refusal) if name.is_empty() => print::refused(rt, refusal),
        Err(_) => print::text(rt, b"wrong"),
    }
}

// Whether what was written is read back as the same plan, and copied as the same file.
fn again(case: &[u8], file: &[u8]) -> bool {
    let counts = given::counts(case);
    let rows = given::rows(case);
    let mut first = [same::FILL; WRITTEN];
    let found = plan_writing::read_back(counts, rows, given::names(case), &mut first);
    let mut second = [same::FILL; WRITTEN];
    let copied = plan_writing::copy(file, &mut second);
    same::plan(found, counts, rows)
        & same::written(copied, file.len())
        & (given::part(&second, 0, file.len()) == file)
        & same::untouched(&second, file.len())
}

// Writes the case's values into the front of the buffer, of which the case says how much is lent.
fn write(case: &[u8], buf: &mut [u8]) -> Result<u16, Refusal> {
    let room = given::room(case).min(buf.len());
    plan_writing::write(
        given::counts(case),
        given::rows(case),
        given::names(case),
        &mut buf[0..room],
    )
}

// Writing: the values, what the file is to be, and how much of the buffer is lent.
fn write_case(rt: &impl Print, case: &[u8]) -> io::Result<()> {
    let mut buf = [same::FILL; WRITTEN];
    match write(case, &mut buf) {
        Ok(len) => {
            let end = usize::from(len);
            let file = given::part(&buf, 0, end);
            let right = (file == given::expected(case)) & same::untouched(&buf, end);
            print::written(rt, len, right, again(case, file))
        }
        Err(refusal) => {
            print::refused(rt, refusal)?;
            print::unchanged(rt, same::untouched(&buf, 0))
        }
    }
}

// One case: a letter for its kind, the label's length, the label, and the rest.
fn run_case(rt: &impl Print, record: &[u8]) -> io::Result<()> {
    let kind = given::byte(record, 0);
    let start = 2 + usize::from(given::byte(record, 1));
    print::text(rt, given::part(record, 2, start))?;
    print::text(rt, b": ")?;
    let case = given::part(record, start, record.len());
    match kind {
        b'R' => read_case(rt, case),
        b'N' => name_case(rt, case),
        b'W' => write_case(rt, case),
        b'H' => asked::hold(rt, case),
        b'G' => asked::longest(rt, case),
        b'B' => asked::budget(rt, case),
        b'T' => asked::wait(rt, case),
        b'Q' => asked::requirement(rt, case),
        b'A' => asked::admission(rt, case),
        b'L' => asked::holds(rt, case),
        b'D' => asked::sheet(rt, case),
        b'M' => called::list(rt, case),
        b'S' => called::one(rt, case),
        b'V' => called::each(rt, case),
        b'P' => printed::list(rt, case),
        b'O' => printed::from_state(rt, case),
        b'E' => printed::many(rt, case),
        b'I' => lent::one(rt, case),
        b'F' => lent::each(rt, case),
        _ => print::text(rt, b"no such case"),
    }?;
    print::text(rt, b"\n")
}

// Reads the next record into the front of the buffer: its length, 0 at the end of the input.
fn read_record<R: Read>(input: &mut R, buf: &mut [u8]) -> io::Result<usize> {
    let mut head = [0u8; 4];
    let got = streams::read_full(input, &mut head)?;
    let len = given::length(&head[..got]).min(buf.len());
    streams::read_full(input, &mut buf[0..len])
}

// Reads a record and runs it; false at the end of the input.
fn next<R: Read>(rt: &impl Print, input: &mut R) -> io::Result<bool> {
    let mut buf = [0u8; RECORD];
    let len = read_record(input, &mut buf)?;
    if len == 0 {
        return Ok(false);
    }
    run_case(rt, given::part(&buf, 0, len))?;
    Ok(true)
}

// A proved loop has to end: the turns are counted up to a number that no run reaches.
fn main(rt: HostRuntime) -> io::Result<()> {
    let mut input = rt.stdin();
    for _ in 0..u64::MAX {
        if !next(&rt, &mut input)? {
            break;
        }
    }
    Ok(())
}
