// Questions about a plan: what is asked stands at the front of the case, the file behind it.
use crate::{given, print, same};
use analysis_requirements::Requirement;
use print_sheet::SHEET;
use refusals::Refusal;
use std::io;

fn figure(rt: &impl Print, answer: Result<u32, Refusal>, name: &[u8]) -> io::Result<()> {
    match answer {
        Ok(n) => {
            print::text(rt, name)?;
            print::number(rt, u64::from(n))
        }
        Err(refusal) => print::refused(rt, refusal),
    }
}

fn file(case: &[u8], at: usize) -> &[u8] {
    given::part(case, at, case.len())
}

// The hold time of a resource by a task: the tag in two bytes, the resource.
pub fn hold(rt: &impl Print, case: &[u8]) -> io::Result<()> {
    let tag = given::word(case, 0);
    let resource = given::byte(case, 2);
    figure(
        rt,
        analysis::hold_time(file(case, 3), tag, resource),
        b"hold",
    )
}

// The longest wait of a task for a resource: the tag in two bytes, the resource.
pub fn longest(rt: &impl Print, case: &[u8]) -> io::Result<()> {
    let tag = given::word(case, 0);
    let resource = given::byte(case, 2);
    figure(
        rt,
        analysis::longest_wait(file(case, 3), tag, resource),
        b"longest",
    )
}

// The budget of a processor on a resource, and its wait time.
pub fn budget(rt: &impl Print, case: &[u8]) -> io::Result<()> {
    let processor = given::byte(case, 0);
    let resource = given::byte(case, 1);
    figure(
        rt,
        analysis::budget(file(case, 2), processor, resource),
        b"budget",
    )
}

pub fn wait(rt: &impl Print, case: &[u8]) -> io::Result<()> {
    let processor = given::byte(case, 0);
    let resource = given::byte(case, 1);
    figure(
        rt,
        analysis::wait_time(file(case, 2), processor, resource),
        b"wait",
    )
}

fn found(rt: &impl Print, r: Requirement) -> io::Result<()> {
    print::text(rt, b"requirement")?;
    print::number(rt, u64::from(r.blocking1))?;
    print::number(rt, u64::from(r.blocking2))?;
    print::signed(rt, r.tolerance)?;
    print::signed(rt, r.slack)?;
    print::number(rt, r.side)?;
    print::which(rt, r.met, b" met", b" unmet")
}

// The requirement of a task: the tag in two bytes.
pub fn requirement(rt: &impl Print, case: &[u8]) -> io::Result<()> {
    let tag = given::word(case, 0);
    match analysis::requirement(file(case, 2), tag) {
        Ok(r) => found(rt, r),
        Err(refusal) => print::refused(rt, refusal),
    }
}

// Whether the plan is admitted.
pub fn admission(rt: &impl Print, case: &[u8]) -> io::Result<()> {
    match analysis::admission(case) {
        Ok(b) => print::which(rt, b, b"admitted", b"not admitted"),
        Err(refusal) => print::refused(rt, refusal),
    }
}

// Hold times that are not 0, in the order of resources and then of tasks.
fn times(rt: &impl Print, times: &[u16; analysis::HOLDS]) -> io::Result<()> {
    print::text(rt, b"holds")?;
    for x in 0..analysis::HOLDS {
        let time = times[x % sizes::TASKS * sizes::RESOURCES + x / sizes::TASKS];
        if time != 0 {
            print::number(rt, u64::from(time))?;
        }
    }
    Ok(())
}

// All of a plan.
pub fn holds(rt: &impl Print, case: &[u8]) -> io::Result<()> {
    match analysis::hold_times(case) {
        Ok(found) => times(rt, &found),
        Err(refusal) => print::refused(rt, refusal),
    }
}

// Makes a sheet in the front of the buffer, of which the case says in four bytes how much is lent.
fn make(case: &[u8], buf: &mut [u8]) -> Result<usize, Refusal> {
    let room = given::length(case).min(buf.len());
    print_sheet::sheet(file(case, 4), &mut buf[0..room])
}

// The sheet of a plan on lines of its own, behind its length and whether what lies behind it in the buffer is as it was.
pub fn sheet(rt: &impl Print, case: &[u8]) -> io::Result<()> {
    let mut buf = [same::FILL; SHEET];
    match make(case, &mut buf) {
        Ok(length) => {
            print::text(rt, b"sheet")?;
            print::number(rt, length as u64)?;
            print::which(rt, same::untouched(&buf, length), b" right\n", b" wrong\n")?;
            print::text(rt, given::without_end(&buf, length))
        }
        Err(refusal) => {
            print::refused(rt, refusal)?;
            print::unchanged(rt, same::untouched(&buf, 0))
        }
    }
}
