// The parts of a case. Past its end a byte is 0 and a part is empty, so that no case can be unsafe.
ghost use Rattle.std.specs.Prelude.{◌≤◌, ◌<◌};

use machine_calls::{CallBytes, WIDTH};
use machine_state::{LineRow, Standing, State};
use plan_rules::{Counts, Rows, SectionRow, TaskRow};

// The bytes of a call whose tag has two, and in a state those of a resource's line and of a task.
const WIDE: usize = 4;

const LINE_ROW: usize = 13;

const STANDING: usize = 2;

const LINE_ROWS: usize = sizes::RESOURCES * LINE_ROW;

pub const STATE: usize = LINE_ROWS + sizes::TASKS * STANDING;

pub fn byte(s: &[u8], at: usize) -> u8 {
    if at < s.len() { s[at] } else { 0 }
}

// Two bytes, low byte first.
pub fn word(s: &[u8], at: usize) -> u16
    requires { at < 65536 }
{
    u16::from_le_bytes([byte(s, at), byte(s, at + 1)])
}

// Such a number as a size.
pub fn size(s: &[u8], at: usize) -> usize
    requires { at < 65536 }
    ensures { result < 65536 }
{
    usize::from(word(s, at))
}

// The four bytes at the front, low byte first.
pub fn length(s: &[u8]) -> usize {
    size(s, 0) + 65536 * size(s, 2)
}

pub fn part(s: &[u8], start: usize, end: usize) -> &[u8] {
    if start <= end && end <= s.len() {
        return &s[start..end];
    }
    &s[0..0]
}

// Where the part at the front ends whose length stands in two bytes before it.
fn front_end(s: &[u8]) -> usize
    ensures { result < 70000 }
{
    2 + size(s, 0)
}

// That part, and what stands behind it.
pub fn front(s: &[u8]) -> &[u8] {
    part(s, 2, front_end(s))
}

pub fn behind(s: &[u8]) -> &[u8] {
    part(s, front_end(s), s.len())
}

// A line of so many bytes at the front, without its end.
pub fn without_end(s: &[u8], length: usize) -> &[u8] {
    if length == 0 {
        return &s[0..0];
    }
    part(s, 0, length - 1)
}

// How many calls a list has.
pub fn call_count(calls: &[u8]) -> usize {
    calls.len() / WIDTH
}

// The bytes of none.
fn no_call() -> CallBytes {
    CallBytes {
        letter: 0,
        tag: 0,
        resource: 0,
    }
}

// Call x of a list.
pub fn call(calls: &[u8], x: usize) -> CallBytes {
    if x < calls.len() / WIDTH {
        return machine_calls::bytes_at(calls, x * WIDTH, WIDTH);
    }
    no_call()
}

// The call at `at` whose tag has two bytes.
pub fn wide_call(s: &[u8], at: usize) -> CallBytes
    requires { at < 65536 }
{
    if at + WIDE <= s.len() {
        return machine_calls::bytes_at(s, at, WIDE);
    }
    no_call()
}

// As many bytes as both have, copied.
pub fn copy(from: &[u8], to: &mut [u8]) {
    let n = from.len().min(to.len());
    to[..n].copy_from_slice(&from[..n]);
}

// A write case: P, N, R, S; in 2 bytes each the room, the length of the names and of the expected file; how many
// rows of each kind are given; then the names, the expected file and the rows.
pub fn counts(case: &[u8]) -> Counts {
    Counts {
        edition: 1,
        processors: byte(case, 0),
        tasks: byte(case, 1),
        resources: byte(case, 2),
        sections: word(case, 3),
    }
}

pub fn room(case: &[u8]) -> usize {
    size(case, 5)
}

fn names_end(case: &[u8]) -> usize
    ensures { result < 70000 }
{
    14 + size(case, 7)
}

fn expected_end(case: &[u8]) -> usize
    ensures { result < 140000 }
{
    names_end(case) + size(case, 9)
}

fn tasks_end(case: &[u8]) -> usize
    ensures { result < 150000 }
{
    expected_end(case) + 8 * usize::from(byte(case, 11))
}

fn lengths_end(case: &[u8]) -> usize
    ensures { result < 151000 }
{
    tasks_end(case) + usize::from(byte(case, 12))
}

pub fn names(case: &[u8]) -> &[u8] {
    part(case, 14, names_end(case))
}

pub fn expected(case: &[u8]) -> &[u8] {
    part(case, names_end(case), expected_end(case))
}

fn task(s: &[u8], at: usize) -> TaskRow
    requires { at < 1000 }
{
    TaskRow {
        processor: byte(s, at),
        tag: word(s, at + 1),
        priority: byte(s, at + 3),
        period: word(s, at + 4),
        execution: word(s, at + 6),
    }
}

fn section(s: &[u8], at: usize) -> SectionRow
    requires { at < 2000 }
{
    SectionRow {
        task: byte(s, at),
        resource: byte(s, at + 1),
        length: word(s, at + 2),
    }
}

fn tasks(s: &[u8]) -> [TaskRow; sizes::TASKS] {
    folds::table(sizes::TASKS, task(s, 0), |i| task(s, i * 8))
}

fn lengths(s: &[u8]) -> [u8; sizes::RESOURCES] {
    folds::table(sizes::RESOURCES, 0, |i| byte(s, i))
}

fn sections(s: &[u8]) -> [SectionRow; sizes::SECTIONS] {
    folds::table(sizes::SECTIONS, section(s, 0), |i| section(s, i * 4))
}

pub fn rows(case: &[u8]) -> Rows {
    let start = lengths_end(case);
    Rows {
        tasks: tasks(part(case, expected_end(case), tasks_end(case))),
        lengths: lengths(part(case, tasks_end(case), start)),
        sections: sections(part(case, start, start + 4 * usize::from(byte(case, 13)))),
    }
}

// A state: for each resource how many are queued, 8 processors, in 2 bytes each the hold left and the budget left; then for each task
// its resource and its place.
fn line(s: &[u8], at: usize) -> LineRow
    requires { at < 1000 }
{
    let queue = [
        byte(s, at + 1),
        byte(s, at + 2),
        byte(s, at + 3),
        byte(s, at + 4),
        byte(s, at + 5),
        byte(s, at + 6),
        byte(s, at + 7),
        byte(s, at + 8),
    ];
    LineRow {
        queued: byte(s, at),
        queue,
        hold_left: word(s, at + 9),
        budget_left: word(s, at + 11),
    }
}

fn lines(s: &[u8]) -> [LineRow; sizes::RESOURCES] {
    folds::table(sizes::RESOURCES, line(s, 0), |q| line(s, q * LINE_ROW))
}

fn standing(s: &[u8], at: usize) -> Standing
    requires { at < 1000 }
{
    Standing {
        resource: byte(s, at),
        place: byte(s, at + 1),
    }
}

fn standings(s: &[u8]) -> [Standing; sizes::TASKS] {
    folds::table(sizes::TASKS, standing(s, 0), |u| standing(s, u * STANDING))
}

pub fn state(s: &[u8]) -> State {
    State {
        lines: lines(part(s, 0, LINE_ROWS)),
        tasks: standings(part(s, LINE_ROWS, STATE)),
    }
}
