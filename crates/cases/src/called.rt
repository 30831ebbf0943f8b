// Calls of the machine: a plan file stands at the front of the case, its length in two bytes before it.
use crate::{given, print};
use machine_calls::CallBytes;
use machine_replies::Reply;
use machine_rules::{Answer, Call};
use machine_state::{LineRow, Standing, State};
use plan_rules::TaskRow;
use std::io;

// What a call gave, its answer printed: whether it was refused, and the next state.
#[derive(Clone, Copy)]
struct Outcome {
    refused: bool,
    state: State,
}

fn is_refusal(answer: Answer) -> bool {
    matches!(answer, Answer::Refused(_))
}

// An answer; behind the words of a tick the number of cuts that came with them.
fn answer(rt: &impl Print, answer: Answer, cut_count: u32) -> io::Result<()> {
    match answer {
        Answer::Granted => print::text(rt, b"granted"),
        Answer::Waits(ahead, limit) => {
            print::text(rt, b"waits")?;
            print::number(rt, u64::from(ahead))?;
            print::number(rt, u64::from(limit))
        }
        Answer::Next(tag) => {
            print::text(rt, b"to")?;
            print::number(rt, u64::from(tag))
        }
        Answer::Free => print::text(rt, b"free"),
        Answer::Left => print::text(rt, b"left"),
        Answer::Ticked(cuts, grants) => {
            print::text(rt, b"tick")?;
            print::number(rt, u64::from(cuts))?;
            print::number(rt, u64::from(grants))?;
            print::number(rt, u64::from(cut_count))
        }
        Answer::Refused(code) => print::number_refused(rt, code),
    }
}

fn replied(rt: &impl Print, reply: Reply) -> io::Result<Outcome> {
    let told = reply.answer;
    let state = reply.state;
    answer(rt, told, 0)?;
    Ok(Outcome {
        refused: is_refusal(told),
        state,
    })
}

// A tick. One that is refused cuts nobody.
fn tick(rt: &impl Print, file: &[u8], state: State) -> io::Result<Outcome> {
    let reply = machine::tick(file, state);
    let told = reply.answer;
    let next = reply.state;
    answer(rt, told, reply.cut_count)?;
    let refused = is_refusal(told);
    if refused & (reply.cut_count != 0) {
        print::text(rt, b" but cuts")?;
    }
    Ok(Outcome {
        refused,
        state: next,
    })
}

fn none(rt: &impl Print, state: State) -> io::Result<Outcome> {
    print::text(rt, b"none")?;
    Ok(Outcome {
        refused: false,
        state,
    })
}

// The call in these bytes, where they are one.
fn call(rt: &impl Print, file: &[u8], state: State, bytes: CallBytes) -> io::Result<Outcome> {
    let Some(wanted) = machine_calls::decode(bytes.letter, bytes.tag, bytes.resource) else {
        return none(rt, state);
    };
    match wanted {
        Call::Request(tag, resource) => replied(rt, machine::request(file, state, tag, resource)),
        Call::Release(tag, resource) => replied(rt, machine::release(file, state, tag, resource)),
        Call::GiveUp(tag, resource) => replied(rt, machine::give_up(file, state, tag, resource)),
        Call::Tick => tick(rt, file, state),
    }
}

// Whether a task of processor k with this row is in line for q, in this place.
fn stands(s: Standing, processor: u8, q: u8, k: u8, place: u8) -> bool {
    (processor == k) & (s.resource == q) & (s.place == place)
}

// The task in a place of the queue of processor k for q, where there is one.
fn in_place(
    rt: &impl Print,
    rows: [TaskRow; sizes::TASKS],
    tasks: [Standing; sizes::TASKS],
    q: u8,
    k: u8,
    place: u8,
) -> io::Result<()> {
    for u in 0..sizes::TASKS {
        if stands(tasks[u], rows[u].processor, q, k, place) {
            print::which(rt, place == 0, b"", b" ")?;
            print::digits(rt, u as u64)?;
        }
    }
    Ok(())
}

// Processor k, and its tasks in line for q in order of place.
fn turn(
    rt: &impl Print,
    rows: [TaskRow; sizes::TASKS],
    tasks: [Standing; sizes::TASKS],
    q: u8,
    k: u8,
) -> io::Result<()> {
    print::digits(rt, u64::from(k))?;
    print::text(rt, b"(")?;
    for place in 0..sizes::TASKS as u8 {
        in_place(rt, rows, tasks, q, k, place)?;
    }
    print::text(rt, b")")
}

// A held resource: the hold left, the budget left, and its processors in order.
fn line(
    rt: &impl Print,
    rows: [TaskRow; sizes::TASKS],
    tasks: [Standing; sizes::TASKS],
    q: u8,
    l: LineRow,
) -> io::Result<()> {
    print::number(rt, u64::from(q))?;
    print::text(rt, b":")?;
    print::digits(rt, u64::from(l.hold_left))?;
    print::text(rt, b"/")?;
    print::digits(rt, u64::from(l.budget_left))?;
    print::text(rt, b":")?;
    for k in l.queue.iter().take(usize::from(l.queued)) {
        turn(rt, rows, tasks, q, *k)?;
    }
    Ok(())
}

// The resources that are held, and by whom.
fn held(
    rt: &impl Print,
    rows: [TaskRow; sizes::TASKS],
    tasks: [Standing; sizes::TASKS],
    lines: [LineRow; sizes::RESOURCES],
) -> io::Result<()> {
    let mut some = false;
    for q in 0..sizes::RESOURCES as u8 {
        let l = lines[usize::from(q)];
        if l.queued != 0 {
            line(rt, rows, tasks, q, l)?;
            some = true;
        }
    }
    print::which(rt, some, b"", b" nobody")
}

// The task rows of a plan file; all are none where it is refused.
fn task_rows(file: &[u8]) -> [TaskRow; sizes::TASKS] {
    match plan::read(file) {
        Ok(read) => read.rows.tasks,
        Err(_) => [plan_layout::no_task(); sizes::TASKS],
    }
}

// What a state shows, with the processors of the tasks from the plan file.
pub fn shown(rt: &impl Print, file: &[u8], state: State) -> io::Result<()> {
    print::text(rt, b" |")?;
    held(rt, task_rows(file), state.tasks, state.lines)
}

// One of the calls of a list. After one that is refused the state is to be as it was.
fn next(rt: &impl Print, file: &[u8], state: State, bytes: CallBytes) -> io::Result<State> {
    print::text(rt, b"; ")?;
    let outcome = call(rt, file, state, bytes)?;
    let after = outcome.state;
    if outcome.refused & (after != state) {
        print::text(rt, b" changed")?;
    }
    Ok(after)
}

// A fresh machine, or why there is none, and then its state all the same: each call on it is refused.
fn start(rt: &impl Print, file: &[u8]) -> io::Result<State> {
    let started = machine::start(file);
    match started.accepted {
        Ok(()) => print::text(rt, b"start")?,
        Err(refusal) => print::refused(rt, refusal)?,
    }
    Ok(started.state)
}

// A list of calls from a fresh machine on, with every answer, and behind each what the state then shows, where that is asked: the last
// state.
fn all(rt: &impl Print, file: &[u8], calls: &[u8], show: bool) -> io::Result<State> {
    let mut state = start(rt, file)?;
    for x in 0..given::call_count(calls) {
        let after = next(rt, file, state, given::call(calls, x))?;
        state = after;
        if show {
            shown(rt, file, state)?;
        }
    }
    Ok(state)
}

// A list of calls; what the last state shows; whether a run of the whole list ends there.
pub fn list(rt: &impl Print, case: &[u8]) -> io::Result<()> {
    let file = given::front(case);
    let calls = given::behind(case);
    let state = all(rt, file, calls, false)?;
    shown(rt, file, state)?;
    let end = machine::run(file, calls);
    print::which(rt, state == end, b" run", b" run differs")
}

// A list of calls, with what the state shows after each.
pub fn each(rt: &impl Print, case: &[u8]) -> io::Result<()> {
    all(rt, given::front(case), given::behind(case), true)?;
    Ok(())
}

// One call on a given state, and what the next one shows where it is not refused. Its tag has two bytes, so that it can be one
// that no plan has.
pub fn one(rt: &impl Print, case: &[u8]) -> io::Result<()> {
    let file = given::front(case);
    let rest = given::behind(case);
    let state = given::state(rest);
    let outcome = call(rt, file, state, given::wide_call(rest, given::STATE))?;
    let after = outcome.state;
    print::unchanged(rt, after == state)?;
    if !outcome.refused {
        shown(rt, file, after)?;
    }
    Ok(())
}
