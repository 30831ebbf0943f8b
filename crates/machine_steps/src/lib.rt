// What a request, a release, a give-up and a tick make of a sound state, by the tables of its plan. Every function here is for the
// machine: each says in its `requires` what it relies on.
#![tactic(auto)]

ghost use Rattle.std.specs.Prelude.{◌≡◌, ◌&&◌, ◌<◌, ◌≤◌, eqb, ltb, length};
ghost use Rattle.folds.specs.Words.{bit_of};
ghost use Rattle.machine_state.specs.Shows.{line_at};
ghost use Rattle.machine_state.specs.Inner.{SeatSized, Sized};
ghost use Rattle.machine_steps.specs.Inner.{pushed, joined_by, lowered, hold_of, begun, passed, stepped, left_by};
ghost use Rattle.machine_steps.specs.Inner.{QueueOf, PlaceTaken, Joining, Lowering, Beginning, Passing, Stepping, Leaving, AllRunning};
ghost use Rattle.machine_steps.specs.Inner.{AheadOf, SteppedOf, TickedOf, closed, closed_up, dropped, withdrawn_by, Withdrawing};
ghost use Rattle.sizes.specs.Sizes.{most_processors, most_tasks, most_resources};

use machine_state::{LineRow, Standing, State};
use std::array;

// The queues of all processors for all resources.
const QUEUES: usize = sizes::RESOURCES * sizes::PROCESSORS;

// A mark for each, and one more for none.
const MARKS: usize = QUEUES + 1;

// The last slot of a queue of processors.
const LAST: usize = sizes::PROCESSORS - 1;

// The seats of one queue of tasks.
const PLACES: u16 = sizes::TASKS as u16;

// The tasks ahead in a queue: how many, and the sum of their hold times.
#[derive(Clone, Copy)]
pub struct Ahead {
    pub count: u8,
    pub holds: u32,
}

// What a tick makes of the lines: they after it, a mark for each queue that loses its first, the resources cut, and those of them
// with a new grant.
#[derive(Clone, Copy)]
struct Stepped {
    lines: [LineRow; sizes::RESOURCES],
    marks: [u8; MARKS],
    cuts: u16,
    grants: u16,
}

// The state after a tick, the resources cut, and those of them with a new grant.
#[derive(Clone, Copy)]
pub struct Ticked {
    pub state: State,
    pub cuts: u16,
    pub grants: u16,
}

// Those in the queue of processor k for q.
#[tactic(auto, unfolding(folds::specs::Below::sum_below))]
pub fn ahead_of(figures: &[u16], seats: &[u8], q: usize, k: u8) -> Ahead
    requires { QueueOf figures.now seats.now q k }
    ensures { AheadOf figures.now seats.now q k result }
{
    let base = (q * sizes::PROCESSORS + usize::from(k)) * sizes::TASKS;
    let mut count = 0;
    let mut holds = 0;
    for &sits in &seats[base..base + sizes::TASKS] {
        if sits == 0 {
            break;
        }
        count += 1;
        holds += u32::from(analysis_figures::hold_at(figures, usize::from(sits) - 1, q));
    }
    Ahead { count, holds }
}

// The line with processor k at its tail, which begins where nobody was queued.
#[tactic(auto, unfolding(crate::specs::Inner::pushed))]
fn push(line: LineRow, k: u8, hold: u16, budget: u16) -> LineRow
    requires { line.queued < most_processors }
    ensures { (result ≡ pushed line k hold budget) × (length line.queue ≡ most_processors) }
{
    let mut queue = line.queue;
    queue[usize::from(line.queued)] = k;
    if line.queued == 0 {
        return LineRow {
            queued: 1,
            queue,
            hold_left: hold,
            budget_left: budget,
        };
    }
    LineRow {
        queued: line.queued + 1,
        queue,
        ..line
    }
}

// Task i of processor k joins the line of q, behind `ahead` of its fellows.
#[tactic(auto, unfolding(crate::specs::Inner::joined_lines))]
pub fn join(mut state: State, figures: &[u16], q: u8, i: usize, k: u8, ahead: u8) -> State
    requires { Joining figures.now state q i k ahead }
    ensures { result ≡ joined_by figures.now state q i k ahead }
{
    state.tasks[i] = machine_state::in_line(q, ahead);
    if ahead == 0 {
        let r = usize::from(q);
        let hold = analysis_figures::hold_at(figures, i, r);
        let budget = analysis_figures::budget_at(figures, usize::from(k), r);
        state.lines[r] = push(state.lines[r], k, hold, budget);
    }
    state
}

// A row once the task in this place of its queue left, where one did.
#[tactic(auto, unfolding(crate::specs::Inner::closed))]
fn close(s: Standing, on: bool, place: u8) -> Standing
    ensures { result ≡ closed on place s }
{
    if on {
        if s.place == place {
            return machine_state::idle();
        }
        if place < s.place {
            return machine_state::moved_up(s);
        }
    }
    s
}

// The rows of the tasks once the queues that `ended` marks lost their first.
fn lower(tasks: [Standing; sizes::TASKS], keys: &[u16], ended: &[u8]) -> [Standing; sizes::TASKS]
    requires { Lowering keys.now ended.now }
    ensures { result ≡ lowered keys.now ended.now tasks }
{
    array::from_fn(|u| close(tasks[u], ended[usize::from(keys[u] / PLACES)] == 1, 0))
}

// The hold time of the task in place j of the queue of processor k for q.
fn hold_of(figures: &[u16], seats: &[u8], q: usize, k: u8, j: usize) -> u16
    requires { PlaceTaken figures.now seats.now q k j }
    ensures { result ≡ hold_of figures.now seats.now q k j }
{
    let sits = seats[(q * sizes::PROCESSORS + usize::from(k)) * sizes::TASKS + j];
    analysis_figures::hold_at(figures, usize::from(sits) - 1, q)
}

// The head of a queue of c begins, once the first task of processor `gone` left.
#[tactic(auto, unfolding(crate::specs::Inner::begun))]
fn begin(
    queue: [u8; sizes::PROCESSORS],
    c: u8,
    gone: u8,
    figures: &[u16],
    seats: &[u8],
    q: usize,
) -> LineRow
    requires { Beginning figures.now seats.now q gone queue c }
    ensures { result ≡ begun figures.now seats.now q gone queue c }
{
    if c == 0 {
        return LineRow {
            queued: 0,
            queue,
            hold_left: 0,
            budget_left: 0,
        };
    }
    let k = queue[0];
    LineRow {
        queued: c,
        queue,
        hold_left: hold_of(figures, seats, q, k, usize::from(k == gone)),
        budget_left: analysis_figures::budget_at(figures, usize::from(k), q),
    }
}

// The line once its holder left.
#[tactic(auto, unfolding(crate::specs::Inner::passed))]
fn pass(line: LineRow, figures: &[u16], seats: &[u8], q: usize) -> LineRow
    requires { Passing figures.now seats.now q line }
    ensures { result ≡ passed figures.now seats.now q line }
{
    let l = line.queue;
    let head = l[0];
    let next = seats[(q * sizes::PROCESSORS + usize::from(head)) * sizes::TASKS + 1];
    let mut queue = [l[1], l[2], l[3], l[4], l[5], l[6], l[7], sizes::ABSENT];
    if next == 0 {
        return begin(queue, line.queued - 1, head, figures, seats, q);
    }
    let hold = hold_of(figures, seats, q, head, 1);
    if hold <= line.budget_left {
        return LineRow {
            hold_left: hold,
            ..line
        };
    }
    queue[usize::from(line.queued) - 1] = head;
    begin(queue, line.queued, head, figures, seats, q)
}

// The holder of q leaves.
pub fn leave(mut state: State, figures: &[u16], keys: &[u16], seats: &[u8], q: usize) -> State
    requires { Leaving figures.now keys.now seats.now q (line_at state q) }
    ensures { result ≡ left_by figures.now keys.now seats.now q state }
{
    let line = state.lines[q];
    let mut marks = [0u8; MARKS];
    marks[q * sizes::PROCESSORS + usize::from(line.queue[0])] = 1;
    state.tasks = lower(state.tasks, keys, &marks);
    state.lines[q] = pass(line, figures, seats, q);
    state
}

// The rows of the tasks once that in this place of one queue left.
fn close_up(
    tasks: [Standing; sizes::TASKS],
    keys: &[u16],
    queue: u16,
    place: u8,
) -> [Standing; sizes::TASKS]
    requires { length keys.now ≡ most_tasks }
    ensures { result ≡ closed_up keys.now queue place tasks }
{
    array::from_fn(|u| close(tasks[u], keys[u] / PLACES == queue, place))
}

// The line without processor k, which is queued: those behind it move up.
#[tactic(auto, unfolding(folds::specs::Below::any_below, folds::specs::Bytes::placed_below, crate::specs::Inner::dropped))]
fn drop_core(line: LineRow, k: u8) -> LineRow
    requires { 1 ≤ line.queued }
    ensures { result ≡ dropped line k }
{
    let mut queue = [sizes::ABSENT; sizes::PROCESSORS];
    let mut past = false;
    for j in 0..LAST {
        past |= line.queue[j] == k;
        queue[j] = line.queue[j + usize::from(past)];
    }
    LineRow {
        queued: line.queued - 1,
        queue,
        ..line
    }
}

// Task i of processor k, which waits for q, leaves its queue.
#[tactic(auto, unfolding(crate::specs::Inner::withdrawn_lines))]
pub fn withdraw(mut state: State, keys: &[u16], seats: &[u8], q: usize, i: usize, k: u8) -> State
    requires { Withdrawing keys.now seats.now q i k state }
    ensures { result ≡ withdrawn_by keys.now seats.now q i k state }
{
    let queue = q * sizes::PROCESSORS + usize::from(k);
    state.tasks = close_up(state.tasks, keys, queue as u16, state.tasks[i].place);
    if seats[queue * sizes::TASKS + 1] == 0 {
        state.lines[q] = drop_core(state.lines[q], k);
    }
    state
}

// The line of q after a tick.
#[tactic(auto, unfolding(crate::specs::Inner::stepped))]
fn step(line: LineRow, figures: &[u16], seats: &[u8], q: usize) -> LineRow
    requires { Stepping figures.now seats.now q line }
    ensures { result ≡ stepped figures.now seats.now q line }
{
    if line.queued == 0 {
        return line;
    }
    let after = LineRow {
        hold_left: line.hold_left - 1,
        budget_left: line.budget_left - 1,
        ..line
    };
    if line.hold_left == 1 {
        return pass(after, figures, seats, q);
    }
    after
}

// Whether a tick cuts the holder of a line.
fn cuts_holder(line: LineRow) -> bool
    ensures { result ≡ (ltb 0 line.queued && eqb line.hold_left 1) }
{
    (0 < line.queued) & (line.hold_left == 1)
}

// 2 to the power of q where `on`, else 0.
fn bit(on: bool, q: usize) -> u16
    requires { q < most_resources }
    ensures { result ≡ bit_of on q }
{
    u16::from(on) << q
}

// The lines after a tick, in one pass with what the tick tells of them.
#[tactic(auto, unfolding(folds::specs::Each::each_below, folds::specs::Words::word_below, folds::proofs::Arrays::stamped_below))]
fn step_lines(lines: [LineRow; sizes::RESOURCES], figures: &[u16], seats: &[u8]) -> Stepped
    requires { (SeatSized figures.now seats.now) × (AllRunning seats.now lines) }
    ensures { SteppedOf figures.now seats.now lines result }
{
    let mut next = lines;
    let mut marks = [0u8; MARKS];
    let mut cuts = 0;
    let mut grants = 0;
    for (q, line) in lines.iter().enumerate() {
        let on = cuts_holder(*line);
        let after = step(*line, figures, seats, q);
        next[q] = after;
        cuts += bit(on, q);
        grants += bit(on & (0 < after.queued), q);
        if on {
            marks[q * sizes::PROCESSORS + usize::from(line.queue[0])] = 1;
        } else {
            // Past the last queue: both arms store once, so that the table is one of stores by key.
            marks[QUEUES] = 0;
        }
    }
    Stepped {
        lines: next,
        marks,
        cuts,
        grants,
    }
}

// A tick. The rows of the tasks stay as they are where no hold ends.
#[tactic(auto, using(crate::proofs::Marks::rows_kept))]
pub fn tick(mut state: State, figures: &[u16], keys: &[u16], seats: &[u8]) -> Ticked
    requires { (Sized figures.now keys.now seats.now) × (AllRunning seats.now state.lines) }
    ensures { TickedOf figures.now keys.now seats.now state result }
{
    let Stepped {
        lines,
        marks,
        cuts,
        grants,
    } = step_lines(state.lines, figures, seats);
    state.lines = lines;
    if cuts != 0 {
        state.tasks = lower(state.tasks, keys, &marks);
    }
    Ticked {
        state,
        cuts,
        grants,
    }
}
