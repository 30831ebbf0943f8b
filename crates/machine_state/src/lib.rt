// The state of the machine by value, the test whether it is sound, and the tables by which a call looks it up. The functions here
// are for the crates above: each says in its `requires` what it relies on.
#![tactic(auto)]

ghost use Rattle.std.specs.Prelude.{ℕ, ◌≡◌, ◌<◌, not, ◌≤◌, replicate, slice_index, eqb};
ghost use Rattle.sizes.specs.Sizes.{most_processors, absent};
ghost use Rattle.folds.specs.Below.{all_below};
ghost use Rattle.plan_reading.specs.Plan.{plan_of, Checked};
ghost use Rattle.analysis_figures.specs.Figures.{Known};
ghost use Rattle.machine_state.specs.Shows.{free_line, fresh_state, none_in_line, in_line_at, moved_up};
ghost use Rattle.machine_state.specs.Inner.{seat, InQueue, seat_count, Keys, Seats, first_seat, task_test, tasks_test};
ghost use Rattle.machine_state.specs.Inner.{tail_test, queue_test, clock_test, free_test, line_test, lines_test, state_test};
ghost use Rattle.machine_state.specs.Inner.{Unseated, SeatTable, SeatSized, Sized, TaskSeat, QueueCount, QueueRow, LineTables};
ghost use Rattle.machine_state.specs.Inner.{HeadRow, SeatedState};

// The seats of all queues of tasks, and one for those who are in none.
pub const SEATS: usize = sizes::RESOURCES * sizes::PROCESSORS * sizes::TASKS + 1;

// The last of them.
const NO_SEAT: u16 = (SEATS - 1) as u16;

// The seats of one queue, the queues for one resource, and the seats of those.
const PLACES: u16 = sizes::TASKS as u16;

const QUEUES: u16 = sizes::PROCESSORS as u16;

const RESOURCE_SEATS: usize = sizes::PROCESSORS * sizes::TASKS;

// Sizes as bytes.
const TASKS: u8 = sizes::TASKS as u8;

const RESOURCES: u8 = sizes::RESOURCES as u8;

const PROCESSORS: u8 = sizes::PROCESSORS as u8;

// A task: the resource it is in line for, and its place in its processor's queue for it, from 0; 255 and 255 for none.
#[derive(Clone, Copy, PartialEq, Eq)]
pub struct Standing {
    pub resource: u8,
    pub place: u8,
}

// A resource: the number of processors queued, and they in order, then 255; the ticks left of the hold and of the head's budget,
// 0 where it is free.
#[derive(Clone, Copy, PartialEq, Eq)]
pub struct LineRow {
    pub queued: u8,
    pub queue: [u8; sizes::PROCESSORS],
    pub hold_left: u16,
    pub budget_left: u16,
}

#[derive(Clone, Copy, PartialEq, Eq)]
pub struct State {
    pub lines: [LineRow; sizes::RESOURCES],
    pub tasks: [Standing; sizes::TASKS],
}

// The row of a task that is in line for nothing.
pub fn idle() -> Standing
    ensures { result ≡ none_in_line }
{
    Standing {
        resource: sizes::ABSENT,
        place: sizes::ABSENT,
    }
}

// That of one in this place of its processor's queue for a resource.
pub fn in_line(resource: u8, place: u8) -> Standing
    ensures { result ≡ in_line_at resource place }
{
    Standing { resource, place }
}

// The row once the first of its queue left, who was another.
pub fn moved_up(s: Standing) -> Standing
    requires { 1 ≤ s.place }
    ensures { result ≡ moved_up s }
{
    Standing {
        resource: s.resource,
        place: s.place - 1,
    }
}

// Whether a task of a sound state is in line for something.
pub fn is_in_line(s: Standing) -> bool
    ensures { result ≡ not (eqb s.resource absent) }
{
    s.resource != sizes::ABSENT
}

// The row of a free resource.
pub fn free() -> LineRow
    ensures { result ≡ free_line }
{
    LineRow {
        queued: 0,
        queue: [sizes::ABSENT; sizes::PROCESSORS],
        hold_left: 0,
        budget_left: 0,
    }
}

// Nobody in line.
pub fn fresh() -> State
    ensures { result ≡ fresh_state }
{
    State {
        lines: [free(); sizes::RESOURCES],
        tasks: [idle(); sizes::TASKS],
    }
}

// The seat of a task of a processor in the queue that its row names.
fn seat_of(s: Standing, processor: u8) -> u16
    requires { InQueue s processor }
    ensures { result ≡ seat s.resource processor s.place }
{
    let queue = u16::from(s.resource) * QUEUES + u16::from(processor);
    queue * PLACES + u16::from(s.place)
}

// The seats of the tasks; those in no queue have none. Only the others are stored: a store for each task made a call 2 in 100
// slower.
#[tactic(auto, unfolding(crate::specs::Inner::key_of), using(crate::proofs::Tables::few_tasks, crate::proofs::Tables::core_low))]
fn key_table(file: &[u8], tasks: [Standing; sizes::TASKS]) -> [u16; sizes::TASKS]
    requires { Checked file.now }
    ensures { Keys (plan_of file.now) tasks result }
{
    let n = usize::from(plan_reading::checked::counts(file).tasks);
    let mut keys = [NO_SEAT; sizes::TASKS];
    for u in 0..n {
        let row = plan_reading::checked::task(file, u);
        let s = tasks[u];
        if (s.resource < RESOURCES) & (s.place < TASKS) {
            keys[u] = seat_of(s, row.processor);
        }
    }
    keys
}

// Puts down who sits where, each as its number plus 1, where nobody sat.
#[tactic(auto, unfolding(folds::proofs::Arrays::stamped_below), using(crate::proofs::Tables::few_tasks))]
fn fill_seats(file: &[u8], tasks: [Standing; sizes::TASKS], keys: &[u16], seats: &mut [u8])
    requires { Unseated file.now tasks keys.now seats.old }
    ensures { Seats (plan_of file.now) tasks seats.new }
{
    let n = usize::from(plan_reading::checked::counts(file).tasks);
    for u in 0..n {
        seats[usize::from(keys[u])] = (u + 1) as u8;
    }
}

// Whether the row of task u, whose seat is `key`, is as it must be.
#[tactic(auto, unfolding(crate::specs::Inner::task_test))]
fn task_ok(figures: &[u16], seats: &[u8], s: Standing, key: u16, u: usize) -> bool
    requires { TaskSeat figures.now seats.now key u }
    ensures { result ≡ task_test figures.now seats.now s key u }
{
    if key == NO_SEAT {
        return s == idle();
    }
    let at = usize::from(key);
    let hold = analysis_figures::hold_at(figures, u, at / RESOURCE_SEATS);
    let back = usize::from(0 < at % sizes::TASKS);
    (1 <= hold) & (usize::from(seats[at]) == u + 1) & (1 <= seats[at - back])
}

// Whether all are.
#[tactic(auto, unfolding(folds::specs::Below::all_below))]
fn tasks_ok(tasks: [Standing; sizes::TASKS], figures: &[u16], keys: &[u16], seats: &[u8]) -> bool
    requires { Sized figures.now keys.now seats.now }
    ensures { result ≡ tasks_test figures.now keys.now seats.now tasks }
{
    let mut ok = true;
    for (u, s) in tasks.iter().enumerate() {
        ok &= task_ok(figures, seats, *s, keys[u], u);
    }
    ok
}

// Who has the first seat of the queue of processor k for q, 0 for nobody.
fn first_seat(seats: &[u8], q: usize, k: usize) -> u8
    requires { (SeatTable seats.now q) × (k < most_processors) }
    ensures { result ≡ first_seat seats.now q k }
{
    seats[(q * sizes::PROCESSORS + k) * sizes::TASKS]
}

// Puts down who has the first seat of each processor's queue for q, in a row that is lent: to return one made a call 1 in 100 slower.
fn first_seats(seats: &[u8], q: usize, first: &mut [u8; sizes::PROCESSORS])
    requires { SeatTable seats.now q }
    ensures { (k : ℕ) → k < most_processors → slice_index first.new k ≡ first_seat seats.now q k }
{
    for (k, slot) in first.iter_mut().enumerate() {
        *slot = first_seat(seats, q, k);
    }
}

// Whether the slots of a queue from c on are empty: then their number is less than 256 ^ c below the largest.
fn tail_ok(queue: [u8; sizes::PROCESSORS], c: u8) -> bool
    requires { QueueCount c }
    ensures { result ≡ tail_test queue c }
{
    let taken = u64::MAX - u64::from_le_bytes(queue);
    (taken >> (8 * u64::from(c) - 8)) < 256
}

// Whether a queue of c for q is as it must be: each processor in it is struck off those with a task in line, and none is left, which
// is tested as one number.
#[tactic(auto, unfolding(folds::specs::Below::all_below, folds::specs::Below::any_below))]
fn queue_ok(queue: [u8; sizes::PROCESSORS], c: u8, seats: &[u8], q: usize) -> bool
    requires { QueueRow seats.now q c }
    ensures { result ≡ queue_test seats.now q queue c }
{
    let mut rest = [0; sizes::PROCESSORS];
    first_seats(seats, q, &mut rest);
    for slot in &queue[..usize::from(c)] {
        let k = usize::from(*slot);
        if sizes::PROCESSORS <= k || rest[k] == 0 {
            return false;
        }
        rest[k] = 0;
    }
    tail_ok(queue, c) & (u64::from_le_bytes(rest) == 0)
}

// Whether the hold left and the budget left of q are within their bounds.
#[tactic(auto, unfolding(crate::specs::Inner::clock_test))]
fn clock_ok(line: LineRow, figures: &[u16], seats: &[u8], q: usize) -> bool
    requires { HeadRow figures.now seats.now q line }
    ensures { result ≡ clock_test figures.now seats.now q line }
{
    let left = line.hold_left;
    let rest = line.budget_left;
    if line.queued == 0 {
        return (left == 0) & (rest == 0);
    }
    let head = usize::from(line.queue[0]);
    let first = usize::from(first_seat(seats, q, head)) - 1;
    let most = analysis_figures::hold_at(figures, first, q);
    let budget = analysis_figures::budget_at(figures, head, q);
    (1 <= left) & (left <= most) & (left <= rest) & (rest <= budget)
}

// Whether nobody has the first seat of a processor's queue for q.
#[tactic(auto, unfolding(folds::specs::Below::all_below))]
fn none_waits(seats: &[u8], q: usize) -> bool
    requires { SeatTable seats.now q }
    ensures { result ≡ all_below most_processors (λ k. eqb (first_seat seats.now q k) 0) }
{
    let mut ok = true;
    for k in 0..sizes::PROCESSORS {
        ok &= first_seat(seats, q, k) == 0;
    }
    ok
}

// Whether the row of a free resource q is as it must be.
fn free_ok(line: LineRow, seats: &[u8], q: usize) -> bool
    requires { SeatTable seats.now q }
    ensures { result ≡ free_test seats.now q line }
{
    (u64::from_le_bytes(line.queue) == u64::MAX)
        & none_waits(seats, q)
        & (line.hold_left == 0)
        & (line.budget_left == 0)
}

// Whether the row of resource q is as it must be.
#[tactic(auto, unfolding(crate::specs::Inner::line_test), using(crate::proofs::Passing::free_line_lem))]
fn line_ok(line: LineRow, figures: &[u16], seats: &[u8], q: usize) -> bool
    requires { LineTables figures.now seats.now q }
    ensures { result ≡ line_test figures.now seats.now q line }
{
    if line.queued == 0 {
        return free_ok(line, seats, q);
    }
    line.queued <= PROCESSORS
        && queue_ok(line.queue, line.queued, seats, q)
        && clock_ok(line, figures, seats, q)
}

// Whether all are.
#[tactic(auto, unfolding(folds::specs::Below::all_below))]
fn lines_ok(lines: [LineRow; sizes::RESOURCES], figures: &[u16], seats: &[u8]) -> bool
    requires { SeatSized figures.now seats.now }
    ensures { result ≡ lines_test figures.now seats.now lines }
{
    for (q, line) in lines.iter().enumerate() {
        if !line_ok(*line, figures, seats, q) {
            return false;
        }
    }
    true
}

// Whether a state is sound, by the tables of its plan.
#[tactic(auto, unfolding(crate::specs::Inner::state_test))]
fn passes(state: State, figures: &[u16], keys: &[u16], seats: &[u8]) -> bool
    requires { Sized figures.now keys.now seats.now }
    ensures { result ≡ state_test figures.now keys.now seats.now state }
{
    tasks_ok(state.tasks, figures, keys, seats) & lines_ok(state.lines, figures, seats)
}

// Seats the tasks of a state where nobody sat, and tests it: the seat of each task, as Ok where the state is sound, as Err where it is
// not.
pub fn seat_tasks(
    file: &[u8],
    figures: &[u16],
    state: State,
    seats: &mut [u8],
) -> Result<[u16; sizes::TASKS], [u16; sizes::TASKS]>
    requires { (Known file.now figures.now) × (seats.old ≡ replicate seat_count 0) }
    ensures { SeatedState (plan_of file.now) state seats.new result }
{
    let keys = key_table(file, state.tasks);
    fill_seats(file, state.tasks, &keys, seats);
    if passes(state, figures, &keys, seats) {
        Ok(keys)
    } else {
        Err(keys)
    }
}
