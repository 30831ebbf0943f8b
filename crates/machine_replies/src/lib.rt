// What a call is refused for on a sound state, and what it does and is answered where it is not. The crates above look at the plan and
// the state first, and hand on the tables that this relies on.
#![tactic(auto)]

ghost use Rattle.std.specs.Prelude.{◌≡◌, ℕ};
ghost use Rattle.refusals.specs.Refusals.{code_of};
ghost use Rattle.plan_reading.specs.Plan.{plan_of};
ghost use Rattle.machine_rules.specs.declared.Call.TheVariants.{Request, Release, GiveUp, Tick};
ghost use Rattle.machine_rules.specs.Machine.{request_code, release_code, give_up_code, call_code};
ghost use Rattle.machine_state.specs.Shows.{shows};
ghost use Rattle.machine_replies.specs.Inner.{OnKnown, OnSeats, OnSound, HeadOf, Asks, Frees, Quits, Makes};
ghost use Rattle.machine_replies.specs.Inner.{Grants, NamedBy, holder_seat, Acted, granted_answer};

use machine_rules::{Answer, Call};
use machine_state::{LineRow, State};
use refusals::Refusal;

// The answer to a call, and the next state.
#[derive(Clone, Copy)]
pub struct Reply {
    pub answer: Answer,
    pub state: State,
}

// A task, and whether it holds a resource.
#[derive(Clone, Copy)]
struct Named {
    task: usize,
    holds: bool,
}

// 11 to 15, where a request on a sound state is refused.
#[tactic(auto, unfolding(machine_rules::specs::Machine::request_code), using(crate::proofs::Asked::user_low, crate::proofs::Asked::user_busy))]
fn check_request(file: &[u8], figures: &[u16], state: State, tag: u16, q: u8) -> Result<(), Refusal>
    requires { OnKnown file.now state figures.now }
    ensures { code_of result ≡ request_code (plan_of file.now) (shows (plan_of file.now) state) tag q }
{
    let user = analysis_figures::user_in(file, figures, tag, q);
    user.allowed?;
    if machine_state::is_in_line(state.tasks[user.task]) {
        return Err(Refusal::AlreadyInLine);
    }
    Ok(())
}

// Who holds q, as a task's number plus 1; 0 where it is free.
#[tactic(auto, unfolding(crate::specs::Inner::holder_seat))]
fn holder(line: LineRow, seats: &[u8], q: usize) -> u8
    requires { HeadOf seats.now q line }
    ensures { result ≡ holder_seat seats.now q line }
{
    if line.queued == 0 {
        return 0;
    }
    seats[(q * sizes::PROCESSORS + usize::from(line.queue[0])) * sizes::TASKS]
}

// The task with this tag and whether it holds the resource; 11 or 12 where one of them is not there.
#[tactic(auto, unfolding(machine_rules::specs::Machine::named_code), using(crate::proofs::Refused::resources_few, crate::proofs::Refused::head_of, crate::proofs::Refused::holds_told))]
fn task_named(file: &[u8], seats: &[u8], state: State, tag: u16, q: u8) -> Result<Named, Refusal>
    requires { OnSeats file.now state seats.now }
    ensures { NamedBy (plan_of file.now) state tag q result }
{
    let counts = plan_reading::checked::counts(file);
    let task = analysis_figures::task_number(file, tag);
    if usize::from(counts.tasks) <= task {
        return Err(Refusal::UnknownTag);
    }
    if counts.resources <= q {
        return Err(Refusal::UnknownResource);
    }
    let r = usize::from(q);
    let first = holder(state.lines[r], seats, r);
    Ok(Named {
        task,
        holds: usize::from(first) == task + 1,
    })
}

// 11, 12 and 16, where a release on a sound state is refused.
#[tactic(auto, unfolding(machine_rules::specs::Machine::line_code))]
fn check_release(file: &[u8], seats: &[u8], state: State, tag: u16, q: u8) -> Result<(), Refusal>
    requires { OnSeats file.now state seats.now }
    ensures { code_of result ≡ release_code (plan_of file.now) (shows (plan_of file.now) state) tag q }
{
    let named = task_named(file, seats, state, tag, q)?;
    if !named.holds {
        return Err(Refusal::NotHeld);
    }
    Ok(())
}

// 11, 12 and 23, where a give-up on a sound state is refused: a task waits where its row names the resource and it does not hold it.
#[tactic(auto, unfolding(machine_rules::specs::Machine::line_code), using(crate::proofs::Refused::named_low, crate::proofs::Refused::waits_told))]
fn check_give_up(file: &[u8], seats: &[u8], state: State, tag: u16, q: u8) -> Result<(), Refusal>
    requires { OnSeats file.now state seats.now }
    ensures { code_of result ≡ give_up_code (plan_of file.now) (shows (plan_of file.now) state) tag q }
{
    let named = task_named(file, seats, state, tag, q)?;
    if state.tasks[named.task].resource == q && !named.holds {
        return Ok(());
    }
    Err(Refusal::NotWaiting)
}

// Why a call on a sound state is refused, if it is.
pub fn check_call(
    file: &[u8],
    figures: &[u16],
    seats: &[u8],
    state: State,
    call: Call,
) -> Result<(), Refusal>
    requires { OnSound file.now state figures.now seats.now }
    ensures { code_of result ≡ call_code (plan_of file.now) (shows (plan_of file.now) state) call }
{
    match call {
        Call::Request(tag, q) => check_request(file, figures, state, tag, q),
        Call::Release(tag, q) => check_release(file, seats, state, tag, q),
        Call::GiveUp(tag, q) => check_give_up(file, seats, state, tag, q),
        Call::Tick => Ok(()),
    }
}

// A request that is not refused.
fn request_on(file: &[u8], figures: &[u16], seats: &[u8], state: State, tag: u16, q: u8) -> Reply
    requires { Asks file.now state figures.now seats.now tag q }
    ensures { Acted (plan_of file.now) state (Request tag q) result }
{
    let i = analysis_figures::task_number(file, tag);
    let k = plan_reading::checked::task(file, i).processor;
    let r = usize::from(q);
    let ahead = machine_steps::ahead_of(figures, seats, r, k);
    let queued = state.lines[r].queued;
    let next = machine_steps::join(state, figures, q, i, k, ahead.count);
    if queued == 0 {
        return Reply {
            answer: Answer::Granted,
            state: next,
        };
    }
    let wait = analysis_figures::wait_in(file, figures, k, r);
    let most = ahead.holds + (u32::from(ahead.count) + 1) * wait;
    Reply {
        answer: Answer::Waits(ahead.count, most),
        state: next,
    }
}

// Who is granted q, once the first task of processor `gone` left and the line is as given.
#[tactic(auto, unfolding(crate::specs::Inner::granted_answer))]
fn granted(file: &[u8], line: LineRow, seats: &[u8], q: usize, gone: u8) -> Answer
    requires { Grants file.now seats.now q gone line }
    ensures { result ≡ granted_answer (plan_of file.now) seats.now q gone line }
{
    if line.queued == 0 {
        return Answer::Free;
    }
    let k = line.queue[0];
    let seat = (q * sizes::PROCESSORS + usize::from(k)) * sizes::TASKS + usize::from(k == gone);
    let row = plan_reading::checked::task(file, usize::from(seats[seat]) - 1);
    Answer::Next(row.tag)
}

// A release that is not refused, whatever the tag of the holder.
#[tactic(auto, using(crate::proofs::Freed::free_ready, crate::proofs::Freed::free_grants))]
fn release_on(
    file: &[u8],
    figures: &[u16],
    keys: &[u16],
    seats: &[u8],
    state: State,
    q: u8,
) -> Reply
    requires { Frees file.now state figures.now keys.now seats.now q }
    ensures { (tag : ℕ) → Acted (plan_of file.now) state (Release tag q) result }
{
    let r = usize::from(q);
    let gone = state.lines[r].queue[0];
    let next = machine_steps::leave(state, figures, keys, seats, r);
    let answer = granted(file, next.lines[r], seats, r, gone);
    Reply {
        answer,
        state: next,
    }
}

// A give-up that is not refused.
fn give_up_on(file: &[u8], keys: &[u16], seats: &[u8], state: State, tag: u16, q: u8) -> Reply
    requires { Quits file.now state keys.now seats.now tag q }
    ensures { Acted (plan_of file.now) state (GiveUp tag q) result }
{
    let i = analysis_figures::task_number(file, tag);
    let k = plan_reading::checked::task(file, i).processor;
    Reply {
        answer: Answer::Left,
        state: machine_steps::withdraw(state, keys, seats, usize::from(q), i, k),
    }
}

// A tick, which is never refused.
#[tactic(auto, using(crate::proofs::Beaten::beat_ready))]
fn tick_on(file: &[u8], figures: &[u16], keys: &[u16], seats: &[u8], state: State) -> Reply
    requires { Makes file.now state figures.now keys.now seats.now Tick }
    ensures { Acted (plan_of file.now) state Tick result }
{
    let ticked = machine_steps::tick(state, figures, keys, seats);
    Reply {
        answer: Answer::Ticked(ticked.cuts, ticked.grants),
        state: ticked.state,
    }
}

// A call on a sound state that is not refused.
#[tactic(auto, using(crate::proofs::Freed::release_low, crate::proofs::Freed::release_held))]
pub fn make(
    file: &[u8],
    figures: &[u16],
    keys: &[u16],
    seats: &[u8],
    state: State,
    call: Call,
) -> Reply
    requires { Makes file.now state figures.now keys.now seats.now call }
    ensures { Acted (plan_of file.now) state call result }
{
    match call {
        Call::Request(tag, q) => request_on(file, figures, seats, state, tag, q),
        Call::Release(_, q) => release_on(file, figures, keys, seats, state, q),
        Call::GiveUp(tag, q) => give_up_on(file, keys, seats, state, tag, q),
        Call::Tick => tick_on(file, figures, keys, seats, state),
    }
}
