// The machine: start, request, release, give-up and tick, each on a plan file and a state by value. Each takes any bytes and any state, and
// refuses by number what it does not accept.
#![tactic(auto)]

ghost use Rattle.std.specs.Prelude.{◌≡◌, true};
ghost use Rattle.refusals.specs.Refusals.{number, code_of};
ghost use Rattle.plan.specs.Acceptance.{refusal};
ghost use Rattle.plan_reading.specs.Plan.{plan_of};
ghost use Rattle.machine_rules.specs.declared.Call.TheVariants.{Request, Release, GiveUp, Tick};
ghost use Rattle.machine_rules.specs.Machine.{answer_outcome, fresh};
ghost use Rattle.machine_calls.specs.Calls.{call_width, call_in, calls_of};
ghost use Rattle.machine_state.specs.Shows.{fresh_state, shows};
ghost use Rattle.machine_state.specs.Sound.{sound};
ghost use Rattle.machine.specs.Replies.{reply, reply_outcome, Next, AfterBytes, cut_count};
ghost use Rattle.machine.specs.Inner.{cuts_in, refused_at};
ghost use Rattle.machine.specs.Promise.{Ran, FreshRan};

use machine_calls::{CallBytes, WIDTH};
use machine_replies::Reply;
use machine_rules::{Answer, Call};
use machine_state::State;
use refusals::Refusal;

pub mod surveyed;

// The answer to a tick, the number of cuts in it, and the next state.
#[derive(Clone, Copy)]
pub struct TickReply {
    pub answer: Answer,
    pub cut_count: u32,
    pub state: State,
}

// Why the plan is refused, if it is; and the fresh state, in both cases.
#[derive(Clone, Copy)]
pub struct Started {
    pub accepted: Result<(), Refusal>,
    pub state: State,
}

// A fresh machine.
pub fn start(file: &[u8]) -> Started
    ensures refusal_value { (code_of result.accepted ≡ refusal file.now) × (result.state ≡ fresh_state) }
    ensures sound_value { refusal file.now ≡ 0 → sound (plan_of file.now) result.state ≡ true }
    ensures shown { shows (plan_of file.now) result.state ≡ fresh }
{
    Started {
        accepted: plan::check(file),
        state: machine_state::fresh(),
    }
}

// The refusal of a call on a state.
fn refuse(unchanged: State, refusal: Refusal) -> Reply
    ensures { result ≡ refused_at unchanged (number refusal) }
{
    Reply {
        answer: Answer::Refused(refusal.number()),
        state: unchanged,
    }
}

// A call on a state.
#[tactic(auto, using(crate::proofs::Answered::reply_told))]
pub fn call(file: &[u8], state: State, call: Call) -> Reply
    ensures answer_value { result.answer ≡ reply file.now state call }
    ensures next { Next file.now state call result.state }
    ensures answer_value_2 { answer_outcome result.answer ≡ reply_outcome file.now state call }
{
    let mut figures = [0u16; analysis_figures::FIGURES];
    let looked = surveyed::look(file, &mut figures);
    surveyed::call(file, looked, &figures, state, call)
}

// A request of a resource by the task with this tag.
pub fn request(file: &[u8], state: State, tag: u16, resource: u8) -> Reply
    ensures answer_value { result.answer ≡ reply file.now state (Request tag resource) }
    ensures next { Next file.now state (Request tag resource) result.state }
    ensures answer_value_2 { answer_outcome result.answer ≡ reply_outcome file.now state (Request tag resource) }
{
    call(file, state, Call::Request(tag, resource))
}

// A release of it.
pub fn release(file: &[u8], state: State, tag: u16, resource: u8) -> Reply
    ensures answer_value { result.answer ≡ reply file.now state (Release tag resource) }
    ensures next { Next file.now state (Release tag resource) result.state }
    ensures answer_value_2 { answer_outcome result.answer ≡ reply_outcome file.now state (Release tag resource) }
{
    call(file, state, Call::Release(tag, resource))
}

// A give-up by the task with this tag, which waits for the resource: it leaves the line.
pub fn give_up(file: &[u8], state: State, tag: u16, resource: u8) -> Reply
    ensures answer_value { result.answer ≡ reply file.now state (GiveUp tag resource) }
    ensures next { Next file.now state (GiveUp tag resource) result.state }
    ensures answer_value_2 { answer_outcome result.answer ≡ reply_outcome file.now state (GiveUp tag resource) }
{
    call(file, state, Call::GiveUp(tag, resource))
}

// The number of ones in the first word of a tick's answer.
fn cuts_in(answer: Answer) -> u32
    ensures { result ≡ cuts_in answer }
{
    match answer {
        Answer::Ticked(cuts, _) => cuts.count_ones(),
        _ => 0,
    }
}

// A tick.
#[tactic(auto, using(crate::proofs::Answered::tick_cuts))]
pub fn tick(file: &[u8], state: State) -> TickReply
    ensures answer_value { result.answer ≡ reply file.now state Tick }
    ensures next { Next file.now state Tick result.state }
    ensures cut_count_value { result.cut_count ≡ cut_count file.now state }
    ensures answer_value_2 { answer_outcome result.answer ≡ reply_outcome file.now state Tick }
{
    let reply = call(file, state, Call::Tick);
    TickReply {
        answer: reply.answer,
        cut_count: cuts_in(reply.answer),
        state: reply.state,
    }
}

// The state after a call in bytes, which is as it was where they are no call.
fn after(file: &[u8], state: State, bytes: CallBytes) -> State
    ensures { AfterBytes file.now state (call_in bytes) result }
{
    match machine_calls::decode(bytes.letter, bytes.tag, bytes.resource) {
        Some(wanted) => call(file, state, wanted).state,
        None => state,
    }
}

// The state after a list of calls, the first made on `start`. Bytes left over are no call.
pub fn run_from(file: &[u8], start: State, calls: &[u8]) -> State
    ensures { Ran file.now start (calls_of call_width calls.now) result }
{
    let mut state = start;
    for call in calls.chunks_exact(WIDTH) {
        state = after(file, state, machine_calls::bytes_at(call, 0, WIDTH));
    }
    state
}

// The same from a fresh machine on: demand 3.
pub fn run(file: &[u8], calls: &[u8]) -> State
    ensures { FreshRan file.now (calls_of call_width calls.now) result }
{
    run_from(file, machine_state::fresh(), calls)
}
