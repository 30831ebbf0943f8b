// What a call does, as a line of text in a lent buffer: document 01, "The printing program".
#![tactic(auto)]

ghost use Rattle.std.specs.Prelude.{◌≡◌, IfOk, length, replicate};
ghost use Rattle.refusals.specs.Refusals.{code_of, Told};
ghost use Rattle.analysis_figures.specs.Figures.{figure_count};
ghost use Rattle.machine.specs.Replies.{state_refusal, AfterBytes};
ghost use Rattle.machine_calls.specs.Calls.{call_in};
ghost use Rattle.print_lines.specs.Lines.{plan_line};
ghost use Rattle.print_calls.specs.Calls.{call_line};
ghost use Rattle.print_calls.specs.Output.{end_line};
ghost use Rattle.print_text.specs.Buffers.{handed_code, buffer_with, unless_code, buffer_unless};
ghost use Rattle.print_calls.specs.Buffers.{lines_code, Batched};
ghost use Rattle.print_calls.specs.Inner.{CallReady, Looked, Stepped};

use machine_calls::{CallBytes, WIDTH};
use machine_state::State;
use plan_rules::Counts;
use print_lines::LINE;
use refusals::Refusal;

// How long a line is, and the state after its call.
#[derive(Clone, Copy)]
pub struct CallLine {
    pub length: usize,
    pub state: State,
}

// The lines of many calls: how many bytes of calls were made, how long the lines are, and the state after them.
#[derive(Clone, Copy)]
pub struct Batch {
    pub used: usize,
    pub length: usize,
    pub state: State,
}

// Where a line ends, and the state after its call.
#[derive(Clone, Copy)]
struct Step {
    end: usize,
    state: State,
}

// Makes a call on a plan that is accepted, and puts its line.
fn put_call(
    buf: &mut [u8],
    at: usize,
    file: &[u8],
    figures: &[u16],
    state: State,
    bytes: CallBytes,
) -> Step
    requires { CallReady file.now figures.now buf.old at }
    ensures { Stepped file.now state bytes buf.old buf.new at result }
{
    let Some(wanted) = machine_calls::decode(bytes.letter, bytes.tag, bytes.resource) else {
        let end = print_lines::put_refused(buf, at, Refusal::NoCall.number());
        return Step { end, state };
    };
    let reply = machine::surveyed::call(file, Ok(()), figures, state, wanted);
    let answer = reply.answer;
    let next = reply.state;
    let end = print_lines::put_answer(buf, at, file, bytes.tag, bytes.resource, answer);
    Step { end, state: next }
}

// What the output ends with, where so many bytes stand behind the last call that was made: nothing, or the refusal 22.
pub fn end_line(left: usize, out: &mut [u8]) -> Result<usize, Refusal>
    ensures told { Told (handed_code (end_line left) (length out.old)) (length (end_line left)) result }
    ensures out_after { out.new ≡ buffer_with (end_line left) out.old }
{
    if left % WIDTH == 0 {
        return Ok(0);
    }
    print_lines::refused_line(Refusal::LeftOver.number(), out)
}

// The line of a plan that is read.
pub fn plan_line(counts: Counts, out: &mut [u8]) -> Result<usize, Refusal>
    ensures told { Told (handed_code (plan_line counts) (length out.old)) (length (plan_line counts)) result }
    ensures out_after { out.new ≡ buffer_with (plan_line counts) out.old }
{
    let mut line = [0u8; LINE];
    let end = print_lines::put_plan(&mut line, 0, counts);
    print_text::hand_over(&line[..end], out)
}

// 1 to 9, then 19; or nothing, and then the table holds the plan's hold times and budgets.
fn look(file: &[u8], state: State, figures: &mut [u16]) -> Result<(), Refusal>
    requires { figures.old ≡ replicate figure_count 0 }
    ensures { Looked file.now state figures.new result }
{
    let looked = machine::surveyed::look(file, figures);
    machine::surveyed::check_state(file, looked, figures, state)
}

// Makes a call on a state: its line, and the next state. What the call itself is refused, 11 to 16 or 21, is its line.
// A plan that is refused, a state that is not sound (19), then a buffer that is too short for the line (10) are refusals here: there
// is no line, and the buffer is as it was.
pub fn call_line(
    file: &[u8],
    state: State,
    bytes: CallBytes,
    out: &mut [u8],
) -> Result<CallLine, Refusal>
    ensures number { code_of result ≡ unless_code (state_refusal file.now state) (call_line file.now state bytes) (length out.old) }
    ensures out_after { out.new ≡ buffer_unless (state_refusal file.now state) (call_line file.now state bytes) out.old }
    ensures length { IfOk result (λ r. r.length ≡ length (call_line file.now state bytes)) }
    ensures after { IfOk result (λ r. AfterBytes file.now state (call_in bytes) r.state) }
{
    let mut figures = [0u16; analysis_figures::FIGURES];
    look(file, state, &mut figures)?;
    let mut buf = [0u8; LINE];
    let step = put_call(&mut buf, 0, file, &figures, state, bytes);
    let length = print_text::hand_over(&buf[..step.end], out)?;
    Ok(CallLine {
        length,
        state: step.state,
    })
}

// 10, where there is a call in so many bytes and no room for every line.
#[tactic(auto, unfolding(crate::specs::Buffers::lines_code))]
fn check_lines(calls: usize, room: usize) -> Result<(), Refusal>
    ensures { code_of result ≡ lines_code 0 calls room }
{
    if (WIDTH <= calls) & (room < LINE) {
        return Err(Refusal::NoRoom);
    }
    Ok(())
}

// Makes calls, one after the other, and puts their lines one behind the other: as many as there are, or until fewer
// than `LINE` bytes are left, which no line needs. A plan that is refused, a state that is not sound (19), then a buffer of fewer
// bytes than that where there is a call (10) are refusals: nothing is made, and the buffer is as it was.
pub fn lines(file: &[u8], state: State, calls: &[u8], out: &mut [u8]) -> Result<Batch, Refusal>
    ensures { Batched file.now state calls.now out.old out.new result }
{
    let mut figures = [0u16; analysis_figures::FIGURES];
    look(file, state, &mut figures)?;
    check_lines(calls.len(), out.len())?;
    let mut current = state;
    let mut used = 0;
    let mut end = 0;
    for call in calls.chunks_exact(WIDTH) {
        if out.len() - end < LINE {
            break;
        }
        let bytes = machine_calls::bytes_at(call, 0, WIDTH);
        let step = put_call(out, end, file, &figures, current, bytes);
        current = step.state;
        end = step.end;
        used += WIDTH;
    }
    Ok(Batch {
        used,
        length: end,
        state: current,
    })
}
