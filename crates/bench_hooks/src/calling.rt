// Calls of the machine.
ghost use Rattle.std.specs.Prelude.{◌≡◌, ◌+◌, ◌*◌};
ghost use Rattle.machine.specs.Replies.{reply};
ghost use Rattle.machine_calls.specs.Calls.{call_width, call_of, calls_of};
ghost use Rattle.bench_hooks.specs.Calling.{answer_number, answer_after, call_number, row_number, state_after};

use machine_rules::Answer;
use machine_state::{LineRow, Standing, State};

// An answer as a number.
fn answer_number(answer: Answer) -> u64
    ensures { result ≡ answer_number answer }
{
    match answer {
        Answer::Granted => 256,
        Answer::Waits(ahead, most) => 512 + 65536 * u64::from(ahead) + 16777216 * u64::from(most),
        Answer::Next(tag) => 768 + 65536 * u64::from(tag),
        Answer::Free => 1024,
        Answer::Ticked(cuts, grants) => 1280
            + 65536 * u64::from(cuts)
            + 4294967296 * u64::from(grants),
        Answer::Left => 1536,
        Answer::Refused(code) => u64::from(code),
    }
}

// The answer to three bytes on a state: 0 where they are no call.
fn bytes_number(file: &[u8], state: State, letter: u8, tag: u8, resource: u8) -> u64
    ensures { result ≡ call_number (reply file.now state) (call_of letter tag resource) }
{
    match machine_calls::decode(letter, u16::from(tag), resource) {
        Some(wanted) => answer_number(machine::call(file, state, wanted).answer),
        None => 0,
    }
}

// Makes a list of calls of three bytes on a fresh machine, then one more, and returns its answer.
#[unsafe(no_mangle)]
pub extern "C" fn machine_answer(
    file: &[u8],
    calls: &[u8],
    letter: u8,
    tag: u8,
    resource: u8,
) -> u64
    ensures { result ≡ call_number (answer_after file.now (calls_of call_width calls.now)) (call_of letter tag resource) }
{
    let state = machine::run(file, calls);
    bytes_number(file, state, letter, tag, resource)
}

// A task's row, a resource's row and a processor in its queue as one number, from the low byte up.
fn parts_number(standing: Standing, line: LineRow, slot: u8) -> u64
    ensures { result ≡ standing.resource + 256 * standing.place + 65536 * line.queued + 16777216 * line.hold_left
        + 1099511627776 * line.budget_left + 72057594037927936 * slot }
{
    u64::from(standing.resource)
        + 256 * u64::from(standing.place)
        + 65536 * u64::from(line.queued)
        + 16777216 * u64::from(line.hold_left)
        + 1099511627776 * u64::from(line.budget_left)
        + 72057594037927936 * u64::from(slot)
}

// A part of a state as a number.
fn row_number(state: State, x: u8) -> u64
    ensures { result ≡ row_number state x }
{
    let at = usize::from(x);
    let line = state.lines[at % sizes::RESOURCES];
    let slot = line.queue[at / sizes::RESOURCES % sizes::PROCESSORS];
    parts_number(state.tasks[at % sizes::TASKS], line, slot)
}

// Makes a list of calls of three bytes on a fresh machine, and returns part x of its state; x from 0 to 127 shows all of it.
#[unsafe(no_mangle)]
pub extern "C" fn machine_row(file: &[u8], calls: &[u8], x: u8) -> u64
    ensures { result ≡ row_number (state_after file.now (calls_of call_width calls.now)) x }
{
    let state = machine::run(file, calls);
    row_number(state, x)
}
