// The printing program: reads a plan file and then calls on standard input, and prints what each call does. What a
// line says is the work of `print_calls`; here bytes are only read and written.
#![tactic(auto)]

ghost use Rattle.std.specs.Prelude.{◌<◌, ◌+◌, ◌-◌, ◌^◌, ◌≤◌, ◌≡◌, true, IfOk, OnOk, IfSome, length, take, drop};
ghost use Rattle.std.specs.Io.KnownBytes.{Appends, Consumes, IsAtEnd};
ghost use Rattle.plan.specs.Acceptance.{refusal};
ghost use Rattle.machine.specs.Replies.{state_refusal};
ghost use Rattle.machine_calls.specs.Calls.{call_width};
ghost use Rattle.print_lines.specs.Lines.{most_line, plan_line};
ghost use Rattle.print_calls.specs.Output.{end_line, calls_output};
ghost use Rattle.mspis.specs.Served.{Wrote};

use machine_calls::WIDTH;
use machine_state::State;
use std::io;
use std::io::{Read, Write};

// What came of some calls: how many of their bytes were made, whether all lines could be made, and the state.
#[derive(Clone, Copy)]
struct Served {
    used: usize,
    written: bool,
    state: State,
}

// "plan P N R S".
fn print_plan<W: Write>(output: &mut W, counts: plan_rules::Counts) -> io::Result<()>
    ensures { OnOk result (Appends (W.contents output.old) (W.contents output.new) (plan_line counts)) }
{
    streams::print_line(output, |out| print_calls::plan_line(counts, out))
}

// "refused 22", where bytes are left over.
fn print_end<W: Write>(output: &mut W, left: usize) -> io::Result<()>
    ensures { OnOk result (Appends (W.contents output.old) (W.contents output.new) (end_line left)) }
{
    streams::print_line(output, |out| print_calls::end_line(left, out))
}

// Makes all whole calls, and writes their lines in pieces as large as the buffer; a refusal, which the plan and the states of this
// program never give, ends it.
fn serve<W: Write>(
    output: &mut W,
    file: &[u8],
    start: State,
    calls: &[u8],
    out: &mut [u8],
) -> io::Result<Served>
    ensures used { IfOk result (λ r. r.used ≤ length calls.now) }
    ensures lines { IfOk result (λ r. Wrote (W.contents output.old) (W.contents output.new) file.now start (take r.used calls.now) r.state) }
    ensures all { IfOk result (λ r. state_refusal file.now start ≡ 0 → most_line ≤ length out.old
        → (r.written ≡ true) × (length calls.now < r.used + call_width)) }
{
    let mut state = start;
    let mut used = 0;
    // No counting loop: a turn goes as far as there was room for lines.
    while WIDTH <= calls.len() - used {
        let Ok(batch) = print_calls::lines(file, state, &calls[used..], out) else {
            return Ok(Served {
                used,
                written: false,
                state,
            });
        };
        output.write_all(&out[..batch.length])?;
        state = batch.state;
        used += batch.used;
    }
    Ok(Served {
        used,
        written: true,
        state,
    })
}

// Moves the bytes from `used` up to `end` to the front, and says how many they are.
fn keep(buf: &mut [u8], used: usize, end: usize) -> usize
    requires { (used ≤ end) × (end ≤ length buf.old) }
    ensures at_most { result ≤ end }
    ensures count { result ≡ end - used }
    ensures moved { take result buf.new ≡ drop used (take end buf.old) }
{
    buf.copy_within(used..end, 0);
    end - used
}

// Reads once, behind the bytes that are kept: how many bytes came.
fn read_more<R: Read>(input: &mut R, buf: &mut [u8], kept: usize) -> io::Result<usize>
    requires { kept ≤ length buf.old }
    ensures within { IfOk result (λ n. n ≤ length buf.old - kept) }
    ensures front { take kept buf.new ≡ take kept buf.old }
    ensures bytes { IfOk result (λ n. Consumes (R.remaining input.old) (R.remaining input.new) (take n (drop kept buf.new))) }
    ensures ended { IfOk result (λ n. n ≡ 0 → kept < length buf.old → IsAtEnd (R.remaining input.new)) }
{
    input.read(&mut buf[kept..])
}

// Makes the calls that follow the plan, as they come, until the input ends. A proved loop has to end: there are more turns than any
// run takes.
fn serve_all<R: Read, W: Write>(input: &mut R, output: &mut W, file: &[u8]) -> io::Result<()>
    ensures { refusal file.now ≡ 0 → OnOk result (IfSome (R.remaining input.old) (λ xs. length xs < 2 ^ 64 - 1
        → Appends (W.contents output.old) (W.contents output.new) (calls_output file.now xs))) }
{
    let mut calls = [0u8; streams::BUFFER];
    let mut out = [0u8; streams::BUFFER];
    let mut state = machine::start(file).state;
    let mut kept = 0;
    for _turn in 0..u64::MAX {
        let got = read_more(input, &mut calls, kept)?;
        let end = kept + got;
        let served = serve(output, file, state, &calls[..end], &mut out)?;
        state = served.state;
        kept = keep(&mut calls, served.used, end);
        if !served.written {
            return Ok(());
        }
        if got == 0 {
            break;
        }
    }
    print_end(output, kept)
}

fn main(rt: HostRuntime) -> io::Result<()> {
    let mut input = rt.stdin();
    let mut output = rt.stdout();
    let mut buf = [0u8; streams::BUFFER];
    let end = streams::read_plan(&mut input, &mut buf)?;
    let file = &buf[..end];
    let read = plan::read(file);
    let Ok(plan) = read else {
        return streams::print_refused(&mut output, refusals::code(&read));
    };
    print_plan(&mut output, plan.counts)?;
    serve_all(&mut input, &mut output, file)
}
