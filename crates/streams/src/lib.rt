// Standard input and output for the programs: a plan that is read, and the line of a refusal.
#![tactic(auto)]

ghost use Rattle.std.specs.Prelude.{◌<◌, ◌≤◌, ◌≡◌, IfOk, length, OnErr, OnOk, take};
ghost use Rattle.std.specs.Io.KnownBytes.{Appends, Consumes, IsAtEnd};
ghost use Rattle.print_lines.specs.Lines.{refused_line};
ghost use Rattle.plan.specs.Reading.{plan_length};
ghost use Rattle.streams.specs.Streams.{most_plan_bytes, Came, FirstPlan, MayHand, HandsFitting, Handing};

use refusals::Refusal;
use std::io;
use std::io::{Read, Write};

// A buffer of so many bytes holds every plan of which a header can tell the length.
pub const BUFFER: usize = 65536;

// Reads until the buffer is full or the input ends: how many bytes came.
pub fn read_full<R: Read>(input: &mut R, buf: &mut [u8]) -> io::Result<usize>
    ensures within { IfOk result (λ n. n ≤ length buf.new) }
    ensures bytes { IfOk result (λ n. Consumes (R.remaining input.old) (R.remaining input.new) (take n buf.new)) }
    ensures ended { IfOk result (λ n. n < length buf.new → IsAtEnd (R.remaining input.new)) }
{
    let mut done = 0;
    // No counting loop: a turn goes as far as its read gave bytes.
    while done < buf.len() {
        let n = input.read(&mut buf[done..])?;
        if n == 0 {
            break;
        }
        done += n;
    }
    Ok(done)
}

// Reads a plan to the front of the buffer: as many bytes as its header says, or as many as there are. What lies behind them in the
// part that was lent for reading is not known. The buffer is as long as the longest plan that a header can tell of.
fn read_whole<R: Read>(input: &mut R, buf: &mut [u8]) -> io::Result<usize>
    requires { length buf.old ≡ most_plan_bytes }
    ensures whole { IfOk result (λ r. (plan_length (take r buf.new) ≡ r) × (r ≤ most_plan_bytes)) }
    ensures first { IfOk result (λ r. FirstPlan (R.remaining input.old) (R.remaining input.new) (take r buf.new)) }
{
    let head = read_full(input, &mut buf[0..plan_layout::HEADER])?;
    if head < plan_layout::HEADER {
        return Ok(head);
    }
    let end = plan::plan_length(buf);
    if end <= plan_layout::HEADER {
        return Ok(end);
    }
    let rest = read_full(input, &mut buf[plan_layout::HEADER..end])?;
    Ok(plan_layout::HEADER + rest)
}

// Reads the plan to the front of the lent buffer, by way of one of its own, so that what lies behind it stays.
pub fn read_plan<R: Read>(input: &mut R, buf: &mut [u8]) -> io::Result<usize>
    requires { length buf.old ≡ most_plan_bytes }
    ensures ok { IfOk result (λ r. Came buf.old buf.new r) }
    ensures first { IfOk result (λ r. FirstPlan (R.remaining input.old) (R.remaining input.new) (take r buf.new)) }
    ensures err { OnErr result (buf.new ≡ buf.old) }
{
    let mut own = [0u8; BUFFER];
    let end = read_whole(input, &mut own)?;
    Ok(print_text::put(buf, 0, &own[..end]))
}

// Prints a line that is handed over to a buffer of its own; nothing, where it is refused.
pub fn print_line<W: Write, F: FnOnce(&mut [u8]) -> Result<usize, Refusal>>(
    output: &mut W,
    line: F,
) -> io::Result<()>
    requires callable { MayHand (F.pre line) }
    requires fits { HandsFitting (F.post line) }
    ensures { OnOk result (Handing (F.post line) (W.contents output.old) (W.contents output.new)) }
{
    let mut out = [0u8; print_lines::LINE];
    let length = line(&mut out).unwrap_or(0);
    output.write_all(&out[..length])
}

// Prints "refused N".
pub fn print_refused<W: Write>(output: &mut W, number: u8) -> io::Result<()>
    ensures { OnOk result (Appends (W.contents output.old) (W.contents output.new) (refused_line number)) }
{
    print_line(output, |out| print_lines::refused_line(number, out))
}
