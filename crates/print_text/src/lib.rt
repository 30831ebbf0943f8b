// Text put into a lent buffer, from a place on; each function returns where the text ends. They are for the crates above this one,
// which know how much room there is: each says in its `requires` how much it takes.
#![tactic(auto)]

ghost use Rattle.std.specs.Prelude.{◌≡◌, ◌+◌, ◌≤◌, length};
ghost use Rattle.print_text.specs.Text.{most_digits, most_signed, decimal, signed, Put, PutIn};
ghost use Rattle.print_text.specs.Buffers.{handed_code, buffer_with};
ghost use Rattle.print_text.specs.Inner.{Digits};
ghost use Rattle.refusals.specs.Refusals.{Told};

use refusals::Refusal;

// Bytes as they are. By a loop: with `copy_from_slice` an archive that puts text would need `memmove` from whoever links it.
pub fn put(buf: &mut [u8], at: usize, text: &[u8]) -> usize
    requires { at + length text.now ≤ length buf.old }
    ensures { Put buf.old buf.new at text.now result }
{
    for (k, byte) in text.iter().enumerate() {
        buf[at + k] = *byte;
    }
    at + text.len()
}

// How many digits a number has in decimal.
#[tactic(auto, using(crate::proofs::TextLaws::places_of_log))]
fn places(n: u64) -> usize
    ensures { Digits n result }
{
    n.checked_ilog10().unwrap_or(0) as usize + 1
}

// A number in decimal.
#[tactic(auto, using(crate::proofs::TextLaws::digit_put))]
pub fn put_decimal(buf: &mut [u8], at: usize, n: u64) -> usize
    requires { at + most_digits ≤ length buf.old }
    ensures { PutIn buf.old buf.new at most_digits (decimal n) result }
{
    let end = at + places(n);
    let mut rest = n;
    for place in (at..end).rev() {
        buf[place] = b'0' + (rest % 10) as u8;
        rest /= 10;
    }
    end
}

// A number in decimal, with a minus where it is below zero.
pub fn put_signed(buf: &mut [u8], at: usize, z: i64) -> usize
    requires { at + most_signed ≤ length buf.old }
    ensures { PutIn buf.old buf.new at most_signed (signed z) result }
{
    let start = if z < 0 { put(buf, at, b"-") } else { at };
    put_decimal(buf, start, z.unsigned_abs())
}

// Puts a whole text at the front of a lent buffer, where that is long enough: its length, or 10, and the buffer as it was.
#[tactic(auto, unfolding(crate::specs::Buffers::handed_code, crate::specs::Buffers::buffer_with))]
pub fn hand_over(line: &[u8], out: &mut [u8]) -> Result<usize, Refusal>
    ensures told { Told (handed_code line.now (length out.old)) (length line.now) result }
    ensures out_after { out.new ≡ buffer_with line.now out.old }
{
    if out.len() < line.len() {
        return Err(Refusal::NoRoom);
    }
    let length = put(out, 0, line);
    Ok(length)
}
