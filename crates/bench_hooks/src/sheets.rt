// The datasheet of a plan.
ghost use Rattle.std.specs.Prelude.{◌≡◌, length};
ghost use Rattle.print_sheet.specs.Sheet.{sheet_in};
ghost use Rattle.bench_hooks.specs.Sheets.{sheet_number};

// Puts the sheet of a plan file at the front of a lent buffer: the refusal in the low byte, 1 to 9 and then 10, and the length above it.
#[tactic(auto, using(refusals::proofs::Laws::number_no0), unfolding(crate::specs::Sheets::sheet_number))]
#[unsafe(no_mangle)]
pub extern "C" fn plan_sheet(file: &[u8], out: &mut [u8]) -> u64
    ensures value { result ≡ sheet_number file.now (length out.old) }
    ensures out_after { out.new ≡ sheet_in file.now out.old }
{
    match print_sheet::sheet(file, out) {
        Ok(length) => 256 * (length as u64),
        Err(refusal) => u64::from(refusal.number()),
    }
}
