// Questions about a plan.
ghost use Rattle.std.specs.Prelude.{◌≡◌};
ghost use Rattle.bench_hooks.specs.Asking.{hold_number, admission_number};

use analysis::HOLDS;

// Works out all hold times of a plan and returns that at x modulo their number, where resource q by task i is i * RESOURCES + q, above the
// refusal in the low byte. Which one is asked is not known before, so a caller that measures this measures all.
#[tactic(auto, using(refusals::proofs::Laws::number_no0), unfolding(crate::specs::Asking::hold_number))]
#[unsafe(no_mangle)]
pub extern "C" fn hold_time_at(file: &[u8], x: u16) -> u64
    ensures { result ≡ hold_number file.now x }
{
    match analysis::hold_times(file) {
        Ok(times) => 256 * u64::from(times[usize::from(x) % HOLDS]),
        Err(refusal) => u64::from(refusal.number()),
    }
}

// Whether a plan is admitted, 256 for yes; or the refusal.
#[tactic(auto, using(refusals::proofs::Laws::number_no0), unfolding(crate::specs::Asking::admission_number))]
#[unsafe(no_mangle)]
pub extern "C" fn plan_admission(file: &[u8]) -> u64
    ensures { result ≡ admission_number file.now }
{
    match analysis::admission(file) {
        Ok(admitted) => { if admitted { 256 } else { 0 } }
        Err(refusal) => u64::from(refusal.number()),
    }
}
