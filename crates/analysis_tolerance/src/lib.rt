// The tolerance of a task, from a checked file and the terms of its tasks. Nothing here divides: the periods that have begun are counted as t
// rises. Every function is for the crates above, and says in its `requires` what it relies on.
#![tactic(auto)]

ghost use Rattle.std.specs.Prelude.{◌≡◌, ◌+◌, ◌-◌, pos, ◌-ℤ◌};
ghost use Rattle.folds.specs.Signed.{greatest_to};
ghost use Rattle.plan_reading.specs.Plan.{plan_of};
ghost use Rattle.analysis_equations.specs.Requirement.{tolerance};
ghost use Rattle.analysis_terms.specs.Terms.{TaskTerms};
ghost use Rattle.analysis_tolerance.specs.Inner.{HigherTasks, Scanned, demand_of};
ghost use Rattle.analysis_tolerance.specs.Periods.{Counted, Passed};

use analysis_terms::PRECEDENCES;

// The tasks above a task: how many, and the period and execution time of each, from the front.
struct Higher {
    count: usize,
    periods: [u16; sizes::TASKS],
    times: [u16; sizes::TASKS],
}

// The tasks above task i.
#[tactic(auto, unfolding(folds::specs::Below::count_below, folds::specs::Packed::packed_below), using(plan_reading::proofs::Laws::valid_plan))]
fn higher_tasks(file: &[u8], terms: &[u16], i: usize) -> Higher
    requires { TaskTerms file.now terms.now i }
    ensures { HigherTasks (plan_of file.now) i (plan_of file.now).tasks result.count result.periods result.times }
{
    let n = usize::from(plan_reading::checked::counts(file).tasks);
    let own = plan_reading::checked::task(file, i);
    let mine = terms[PRECEDENCES + i];
    let top = (u16::from(own.processor) + 1) * 256;
    let mut count = 0;
    let mut periods = [0; sizes::TASKS];
    let mut times = [0; sizes::TASKS];
    for j in 0..n {
        let theirs = terms[PRECEDENCES + j];
        if (mine < theirs) & (theirs < top) {
            let row = plan_reading::checked::task(file, j);
            periods[count] = row.period;
            times[count] = row.execution;
            count += 1;
        }
    }
    Higher {
        count,
        periods,
        times,
    }
}

// Counts the periods that begin at t, where those that begin before t are counted, and gives what they add to the demand.
#[tactic(auto, unfolding(folds::specs::Below::sum_below, folds::specs::Each::each_below, crate::specs::Periods::added_at, crate::specs::Periods::ends_after), using(crate::proofs::Demand::end_high, crate::proofs::Demand::added_high))]
fn pass(periods: &[u16], times: &[u16], ends: &mut [u32], m: usize, t: u32) -> u32
    requires { Counted periods.now times.now m t ends.old }
    ensures { Passed periods.now times.now m t ends.old ends.new result }
{
    let mut added = 0;
    for k in 0..m {
        if ends[k] == t {
            added += u32::from(times[k]);
            ends[k] += u32::from(periods[k]);
        }
    }
    added
}

// The greatest of t less `own` and that demand, for t from 1 to period.
fn scan(periods: &[u16], times: &[u16], m: usize, own: u16, period: u16) -> i64
    requires { Scanned periods.now times.now m own period }
    ensures { result ≡ greatest_to (period - 1) (λ t. pos (t + 1) -ℤ pos (own + demand_of periods.now times.now m (t + 1))) }
{
    let mut ends = [0; sizes::TASKS];
    let mut demand = i64::from(own) + i64::from(pass(periods, times, &mut ends, m, 0));
    let mut best = 1 - demand;
    for t in 1..u32::from(period) {
        demand += i64::from(pass(periods, times, &mut ends, m, t));
        best = best.max(i64::from(t + 1) - demand);
    }
    best
}

// Equation 12: the tolerance of task i.
#[tactic(auto, using(plan_reading::proofs::Laws::valid_plan, crate::proofs::Demand::higher_scanned))]
pub fn tolerance_of(file: &[u8], terms: &[u16], i: usize) -> i64
    requires { TaskTerms file.now terms.now i }
    ensures { result ≡ tolerance (plan_of file.now) i }
{
    let task = plan_reading::checked::task(file, i);
    let Higher {
        count,
        periods,
        times,
    } = higher_tasks(file, terms, i);
    scan(&periods, &times, count, task.execution, task.period)
}
