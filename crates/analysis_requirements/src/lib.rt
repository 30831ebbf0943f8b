// The requirement of a task: B1, B2, the waiting side, the tolerance and the slack, from a checked file and two tables that are filled in for
// all its tasks at once: the terms of B1 and B2, and the waiting sides. The tolerance is worked out in a crate of its own. Every function
// here is for the crates above, and says in its `requires` what it relies on.
#![tactic(auto)]

ghost use Rattle.std.specs.Prelude.{◌≡◌, ◌<◌};
ghost use Rattle.std.specs.Int.Signed.{mag};
ghost use Rattle.plan_reading.specs.Plan.{plan_of};
ghost use Rattle.analysis_equations.specs.Blocking.{blocking1, blocking2};
ghost use Rattle.analysis_terms.specs.Terms.{TaskTerms};
ghost use Rattle.analysis_requirements.specs.Figures.{requirement_of};
ghost use Rattle.analysis_requirements.specs.Tables.{Prepared};
ghost use Rattle.analysis_requirements.specs.Inner.{comparison};

use analysis_terms::{BLOCKED, COUNTS, PRECEDENCES};

// What a task's requirement compares: met when the waiting side is at most the slack.
#[derive(Clone, Copy)]
pub struct Requirement {
    pub blocking1: u32,
    pub blocking2: u32,
    pub tolerance: i64,
    pub slack: i64,
    pub side: u64,
    pub met: bool,
}

// Equation 4: B1.
#[tactic(auto, unfolding(analysis_equations::specs::Blocking::blocking1))]
fn blocking1_of(file: &[u8], terms: &[u16], i: usize) -> u32
    requires { TaskTerms file.now terms.now i }
    ensures { result ≡ blocking1 (plan_of file.now) i }
{
    (u32::from(terms[COUNTS + i]) + 1) * u32::from(terms[BLOCKED + i])
}

// Equation 5: B2.
#[tactic(auto, unfolding(folds::specs::Below::sum_below, analysis_equations::specs::Blocking::blocking2), using(plan_reading::proofs::Laws::valid_plan))]
fn blocking2_of(file: &[u8], terms: &[u16], i: usize) -> u32
    requires { TaskTerms file.now terms.now i }
    ensures { result ≡ blocking2 (plan_of file.now) i }
{
    let n = usize::from(plan_reading::checked::counts(file).tasks);
    let mine = terms[PRECEDENCES + i];
    let times = u32::from(terms[COUNTS + i]) + 1;
    let mut sum = 0;
    for j in 0..n {
        let theirs = terms[PRECEDENCES + j];
        let is_under = (theirs / 256 == mine / 256) & (theirs < mine);
        // No branch, so that many tasks are added at a time.
        let longest = u32::from(is_under) * u32::from(terms[j]);
        sum += times.min(u32::from(terms[COUNTS + j])) * longest;
    }
    sum
}

// The requirement that these figures make: the slack, and whether the side is at most it.
fn compared(blocking1: u32, blocking2: u32, tolerance: i64, side: u64) -> Requirement
    requires { mag tolerance < 4611686018427387904 }
    ensures { result ≡ comparison blocking1 blocking2 tolerance side }
{
    let slack = tolerance - (i64::from(blocking1) + i64::from(blocking2));
    Requirement {
        blocking1,
        blocking2,
        tolerance,
        slack,
        side,
        met: i128::from(side) <= i128::from(slack),
    }
}

// The requirement of task i.
#[tactic(auto, unfolding(crate::specs::Figures::requirement_of, analysis_equations::specs::Requirement::slack, analysis_equations::specs::Requirement::met), using(plan_reading::proofs::Laws::valid_plan, analysis_equations::proofs::Laws::count_high, analysis_equations::proofs::Laws::tolerance_mag))]
pub fn requirement_of(file: &[u8], terms: &[u16], sides: &[u64], i: usize) -> Requirement
    requires { (Prepared file.now terms.now sides.now) × (i < (plan_of file.now).tasks) }
    ensures { result ≡ requirement_of (plan_of file.now) i }
{
    let blocking1 = blocking1_of(file, terms, i);
    let blocking2 = blocking2_of(file, terms, i);
    let tolerance = analysis_tolerance::tolerance_of(file, terms, i);
    compared(blocking1, blocking2, tolerance, sides[i])
}
