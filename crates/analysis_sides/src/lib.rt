// The waiting sides of all tasks, from a checked file and the tables of its figures and totals: each section's wait is added where its task
// stands. Every function here is for the crates above, and says in its `requires` what it relies on.
#![tactic(auto)]

ghost use Rattle.std.specs.Prelude.{◌≡◌, replicate};
ghost use Rattle.sizes.specs.Sizes.{most_tasks};
ghost use Rattle.plan_reading.specs.Plan.{plan_of};
ghost use Rattle.analysis_totals.specs.Totals.{Added};
ghost use Rattle.analysis_sides.specs.Sides.{SideTable};
ghost use Rattle.analysis_sides.specs.Inner.{SectionOf, WaitTold};

// The waiting sides.
pub const SIDES: usize = sizes::TASKS;

// Equation 6 as document 02 has it, for one section of task i on q: what it waits; 0 where q is local.
#[tactic(auto, using(crate::proofs::Waits::waits), unfolding(analysis_equations::specs::Blocking::section_wait))]
fn section_wait(file: &[u8], figures: &[u16], totals: &[u32], i: usize, q: usize) -> u64
    requires { SectionOf file.now figures.now totals.now i q }
    ensures { WaitTold (plan_of file.now) i q result }
{
    if analysis_figures::hold_at(figures, i, q) == 0 {
        return 0;
    }
    let task = plan_reading::checked::task(file, i);
    let k = usize::from(task.processor);
    let budget = u32::from(analysis_figures::budget_at(figures, k, q));
    let wait = analysis_totals::wait_at(totals, k, q);
    let held = analysis_totals::fellows_of(file, figures, totals, i, q).holds;
    let turns = (2 * held).div_ceil(budget);
    (u64::from(turns) + 1) * u64::from(wait) + u64::from(held)
}

// Equation 7: fills in the waiting sides where all were 0, each section's wait at its task.
#[tactic(auto, using(crate::proofs::Waits::sections), unfolding(folds::specs::Below::sum_below))]
pub fn fill_sides(file: &[u8], figures: &[u16], totals: &[u32], sides: &mut [u64])
    requires { (Added file.now figures.now totals.now) × (sides.old ≡ replicate most_tasks 0) }
    ensures { SideTable (plan_of file.now) sides.new }
{
    let counts = plan_reading::checked::counts(file);
    for s in 0..usize::from(counts.sections) {
        let row = plan_reading::checked::section(file, s);
        let i = usize::from(row.task);
        sides[i] += section_wait(file, figures, totals, i, usize::from(row.resource));
    }
}
