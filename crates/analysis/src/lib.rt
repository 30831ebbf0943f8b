// The questions about a plan file: hold time, longest wait, budget, wait time, requirement and admission. Each takes any bytes and refuses by
// number what it does not accept.
#![tactic(auto)]

ghost use Rattle.std.specs.Prelude.{◌≡◌, cond, not, ◌||◌, [], ◌∷◌, replicate};
ghost use Rattle.refusals.specs.Outcomes.{outcome};
ghost use Rattle.refusals.specs.Refusals.{code_of, Told};
ghost use Rattle.plan.specs.Acceptance.{refusal};
ghost use Rattle.plan_reading.specs.Plan.{plan_of, Checked};
ghost use Rattle.analysis_equations.specs.Requirement.{asks, met, admitted};
ghost use Rattle.analysis_equations.specs.Questions.{processor_code, requirement_code};
ghost use Rattle.analysis_figures.specs.Figures.{figure_count};
ghost use Rattle.analysis_requirements.specs.Tables.{Prepared};
ghost use Rattle.analysis.specs.Inner.{Share, Shares, Blank, TaskReady, Found};
ghost use Rattle.analysis.specs.Answers.{figure_outcome, hold_refusal, hold_figure, longest_figure, share_refusal, budget_of, wait_of};
ghost use Rattle.analysis.specs.Answers.{requirement_refusal, requirement_figures, requirement_outcome, requirement_says};
ghost use Rattle.analysis.specs.Answers.{admission_outcome, hold_times};

use analysis_requirements::Requirement;
use refusals::Refusal;

// The hold times of a plan.
pub const HOLDS: usize = analysis_figures::HOLDS;

// A processor's budget on a resource, and its wait time.
#[derive(Clone, Copy)]
struct BudgetAndWait {
    budget: u16,
    wait: u32,
}

// 1 to 9, then 11 to 14, or the task with this tag; then the table holds the plan's figures.
#[tactic(auto, using(crate::proofs::Told::told), unfolding(crate::specs::Answers::after_reading, crate::specs::Answers::hold_refusal))]
fn user_of(file: &[u8], tag: u16, q: u8, figures: &mut [u16]) -> Result<usize, Refusal>
    requires { figures.old ≡ replicate figure_count 0 }
    ensures { Found file.now tag q figures.new result }
{
    plan::check(file)?;
    analysis_hold_times::fill_figures(file, figures);
    let user = analysis_figures::user_in(file, figures, tag, q);
    user.allowed?;
    Ok(user.task)
}

// The hold time of a resource by the task with this tag.
#[tactic(auto, using(crate::proofs::Told::told))]
pub fn hold_time(file: &[u8], tag: u16, resource: u8) -> Result<u32, Refusal>
    ensures value { Told (hold_refusal file.now tag resource) (hold_figure file.now tag resource) result }
    ensures result_value { figure_outcome result ≡ outcome (hold_refusal file.now tag resource) (hold_figure file.now tag resource ∷ []) }
{
    let mut figures = [0u16; analysis_figures::FIGURES];
    let task = user_of(file, tag, resource, &mut figures)?;
    let hold = analysis_figures::hold_at(&figures, task, usize::from(resource));
    Ok(u32::from(hold))
}

// The longest wait of the task with this tag for a resource: how long it can be kept waiting, whatever is called.
#[tactic(auto, using(crate::proofs::Told::told))]
pub fn longest_wait(file: &[u8], tag: u16, resource: u8) -> Result<u32, Refusal>
    ensures value { Told (hold_refusal file.now tag resource) (longest_figure file.now tag resource) result }
    ensures result_value { figure_outcome result ≡ outcome (hold_refusal file.now tag resource) (longest_figure file.now tag resource ∷ []) }
{
    let mut figures = [0u16; analysis_figures::FIGURES];
    let task = user_of(file, tag, resource, &mut figures)?;
    let mut totals = [0u32; analysis_totals::TOTALS];
    analysis_totals::fill_totals(file, &figures, &mut totals);
    let found = analysis_waits::longest_of(file, &figures, &totals, task, usize::from(resource));
    Ok(found.wait)
}

// Budget and wait time of processor k on resource q.
#[tactic(auto, using(analysis_figures::proofs::Cells::told))]
fn shares_of(file: &[u8], k: u8, q: u8) -> BudgetAndWait
    requires { Share file.now k q }
    ensures { Shares (plan_of file.now) k q result.budget result.wait }
{
    let mut figures = [0u16; analysis_figures::FIGURES];
    analysis_hold_times::fill_figures(file, &mut figures);
    let at = usize::from(q);
    let budget = analysis_figures::budget_at(&figures, usize::from(k), at);
    let wait = analysis_figures::wait_in(file, &figures, k, at);
    BudgetAndWait { budget, wait }
}

// 18, then 12, of a checked file.
#[tactic(auto, using(crate::proofs::Told::told), unfolding(analysis_equations::specs::Questions::processor_code))]
fn check_processor(file: &[u8], k: u8, q: u8) -> Result<(), Refusal>
    requires { Checked file.now }
    ensures { code_of result ≡ processor_code (plan_of file.now) k q }
{
    let counts = plan_reading::checked::counts(file);
    if counts.processors <= k {
        return Err(Refusal::UnknownProcessor);
    }
    if counts.resources <= q {
        return Err(Refusal::UnknownResource);
    }
    Ok(())
}

// 1 to 9, then 18 and 12.
#[tactic(auto, using(crate::proofs::Told::told), unfolding(crate::specs::Answers::after_reading, crate::specs::Answers::share_refusal))]
fn check_share(file: &[u8], k: u8, q: u8) -> Result<(), Refusal>
    ensures { code_of result ≡ share_refusal file.now k q }
{
    plan::check(file)?;
    check_processor(file, k, q)
}

// The budget of a processor on a resource; 0 where none of its tasks uses it, or it is local.
#[tactic(auto, using(crate::proofs::Told::told), unfolding(crate::specs::Answers::after_reading, crate::specs::Answers::share_refusal, analysis_equations::specs::Questions::processor_code))]
pub fn budget(file: &[u8], processor: u8, resource: u8) -> Result<u32, Refusal>
    ensures value { Told (share_refusal file.now processor resource) (budget_of file.now processor resource) result }
    ensures result_value { figure_outcome result ≡ outcome (share_refusal file.now processor resource) (budget_of file.now processor resource ∷ []) }
{
    check_share(file, processor, resource)?;
    let shares = shares_of(file, processor, resource);
    Ok(u32::from(shares.budget))
}

// The wait time of a processor on a resource: the sum of the budgets of all others.
#[tactic(auto, using(crate::proofs::Told::told), unfolding(crate::specs::Answers::after_reading, crate::specs::Answers::share_refusal, analysis_equations::specs::Questions::processor_code))]
pub fn wait_time(file: &[u8], processor: u8, resource: u8) -> Result<u32, Refusal>
    ensures value { Told (share_refusal file.now processor resource) (wait_of file.now processor resource) result }
    ensures result_value { figure_outcome result ≡ outcome (share_refusal file.now processor resource) (wait_of file.now processor resource ∷ []) }
{
    check_share(file, processor, resource)?;
    let shares = shares_of(file, processor, resource);
    Ok(shares.wait)
}

// Fills in, where all were 0, the two tables that requirements are worked out from.
fn prepare(file: &[u8], terms: &mut [u16], sides: &mut [u64])
    requires { Blank file.now terms.old sides.old }
    ensures { Prepared file.now terms.new sides.new }
{
    let mut figures = [0u16; analysis_figures::FIGURES];
    analysis_hold_times::fill_figures(file, &mut figures);
    let mut totals = [0u32; analysis_totals::TOTALS];
    analysis_totals::fill_totals(file, &figures, &mut totals);
    analysis_terms::fill_terms(file, &figures, terms);
    analysis_sides::fill_sides(file, &figures, &totals, sides);
}

// 11 and 17, of a checked file, or the requirement of the task with this tag.
#[tactic(auto, using(crate::proofs::Told::told), unfolding(analysis_equations::specs::Questions::requirement_code))]
fn requirement_question(file: &[u8], tag: u16) -> Result<Requirement, Refusal>
    requires { Checked file.now }
    ensures { Told (requirement_code (plan_of file.now) tag) (requirement_figures file.now tag) result }
{
    let counts = plan_reading::checked::counts(file);
    let i = analysis_figures::task_number(file, tag);
    if usize::from(counts.tasks) <= i {
        return Err(Refusal::UnknownTag);
    }
    let mut terms = [0u16; analysis_terms::TERMS];
    let mut sides = [0u64; analysis_sides::SIDES];
    prepare(file, &mut terms, &mut sides);
    if analysis_terms::count_at(&terms, i) == 0 {
        return Err(Refusal::NothingGlobal);
    }
    Ok(analysis_requirements::requirement_of(file, &terms, &sides, i))
}

// The requirement of the task with this tag.
#[tactic(auto, using(crate::proofs::Told::told), unfolding(crate::specs::Answers::requirement_refusal, crate::specs::Answers::after_reading))]
pub fn requirement(file: &[u8], tag: u16) -> Result<Requirement, Refusal>
    ensures value { Told (requirement_refusal file.now tag) (requirement_figures file.now tag) result }
    ensures result_value { requirement_outcome result ≡ requirement_says file.now tag }
{
    plan::check(file)?;
    requirement_question(file, tag)
}

// Whether task i has no global section, or its requirement is met.
#[tactic(auto, using(crate::proofs::Told::told), unfolding(analysis_requirements::specs::Figures::requirement_of))]
fn passes(file: &[u8], terms: &[u16], sides: &[u64], i: usize) -> bool
    requires { TaskReady file.now terms.now sides.now i }
    ensures { result ≡ (not (asks (plan_of file.now) i) || met (plan_of file.now) i) }
{
    analysis_terms::count_at(terms, i) == 0
        || analysis_requirements::requirement_of(file, terms, sides, i).met
}

// Whether each task passes.
#[tactic(auto, using(crate::proofs::Told::told), unfolding(folds::specs::Below::all_below, analysis_equations::specs::Requirement::admitted))]
fn all_pass(file: &[u8], terms: &[u16], sides: &[u64]) -> bool
    requires { Prepared file.now terms.now sides.now }
    ensures { result ≡ admitted (plan_of file.now) }
{
    let counts = plan_reading::checked::counts(file);
    for i in 0..usize::from(counts.tasks) {
        if !passes(file, terms, sides, i) {
            return false;
        }
    }
    true
}

// Whether a checked plan is admitted.
fn decided(file: &[u8]) -> bool
    requires { Checked file.now }
    ensures { result ≡ admitted (plan_of file.now) }
{
    let mut terms = [0u16; analysis_terms::TERMS];
    let mut sides = [0u64; analysis_sides::SIDES];
    prepare(file, &mut terms, &mut sides);
    all_pass(file, &terms, &sides)
}

// Whether the plan is admitted: every task with a global section has its requirement met.
#[tactic(auto, using(crate::proofs::Told::told))]
pub fn admission(file: &[u8]) -> Result<bool, Refusal>
    ensures value { Told (refusal file.now) (admitted (plan_of file.now)) result }
    ensures result_value { admission_outcome result ≡ outcome (refusal file.now) (cond (admitted (plan_of file.now)) 1 0 ∷ []) }
{
    plan::check(file)?;
    Ok(decided(file))
}

// All hold times of a plan at once, that of resource q by task i at i * RESOURCES + q.
#[tactic(auto, using(crate::proofs::Told::told))]
pub fn hold_times(file: &[u8]) -> Result<[u16; HOLDS], Refusal>
    ensures { Told (refusal file.now) (hold_times (plan_of file.now)) result }
{
    plan::check(file)?; // before any figure
    let mut figures = [0u16; analysis_figures::FIGURES];
    analysis_hold_times::fill_figures(file, &mut figures);
    let mut times = [0u16; HOLDS];
    let holds = &figures[..HOLDS];
    times.copy_from_slice(holds);
    Ok(times)
}
