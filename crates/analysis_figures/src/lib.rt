// All hold times and budgets of a plan in one table, and what is read off it: which resources are global, who may ask for what, and wait
// times. The functions here are for the crates above, and rely on a file that passed every check, or on the table; each says
// so in its `requires`. Crate `analysis_hold_times` fills the table in.
#![tactic(auto)]

ghost use Rattle.std.specs.Prelude.{◌≡◌, ◌≤◌, ◌<◌, get_or};
ghost use Rattle.refusals.specs.Refusals.{number, code_of};
ghost use Rattle.sizes.specs.Sizes.{most_processors, most_tasks, most_resources};
ghost use Rattle.plan_reading.specs.Plan.{plan_of, Checked};
ghost use Rattle.analysis_equations.specs.Sharing.{global};
ghost use Rattle.analysis_equations.specs.HoldTimes.{longest_on, wait_time};
ghost use Rattle.analysis_equations.specs.Questions.{task_number, sharing_code, use_code};
ghost use Rattle.analysis_equations.specs.Bounds.{most_wait};
ghost use Rattle.analysis_figures.specs.Figures.{hold_cell, budget_cell, Known, Place};
ghost use Rattle.analysis_figures.specs.Inner.{Unheld};

use refusals::Refusal;

// A task and a resource that were asked about: why not, if so, and the number of the task. The number is told beside a refusal too.
#[derive(Clone, Copy)]
pub struct User {
    pub allowed: Result<(), Refusal>,
    pub task: usize,
}

// The hold times in a table of figures.
pub const HOLDS: usize = sizes::TASKS * sizes::RESOURCES;

// The figures: those, and the budgets behind them.
pub const FIGURES: usize = HOLDS + sizes::PROCESSORS * sizes::RESOURCES;

// The hold time of resource q by task i, from the table.
pub fn hold_at(figures: &[u16], i: usize, q: usize) -> u16
    requires { Place figures.now most_tasks i q }
    ensures { result ≡ get_or figures.now (hold_cell i q) 0 }
{
    figures[i * sizes::RESOURCES + q]
}

// The budget of processor k on resource q, from the table.
pub fn budget_at(figures: &[u16], k: usize, q: usize) -> u16
    requires { Place figures.now most_processors k q }
    ensures { result ≡ get_or figures.now (budget_cell k q) 0 }
{
    figures[HOLDS + k * sizes::RESOURCES + q]
}

// The wait time of processor k on q: the sum of the budgets of the others.
#[tactic(auto, using(crate::proofs::Cells::told), unfolding(folds::specs::Below::sum_below, analysis_equations::specs::HoldTimes::wait_time))]
pub fn wait_in(file: &[u8], figures: &[u16], k: u8, q: usize) -> u32
    requires { (Known file.now figures.now) × (q < most_resources) }
    ensures { (result ≡ wait_time (plan_of file.now) k q) × (result ≤ most_wait) }
{
    let counts = plan_reading::checked::counts(file);
    let mut sum = 0;
    for l in 0..counts.processors {
        let budget = budget_at(figures, usize::from(l), q);
        sum += if l == k { 0 } else { u32::from(budget) };
    }
    sum
}

// The longest section of task i on resource q.
#[tactic(auto, using(folds::proofs::Figures::max_more), unfolding(folds::specs::Below::max_below, analysis_equations::specs::HoldTimes::longest_on))]
fn longest_on(file: &[u8], i: usize, q: u8) -> u16
    requires { Checked file.now }
    ensures { result ≡ longest_on (plan_of file.now) i q }
{
    let counts = plan_reading::checked::counts(file);
    let mut best = 0;
    for s in 0..usize::from(counts.sections) {
        let row = plan_reading::checked::section(file, s);
        let own = (usize::from(row.task) == i) & (row.resource == q);
        best = best.max(if own { row.length } else { 0 });
    }
    best
}

// 13 and 14 for a task with no hold time of q: it has no section on q, or q is local.
#[tactic(auto, using(crate::proofs::Cells::sharing))]
fn sharing_refusal(file: &[u8], i: usize, q: u8) -> Refusal
    requires { Unheld file.now i q }
    ensures { number result ≡ sharing_code (plan_of file.now) i q }
{
    if longest_on(file, i, q) == 0 {
        return Refusal::Undeclared;
    }
    Refusal::Local
}

// The number of the task with this tag, the number of tasks where there is none.
#[tactic(auto, using(folds::proofs::Tests::find_none), unfolding(folds::specs::Below::all_below, analysis_equations::specs::Questions::task_number))]
pub fn task_number(file: &[u8], tag: u16) -> usize
    requires { Checked file.now }
    ensures { result ≡ task_number (plan_of file.now) tag }
{
    let counts = plan_reading::checked::counts(file);
    let n = usize::from(counts.tasks);
    for j in 0..n {
        if plan_reading::checked::task(file, j).tag == tag {
            return j;
        }
    }
    n
}

// 11 to 14 for the task with this tag and resource q, and the task's number. A hold time in the table tells at once that the task uses
// q and q is global.
#[tactic(auto, using(crate::proofs::Cells::sharing))]
pub fn user_in(file: &[u8], figures: &[u16], tag: u16, q: u8) -> User
    requires { Known file.now figures.now }
    ensures allowed { code_of result.allowed ≡ use_code (plan_of file.now) tag q }
    ensures task { result.task ≡ task_number (plan_of file.now) tag }
{
    let counts = plan_reading::checked::counts(file);
    let task = task_number(file, tag);
    if usize::from(counts.tasks) <= task {
        return User {
            allowed: Err(Refusal::UnknownTag),
            task,
        };
    }
    if counts.resources <= q {
        return User {
            allowed: Err(Refusal::UnknownResource),
            task,
        };
    }
    if hold_at(figures, task, usize::from(q)) == 0 {
        return User {
            allowed: Err(sharing_refusal(file, task, q)),
            task,
        };
    }
    User {
        allowed: Ok(()),
        task,
    }
}

// Whether resource q is global: some task has a hold time of it.
#[tactic(auto, using(crate::proofs::Cells::sharing))]
pub fn is_global(file: &[u8], figures: &[u16], q: usize) -> bool
    requires { (Known file.now figures.now) × (q < most_resources) }
    ensures { result ≡ global (plan_of file.now) q }
{
    let counts = plan_reading::checked::counts(file);
    for i in 0..usize::from(counts.tasks) {
        if hold_at(figures, i, q) != 0 {
            return true;
        }
    }
    false
}
