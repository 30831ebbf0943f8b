// What the figures of a plan add up to for each processor and resource, and what is read off that: wait times, and the fellows of a task.
// The functions here are for the crates above, and rely on a file that passed every check and the table of its figures; each says so in its
// `requires`.
#![tactic(auto)]

ghost use Rattle.std.specs.Prelude.{◌≡◌, get_or, replicate};
ghost use Rattle.folds.specs.Below.{count_below};
ghost use Rattle.sizes.specs.Sizes.{most_resources};
ghost use Rattle.plan_reading.specs.Plan.{plan_of};
ghost use Rattle.analysis_equations.specs.HoldTimes.{fellow};
ghost use Rattle.analysis_equations.specs.Blocking.{fellow_holds};
ghost use Rattle.analysis_figures.specs.Figures.{Known};
ghost use Rattle.analysis_totals.specs.Totals.{users_cell, wait_cell, total_count, SumsBelow, Added, SharingTask, TotalPlace};
ghost use Rattle.analysis_totals.specs.Inner.{TaskAddable, TaskAdded, WaitsBelow, Waiting};

// The fellows of a task on a resource: how many, and their hold times added up.
#[derive(Clone, Copy)]
pub struct Fellows {
    pub count: u32,
    pub holds: u32,
}

// A cell for each processor and resource: their users first, then the sums of their hold times, then the wait times.
const SHARES: usize = sizes::PROCESSORS * sizes::RESOURCES;

const SUMS: usize = SHARES;

const WAITS: usize = 2 * SHARES;

// The totals.
pub const TOTALS: usize = 3 * SHARES;

// Adds task j to the users of processor k and to their hold times, at each resource.
fn add_task(figures: &[u16], totals: &mut [u32], j: usize, k: usize)
    requires { TaskAddable figures.now totals.old j k }
    ensures { TaskAdded figures.now j k most_resources totals.old totals.new }
{
    for q in 0..sizes::RESOURCES {
        let hold = analysis_figures::hold_at(figures, j, q);
        let at = k * sizes::RESOURCES + q;
        totals[at] += u32::from(hold != 0);
        totals[SUMS + at] += u32::from(hold);
    }
}

// Users and sums, in a table in which all was 0.
fn put_sums(file: &[u8], figures: &[u16], totals: &mut [u32])
    requires { (Known file.now figures.now) × (totals.old ≡ replicate total_count 0) }
    ensures { SumsBelow (plan_of file.now) (plan_of file.now).tasks totals.new }
{
    let counts = plan_reading::checked::counts(file);
    for j in 0..usize::from(counts.tasks) {
        let row = plan_reading::checked::task(file, j);
        add_task(figures, totals, j, usize::from(row.processor));
    }
}

// The wait times of processor k.
#[tactic(auto, using(analysis_figures::proofs::Cells::told))]
fn put_waits_of(file: &[u8], figures: &[u16], totals: &mut [u32], k: u8)
    requires { Waiting file.now figures.now k 0 totals.old }
    ensures { WaitsBelow (plan_of file.now) k (plan_of file.now).resources totals.new }
{
    let counts = plan_reading::checked::counts(file);
    let row = WAITS + usize::from(k) * sizes::RESOURCES;
    for q in 0..usize::from(counts.resources) {
        totals[row + q] = analysis_figures::wait_in(file, figures, k, q);
    }
}

// Fills in the totals where all were 0.
pub fn fill_totals(file: &[u8], figures: &[u16], totals: &mut [u32])
    requires { (Known file.now figures.now) × (totals.old ≡ replicate total_count 0) }
    ensures { Added file.now figures.now totals.new }
{
    put_sums(file, figures, totals);
    let counts = plan_reading::checked::counts(file);
    for k in 0..counts.processors {
        put_waits_of(file, figures, totals, k);
    }
}

// How many tasks of processor k have a hold time of q, from the table.
pub fn users_at(totals: &[u32], k: usize, q: usize) -> u32
    requires { TotalPlace totals.now k q }
    ensures { result ≡ get_or totals.now (users_cell k q) 0 }
{
    totals[k * sizes::RESOURCES + q]
}

// The wait time of processor k on q, from the table.
pub fn wait_at(totals: &[u32], k: usize, q: usize) -> u32
    requires { TotalPlace totals.now k q }
    ensures { result ≡ get_or totals.now (wait_cell k q) 0 }
{
    totals[WAITS + k * sizes::RESOURCES + q]
}

// The fellows of task i on the global resource q, which it uses: the users of its processor without itself.
#[tactic(auto, using(crate::proofs::Laws::users))]
pub fn fellows_of(file: &[u8], figures: &[u16], totals: &[u32], i: usize, q: usize) -> Fellows
    requires { SharingTask file.now figures.now totals.now i q }
    ensures count_value { result.count ≡ count_below (plan_of file.now).tasks (fellow (plan_of file.now) i q) }
    ensures holds_value { result.holds ≡ fellow_holds (plan_of file.now) i q }
{
    let own = plan_reading::checked::task(file, i);
    let at = usize::from(own.processor) * sizes::RESOURCES + q;
    let hold = analysis_figures::hold_at(figures, i, q);
    Fellows {
        count: totals[at] - 1,
        holds: totals[SUMS + at] - u32::from(hold),
    }
}
