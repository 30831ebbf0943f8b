// The terms of B1 and B2 of all tasks, in one table, from a checked file and the table of its figures. Every function here is for the crates
// above, and says in its `requires` what it relies on.
#![tactic(auto)]

ghost use Rattle.std.specs.Prelude.{◌≡◌, ◌<◌, length, get_or, replicate};
ghost use Rattle.sizes.specs.Sizes.{most_tasks, most_resources};
ghost use Rattle.plan_reading.specs.Plan.{plan_of, Checked};
ghost use Rattle.analysis_figures.specs.Figures.{Known};
ghost use Rattle.analysis_terms.specs.Terms.{count_cell, term_count, TermTable};
ghost use Rattle.analysis_terms.specs.Inner.{TermsBelow, Filling, Sectioned, TasksRaised};

// Where the parts of the table of terms begin, behind the longest global section of each task.
pub const PRECEDENCES: usize = sizes::TASKS;

pub const COUNTS: usize = PRECEDENCES + sizes::TASKS;

const CEILINGS: usize = COUNTS + sizes::TASKS;

const SHARED: usize = CEILINGS + sizes::RESOURCES;

pub const BLOCKED: usize = SHARED + sizes::RESOURCES;

// The terms.
pub const TERMS: usize = BLOCKED + sizes::TASKS;

// How many global sections task i has, from the table.
pub fn count_at(terms: &[u16], i: usize) -> u16
    requires { (length terms.now ≡ term_count) × (i < most_tasks) }
    ensures { result ≡ get_or terms.now (count_cell i) 0 }
{
    terms[COUNTS + i]
}

// Which resources are global, in a table in which all was 0.
fn put_shared(file: &[u8], figures: &[u16], terms: &mut [u16])
    requires { (Known file.now figures.now) × (terms.old ≡ replicate term_count 0) }
    ensures { TermsBelow (plan_of file.now) most_resources 0 0 0 terms.new }
{
    for q in 0..sizes::RESOURCES {
        terms[SHARED + q] = u16::from(analysis_figures::is_global(file, figures, q));
    }
}

// The precedence of each task: its processor and its priority as one number.
#[tactic(auto, using(plan_reading::proofs::Laws::valid_plan))]
fn put_precedences(file: &[u8], terms: &mut [u16])
    requires { Filling file.now most_resources 0 0 0 terms.old }
    ensures { TermsBelow (plan_of file.now) most_resources (plan_of file.now).tasks 0 0 terms.new }
{
    let counts = plan_reading::checked::counts(file);
    for j in 0..usize::from(counts.tasks) {
        let row = plan_reading::checked::task(file, j);
        terms[PRECEDENCES + j] = u16::from_le_bytes([row.priority, row.processor]);
    }
}

// Each task's longest global section and how many it has, and each resource's ceiling, in one pass over the sections.
#[tactic(auto, using(std::proofs::lemmas::Grind::common_steps, plan_reading::proofs::Laws::valid_plan))]
fn put_sections(file: &[u8], terms: &mut [u16])
    requires { Filling file.now most_resources (plan_of file.now).tasks 0 0 terms.old }
    ensures { Sectioned (plan_of file.now) terms.new }
{
    let counts = plan_reading::checked::counts(file);
    for s in 0..usize::from(counts.sections) {
        let row = plan_reading::checked::section(file, s);
        let j = usize::from(row.task);
        let q = usize::from(row.resource);
        let shared = terms[SHARED + q];
        let longest = terms[j].max(if shared == 1 { row.length } else { 0 });
        let count = terms[COUNTS + j] + shared;
        let ceiling = terms[CEILINGS + q].max(terms[PRECEDENCES + j] % 256);
        terms[j] = longest;
        terms[COUNTS + j] = count;
        terms[CEILINGS + q] = ceiling;
    }
}

// Raises what blocks each task to `ticks` where its precedence is above `above` and at most `top`.
fn raise_blocked(terms: &mut [u16], above: u16, top: u16, ticks: u16)
    requires { length terms.old ≡ term_count }
    ensures { TasksRaised above top ticks most_tasks terms.old terms.new }
{
    for i in 0..sizes::TASKS {
        let mine = terms[PRECEDENCES + i];
        let is_blocked = (above < mine) & (mine <= top);
        let blocked = if is_blocked { ticks } else { 0 };
        terms[BLOCKED + i] = blocked.max(terms[BLOCKED + i]);
    }
}

// The longest section that blocks each task: a section on a local resource blocks the tasks above its own, up to the ceiling.
#[tactic(auto, using(plan_reading::proofs::Laws::valid_plan))]
fn put_blocked(file: &[u8], terms: &mut [u16])
    requires { (Checked file.now) × (Sectioned (plan_of file.now) terms.old) }
    ensures { TermTable (plan_of file.now) terms.new }
{
    let counts = plan_reading::checked::counts(file);
    for s in 0..usize::from(counts.sections) {
        let row = plan_reading::checked::section(file, s);
        let j = usize::from(row.task);
        let q = usize::from(row.resource);
        if terms[SHARED + q] == 0 {
            let theirs = terms[PRECEDENCES + j];
            let top = theirs / 256 * 256 + terms[CEILINGS + q];
            raise_blocked(terms, theirs, top, row.length);
        }
    }
}

// Fills in the terms where all were 0.
pub fn fill_terms(file: &[u8], figures: &[u16], terms: &mut [u16])
    requires { (Known file.now figures.now) × (terms.old ≡ replicate term_count 0) }
    ensures { TermTable (plan_of file.now) terms.new }
{
    put_shared(file, figures, terms);
    put_precedences(file, terms);
    put_sections(file, terms);
    put_blocked(file, terms);
}
