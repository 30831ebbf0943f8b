// A plan's rows by value, and the rules that they keep, whether they come from a file or go into one.
#![tactic(auto)]

ghost use Rattle.std.specs.Prelude.{◌≡◌};
ghost use Rattle.plan_rules.specs.Rules.{counts_ok, task_ok, section_ok};

pub mod names;

// The most ticks of a section.
const SECTION_TICKS: u16 = 1000;

// A task: its tag, period T, execution time C, processor and priority. The wide fields stand first, so that no byte is lost
// between them.
#[derive(Clone, Copy, PartialEq, Eq)]
pub struct TaskRow {
    pub tag: u16,
    pub period: u16,
    pub execution: u16,
    pub processor: u8,
    pub priority: u8,
}

// A section: a task holds a resource for so many ticks.
#[derive(Clone, Copy, PartialEq, Eq)]
pub struct SectionRow {
    pub task: u8,
    pub resource: u8,
    pub length: u16,
}

// The edition of a plan file, and how many processors, tasks, resources and sections the plan has.
#[derive(Clone, Copy, PartialEq, Eq)]
pub struct Counts {
    pub edition: u8,
    pub processors: u8,
    pub tasks: u8,
    pub resources: u8,
    pub sections: u16,
}

// The rows; those past a plan's counts are all zero where a file was read.
#[derive(Clone, Copy)]
pub struct Rows {
    pub tasks: [TaskRow; sizes::TASKS],
    pub lengths: [u8; sizes::RESOURCES],
    pub sections: [SectionRow; sizes::SECTIONS],
}

// Whether each count is in its range.
pub fn counts_ok(c: Counts) -> bool
    ensures { result ≡ counts_ok c }
{
    (1 <= c.processors)
        & (c.processors <= sizes::PROCESSORS as u8)
        & (1 <= c.tasks)
        & (c.tasks <= sizes::TASKS as u8)
        & (1 <= c.resources)
        & (c.resources <= sizes::RESOURCES as u8)
        & (c.sections <= sizes::SECTIONS as u16)
}

// Whether a task row of a plan of p processors keeps its rule, where `most` is the greatest tag that a row has room for.
pub fn task_ok(t: TaskRow, p: u8, most: u16) -> bool
    ensures { result ≡ task_ok most p t }
{
    (t.processor < p)
        & (t.tag <= most)
        & (1 <= t.priority)
        & (1 <= t.execution)
        & (t.execution <= t.period)
}

// Whether a section row of a plan of n tasks and r resources keeps its rule.
pub fn section_ok(s: SectionRow, n: u8, r: u8) -> bool
    ensures { result ≡ section_ok n r s }
{
    (s.task < n) & (s.resource < r) & (1 <= s.length) & (s.length <= SECTION_TICKS)
}
