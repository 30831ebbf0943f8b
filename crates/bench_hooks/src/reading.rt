// Reading a plan.
ghost use Rattle.std.specs.Prelude.{◌≡◌, ◌<◌, ◌%◌};
ghost use Rattle.plan.specs.Acceptance.{refusal};
ghost use Rattle.bench_hooks.specs.Reading.{last_of, task_sum, section_total, last_rows, read_number};

use plan_rules::{Counts, Rows, SectionRow, TaskRow};

// The index of the last of n rows in an array of so many; 0 where there is none.
#[tactic(auto, unfolding(crate::specs::Reading::last_of))]
fn last(n: usize, room: usize) -> usize
    requires { 0 < room }
    ensures { (result ≡ last_of n room) × (result < room) }
{
    if n == 0 || room < n {
        return 0;
    }
    n - 1
}

// The sum of a row's numbers.
fn task_sum(t: TaskRow) -> u64
    ensures { (result ≡ task_sum t) × (result < 200000) }
{
    u64::from(t.processor)
        + u64::from(t.tag)
        + u64::from(t.priority)
        + u64::from(t.period)
        + u64::from(t.execution)
}

fn section_sum(s: SectionRow) -> u64
    ensures { (result ≡ section_total s) × (result < 70000) }
{
    u64::from(s.task) + u64::from(s.resource) + u64::from(s.length)
}

// The sum of the numbers in the last task row, the last name's length and the last section row.
#[tactic(auto, unfolding(crate::specs::Reading::last_rows))]
fn last_rows(c: Counts, rows: Rows) -> u64
    ensures { (result ≡ last_rows c rows) × (result < 300000) }
{
    let t = last(usize::from(c.tasks), sizes::TASKS);
    let q = last(usize::from(c.resources), sizes::RESOURCES);
    let s = last(usize::from(c.sections), sizes::SECTIONS);
    task_sum(rows.tasks[t]) + u64::from(rows.lengths[q]) + section_sum(rows.sections[s])
}

// Reads a plan: the refusal in the low byte, and above it for a plan that is read the sum of its last rows. Which rows are
// the last is known from the file alone, so a caller that measures this measures all rows.
#[tactic(auto, using(refusals::proofs::Laws::number_no0), unfolding(crate::specs::Reading::read_number))]
#[unsafe(no_mangle)]
pub extern "C" fn plan_read(file: &[u8]) -> u64
    ensures value { result ≡ read_number file.now }
    ensures result_value { result % 256 ≡ refusal file.now }
{
    match plan::read(file) {
        Ok(reading) => 256 * last_rows(reading.counts, reading.rows),
        Err(refusal) => u64::from(refusal.number()),
    }
}
