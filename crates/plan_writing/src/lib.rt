// Writing a plan file at the front of a lent buffer, and both round trips.
#![tactic(auto)]

ghost use Rattle.std.specs.Prelude.{◌≡◌, ◌≤◌, length};
ghost use Rattle.sizes.specs.Sizes.{most_tasks};
ghost use Rattle.plan_rules.specs.Rules.{tags_ok};
ghost use Rattle.plan_layout.specs.Editions.{edition1, format_of};
ghost use Rattle.plan_layout.specs.Layout.{values_code};
ghost use Rattle.plan_writing.specs.Writing.{write_code, written, write_outcome, writing_outcome};
ghost use Rattle.plan_writing.specs.RoundTrip.{read_back, read_back_outcome, copy_refusal, copied, copy_outcome};
ghost use Rattle.plan_bytes.specs.Encode.{file_length};
ghost use Rattle.refusals.specs.Refusals.{code_of, Told};
ghost use Rattle.plan.specs.Reading.{read_outcome};

use plan::Reading;
use plan_rules::{Counts, Rows, TaskRow};
use refusals::Refusal;

// The most bytes before the names.
const ROWS_END: usize = plan_layout::HEADER
    + plan_layout::TASK_ROW * sizes::TASKS
    + plan_layout::RESOURCE_ROW * sizes::RESOURCES
    + plan_layout::SECTION_ROW * sizes::SECTIONS;

// Whether a row has room for the tag of each of the first n tasks.
#[tactic(auto, unfolding(folds::specs::Below::all_below, plan_rules::specs::Rules::tags_ok))]
fn tags_ok(tasks: [TaskRow; sizes::TASKS], n: usize) -> bool
    requires { n ≤ most_tasks }
    ensures { result ≡ tags_ok n (format_of edition1).most_tag tasks }
{
    let mut ok = true;
    for i in 0..n {
        ok &= tasks[i].tag <= plan_layout::MOST_TAG;
    }
    ok
}

// The first of 2, 3 and 5 to 9 that values break. The rows are put into a file of their own, with no names, and checked there
// as the parts of any file are; a tag that has no room in a row breaks 5, which comes before all but 2 and 3.
#[tactic(auto, using(plan_rules::proofs::Laws::counts_facts, crate::proofs::Values::tags_fail, crate::proofs::Values::parts_values), unfolding(plan_layout::specs::Layout::values_code))]
pub fn check_values(c: Counts, rows: Rows, names: &[u8]) -> Result<(), Refusal>
    ensures { code_of result ≡ values_code c rows names.now }
{
    if !plan_layout::known(c.edition) {
        return Err(Refusal::WrongEdition);
    }
    if !plan_rules::counts_ok(c) {
        return Err(Refusal::WrongCount);
    }
    if !tags_ok(rows.tasks, usize::from(c.tasks)) {
        return Err(Refusal::WrongTask);
    }
    let mut file = [0u8; ROWS_END];
    plan_bytes::put_file(c, rows, &names[0..0], &mut file);
    plan_layout::check_file(&file, names, c)
}

// Writes the plan of these values at the front of the buffer, and gives the file's length; or refuses it and leaves the buffer as
// it was.
#[tactic(auto, unfolding(crate::specs::Writing::write_code, crate::specs::Writing::written))]
pub fn write(c: Counts, rows: Rows, names: &[u8], buf: &mut [u8]) -> Result<u16, Refusal>
    ensures value { Told (write_code c rows names.now (length buf.old)) (file_length c names.now) result }
    ensures buf_after { buf.new ≡ written c rows names.now buf.old }
    ensures result_value { write_outcome result ≡ writing_outcome c rows names.now (length buf.old) }
{
    check_values(c, rows, names)?;
    let len = plan_layout::names_at(c) + names.len();
    if buf.len() < len {
        return Err(Refusal::NoRoom);
    }
    plan_bytes::put_file(c, rows, names, buf);
    Ok(len as u16)
}

// Writes the plan of these values, and reads it back: the same plan.
pub fn read_back(c: Counts, rows: Rows, names: &[u8], buf: &mut [u8]) -> Result<Reading, Refusal>
    ensures value { Told (write_code c rows names.now (length buf.old)) (read_back c rows) result }
    ensures buf_after { buf.new ≡ written c rows names.now buf.old }
    ensures answer_value { read_outcome result ≡ read_back_outcome c rows names.now (length buf.old) }
{
    let len = write(c, rows, names, buf)?;
    plan::read(&buf[..usize::from(len)])
}

// Reads a file, and writes what was read at the front of the buffer: the same file.
#[tactic(auto, unfolding(crate::specs::RoundTrip::copy_refusal, crate::specs::RoundTrip::copied))]
pub fn copy(file: &[u8], buf: &mut [u8]) -> Result<u16, Refusal>
    ensures value { Told (copy_refusal file.now (length buf.old)) (length file.now) result }
    ensures buf_after { buf.new ≡ copied file.now buf.old }
    ensures result_value { write_outcome result ≡ copy_outcome file.now (length buf.old) }
{
    let found = plan::read(file)?;
    let names_at = plan_layout::names_at(found.counts);
    write(found.counts, found.rows, &file[names_at..], buf)
}
