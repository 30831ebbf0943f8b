// Where the parts of a plan file are, and what their rows hold. These functions are for the crates that read and write
// plans: those with a `requires` rely on what earlier checks gave.
#![tactic(auto)]

ghost use Rattle.std.specs.Prelude.{◌≡◌, true, ◌+◌, ◌*◌, ◌≤◌, ◌<◌, length};
ghost use Rattle.sizes.specs.Sizes.{most_tasks, most_resources, most_sections};
ghost use Rattle.folds.specs.Bytes.{number};
ghost use Rattle.plan_rules.specs.Rules.{counts_ok, no_task, no_section};
ghost use Rattle.refusals.specs.Refusals.{code_of};
ghost use Rattle.plan_layout.specs.Editions.{edition1, known, header_length};
ghost use Rattle.plan_layout.specs.Layout.{counts_of, length_said, offsets_ok, resources_at, sections_at, names_at, task_spare, section_at};
ghost use Rattle.plan_layout.specs.Layout.{task_rows, length_rows_ok, section_rows, section_rows_ok, parts_code, file_code};
ghost use Rattle.plan_layout.specs.Inner.{task_width, resource_width, section_width, task_code, sums_fit, section_code, rest_code};
ghost use Rattle.plan_layout.specs.Inner.{WordRead, TaskRead, ResourceRead, LengthsRead, TasksFit, SectionsFit, PartsFit};

use plan_rules::{Counts, SectionRow, TaskRow};
use refusals::Refusal;

// The edition that is read and written, the bytes of its header and of its rows, and the greatest tag that a row has room for.
const EDITION: u8 = 1;

pub const HEADER: usize = 16;

pub const TASK_ROW: usize = 8;

pub const RESOURCE_ROW: usize = 4;

pub const SECTION_ROW: usize = 4;

pub const MOST_TAG: u16 = 255;

// The name lengths of a part, and whether its rows follow one another as they should. Both are told, whatever the test says, so it is a
// flag beside them and no `Result`.
#[derive(Clone, Copy)]
pub struct LoadedLengths {
    pub lengths: [u8; sizes::RESOURCES],
    pub ok: bool,
}

// A resource row: start and length of its name, and the spare byte.
#[derive(Clone, Copy)]
pub struct ResourceRow {
    pub start: usize,
    pub length: u8,
    pub spare: u8,
}

// Two bytes, low byte first.
pub fn word_at(s: &[u8], at: usize) -> usize
    requires { at + 1 < length s.now }
    ensures { WordRead s.now at result }
{
    usize::from(half_at(s, at))
}

// The same as 16 bits.
#[tactic(auto, unfolding(folds::specs::Bytes::number))]
fn half_at(s: &[u8], at: usize) -> u16
    requires { at + 1 < length s.now }
    ensures { result ≡ number 2 s.now at }
{
    u16::from_le_bytes([s[at], s[at + 1]])
}

// Whether a number is that of an edition.
pub fn known(edition: u8) -> bool
    ensures { result ≡ known edition }
{
    edition == EDITION
}

// The counts in a header.
#[tactic(auto, using(crate::proofs::Laws::counts_fields))]
pub fn counts_at(file: &[u8]) -> Counts
    requires { header_length ≤ length file.now }
    ensures { result ≡ counts_of file.now }
{
    Counts {
        edition: file[0],
        processors: file[1],
        tasks: file[2],
        resources: file[3],
        sections: half_at(file, 4),
    }
}

// The length that a header says the file has.
#[tactic(auto, using(crate::proofs::Laws::length_field_said))]
pub fn length_said(file: &[u8]) -> usize
    requires { header_length ≤ length file.now }
    ensures { result ≡ length_said file.now }
{
    word_at(file, 14)
}

// Where the resource rows begin.
pub fn resources_at(c: Counts) -> usize
    ensures { result ≡ resources_at c }
{
    HEADER + TASK_ROW * usize::from(c.tasks)
}

// Where the section rows begin.
pub fn sections_at(c: Counts) -> usize
    ensures { result ≡ sections_at c }
{
    HEADER + TASK_ROW * usize::from(c.tasks) + RESOURCE_ROW * usize::from(c.resources)
}

// Where the names begin.
pub fn names_at(c: Counts) -> usize
    ensures { result ≡ names_at c }
{
    HEADER
        + TASK_ROW * usize::from(c.tasks)
        + RESOURCE_ROW * usize::from(c.resources)
        + SECTION_ROW * usize::from(c.sections)
}

// 4: whether the four parts follow the header without gaps, and begin in the file.
#[tactic(auto, using(crate::proofs::Laws::header_fields), unfolding(crate::specs::Layout::offsets_ok))]
pub fn offsets_ok(file: &[u8], c: Counts) -> bool
    requires { header_length ≤ length file.now }
    ensures { result ≡ offsets_ok c file.now }
{
    let tasks = word_at(file, 6);
    let resources = word_at(file, 8);
    let sections = word_at(file, 10);
    let names = word_at(file, 12);
    let end = names_at(c);
    (tasks == HEADER)
        & (resources == resources_at(c))
        & (sections == sections_at(c))
        & (names == end)
        & (end <= file.len())
}

// A row that is not there.
pub fn no_task() -> TaskRow
    ensures { result ≡ no_task }
{
    TaskRow {
        processor: 0,
        tag: 0,
        priority: 0,
        period: 0,
        execution: 0,
    }
}

// A section that is not there.
pub fn no_section() -> SectionRow
    ensures { result ≡ no_section }
{
    SectionRow {
        task: 0,
        resource: 0,
        length: 0,
    }
}

// Task row i of the part that begins at the task rows.
#[tactic(auto, using(crate::proofs::Laws::task_fields))]
pub fn task_at(part: &[u8], i: usize) -> TaskRow
    requires { (i < most_tasks) × (i * task_width + task_width ≤ length part.now) }
    ensures { TaskRead edition1 part.now i result }
{
    let at = i * TASK_ROW;
    TaskRow {
        processor: part[at],
        tag: u16::from(part[at + 1]),
        priority: part[at + 2],
        period: half_at(part, at + 4),
        execution: half_at(part, at + 6),
    }
}

// The spare byte of it.
#[tactic(auto, using(crate::proofs::Laws::task_spare_lem))]
fn task_spare(part: &[u8], i: usize) -> u8
    requires { (i < most_tasks) × (i * task_width + task_width ≤ length part.now) }
    ensures { result ≡ task_spare edition1 part.now i }
{
    part[i * TASK_ROW + 3]
}

// 5 and 6, on the part of the file that begins at the task rows, in one pass: 5 where a row breaks its rule, else 6 where a
// tag is repeated, or a priority on a processor. Tables say which tags and which places, a processor with a priority, were
// seen; a processor of 8 and more, whose row is refused anyway, is taken modulo 8.
#[tactic(auto, unfolding(crate::specs::Layout::task_rows_ok, folds::specs::Below::all_below, folds::proofs::Arrays::marked_below))]
fn check_tasks(part: &[u8], n: usize, p: u8) -> Result<(), Refusal>
    requires { TasksFit n p part.now }
    ensures { code_of result ≡ task_code edition1 n p part.now }
{
    let mut tags = [false; 256];
    let mut places = [false; 2048];
    let mut ok = true;
    let mut fresh = true;
    for i in 0..n {
        let row = task_at(part, i);
        let tag = usize::from(row.tag);
        let place = usize::from(row.processor) % sizes::PROCESSORS * 256
            + usize::from(row.priority);
        ok &= plan_rules::task_ok(row, p, MOST_TAG) & (task_spare(part, i) == 0);
        fresh &= !tags[tag] & !places[place];
        tags[tag] = true;
        places[place] = true;
    }
    if !ok {
        return Err(Refusal::WrongTask);
    }
    if !fresh {
        return Err(Refusal::Repeated);
    }
    Ok(())
}

// The task rows of that part, by value.
pub fn load_tasks(part: &[u8], n: usize) -> [TaskRow; sizes::TASKS]
    requires { (n ≤ most_tasks) × (n * task_width ≤ length part.now) }
    ensures { result ≡ task_rows edition1 n part.now }
{
    folds::table(n, no_task(), |i| task_at(part, i))
}

// Resource row i of the part that begins at the resource rows.
#[tactic(auto, using(crate::proofs::Laws::start_field, crate::proofs::Laws::length_field, crate::proofs::Laws::resource_spare_lem))]
pub fn resource_at(part: &[u8], i: usize) -> ResourceRow
    requires { (i < most_resources) × (i * resource_width + resource_width ≤ length part.now) }
    ensures { ResourceRead edition1 part.now i result }
{
    let at = i * RESOURCE_ROW;
    ResourceRow {
        start: word_at(part, at),
        length: part[at + 2],
        spare: part[at + 3],
    }
}

// 7: whether each name starts where the last ended, and each spare byte is 0.
#[tactic(auto, unfolding(folds::specs::Below::all_below, folds::specs::Below::sum_below, crate::specs::Layout::length_rows_ok))]
fn lengths_ok(part: &[u8], r: usize) -> bool
    requires { (r ≤ most_resources) × (r * resource_width ≤ length part.now) }
    ensures { result ≡ length_rows_ok edition1 r part.now }
{
    let mut ok = true;
    let mut end = 0;
    for i in 0..r {
        let row = resource_at(part, i);
        ok &= (row.start == end) & (row.spare == 0);
        end += usize::from(row.length);
    }
    ok
}

// The lengths of that part, by value, and that test of its rows.
pub fn load_lengths(part: &[u8], r: usize) -> LoadedLengths
    requires { (r ≤ most_resources) × (r * resource_width ≤ length part.now) }
    ensures { LengthsRead edition1 part.now r result }
{
    LoadedLengths {
        lengths: folds::table(r, 0, |i| resource_at(part, i).length),
        ok: lengths_ok(part, r),
    }
}

// Section row i of the part that begins at the section rows.
#[tactic(auto, using(crate::proofs::Laws::section_fields))]
pub fn section_at(part: &[u8], i: usize) -> SectionRow
    requires { (i < most_sections) × (i * section_width + section_width ≤ length part.now) }
    ensures { result ≡ section_at edition1 part.now i }
{
    let at = i * SECTION_ROW;
    SectionRow {
        task: part[at],
        resource: part[at + 1],
        length: half_at(part, at + 2),
    }
}

// Whether the sum of each of the n tasks is at most its execution time, in the part that begins at the task rows.
#[tactic(auto, unfolding(folds::specs::Below::all_below, crate::specs::Inner::sums_fit))]
fn sums_fit(tasks: &[u8], sums: [u32; sizes::TASKS], n: usize) -> bool
    requires { (n ≤ most_tasks) × (n * task_width ≤ length tasks.now) }
    ensures { result ≡ sums_fit edition1 n sums tasks.now }
{
    let mut ok = true;
    for i in 0..n {
        let row = task_at(tasks, i);
        ok &= sums[i] <= u32::from(row.execution);
    }
    ok
}

// Whether each section row of the part that begins at them keeps its rule.
#[tactic(auto, using(folds::proofs::Tests::all_step), unfolding(folds::specs::Below::all_below, crate::specs::Layout::section_rows_ok))]
fn section_rows_ok(part: &[u8], s: usize, n: u8, r: u8) -> bool
    requires { (s ≤ most_sections) × (s * section_width ≤ length part.now) }
    ensures { result ≡ section_rows_ok edition1 s n r part.now }
{
    let mut ok = true;
    for i in 0..s {
        ok &= plan_rules::section_ok(section_at(part, i), n, r);
    }
    ok
}

// 8 and 9, on the parts of the file that begin at the task rows and at the section rows: 8 where a row breaks its rule, else 9
// where the sections of a task are longer than its execution time. The sums are gathered in one pass; the test of the rows
// has its own, which runs many rows at a time. A task number is below 64 here, and taken modulo 64 all the same.
#[tactic(auto, using(folds::proofs::Arrays::gathered_step), unfolding(crate::specs::Inner::section_code, folds::proofs::Arrays::gathered_below))]
fn check_sections(tasks: &[u8], part: &[u8], s: usize, n: u8, r: u8) -> Result<(), Refusal>
    requires { SectionsFit n s tasks.now part.now }
    ensures { code_of result ≡ section_code edition1 n s r tasks.now part.now }
{
    if !section_rows_ok(part, s, n, r) {
        return Err(Refusal::WrongSection);
    }
    let mut sums = [0u32; sizes::TASKS];
    for i in 0..s {
        let row = section_at(part, i);
        sums[usize::from(row.task) % sizes::TASKS] += u32::from(row.length);
    }
    if !sums_fit(tasks, sums, usize::from(n)) {
        return Err(Refusal::SectionsAbove);
    }
    Ok(())
}

// The section rows of that part, by value.
pub fn load_sections(part: &[u8], s: usize) -> [SectionRow; sizes::SECTIONS]
    requires { (s ≤ most_sections) × (s * section_width ≤ length part.now) }
    ensures { result ≡ section_rows edition1 s part.now }
{
    folds::table(s, no_section(), |i| section_at(part, i))
}

// 7, then 8 and 9, on the parts of the file that begin at their offsets.
#[tactic(auto, unfolding(crate::specs::Inner::rest_code, crate::specs::Inner::section_code))]
fn check_rest(
    tasks: &[u8],
    resources: &[u8],
    sections: &[u8],
    names: &[u8],
    c: Counts,
) -> Result<(), Refusal>
    requires { PartsFit c tasks.now resources.now sections.now }
    ensures { code_of result ≡ rest_code c tasks.now resources.now sections.now names.now }
{
    let r = usize::from(c.resources);
    let loaded = load_lengths(resources, r);
    if !loaded.ok {
        return Err(Refusal::WrongName);
    }
    if !plan_rules::names::names_ok(loaded.lengths, r, names) {
        return Err(Refusal::WrongName);
    }
    check_sections(
        tasks,
        sections,
        usize::from(c.sections),
        c.tasks,
        c.resources,
    )
}

// 5 to 9, on the parts of the file that begin at their offsets.
fn check_parts(
    tasks: &[u8],
    resources: &[u8],
    sections: &[u8],
    names: &[u8],
    c: Counts,
) -> Result<(), Refusal>
    requires { PartsFit c tasks.now resources.now sections.now }
    ensures { code_of result ≡ parts_code c tasks.now resources.now sections.now names.now }
{
    check_tasks(tasks, usize::from(c.tasks), c.processors)?;
    check_rest(tasks, resources, sections, names, c)
}

// 5 to 9, of rows that stand in a file at their offsets, with these names. Each group of rows is handed on as the part of the file
// that begins at its offset.
pub fn check_file(file: &[u8], names: &[u8], c: Counts) -> Result<(), Refusal>
    requires { (counts_ok c ≡ true) × (names_at c ≤ length file.now) }
    ensures { code_of result ≡ file_code c file.now names.now }
{
    let resources_at = resources_at(c);
    let sections_at = sections_at(c);
    check_parts(
        &file[HEADER..],
        &file[resources_at..],
        &file[sections_at..],
        names,
        c,
    )
}
