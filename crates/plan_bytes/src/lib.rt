// How a plan's values become bytes at the front of a lent buffer. `put_file` is for the crates above, and says in its `requires` what it
// relies on.
#![tactic(auto)]

ghost use Rattle.std.specs.Prelude.{◌≡◌, ◌++◌, ◌*◌, ◌≤◌, ◌<◌, length, drop};
ghost use Rattle.sizes.specs.Sizes.{most_resources, most_sections};
ghost use Rattle.folds.specs.Bytes.{digits, row_bytes, bytes_below};
ghost use Rattle.plan_layout.specs.Editions.{edition1, format_of};
ghost use Rattle.plan_layout.specs.Layout.{tasks_at, resource_numbers, section_numbers};
ghost use Rattle.plan_layout.specs.Inner.{task_width, resource_width, section_width};
ghost use Rattle.plan_bytes.specs.Encode.{header_bytes, task_bytes, resource_bytes, section_bytes, file_length, file_of};
ghost use Rattle.plan_bytes.specs.Inner.{HeaderRoom, TasksRoom, FileRoom};

use plan_rules::{Counts, Rows, SectionRow, TaskRow};

// The two bytes of a number that they have room for, low byte first.
#[tactic(auto, unfolding(folds::specs::Bytes::digits))]
fn word(v: usize) -> [u8; 2]
    requires { v < 65536 }
    ensures { result ≡ digits 2 v }
{
    (v as u16).to_le_bytes()
}

// The header of a file of len bytes, at the front of the buffer.
#[tactic(auto, unfolding(folds::specs::Bytes::row_bytes, folds::specs::Bytes::digits, crate::specs::Encode::header_bytes))]
fn put_header(buf: &mut [u8], c: Counts, len: usize)
    requires { HeaderRoom c len buf.old }
    ensures { buf.new ≡ header_bytes c len ++ drop (tasks_at c) buf.old }
{
    let sections = c.sections.to_le_bytes();
    let resources_at = word(plan_layout::resources_at(c));
    let sections_at = word(plan_layout::sections_at(c));
    let names_at = word(plan_layout::names_at(c));
    let end = word(len);
    let row = [
        c.edition,
        c.processors,
        c.tasks,
        c.resources,
        sections[0],
        sections[1],
        plan_layout::HEADER as u8,
        0,
        resources_at[0],
        resources_at[1],
        sections_at[0],
        sections_at[1],
        names_at[0],
        names_at[1],
        end[0],
        end[1],
    ];
    folds::put_bytes(buf, &row);
}

// One task row at the front of the buffer.
#[tactic(auto, unfolding(folds::specs::Bytes::row_bytes, folds::specs::Bytes::digits))]
fn put_task(buf: &mut [u8], t: TaskRow)
    requires { (task_width ≤ length buf.old) × (t.tag ≤ (format_of edition1).most_tag) }
    ensures { buf.new ≡ row_bytes (format_of edition1).task ((format_of edition1).task_numbers t) ++ drop task_width buf.old }
{
    let period = t.period.to_le_bytes();
    let execution = t.execution.to_le_bytes();
    let row = [
        t.processor,
        t.tag as u8,
        t.priority,
        0,
        period[0],
        period[1],
        execution[0],
        execution[1],
    ];
    folds::put_bytes(buf, &row);
}

// The first n task rows at the front of the buffer.
fn put_tasks(buf: &mut [u8], tasks: [TaskRow; sizes::TASKS], n: usize)
    requires { TasksRoom n tasks buf.old }
    ensures { buf.new ≡ bytes_below n (task_bytes edition1 tasks) ++ drop (n * task_width) buf.old }
{
    for i in 0..n {
        put_task(&mut buf[i * plan_layout::TASK_ROW..], tasks[i]);
    }
}

// One resource row at the front of the buffer.
#[tactic(auto, unfolding(folds::specs::Bytes::row_bytes, folds::specs::Bytes::digits))]
fn put_resource(buf: &mut [u8], start: usize, len: u8)
    requires { (resource_width ≤ length buf.old) × (start < 65536) }
    ensures { buf.new ≡ row_bytes (format_of edition1).resource (resource_numbers start len) ++ drop resource_width buf.old }
{
    let from = word(start);
    folds::put_bytes(buf, &[from[0], from[1], len, 0]);
}

// The first r resource rows at the front of the buffer: each name starts where the last ended.
fn put_resources(buf: &mut [u8], lengths: [u8; sizes::RESOURCES], r: usize)
    requires { (r ≤ most_resources) × (r * resource_width ≤ length buf.old) }
    ensures { buf.new ≡ bytes_below r (resource_bytes edition1 lengths) ++ drop (r * resource_width) buf.old }
{
    let mut start = 0;
    for i in 0..r {
        put_resource(&mut buf[i * plan_layout::RESOURCE_ROW..], start, lengths[i]);
        start += usize::from(lengths[i]);
    }
}

// One section row at the front of the buffer.
#[tactic(auto, unfolding(folds::specs::Bytes::row_bytes, folds::specs::Bytes::digits))]
fn put_section(buf: &mut [u8], s: SectionRow)
    requires { section_width ≤ length buf.old }
    ensures { buf.new ≡ row_bytes (format_of edition1).section (section_numbers s) ++ drop section_width buf.old }
{
    let ticks = s.length.to_le_bytes();
    folds::put_bytes(buf, &[s.task, s.resource, ticks[0], ticks[1]]);
}

// The first s section rows at the front of the buffer.
fn put_sections(buf: &mut [u8], sections: [SectionRow; sizes::SECTIONS], s: usize)
    requires { (s ≤ most_sections) × (s * section_width ≤ length buf.old) }
    ensures { buf.new ≡ bytes_below s (section_bytes edition1 sections) ++ drop (s * section_width) buf.old }
{
    for i in 0..s {
        put_section(&mut buf[i * plan_layout::SECTION_ROW..], sections[i]);
    }
}

// The file at the front of the buffer.
pub fn put_file(c: Counts, rows: Rows, names: &[u8], buf: &mut [u8])
    requires { FileRoom c rows names.now buf.old }
    ensures { buf.new ≡ file_of c rows names.now ++ drop (file_length c names.now) buf.old }
{
    let resources_at = plan_layout::resources_at(c);
    let sections_at = plan_layout::sections_at(c);
    let names_at = plan_layout::names_at(c);
    let tasks = rows.tasks;
    let lengths = rows.lengths;
    let sections = rows.sections;
    let s = usize::from(c.sections);
    put_header(buf, c, names_at + names.len());
    put_tasks(&mut buf[plan_layout::HEADER..], tasks, usize::from(c.tasks));
    put_resources(&mut buf[resources_at..], lengths, usize::from(c.resources));
    put_sections(&mut buf[sections_at..], sections, s);
    folds::put_bytes(&mut buf[names_at..], names);
}
