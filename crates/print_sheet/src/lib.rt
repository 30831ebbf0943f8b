// The datasheet of a plan: what its analysis says, and the longest wait of each task for each resource, one fact a line.
#![tactic(auto)]

ghost use Rattle.std.specs.Prelude.{◌≡◌, ◌+◌, ◌*◌, ◌≤◌, IfOk, length};
ghost use Rattle.refusals.specs.Refusals.{Told};
ghost use Rattle.print_text.specs.Text.{PutIn, text_below};
ghost use Rattle.plan_reading.specs.Plan.{plan_of, Checked};
ghost use Rattle.print_sheet.specs.Sheet.{requirement_line, admitted_line, resource_at, budget_at, hold_line_at, resource_lines};
ghost use Rattle.print_sheet.specs.Sheet.{budget_lines_of, budget_lines, hold_lines_of, hold_lines, figure_lines, verdict_lines};
ghost use Rattle.print_sheet.specs.Sheet.{plan_sheet, most_sheet, sheet_code, sheet_in};
ghost use Rattle.print_sheet.specs.Inner.{resource_room, budget_room, hold_room, requirement_room, admitted_room};
ghost use Rattle.print_sheet.specs.Inner.{resources_room, budgets_of_room, budgets_room, holds_of_room, holds_room};
ghost use Rattle.print_sheet.specs.Inner.{figures_room, verdict_room};
ghost use Rattle.print_sheet.specs.Inner.{Ready, Summed, ReadyOf, Cell, EntryOf, RowReady, Rows, RowPut, RowsPut, AsideSheet};
ghost use Rattle.print_sheet.specs.Inner.{Texts, MayPut, Puts};

use analysis_requirements::Requirement;
use print_lines::{Field, NONE, Word, four, put_line};
use refusals::Refusal;

// A buffer as long as this has room for every sheet.
pub const SHEET: usize = 131072;

// Where text ends, and whether every requirement in it is met.
#[derive(Clone, Copy)]
struct Required {
    end: usize,
    all: bool,
}

// A place in the tables: a processor or a task, and a resource.
#[derive(Clone, Copy)]
struct Entry {
    row: usize,
    resource: usize,
}

// "resource NAME global" or "resource NAME local".
#[tactic(auto, using(crate::proofs::Laws::few_resources))]
fn put_resource(buf: &mut [u8], at: usize, file: &[u8], figures: &[u16], q: usize) -> usize
    requires { Cell file.now figures.now buf.old at resource_room q }
    ensures { PutIn buf.old buf.new at resource_room (resource_at file.now q) result }
{
    let shared = analysis_figures::is_global(file, figures, q);
    let name = Field::Name(q as u8);
    let reach = print_lines::either(shared, Word::Global, Word::Local);
    put_line(buf, at, file, b"resource", four(name, reach, NONE, NONE))
}

// Texts one behind the other: those of the numbers below n.
#[tactic(auto, using(print_text::proofs::Turns::turns_room, print_text::proofs::Turns::turns_done))]
fn put_each<F: Fn(&mut [u8], usize, usize) -> usize>(
    buf: &mut [u8],
    at: usize,
    n: usize,
    put: F,
) -> usize
    ghost texts: { Texts }
    requires callable { MayPut texts n (F.pre put) }
    requires puts { Puts texts n (F.post put) }
    requires few { n ≤ texts.most }
    requires room { at + texts.most * texts.width ≤ length buf.old }
    ensures { PutIn buf.old buf.new at (texts.most * texts.width) (text_below n texts.text) result }
{
    let mut end = at;
    for k in 0..n {
        end = put(buf, end, k);
    }
    end
}

// A line for each resource.
#[tactic(auto, unfolding(crate::specs::Sheet::resource_lines))]
fn put_resources(buf: &mut [u8], at: usize, file: &[u8], figures: &[u16]) -> usize
    requires { Ready file.now figures.now buf.old at resources_room }
    ensures { PutIn buf.old buf.new at resources_room (resource_lines file.now) result }
{
    let n = usize::from(plan_reading::checked::counts(file).resources);
    put_each(
        buf,
        at,
        n,
        |buf, end, q| put_resource(buf, end, file, figures, q),
    )
}

// "budget K NAME B W", where processor k uses q and q is global: where it has users of q in the totals.
#[tactic(auto, using(crate::proofs::Laws::few_processors, crate::proofs::Laws::few_resources))]
fn put_budget_at(
    buf: &mut [u8],
    at: usize,
    file: &[u8],
    figures: &[u16],
    totals: &[u32],
    entry: Entry,
) -> usize
    requires { EntryOf file.now figures.now totals.now buf.old at budget_room (plan_of file.now).processors entry }
    ensures { PutIn buf.old buf.new at budget_room (budget_at file.now entry.row entry.resource) result }
{
    let k = entry.row;
    let q = entry.resource;
    if analysis_totals::users_at(totals, k, q) == 0 {
        return at;
    }
    let core = Field::Number(k as u64);
    let name = Field::Name(q as u8);
    let most = Field::Number(u64::from(analysis_figures::budget_at(figures, k, q)));
    let others = Field::Number(u64::from(analysis_totals::wait_at(totals, k, q)));
    put_line(buf, at, file, b"budget", four(core, name, most, others))
}

// The lines of processor k.
#[tactic(auto, unfolding(crate::specs::Sheet::budget_lines_of))]
fn put_budgets_of(
    buf: &mut [u8],
    at: usize,
    file: &[u8],
    figures: &[u16],
    totals: &[u32],
    k: usize,
) -> usize
    requires { ReadyOf file.now figures.now totals.now buf.old at budgets_of_room (plan_of file.now).processors k }
    ensures { PutIn buf.old buf.new at budgets_of_room (budget_lines_of file.now k) result }
{
    let n = usize::from(plan_reading::checked::counts(file).resources);
    put_each(buf, at, n, |buf, end, q| {
        let entry = Entry {
            row: k,
            resource: q,
        };
        put_budget_at(buf, end, file, figures, totals, entry)
    })
}

// Those of every processor.
#[tactic(auto, unfolding(crate::specs::Sheet::budget_lines))]
fn put_budgets(buf: &mut [u8], at: usize, file: &[u8], figures: &[u16], totals: &[u32]) -> usize
    requires { Summed file.now figures.now totals.now buf.old at budgets_room }
    ensures { PutIn buf.old buf.new at budgets_room (budget_lines file.now) result }
{
    let n = usize::from(plan_reading::checked::counts(file).processors);
    put_each(buf, at, n, |buf, end, k| {
        put_budgets_of(buf, end, file, figures, totals, k)
    })
}

// "hold TAG NAME H FELLOWS LONGEST", where task i has a section on q and q is global: where it has a hold time.
#[tactic(auto, using(crate::proofs::Laws::few_tasks, crate::proofs::Laws::few_resources))]
fn put_hold_at(
    buf: &mut [u8],
    at: usize,
    file: &[u8],
    figures: &[u16],
    totals: &[u32],
    entry: Entry,
) -> usize
    requires { EntryOf file.now figures.now totals.now buf.old at hold_room (plan_of file.now).tasks entry }
    ensures { PutIn buf.old buf.new at hold_room (hold_line_at file.now entry.row entry.resource) result }
{
    let i = entry.row;
    let q = entry.resource;
    let hold = analysis_figures::hold_at(figures, i, q);
    if hold == 0 {
        return at;
    }
    let longest = analysis_waits::longest_of(file, figures, totals, i, q);
    let tag = Field::Number(u64::from(plan_reading::checked::task(file, i).tag));
    let name = Field::Name(q as u8);
    let own = Field::Number(u64::from(hold));
    let fellows = Field::Number(longest.fellows as u64);
    let most = Field::Number(u64::from(longest.wait));
    put_line(
        buf,
        at,
        file,
        b"hold",
        [tag, name, own, fellows, most, NONE, NONE, NONE],
    )
}

// The lines of task i.
#[tactic(auto, unfolding(crate::specs::Sheet::hold_lines_of))]
fn put_holds_of(
    buf: &mut [u8],
    at: usize,
    file: &[u8],
    figures: &[u16],
    totals: &[u32],
    i: usize,
) -> usize
    requires { ReadyOf file.now figures.now totals.now buf.old at holds_of_room (plan_of file.now).tasks i }
    ensures { PutIn buf.old buf.new at holds_of_room (hold_lines_of file.now i) result }
{
    let n = usize::from(plan_reading::checked::counts(file).resources);
    put_each(buf, at, n, |buf, end, q| {
        let entry = Entry {
            row: i,
            resource: q,
        };
        put_hold_at(buf, end, file, figures, totals, entry)
    })
}

// Those of every task.
#[tactic(auto, unfolding(crate::specs::Sheet::hold_lines))]
fn put_holds(buf: &mut [u8], at: usize, file: &[u8], figures: &[u16], totals: &[u32]) -> usize
    requires { Summed file.now figures.now totals.now buf.old at holds_room }
    ensures { PutIn buf.old buf.new at holds_room (hold_lines file.now) result }
{
    let n = usize::from(plan_reading::checked::counts(file).tasks);
    put_each(buf, at, n, |buf, end, i| {
        put_holds_of(buf, end, file, figures, totals, i)
    })
}

// Those and these.
fn put_figures(buf: &mut [u8], at: usize, file: &[u8], figures: &[u16], totals: &[u32]) -> usize
    requires { Summed file.now figures.now totals.now buf.old at figures_room }
    ensures { PutIn buf.old buf.new at figures_room (figure_lines file.now) result }
{
    let a = put_budgets(buf, at, file, figures, totals);
    put_holds(buf, a, file, figures, totals)
}

// "requirement TAG B1 B2 TOLERANCE SLACK SIDE met", or "unmet".
fn put_requirement(buf: &mut [u8], at: usize, tag: u16, found: Requirement) -> usize
    requires { at + requirement_room ≤ length buf.old }
    ensures { PutIn buf.old buf.new at requirement_room (requirement_line tag found) result }
{
    let tag = Field::Number(u64::from(tag));
    let first = Field::Number(u64::from(found.blocking1));
    let second = Field::Number(u64::from(found.blocking2));
    let tolerance = Field::Signed(found.tolerance);
    let slack = Field::Signed(found.slack);
    let side = Field::Number(found.side);
    let met = print_lines::either(found.met, Word::Met, Word::Unmet);
    put_line(
        buf,
        at,
        b"",
        b"requirement",
        [tag, first, second, tolerance, slack, side, met, NONE],
    )
}

// That line where task i has a global section, and whether its requirement is met where it has one.
#[tactic(auto, using(crate::proofs::Laws::few_tasks))]
fn put_requirement_at(
    buf: &mut [u8],
    at: usize,
    file: &[u8],
    terms: &[u16],
    sides: &[u64],
    i: usize,
) -> Required
    requires { RowReady file.now terms.now sides.now buf.old at i }
    ensures { RowPut file.now i buf.old buf.new at result }
{
    if analysis_terms::count_at(terms, i) == 0 {
        return Required { end: at, all: true };
    }
    let found = analysis_requirements::requirement_of(file, terms, sides, i);
    let task = plan_reading::checked::task(file, i);
    let end = put_requirement(buf, at, task.tag, found);
    Required {
        end,
        all: found.met,
    }
}

// A line for each task with a global section, and whether all their requirements are met.
#[tactic(auto, using(print_text::proofs::Turns::turns_room))]
fn put_requirements(
    buf: &mut [u8],
    at: usize,
    file: &[u8],
    terms: &[u16],
    sides: &[u64],
) -> Required
    requires { Rows file.now terms.now sides.now buf.old at }
    ensures { RowsPut file.now buf.old buf.new at result }
{
    let n = usize::from(plan_reading::checked::counts(file).tasks);
    let mut end = at;
    let mut all = true;
    for i in 0..n {
        let one = put_requirement_at(buf, end, file, terms, sides, i);
        end = one.end;
        all &= one.all;
    }
    Required { end, all }
}

// "admitted yes" or "admitted no".
fn put_admitted(buf: &mut [u8], at: usize, yes: bool) -> usize
    requires { at + admitted_room ≤ length buf.old }
    ensures { PutIn buf.old buf.new at admitted_room (admitted_line yes) result }
{
    let word = print_lines::either(yes, Word::Yes, Word::No);
    put_line(buf, at, b"", b"admitted", four(word, NONE, NONE, NONE))
}

// The requirements and whether the plan is admitted.
fn put_verdict(buf: &mut [u8], at: usize, file: &[u8], figures: &[u16], totals: &[u32]) -> usize
    requires { Summed file.now figures.now totals.now buf.old at verdict_room }
    ensures { PutIn buf.old buf.new at verdict_room (verdict_lines file.now) result }
{
    let mut terms = [0u16; analysis_terms::TERMS];
    analysis_terms::fill_terms(file, figures, &mut terms);
    let mut sides = [0u64; analysis_sides::SIDES];
    analysis_sides::fill_sides(file, figures, totals, &mut sides);
    let required = put_requirements(buf, at, file, &terms, &sides);
    put_admitted(buf, required.end, required.all)
}

// The sheet of a checked plan, from the tables of its figures and totals.
fn put_parts(buf: &mut [u8], file: &[u8], figures: &[u16], totals: &[u32]) -> usize
    requires { Summed file.now figures.now totals.now buf.old 0 most_sheet }
    ensures { PutIn buf.old buf.new 0 most_sheet (plan_sheet file.now) result }
{
    let a = print_lines::put_plan(buf, 0, plan_reading::checked::counts(file));
    let b = put_resources(buf, a, file, figures);
    let c = put_figures(buf, b, file, figures, totals);
    put_verdict(buf, c, file, figures, totals)
}

// The sheet of a checked plan.
fn put_plan_sheet(buf: &mut [u8], file: &[u8]) -> usize
    requires { (Checked file.now) × (most_sheet ≤ length buf.old) }
    ensures { PutIn buf.old buf.new 0 most_sheet (plan_sheet file.now) result }
{
    let mut figures = [0u16; analysis_figures::FIGURES];
    analysis_hold_times::fill_figures(file, &mut figures);
    let mut totals = [0u32; analysis_totals::TOTALS];
    analysis_totals::fill_totals(file, &figures, &mut totals);
    put_parts(buf, file, &figures, &totals)
}

// The sheet of a checked plan by way of a buffer of its own, for a lent one that may be too short for it.
fn sheet_aside(file: &[u8], out: &mut [u8]) -> Result<usize, Refusal>
    requires { Checked file.now }
    ensures { AsideSheet file.now out.old out.new result }
{
    let mut buf = [0u8; SHEET];
    let end = put_plan_sheet(&mut buf, file);
    print_text::hand_over(&buf[..end], out)
}

// The datasheet of a plan file, at the front of a lent buffer: its length, or the first of 1 to 9, or 10 where the buffer is too short
// for it. A refusal leaves the buffer as it was.
pub fn sheet(file: &[u8], out: &mut [u8]) -> Result<usize, Refusal>
    ensures told { Told (sheet_code file.now (length out.old)) (length (plan_sheet file.now)) result }
    ensures out_after { out.new ≡ sheet_in file.now out.old }
    ensures length_le_most_sheet { IfOk result (λ n. n ≤ most_sheet) }
{
    plan::check(file)?;
    if out.len() < SHEET {
        return sheet_aside(file, out);
    }
    let length = put_plan_sheet(out, file);
    Ok(length)
}
