// What a file that passed every check holds. These functions are for the crates above this one, which check a file once and
// then look at its rows: each relies on that check, and says so in its `requires`.
ghost use Rattle.std.specs.Prelude.{◌≡◌, ◌<◌, ◌≤◌, length};
ghost use Rattle.sizes.specs.Sizes.{most_name_bytes};
ghost use Rattle.plan_reading.specs.Plan.{plan_of, name_part, Checked};
ghost use Rattle.plan_reading.specs.Inner.{Counted};

use plan_rules::{Counts, SectionRow, TaskRow};

// How many processors, tasks, resources and sections the plan has.
#[tactic(auto, using(crate::proofs::Laws::whole_facts), unfolding(crate::specs::Plan::plan_of))]
pub fn counts(file: &[u8]) -> Counts
    requires { Checked file.now }
    ensures { Counted (plan_of file.now) result }
{
    plan_layout::counts_at(file)
}

// Task i.
#[tactic(auto, using(crate::proofs::Laws::whole_facts, folds::proofs::Parts::part_rest), unfolding(crate::specs::Plan::plan_of))]
pub fn task(file: &[u8], i: usize) -> TaskRow
    requires { (Checked file.now) × (i < (plan_of file.now).tasks) }
    ensures { result ≡ (plan_of file.now).task i }
{
    plan_layout::task_at(&file[plan_layout::HEADER..], i)
}

// Section s.
#[tactic(auto, using(crate::proofs::Laws::whole_facts, folds::proofs::Parts::part_rest), unfolding(crate::specs::Plan::plan_of))]
pub fn section(file: &[u8], s: usize) -> SectionRow
    requires { (Checked file.now) × (s < (plan_of file.now).sections) }
    ensures { result ≡ (plan_of file.now).section s }
{
    let at = plan_layout::sections_at(plan_layout::counts_at(file));
    plan_layout::section_at(&file[at..], s)
}

// The name of a resource, as that part of the file.
#[tactic(auto, using(crate::proofs::Laws::named), unfolding(crate::specs::Plan::plan_of, crate::specs::Plan::name_part))]
pub fn name(file: &[u8], resource: u8) -> &[u8]
    requires { (Checked file.now) × (resource < (plan_of file.now).resources) }
    ensures { (result.now ≡ name_part file.now resource) × (length result.now ≤ most_name_bytes) }
{
    let counts = plan_layout::counts_at(file);
    let resources_at = plan_layout::resources_at(counts);
    let row = plan_layout::resource_at(&file[resources_at..], usize::from(resource));
    let start = plan_layout::names_at(counts) + row.start;
    let end = start + usize::from(row.length);
    &file[start..end]
}
