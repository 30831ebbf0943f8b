// A plan file's checks, 1 to 9, in order, and its rows by value. What users call is in crate `plan`, above the hold times.
#![tactic(auto)]

ghost use Rattle.std.specs.Prelude.{◌≡◌, ◌≤◌, length};
ghost use Rattle.refusals.specs.Refusals.{code_of};
ghost use Rattle.plan_layout.specs.Editions.{header_length};
ghost use Rattle.plan_layout.specs.Layout.{rows_of};
ghost use Rattle.plan_reading.specs.Checks.{counts_code, header_code, rows_code, check_code};
ghost use Rattle.plan_reading.specs.Inner.{HeaderPassed};

use plan_rules::{Counts, Rows};
use refusals::Refusal;

pub mod checked;

// Checks 2 to 4.
#[tactic(auto, using(std::proofs::lemmas::Bool::Decides::nat_tests), unfolding(crate::specs::Checks::counts_code))]
fn check_counts(file: &[u8]) -> Result<(), Refusal>
    requires { header_length ≤ length file.now }
    ensures { code_of result ≡ counts_code file.now }
{
    let counts = plan_layout::counts_at(file);
    if !plan_layout::known(counts.edition) {
        return Err(Refusal::WrongEdition);
    }
    if !plan_rules::counts_ok(counts) {
        return Err(Refusal::WrongCount);
    }
    if !plan_layout::offsets_ok(file, counts) {
        return Err(Refusal::WrongOffset);
    }
    Ok(())
}

// Check 1, then these.
#[tactic(auto, using(std::proofs::lemmas::Bool::Decides::nat_tests), unfolding(crate::specs::Checks::header_code))]
fn check_header(file: &[u8]) -> Result<(), Refusal>
    ensures { code_of result ≡ header_code file.now }
{
    if file.len() < plan_layout::HEADER {
        return Err(Refusal::WrongLength);
    }
    if plan_layout::length_said(file) != file.len() {
        return Err(Refusal::WrongLength);
    }
    check_counts(file)
}

// Checks 5 to 9, of a file that passed those before.
#[tactic(auto, using(crate::proofs::Laws::header_facts, folds::proofs::Parts::part_rest), unfolding(crate::specs::Checks::rows_code))]
fn check_rows(file: &[u8], c: Counts) -> Result<(), Refusal>
    requires { HeaderPassed file.now c }
    ensures { code_of result ≡ rows_code file.now }
{
    let at = plan_layout::names_at(c);
    plan_layout::check_file(file, &file[at..], c)
}

// All checks: the first that the file fails.
#[tactic(auto, using(crate::proofs::Laws::header_facts), unfolding(crate::specs::Checks::check_code))]
pub fn check(file: &[u8]) -> Result<(), Refusal>
    ensures { code_of result ≡ check_code file.now }
{
    check_header(file)?;
    check_rows(file, plan_layout::counts_at(file))
}

// The rows of a file that passed every check.
#[tactic(auto, using(crate::proofs::Laws::header_facts, folds::proofs::Parts::part_rest))]
pub fn load(file: &[u8], c: Counts) -> Rows
    requires { HeaderPassed file.now c }
    ensures { result ≡ rows_of file.now }
{
    let resources_at = plan_layout::resources_at(c);
    let sections_at = plan_layout::sections_at(c);
    let loaded = plan_layout::load_lengths(&file[resources_at..], usize::from(c.resources));
    let lengths = loaded.lengths;
    Rows {
        tasks: plan_layout::load_tasks(&file[plan_layout::HEADER..], usize::from(c.tasks)),
        lengths,
        sections: plan_layout::load_sections(&file[sections_at..], usize::from(c.sections)),
    }
}
