// The plan file as users have it: reading it, and the names in it. A plan is accepted by what crate `plan_reading` checks.
#![tactic(auto)]

ghost use Rattle.std.specs.Prelude.{◌≡◌, ◌≤◌, length};
ghost use Rattle.plan.specs.Acceptance.{refusal};
ghost use Rattle.plan.specs.Reading.{reading, read_outcome, reading_outcome, name_refusal, name_of, plan_length};
ghost use Rattle.refusals.specs.Refusals.{code_of, Told};

use plan_rules::{Counts, Rows};
use refusals::Refusal;

// A plan by value: its counts and its rows.
#[derive(Clone, Copy)]
pub struct Reading {
    pub counts: Counts,
    pub rows: Rows,
}

// Why the plan in a file is refused, if it is.
#[tactic(auto, unfolding(crate::specs::Acceptance::refusal))]
pub fn check(file: &[u8]) -> Result<(), Refusal>
    ensures { code_of result ≡ refusal file.now }
{
    plan_reading::check(file)
}

// The plan in a file of any length, or why it is refused.
#[tactic(auto, using(plan_reading::proofs::Laws::whole_facts, plan_reading::proofs::Laws::header_clear), unfolding(crate::specs::Acceptance::refusal))]
pub fn read(file: &[u8]) -> Result<Reading, Refusal>
    ensures value { Told (refusal file.now) (reading file.now) result }
    ensures answer_value { read_outcome result ≡ reading_outcome file.now }
{
    check(file)?;
    let counts = plan_layout::counts_at(file);
    let reading = Reading {
        counts,
        rows: plan_reading::load(file, counts),
    };
    Ok(reading)
}

// Why the question for the name of a resource is refused, if it is.
#[tactic(auto, using(plan_reading::proofs::Laws::whole_facts), unfolding(crate::specs::Acceptance::refusal, crate::specs::Reading::name_refusal))]
pub fn check_name(file: &[u8], resource: u8) -> Result<(), Refusal>
    ensures { code_of result ≡ name_refusal file.now resource }
{
    check(file)?;
    let counts = plan_layout::counts_at(file);
    if resource < counts.resources {
        return Ok(());
    }
    Err(Refusal::UnknownResource)
}

// The name of a resource, as that part of the file itself; an empty part where the question is refused.
#[tactic(auto, unfolding(crate::specs::Acceptance::refusal, crate::specs::Reading::name_refusal, crate::specs::Reading::name_of, plan_reading::specs::Plan::plan_of))]
pub fn name(file: &[u8], resource: u8) -> &[u8]
    ensures { result.now ≡ name_of file.now resource }
{
    if check_name(file, resource).is_err() {
        return &file[0..0];
    }
    plan_reading::checked::name(file, resource)
}

// How many bytes of the input are its plan: as many as bytes 14 and 15 say, and all where there are fewer.
#[tactic(auto, using(std::proofs::lemmas::Bool::Decides::nat_tests), unfolding(crate::specs::Reading::plan_length))]
pub fn plan_length(input: &[u8]) -> usize
    ensures value { result ≡ plan_length input.now }
    ensures upper_bound { result ≤ length input.now }
{
    if input.len() < plan_layout::HEADER {
        return input.len();
    }
    plan_layout::length_said(input).min(input.len())
}
