// Many calls on one plan file that the caller holds: it is looked at once, and each call relies on what that gave, and says so in its
// `requires`. What a call is answered and does is the same as that of `machine::call`.
ghost use Rattle.std.specs.Prelude.{◌≡◌, ◌≢◌, replicate};
ghost use Rattle.refusals.specs.Refusals.{code_of};
ghost use Rattle.analysis_figures.specs.Figures.{figure_count};
ghost use Rattle.machine.specs.Replies.{state_refusal};
ghost use Rattle.machine.specs.Inner.{Surveyed, OnAccepted, Replied};

use machine_replies::Reply;
use machine_rules::Call;
use machine_state::State;
use refusals::Refusal;

// Looks at a plan file for the calls to come: why it is refused, if it is; else its hold times and budgets, where all were 0. Where it
// is refused, the table stays as it was.
pub fn look(file: &[u8], figures: &mut [u16]) -> Result<(), Refusal>
    requires { figures.old ≡ replicate figure_count 0 }
    ensures surveyed { Surveyed file.now (code_of result) figures.new }
    ensures figures_unchanged { code_of result ≢ 0 → figures.new ≡ figures.old }
{
    plan::check(file)?;
    analysis_hold_times::fill_figures(file, figures);
    Ok(())
}

// What comes before a call's own refusals, with what a look at the file told: why the plan is refused, then 19 for a state that is not
// sound.
pub fn check_state(
    file: &[u8],
    looked: Result<(), Refusal>,
    figures: &[u16],
    state: State,
) -> Result<(), Refusal>
    requires { Surveyed file.now (code_of looked) figures.now }
    ensures { code_of result ≡ state_refusal file.now state }
{
    looked?;
    let mut seats = [0u8; machine_state::SEATS];
    match machine_state::seat_tasks(file, figures, state, &mut seats) {
        Ok(_) => Ok(()),
        Err(_) => Err(Refusal::Unsound),
    }
}

// A call on any state of a plan that is accepted: 19, then its own refusal, or what it does.
fn act(file: &[u8], figures: &[u16], state: State, call: Call) -> Reply
    requires { OnAccepted file.now figures.now }
    ensures { Replied file.now state call result }
{
    let mut seats = [0u8; machine_state::SEATS];
    let Ok(keys) = machine_state::seat_tasks(file, figures, state, &mut seats) else {
        return crate::refuse(state, Refusal::Unsound);
    };
    if let Err(refusal) = machine_replies::check_call(file, figures, &seats, state, call) {
        return crate::refuse(state, refusal);
    }
    machine_replies::make(file, figures, &keys, &seats, state, call)
}

// A call on a state, with what a look at the file told.
pub fn call(
    file: &[u8],
    looked: Result<(), Refusal>,
    figures: &[u16],
    state: State,
    call: Call,
) -> Reply
    requires { Surveyed file.now (code_of looked) figures.now }
    ensures { Replied file.now state call result }
{
    match looked {
        Ok(()) => act(file, figures, state, call),
        Err(refusal) => crate::refuse(state, refusal),
    }
}
