// The machine on a plan file and an image that is lent: document 02 §3. Each function takes any bytes, and refuses by number what it does
// not accept.
#![tactic(auto)]

ghost use Rattle.std.specs.Prelude.{◌≡◌};
ghost use Rattle.refusals.specs.Refusals.{code_of};
ghost use Rattle.plan.specs.Acceptance.{Accepted};
ghost use Rattle.machine_calls.specs.Calls.{call_width, call_in, calls_of};
ghost use Rattle.image_calls.specs.Replies.{lent_refusal, image_reply, NextImage, StartedImage, AfterLent};
ghost use Rattle.image_calls.specs.Promise.{ImageRan};
ghost use Rattle.image_calls.specs.Inner.{OnLent, Made, answer_of};

use machine_calls::{CallBytes, WIDTH};
use machine_rules::{Answer, Call};
use refusals::Refusal;

// 24 for bytes that are too short for the image of a plan that is accepted.
fn check_room(file: &[u8], image: &[u8]) -> Result<(), Refusal>
    requires { Accepted file.now }
    ensures { code_of result ≡ lent_refusal file.now image.now }
{
    if image.len() < image::image_length(file) {
        return Err(Refusal::ShortImage);
    }
    Ok(())
}

// A fresh machine, or why it is refused.
pub fn start(file: &[u8], image: &mut [u8]) -> Result<(), Refusal>
    ensures value { code_of result ≡ lent_refusal file.now image.old }
    ensures started_image { StartedImage file.now image.old image.new }
{
    plan::check(file)?;
    check_room(file, image)?;
    image::store(file, image, machine_state::fresh());
    Ok(())
}

// A call on lent bytes with room for the image of a plan that is accepted: 25, then its own refusal, or what it does.
fn act(file: &[u8], figures: &[u16], image: &mut [u8], call: Call) -> Result<Answer, Refusal>
    requires { OnLent file.now figures.now image.old }
    ensures { Made file.now image.old call (answer_of result) image.new }
{
    if !image::fits(file, image) {
        return Err(Refusal::UnsoundImage);
    }
    let state = image::load(file, image);
    let mut seats = [0u8; machine_state::SEATS];
    let Ok(keys) = machine_state::seat_tasks(file, figures, state, &mut seats) else {
        return Err(Refusal::UnsoundImage);
    };
    machine_replies::check_call(file, figures, &seats, state, call)?;
    let reply = machine_replies::make(file, figures, &keys, &seats, state, call);
    image::store(file, image, reply.state);
    Ok(reply.answer)
}

// A call on any bytes: 1 to 9 and 24 come before those.
fn answered(file: &[u8], image: &mut [u8], call: Call) -> Result<Answer, Refusal>
    ensures { Made file.now image.old call (answer_of result) image.new }
{
    let mut figures = [0u16; analysis_figures::FIGURES];
    machine::surveyed::look(file, &mut figures)?;
    check_room(file, image)?;
    act(file, &figures, image, call)
}

// A call.
pub fn call(file: &[u8], image: &mut [u8], call: Call) -> Answer
    ensures value { result ≡ image_reply file.now image.old call }
    ensures next_image { NextImage file.now image.old call image.new }
{
    match answered(file, image, call) {
        Ok(answer) => answer,
        Err(refusal) => Answer::Refused(refusal.number()),
    }
}

// A call in bytes; the image is as it was where they are no call.
fn after(file: &[u8], image: &mut [u8], bytes: CallBytes)
    ensures { AfterLent file.now image.old (call_in bytes) image.new }
{
    if let Some(wanted) = machine_calls::decode(bytes.letter, bytes.tag, bytes.resource) {
        call(file, image, wanted);
    }
}

// A list of calls, each on the image that the last one left. Bytes left over are no call.
#[tactic(auto, using(crate::proofs::Bytes::left_none, crate::proofs::Bytes::left_step))]
pub fn run(file: &[u8], image: &mut [u8], calls: &[u8])
    ensures { ImageRan file.now image.old (calls_of call_width calls.now) image.new }
{
    for x in 0..calls.len() / WIDTH {
        let bytes = machine_calls::bytes_at(calls, x * WIDTH, WIDTH);
        after(file, image, bytes);
    }
}
