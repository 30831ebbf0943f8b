// The functions for C: document 02 §3. Each takes the plan, the image and, as far as it needs them, a tag and a resource, in this order, and
// returns a word of 64 bits. None relies on anything: what they are given is checked, and refused by its number. `mspis_archive`
// exports them, and include/mspis.h declares them.
#![tactic(auto)]

ghost use Rattle.std.specs.Prelude.{◌≡◌};
ghost use Rattle.machine_rules.specs.declared.Call.TheVariants.{Request, Release, GiveUp, Tick};
ghost use Rattle.image_calls.specs.Replies.{lent_refusal, image_reply, NextImage, StartedImage};
ghost use Rattle.mspis_c.specs.Words.{word_of};

use machine_rules::{Answer, Call};

// The word of an answer.
#[tactic(auto, unfolding(crate::specs::Words::word_of, folds::specs::Bytes::number, folds::specs::Bytes::row_bytes, folds::specs::Bytes::digits))]
fn word(answer: Answer) -> u64
    ensures { result ≡ word_of answer }
{
    match answer {
        Answer::Granted | Answer::Free | Answer::Left => 0,
        Answer::Waits(ahead, limit) => {
            let [l0, l1, l2, l3] = limit.to_le_bytes();
            u64::from_le_bytes([0, 1, ahead, l0, l1, l2, l3, 0])
        }
        Answer::Next(tag) => {
            let [t0, t1] = tag.to_le_bytes();
            u64::from_le_bytes([0, 1, t0, t1, 0, 0, 0, 0])
        }
        Answer::Ticked(cuts, grants) => {
            let [c0, c1] = cuts.to_le_bytes();
            let [g0, g1] = grants.to_le_bytes();
            u64::from_le_bytes([0, c0, c1, g0, g1, 0, 0, 0])
        }
        Answer::Refused(code) => u64::from(code),
    }
}

// A fresh machine.
pub fn mspis_start(plan: &[u8], image: &mut [u8]) -> u64
    ensures value { result ≡ lent_refusal plan.now image.old }
    ensures started_image { StartedImage plan.now image.old image.new }
{
    u64::from(refusals::code(&image_calls::start(plan, image)))
}

// A request of a resource by the task with this tag.
pub fn mspis_request(plan: &[u8], image: &mut [u8], tag: u16, resource: u8) -> u64
    ensures value { result ≡ word_of (image_reply plan.now image.old (Request tag resource)) }
    ensures next_image { NextImage plan.now image.old (Request tag resource) image.new }
{
    word(image_calls::call(plan, image, Call::Request(tag, resource)))
}

// A release of it.
pub fn mspis_release(plan: &[u8], image: &mut [u8], tag: u16, resource: u8) -> u64
    ensures value { result ≡ word_of (image_reply plan.now image.old (Release tag resource)) }
    ensures next_image { NextImage plan.now image.old (Release tag resource) image.new }
{
    word(image_calls::call(plan, image, Call::Release(tag, resource)))
}

// A give-up by the task with this tag, which waits for the resource: it leaves the line.
pub fn mspis_give_up(plan: &[u8], image: &mut [u8], tag: u16, resource: u8) -> u64
    ensures value { result ≡ word_of (image_reply plan.now image.old (GiveUp tag resource)) }
    ensures next_image { NextImage plan.now image.old (GiveUp tag resource) image.new }
{
    word(image_calls::call(plan, image, Call::GiveUp(tag, resource)))
}

// A tick.
pub fn mspis_tick(plan: &[u8], image: &mut [u8]) -> u64
    ensures value { result ≡ word_of (image_reply plan.now image.old Tick) }
    ensures next_image { NextImage plan.now image.old Tick image.new }
{
    word(image_calls::call(plan, image, Call::Tick))
}
