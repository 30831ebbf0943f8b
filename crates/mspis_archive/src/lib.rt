// The functions of `mspis_c` as a library for C. Each export has the name of the function that it calls, and that function's clauses again.
// include/mspis.h declares them; `./prove mspis_c` makes the archive.
#![tactic(auto)]

ghost use Rattle.std.specs.Prelude.{◌≡◌};
ghost use Rattle.machine_rules.specs.declared.Call.TheVariants.{Request, Release, GiveUp, Tick};
ghost use Rattle.image_calls.specs.Replies.{lent_refusal, image_reply, NextImage, StartedImage};
ghost use Rattle.mspis_c.specs.Words.{word_of};

// A fresh machine.
#[unsafe(no_mangle)]
pub extern "C" fn mspis_start(plan: &[u8], image: &mut [u8]) -> u64
    ensures value { result ≡ lent_refusal plan.now image.old }
    ensures started_image { StartedImage plan.now image.old image.new }
{
    mspis_c::mspis_start(plan, image)
}

// A request of a resource by the task with this tag.
#[unsafe(no_mangle)]
pub extern "C" fn mspis_request(plan: &[u8], image: &mut [u8], tag: u16, resource: u8) -> u64
    ensures value { result ≡ word_of (image_reply plan.now image.old (Request tag resource)) }
    ensures next_image { NextImage plan.now image.old (Request tag resource) image.new }
{
    mspis_c::mspis_request(plan, image, tag, resource)
}

// A release of it.
#[unsafe(no_mangle)]
pub extern "C" fn mspis_release(plan: &[u8], image: &mut [u8], tag: u16, resource: u8) -> u64
    ensures value { result ≡ word_of (image_reply plan.now image.old (Release tag resource)) }
    ensures next_image { NextImage plan.now image.old (Release tag resource) image.new }
{
    mspis_c::mspis_release(plan, image, tag, resource)
}

// A give-up by the task with this tag, which waits for the resource: it leaves the line.
#[unsafe(no_mangle)]
pub extern "C" fn mspis_give_up(plan: &[u8], image: &mut [u8], tag: u16, resource: u8) -> u64
    ensures value { result ≡ word_of (image_reply plan.now image.old (GiveUp tag resource)) }
    ensures next_image { NextImage plan.now image.old (GiveUp tag resource) image.new }
{
    mspis_c::mspis_give_up(plan, image, tag, resource)
}

// A tick.
#[unsafe(no_mangle)]
pub extern "C" fn mspis_tick(plan: &[u8], image: &mut [u8]) -> u64
    ensures value { result ≡ word_of (image_reply plan.now image.old Tick) }
    ensures next_image { NextImage plan.now image.old Tick image.new }
{
    mspis_c::mspis_tick(plan, image)
}
