// Calls as bytes: document 01, "The printing program", and document 02 §1. A call is a letter, a tag and a resource. Where each of its bytes stands is said
// here and nowhere else.
#![tactic(auto)]

ghost use Rattle.std.specs.Prelude.{◌≡◌, ◌+◌, ◌*◌, length};
ghost use Rattle.machine_calls.specs.Calls.{call_of, decoded_calls, tag_at, bytes_at};
ghost use Rattle.machine_calls.specs.Inner.{CallIn};

use machine_rules::Call;

// The width of a call.
pub const WIDTH: usize = 3;

// The letter, the tag and the resource of a call, of whatever width its tag is.
#[derive(Clone, Copy)]
pub struct CallBytes {
    pub letter: u8,
    pub tag: u16,
    pub resource: u8,
}

// The call of this letter, where there is one: another letter, or a tick with other bytes than 0, is none.
#[tactic(auto, unfolding(crate::specs::Calls::call_of))]
pub fn decode(letter: u8, tag: u16, resource: u8) -> Option<Call>
    ensures { decoded_calls result ≡ call_of letter tag resource }
{
    match letter {
        b'Q' => Some(Call::Request(tag, resource)),
        b'R' => Some(Call::Release(tag, resource)),
        b'W' => Some(Call::GiveUp(tag, resource)),
        b'T' if tag == 0 && resource == 0 => Some(Call::Tick),
        _ => None,
    }
}

// The tag of the call of this width that begins at `at`: one byte or two.
#[tactic(auto, unfolding(crate::specs::Calls::tag_at, folds::specs::Bytes::number))]
fn tag_at(calls: &[u8], at: usize, width: usize) -> u16
    requires { CallIn width at (length calls.now) }
    ensures { result ≡ tag_at width calls.now at }
{
    if width == WIDTH {
        return u16::from(calls[at + 1]);
    }
    u16::from_le_bytes([calls[at + 1], calls[at + 2]])
}

// The letter, the tag and the resource of the call of this width that begins at `at`.
pub fn bytes_at(calls: &[u8], at: usize, width: usize) -> CallBytes
    requires { CallIn width at (length calls.now) }
    ensures { result ≡ bytes_at width calls.now at }
{
    CallBytes {
        letter: calls[at],
        tag: tag_at(calls, at, width),
        resource: calls[at + (width - 1)],
    }
}
