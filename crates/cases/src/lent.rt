// Calls on an image: a plan file and the lent bytes stand at the front of the case, each with its length in two bytes before it.
use crate::{given, print};
use refusals::Refusal;
use std::io;

// A buffer in which all that a case lends has room.
const LENT: usize = 65536;

// The word of the call of this letter, or nothing where it is none; the tag and the resource of a start and of a tick are not looked at.
fn call(file: &[u8], image: &mut [u8], letter: u8, tag: u16, resource: u8) -> Option<u64> {
    match letter {
        b'S' => Some(mspis_c::mspis_start(file, image)),
        b'Q' => Some(mspis_c::mspis_request(file, image, tag, resource)),
        b'R' => Some(mspis_c::mspis_release(file, image, tag, resource)),
        b'W' => Some(mspis_c::mspis_give_up(file, image, tag, resource)),
        b'T' => Some(mspis_c::mspis_tick(file, image)),
        _ => None,
    }
}

// Copies what a case lends to the front of the buffer, and makes its call there.
fn make(case: &[u8], buf: &mut [u8]) -> Option<u64> {
    let rest = given::behind(case);
    let lent = given::front(rest);
    given::copy(lent, buf);
    let end = lent.len().min(buf.len());
    let bytes = given::behind(rest);
    let letter = given::byte(bytes, 0);
    let tag = given::word(bytes, 1);
    let resource = given::byte(bytes, 3);
    call(given::front(case), &mut buf[0..end], letter, tag, resource)
}

// A call with a tag of two bytes: its word byte by byte, and all that was lent as it then is.
pub fn one(rt: &impl Print, case: &[u8]) -> io::Result<()> {
    let mut buf = [0u8; LENT];
    match make(case, &mut buf) {
        Some(word) => {
            print::text(rt, b"word")?;
            print::numbers(rt, &word.to_le_bytes())?;
            print::text(rt, b" |")?;
            let end = given::front(given::behind(case)).len();
            print::numbers(rt, given::part(&buf, 0, end))
        }
        None => print::text(rt, b"none"),
    }
}

fn change(buf: &mut [u8], at: usize, mask: u8) {
    if at < buf.len() {
        buf[at] ^= mask;
    }
}

// The refusal of a tick on a copy of what is lent, one byte of which is changed.
fn changed(file: &[u8], lent: &[u8], at: usize, mask: u8, buf: &mut [u8]) -> u64 {
    given::copy(lent, buf);
    change(buf, at, mask);
    let end = lent.len().min(buf.len());
    mspis_c::mspis_tick(file, &mut buf[0..end]) % 256
}

// A tick on what is lent with each of its bytes changed in turn, by the byte that stands behind it: how many were refused 25, how many
// otherwise, and how many were accepted.
pub fn each(rt: &impl Print, case: &[u8]) -> io::Result<()> {
    let file = given::front(case);
    let rest = given::behind(case);
    let lent = given::front(rest);
    let mask = given::byte(given::behind(rest), 0);
    let mut buf = [0u8; LENT];
    let mut unsound = 0u64;
    let mut otherwise = 0u64;
    let mut accepted = 0u64;
    for at in 0..lent.len() {
        let code = changed(file, lent, at, mask, &mut buf);
        if code == 0 {
            accepted += 1;
        } else if code == u64::from(Refusal::UnsoundImage.number()) {
            unsound += 1;
        } else {
            otherwise += 1;
        }
    }
    print::text(rt, b"counts")?;
    print::number(rt, unsound)?;
    print::number(rt, otherwise)?;
    print::number(rt, accepted)
}
