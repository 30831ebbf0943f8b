// Whether what came out is what was to come.
use plan::Reading;
use plan_rules::{Counts, Rows};
use refusals::Refusal;

// What a buffer is filled with before it is lent.
pub const FILL: u8 = 170;

// Whether each byte from there on is still the one that the buffer was filled with.
pub fn untouched(buf: &[u8], from: usize) -> bool {
    buf.iter().skip(from).all(|b| *b == FILL)
}

// Whether the first n rows that were read are those given, and the others are none.
fn table<T: Copy + PartialEq>(read: &[T], given: &[T], n: usize, none: T) -> bool {
    let mut all = true;
    for (i, (r, g)) in read.iter().zip(given).enumerate() {
        all &= if i < n { *r == *g } else { *r == none };
    }
    all
}

fn rows(read: Rows, given: Rows, c: Counts) -> bool {
    table(
        &read.tasks,
        &given.tasks,
        usize::from(c.tasks),
        plan_layout::no_task(),
    ) & table(&read.lengths, &given.lengths, usize::from(c.resources), 0)
        & table(
            &read.sections,
            &given.sections,
            usize::from(c.sections),
            plan_layout::no_section(),
        )
}

// Whether that plan was read.
pub fn plan(answer: Result<Reading, Refusal>, c: Counts, given: Rows) -> bool {
    match answer {
        Ok(read) => (read.counts == c) & rows(read.rows, given, c),
        Err(_) => false,
    }
}

// Whether a file of that length was written.
pub fn written(answer: Result<u16, Refusal>, len: usize) -> bool {
    match answer {
        Ok(n) => usize::from(n) == len,
        Err(_) => false,
    }
}
