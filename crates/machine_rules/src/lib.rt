// The calls of the machine and what it answers. The rules are in specs/, the bound on waiting for whole lists of calls in proofs/.
#![tactic(auto)]

// A request, a release or a give-up, each of a tag and a resource, or a tick.
#[derive(Clone, Copy)]
pub enum Call {
    Request(u16, u8),
    Release(u16, u8),
    GiveUp(u16, u8),
    Tick,
}

#[derive(Clone, Copy)]
pub enum Answer {
    Granted,
    // The number of tasks ahead, and the limit.
    Waits(u8, u32),
    // The tag granted next.
    Next(u16),
    Free,
    // The task has left the line.
    Left,
    // The resources cut, and those with a new grant.
    Ticked(u16, u16),
    Refused(u8),
}
