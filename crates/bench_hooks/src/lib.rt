// For the benchmark and for nothing else: each function here does the work of one operation and gives one number of what came of it,
// so that bench/ can call the proved code from Rust, measure it and hold it against the peer. No program and no firmware links this.
#![tactic(auto)]

mod asking;
mod calling;
mod reading;
mod sheets;
