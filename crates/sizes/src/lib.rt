// The greatest counts of a plan: document 01, "The plan file". Arrays and tables are as long as these say.
#![tactic(auto)]

pub const PROCESSORS: usize = 8;

pub const TASKS: usize = 64;

pub const RESOURCES: usize = 16;

pub const SECTIONS: usize = 255;

// The most bytes of a name.
pub const NAME: usize = 12;

// What stands for no processor, no resource and no place in a state.
pub const ABSENT: u8 = 255;
