// One machine: every command of a program and of direct mode is decided and carried out here, in place.
#![tactic(auto)]

mod deeds;
mod frame;
mod program;
mod steps;

use cmd_turns::Left;
pub use frame::direct;
pub use program::{run, step_alone};
use status::Status;
use words::Word;

// The bytes of a program.
const PROGRAM: usize = 7168;

// What a step leaves beside the image and the store.
#[derive(Clone, Copy)]
pub struct Stepped {
    pub accumulator: Word,
    pub address: u32,
    pub status: Status,
    pub left: Left,
}

// What steps leave, and how many of their budget are not used. The fields of a `Stepped` stand here one by
// one: a struct within would be copied in pieces at each step.
#[derive(Clone, Copy)]
pub struct Gone {
    pub accumulator: Word,
    pub address: u32,
    pub status: Status,
    pub left: Left,
    pub unused: usize,
}

// The last step's status, or done with no step, and how many steps were made.
#[derive(Clone, Copy)]
pub struct Made {
    pub status: Status,
    pub steps: usize,
}
