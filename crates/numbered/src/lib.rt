// The program check and the display's side, each answering document 01's numbers, for callers that have
// no struct and no enum of ours.
#![tactic(auto)]

mod host;
mod verdicts;

pub use host::{build_command, read_reply};
pub use verdicts::check;

// 100, 20, or the status of the lowest bad point and where it is: `checking::Answer` in three numbers, which the
// C interface hands on one by one.
#[derive(Clone, Copy, PartialEq, Eq)]
pub struct Checked {
    pub status: u8,
    pub address: u16,
    pub depth: u8,
}
