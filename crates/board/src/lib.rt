// The board's registers, as every rule speaks of them: what an image of 137 numbers stands for. How
// power-up leaves them and when they are in range stands in specs/.
#![tactic(auto)]

use registers::{Core, Download};

#[derive(Clone, Copy)]
pub struct Registers {
    pub core: Core,
    pub download: Download,
    pub outputs: [u8; 4],
    pub digital: [u8; 2],
    pub analog: [i32; 3],
    // The call stack's return addresses; its depth is the core's.
    pub entries: [u16; 8],
    pub values: [i32; 103],
}
