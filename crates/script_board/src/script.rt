// The script in pieces, as standard input hands it out. A piece is read behind what waits at the front of
// the buffer, which is fixed memory: a line that is not whole yet.
ghost use Rattle.std.specs.Prelude.{◌≤◌};

use std::io;
use std::io::Read;

const ROOM: usize = 65536;

#[derive(Drop)]
pub(crate) struct Script {
    bytes: [u8; ROOM],
    held: usize,
    ghost fits: { held ≤ 65536 },
}

impl Script {
    pub(crate) fn new() -> Self {
        Script {
            bytes: [0; ROOM],
            held: 0,
        }
    }

    // The bytes that wait.
    pub(crate) fn waiting(&self) -> &[u8] {
        &self.bytes[..self.held]
    }

    // Reads more behind them. Answers whether the script goes on.
    pub(crate) fn fill(&mut self, rt: &impl Input) -> io::Result<bool> {
        let count = rt.reader().read(&mut self.bytes[self.held..])?;
        self.held += count;
        Ok(0 < count)
    }

    // Lets go of so many, from the front.
    pub(crate) fn advance(&mut self, count: usize) {
        let rest = self.held.saturating_sub(count);
        self.bytes.copy_within(self.held - rest..self.held, 0);
        self.held = rest;
    }

    // Lets go of all that wait.
    pub(crate) fn clear(&mut self) {
        self.held = 0;
    }
}
