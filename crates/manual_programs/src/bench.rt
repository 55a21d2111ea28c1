// The board on the bench: the image of its registers, its memory, the buffer of its replies, and each of
// its events with the status that answers it.
use checking::Fault;
use machine::Made;
use reg_image::REGISTERS;
use status::{Misfit, Status};

// Its stores are arrays, where the board of `script_board` has stores of any length. The boards of `demo`
// and `serial_board` have the same arrays, and events of other shapes.
#[derive(Drop)]
pub(crate) struct Bench {
    pub(crate) image: [u32; REGISTERS],
    program: [u8; 7168],
    cells: [u8; 364],
    pub(crate) reply: [u8; 9],
}

impl Bench {
    // A board that was never powered.
    pub(crate) fn new() -> Self {
        Bench {
            image: [0; REGISTERS],
            program: [0; 7168],
            cells: [0; 364],
            reply: [0; 9],
        }
    }

    // No program and default cells, powered up.
    pub(crate) fn renew(&mut self) {
        self.program.fill(0);
        let _ = board_events::new_cells(&mut self.cells);
        let _ = board_events::power_up(&mut self.image, &self.cells);
    }

    // A datagram, replied to in the buffer.
    pub(crate) fn datagram(&mut self, frame: &[u8]) -> Result<Option<Status>, Misfit> {
        board_datagrams::datagram(
            &mut self.image,
            &mut self.program,
            &mut self.cells,
            &mut self.reply,
            frame,
        )
    }

    pub(crate) fn check(&self) -> Result<(), Fault> {
        checking::check(&self.program)
    }

    pub(crate) fn run(&mut self, budget: usize) -> Result<Made, Misfit> {
        board_runs::run(&mut self.image, &self.program, &mut self.cells, budget)
    }

    pub(crate) fn sample(&mut self, fields: &[i32; 16]) -> Result<(), Misfit> {
        board_events::sample(&mut self.image, fields)
    }

    // So many ticks, and what came of the last one.
    pub(crate) fn ticks(&mut self, count: usize) -> Result<(), Misfit> {
        let mut last = Ok(());
        for _ in 0..count {
            last = board_events::tick(&mut self.image);
        }
        last
    }
}
