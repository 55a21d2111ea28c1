// A board on the bench: its registers as an image, its stores, and each event with the status that
// answers it.
use crate::stores::Store;
use machine::Made;
use numbered::Checked;
use reg_image::REGISTERS;
use status::{Misfit, Status};

const PROGRAM: usize = 7168;

const CELLS: usize = 364;

const REPLY: usize = 9;

#[derive(Drop)]
pub(crate) struct Board {
    pub(crate) image: [u32; REGISTERS],
    pub(crate) program: Store,
    pub(crate) cells: Store,
    pub(crate) reply: Store,
}

impl Board {
    pub(crate) fn new() -> Self {
        let mut board = Board {
            image: [0; REGISTERS],
            program: Store::new(),
            cells: Store::new(),
            reply: Store::new(),
        };
        board.renew();
        board
    }

    // No program, default cells, an empty reply buffer, powered up: in place, since a board is some 25,000 bytes.
    pub(crate) fn renew(&mut self) {
        self.program.renew(PROGRAM);
        self.cells.renew(CELLS);
        self.reply.renew(REPLY);
        let _ = board_events::new_cells(self.cells.as_mut_slice());
        let _ = self.power_up();
    }

    pub(crate) fn power_up(&mut self) -> Result<(), Misfit> {
        board_events::power_up(&mut self.image, self.cells.as_slice())
    }

    pub(crate) fn tick(&mut self) -> Result<(), Misfit> {
        board_events::tick(&mut self.image)
    }

    pub(crate) fn sample(&mut self, fields: &[i32; 16]) -> Result<(), Misfit> {
        board_events::sample(&mut self.image, fields)
    }

    pub(crate) fn datagram(&mut self, bytes: &[u8]) -> Result<Option<Status>, Misfit> {
        board_datagrams::datagram(
            &mut self.image,
            self.program.as_mut_slice(),
            self.cells.as_mut_slice(),
            self.reply.as_mut_slice(),
            bytes,
        )
    }

    pub(crate) fn run(&mut self, budget: usize) -> Result<Made, Misfit> {
        board_runs::run(
            &mut self.image,
            self.program.as_slice(),
            self.cells.as_mut_slice(),
            budget,
        )
    }

    pub(crate) fn check(&self) -> Checked {
        numbered::check(self.program.as_slice())
    }
}
