// Document 01's form of the registers: a struct, with a method by value that does one step and hands the
// state back. It is the one machine's step, over a copy of the image.
#![tactic(auto)]

ghost use Rattle.board_by_value.specs.Step.{Turns, number_stepped};

use reg_image::REGISTERS;
use status::{Misfit, Status};

// The registers, by the image that stands for them.
#[derive(Clone, Copy)]
pub struct Registers {
    pub image: [u32; REGISTERS],
}

// What a step leaves, and its status or what does not fit.
#[derive(Clone, Copy)]
pub struct Turned {
    pub registers: Registers,
    pub status: Result<Status, Misfit>,
}

#[tactic(auto, unfolding(crate::specs::Step::stepped))]
fn step_in_place(
    image: &mut [u32; REGISTERS],
    program: &[u8],
    cells: &mut [u8],
) -> Result<Status, Misfit>
    ensures { Turns program.now image.old cells.old (number_stepped result) image.new cells.new }
{
    reg_range::fitting(image, program, cells)?;
    Ok(machine::step_alone(image, cells, program))
}

impl Registers {
    // One step of the program, whether or not it runs.
    pub fn step(mut self, program: &[u8], cells: &mut [u8]) -> Turned
        ensures { Turns program.now self.image cells.old (number_stepped result.status) result.registers.image cells.new }
    {
        let mut image = self.image;
        let status = step_in_place(&mut image, program, cells);
        self.image = image;
        Turned {
            registers: self,
            status,
        }
    }
}
