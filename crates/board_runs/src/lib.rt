// The event run, in place: what its steps made, or what does not fit. `numbers_of` in a contract is
// document 01's two numbers of either.
#![tactic(auto)]

ghost use Rattle.board_runs.specs.Run.{Runs, numbers_of};

use machine::Made;
use reg_image::REGISTERS;
use status::Misfit;

// A run of at most so many steps.
#[tactic(auto, unfolding(crate::specs::Run::ran))]
pub fn run(
    image: &mut [u32; REGISTERS],
    program: &[u8],
    cells: &mut [u8],
    budget: usize,
) -> Result<Made, Misfit>
    ensures { Runs program.now budget image.old cells.old (numbers_of result) image.new cells.new }
{
    reg_range::fitting(image, program, cells)?;
    if 1000 < budget {
        return Err(Misfit::Budget);
    }
    Ok(machine::run(image, cells, program, budget))
}
