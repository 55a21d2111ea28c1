// What an event with lent stores tests before all else.
ghost use Rattle.std.specs.Prelude.{◌≡◌};
ghost use Rattle.reg_range.specs.Fitting.{fitting};

use crate::in_range;
use reg_image::REGISTERS;
use status::Misfit;

// A lent store of another length does not fit; then registers out of range do not.
pub fn fitting(image: &[u32; REGISTERS], program: &[u8], cells: &[u8]) -> Result<(), Misfit>
    ensures { result ≡ fitting image.now program.now cells.now }
{
    if !store::is_program_store(program) || !store::is_parameter_store(cells) {
        return Err(Misfit::Length);
    }
    if !in_range(image) {
        return Err(Misfit::Registers);
    }
    Ok(())
}
