// A command obeyed: control commands from 128 on; else stored in download mode; else in direct mode.
ghost use Rattle.rules.specs.Obey.{obeyed};
ghost use Rattle.reg_image.specs.Image.{registers_of};
ghost use Rattle.cmd_turns.specs.Obeyed.{obeyed_as};
ghost use Rattle.board_datagrams.specs.Command.{Ready, Does};

use crate::controls::control;
use cmd_turns::Obeyed;
use reg_image::{Downloading, REGISTERS, get};
use status::Refusal;
use wire::Command;

// A command, and the frame that it came in.
#[tactic(auto, unfolding(rules::specs::Obey::obeyed))]
pub(crate) fn obey(
    image: &mut [u32; REGISTERS],
    program: &mut [u8],
    cells: &mut [u8],
    c: Command,
    frame: &[u8],
) -> Result<Obeyed, Refusal>
    ensures { Ready c frame.now program.old cells.old → Does (obeyed c (registers_of image.old) program.old cells.old) image.old (obeyed_as result) image.new program.new cells.new }
{
    if 128 <= c.number {
        return control(image, program, cells, c);
    }
    if get::<Downloading>(image) {
        return cmd_control::store_record(image, program, c);
    }
    Ok(machine::direct(image, cells, frame))
}
