// A control command: judged, and carried out.
ghost use Rattle.std.specs.Prelude.{true, ◌≡◌, length};
ghost use Rattle.store.specs.Store.{is_parameter_store};
ghost use Rattle.rules.specs.Controlling.{controlled, obeyed_control};
ghost use Rattle.reg_image.specs.Image.{registers_of};
ghost use Rattle.cmd_turns.specs.Obeyed.{obeyed_as};
ghost use Rattle.cmd_turns.specs.Obeys.{Obeys};
ghost use Rattle.cmd_control.specs.Carried.{Carries};

use cmd_turns::Obeyed;
use reg_image::{REGISTERS, Running, get};
use status::{Refusal, Status};
use wire::Command;

// What a control command does, once it is judged: 130 a step, 137 the defaults, 255 a power-up. By its number,
// as the datagram has it: an enum would be made by one such match and read by another.
#[tactic(auto, unfolding(rules::specs::Controlling::controlled, board_events::specs::Events::power_status))]
fn carry_out(image: &mut [u32; REGISTERS], program: &[u8], cells: &mut [u8], c: Command)
    ensures { length program.now ≡ 7168 → is_parameter_store cells.old ≡ true → Carries (controlled c program.now (registers_of image.old) cells.old) image.old image.new cells.new }
{
    match c.number {
        130 => {
            machine::step_alone(image, cells, program);
        }
        137 => {
            cmd_control::to_defaults(image, cells);
        }
        255 => {
            let _ = board_events::power_up(image, cells);
        }
        _ => {
            cmd_control::place(c, image);
        }
    }
}

// What 134 and 135 read, they read before.
#[tactic(auto, unfolding(rules::specs::Controlling::obeyed_control))]
pub(crate) fn control(
    image: &mut [u32; REGISTERS],
    program: &[u8],
    cells: &mut [u8],
    c: Command,
) -> Result<Obeyed, Refusal>
    ensures { length program.now ≡ 7168 → is_parameter_store cells.old ≡ true → Obeys (obeyed_control c program.now (registers_of image.old) cells.old) image.old (obeyed_as result) image.new cells.new }
{
    cmd_control::judge(c, image)?;
    let value = cmd_control::answer(c, get::<Running>(image), program);
    carry_out(image, program, cells, c);
    Ok(Obeyed {
        status: Status::Done,
        value,
    })
}
