// The control commands and the download in place, over an image of the registers: what each is refused for,
// what it answers and what it does. 130 is a step of the machine, and 255 a power-up. A command goes by its
// number, as the datagram has it: an enum would be made by one match and read by three others.
#![tactic(auto)]

ghost use Rattle.std.specs.Prelude.{◌≡◌};
ghost use Rattle.status.specs.Refusal.{judged_as};
ghost use Rattle.rules.specs.Controlling as controlling;
ghost use Rattle.reg_image.specs.Image.{registers_of};

use reg_image::{Downloading, REGISTERS, Running, get};
use status::Refusal;
use wire::Command;

mod defaults;
mod judging;
mod placing;
mod recording;

pub use defaults::to_defaults;
pub use judging::answer;
pub use placing::place;
pub use recording::store_record;

// What refuses a control command.
pub fn judge(c: Command, image: &[u32; REGISTERS]) -> Result<(), Refusal>
    ensures { judged_as result ≡ controlling.judged_control c (registers_of image.now) }
{
    judging::judge(
        c,
        get::<Running>(image),
        get::<Downloading>(image),
        cmd_axis::locked(image),
    )
}
