// Download mode: a command is stored as a record of the program.
ghost use Rattle.std.specs.Prelude.{◌≡◌, IfOk};
ghost use Rattle.status.specs.declared.Status.TheVariants as status;
ghost use Rattle.rules.specs.Storing.{stored};
ghost use Rattle.reg_image.specs.Image.{registers_of};
ghost use Rattle.cmd_turns.specs.Obeyed.{obeyed_as};
ghost use Rattle.cmd_control.specs.Stored.{Stores};

use cmd_turns::Obeyed;
use reg_image::{REGISTERS, WriteAddress, get, set};
use status::{Refusal, Status};
use wire::Command;

// The command becomes the record at the write address. What refuses it is the `Err`, and no `Ok` of that status.
#[tactic(auto, unfolding(rules::specs::Storing::stored))]
pub fn store_record(
    image: &mut [u32; REGISTERS],
    program: &mut [u8],
    c: Command,
) -> Result<Obeyed, Refusal>
    ensures numbers { Stores (stored c (registers_of image.old) program.old) image.old (obeyed_as result) image.new program.new }
    ensures done { IfOk result (λ o. o.status ≡ status.Stored) }
{
    if c.number == 0 {
        return Err(Refusal::Unknown);
    }
    if cmd_axis::locked(image) {
        return Err(Refusal::Locked);
    }
    let address = get::<WriteAddress>(image);
    if 1024 <= address {
        return Err(Refusal::Value);
    }
    store::put_record(program, address as usize, c);
    set::<WriteAddress>(image, address + 1);
    Ok(Obeyed {
        status: Status::Stored,
        value: c.value,
    })
}
