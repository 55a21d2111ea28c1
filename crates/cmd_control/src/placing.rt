// 128, 129, 131, 132 and 133, each a few places written.
ghost use Rattle.std.specs.Prelude.{true, false};
ghost use Rattle.registers.specs.Registers.{stopped};
ghost use Rattle.rules.specs.Controlling.{placed};
ghost use Rattle.reg_image.specs.With as with;
ghost use Rattle.reg_image.specs.With.{in_core};
ghost use Rattle.reg_image.specs.Image.{Leaves};
ghost use Rattle.cmd_control.specs.Placing as spec;

use cmd_turns::drop_wait;
use reg_image::{Address, Downloading, REGISTERS, Running, WriteAddress, set};
use wire::Command;
use words::Word;

// 128: address and stack are kept.
fn stop(image: &mut [u32; REGISTERS])
    ensures { Leaves (in_core stopped) image.old image.new }
{
    drop_wait(image);
    set::<Running>(image, false);
}

// At an address, with an empty stack and no wait, running or not.
fn begin(image: &mut [u32; REGISTERS], address: u16, running: bool)
    ensures { Leaves (spec.from address running) image.old image.new }
{
    set::<Address>(image, u32::from(address));
    drop_wait(image);
    reg_image::empty_stack(image);
    set::<Running>(image, running);
}

// 129: from the present address, or from one with an empty stack.
#[tactic(auto, unfolding(rules::specs::Control::begun))]
fn run(image: &mut [u32; REGISTERS], kind: u8, value: Word)
    ensures { Leaves (spec.begun kind value.v) image.old image.new }
{
    if kind == 0 {
        set::<Running>(image, true);
        return;
    }
    begin(image, jumping::address_of(value), true);
}

// 131: download mode is ended too.
fn reset(image: &mut [u32; REGISTERS])
    ensures { Leaves spec.reset image.old image.new }
{
    begin(image, 0, false);
    set::<Downloading>(image, false);
}

// 132: download mode at a write address.
fn start(image: &mut [u32; REGISTERS], value: Word)
    ensures { Leaves (spec.started value.v) image.old image.new }
{
    drop_wait(image);
    set::<Downloading>(image, true);
    set::<WriteAddress>(image, u32::from(jumping::address_of(value)));
}

// 128, 129, 131, 132 and 133; another command changes nothing.
#[tactic(auto, unfolding(rules::specs::Controlling::placed, rules::specs::Control::controlled))]
pub fn place(c: Command, image: &mut [u32; REGISTERS])
    ensures { Leaves (placed c) image.old image.new }
{
    match c.number {
        128 => stop(image),
        129 => run(image, c.kind, c.value),
        131 => reset(image),
        132 => start(image, c.value),
        133 => set::<Downloading>(image, false),
        _ => {}
    }
}
