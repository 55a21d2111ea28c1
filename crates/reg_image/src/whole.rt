// What is written of several registers at once.
ghost use Rattle.registers.specs.Registers.{with_wait};
ghost use Rattle.reg_image.specs.With as with;
ghost use Rattle.reg_image.specs.With.{in_core};
ghost use Rattle.reg_image.specs.Rows as rows;
ghost use Rattle.reg_image.specs.Image.{Leaves};

use crate::REGISTERS;
use crate::register::{Armed, Count, Depth, MotionOrder, Timed, Velocity, set};
use crate::row::{Entry, set_at};
use registers::Order;
use waits::Wait;
use words::Word;

// A wait whole.
pub fn set_wait(image: &mut [u32; REGISTERS], wait: Wait)
    ensures { Leaves (in_core (with_wait wait)) image.old image.new }
{
    set::<Armed>(image, wait.armed);
    set::<Count>(image, wait.count);
    set::<Timed>(image, wait.timed);
}

// The order and its velocity.
pub fn set_motion(image: &mut [u32; REGISTERS], o: Order, velocity: Word)
    ensures { Leaves (in_core (with.ordered o velocity)) image.old image.new }
{
    set::<MotionOrder>(image, o);
    set::<Velocity>(image, velocity);
}

// No return address: all eight are 0, and so is the depth.
pub fn empty_stack(image: &mut [u32; REGISTERS])
    ensures { Leaves rows.empty_stack image.old image.new }
{
    set::<Depth>(image, 0);
    for place in 0..8 {
        set_at::<Entry>(image, place, 0);
    }
}
