// What a command does, decided first and then carried out in place, beneath runs, 130 and direct mode.
#![tactic(auto)]

ghost use Rattle.std.specs.Prelude.{◌≡◌};
ghost use Rattle.status.specs.Refusal.{status_of};
ghost use Rattle.rules.specs.Reading as reading;
ghost use Rattle.reg_image.specs.Image.{Leaves};
ghost use Rattle.cmd_turns.specs.Turn.{dropped};
ghost use Rattle.cmd_turns.specs.Obeyed.{refused};

use reg_image::REGISTERS;
use registers::Order;
use status::{Refusal, Status};
use std::cmp::Ordering;
use waits::Wait;
use words::Word;

// What a command leaves of the program: it goes on, a WAIT holds, or it stops.
#[derive(Clone, Copy)]
pub enum Left {
    Goes,
    Holds,
    Stops,
}

// What is to be done by a command that is not refused. Bytes, addresses and words lie at the same offsets
// in every variant, so that a step takes none of them apart.
#[derive(Clone, Copy)]
pub enum Deed {
    // The accumulator; accumulator and X.
    Number(Word),
    Numbers(Word, Word),
    Jump(u16),
    Call(u16),
    Back,
    // A working value by its place.
    Set(u8, Word),
    Output(u8, u32),
    Last(Ordering),
    // The flags that CLE names by its type.
    Clear(u8),
    Order(Order, Word),
    // Position 50, and the order to go there.
    Move(Word),
    // A cell.
    Store(u8, Word),
    // A global: its value and its cell.
    Global(u8, Word),
    // A WAIT arms with a count and holds; holds on; passes; passes by its count; is refused, and the wait
    // is dropped.
    Held(Word),
    Waits,
    Passed,
    TimedOut,
    Dropped(Refusal),
    // STOP.
    Halt,
    // The command is unknown.
    Nothing,
    // A user variable by its number.
    User(u8, Word),
}

// What a command of direct mode, or a control command, answers.
#[derive(Clone, Copy)]
pub struct Obeyed {
    pub status: Status,
    pub value: Word,
}

impl Obeyed {
    // What is refused answers its status, with value 0.
    pub fn refused(refusal: Refusal) -> Self
        ensures { result ≡ refused (status_of refusal) }
    {
        Obeyed {
            status: Status::from(refusal),
            value: Word { v: 0 },
        }
    }
}

// What is read of something that is on or not: 1 or 0.
pub fn bit(on: bool) -> Word
    ensures { result ≡ reading.bit on }
{
    Word { v: i32::from(on) }
}

// No wait.
pub fn drop_wait(image: &mut [u32; REGISTERS])
    ensures { Leaves dropped image.old image.new }
{
    reg_image::set_wait(image, Wait::dropped());
}
