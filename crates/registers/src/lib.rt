// The scalar registers, and the address after one.
//
// Flags, addresses and the depth stand in types that hold values out of range too, since registers can
// be handed in so.
#![tactic(auto)]

ghost use Rattle.std.specs.Prelude.{◌≡◌};
ghost use Rattle.registers.specs.Laws.{Laws};
ghost use Rattle.registers.specs.Registers.{next_address};

use flags::Flags;
use std::cmp::Ordering;
use waits::Wait;
use words::Word;

#[derive(Clone, Copy)]
pub enum Order {
    Stopped,
    Velocity,
    Position,
}

#[derive(Clone, Copy)]
pub struct Motion {
    pub order: Order,
    pub velocity: Word,
}

// Download mode and the write address.
#[derive(Clone, Copy)]
pub struct Download {
    pub on: bool,
    pub address: u16,
}

// What a step changes, without the arrays.
#[derive(Clone, Copy)]
pub struct Core {
    pub accumulator: Word,
    pub x: Word,
    pub last: Ordering,
    pub flags: Flags,
    pub address: u16,
    pub running: bool,
    pub wait: Wait,
    pub motion: Motion,
    pub depth: u8,
}

// The address after one; there is none above 1024.
pub fn next_address(address: u16) -> u16
    ensures { result ≡ next_address address }
{
    if address < 1024 { address + 1 } else { address }
}

// The laws of the registers, held to be proved: the function does nothing.
pub fn laws()
    ensures { Laws }
{}
