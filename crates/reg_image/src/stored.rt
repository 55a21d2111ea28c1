// What stands at a place of the image as a number: a number, a truth, a word, a comparison, an order. No `From`
// of std can be written for them here, since none of the types is of this crate.
ghost use Rattle.std.specs.Prelude.{◌≡◌, ℕ, true};
ghost use Rattle.words.specs.Word.{word, of_bits};
ghost use Rattle.reg_image.specs.Image.{Kind, number, bit, comparison, order, takes, is_on, comparison_of, order_of};

use registers::Order;
use std::cmp::Ordering;
use words::Word;

pub trait Stored: Copy {
    // What a number stands for, and which numbers the place of such a value takes.
    ghost of: { ℕ → Self };

    ghost kind: { Kind };

    fn of_number(number: u32) -> Self
        ensures { result ≡ of number };

    fn number(self) -> u32
        ensures back { of result ≡ self }
        ensures taken { takes kind result ≡ true };
}

impl Stored for u32 {
    ghost of = { λ n. n };

    ghost kind = { number };

    fn of_number(number: u32) -> u32 {
        number
    }

    fn number(self) -> u32 {
        self
    }
}

impl Stored for bool {
    ghost of = { is_on };

    ghost kind = { bit };

    fn of_number(number: u32) -> bool {
        number == 1
    }

    fn number(self) -> u32 {
        u32::from(self)
    }
}

impl Stored for Word {
    ghost of = { λ n. word (of_bits n) };

    ghost kind = { number };

    fn of_number(number: u32) -> Word {
        words::of_bits(number)
    }

    fn number(self) -> u32 {
        words::bits_of(self)
    }
}

impl Stored for Ordering {
    ghost of = { comparison_of };

    ghost kind = { comparison };

    fn of_number(number: u32) -> Ordering {
        match number {
            0 => Ordering::Equal,
            1 => Ordering::Greater,
            _ => Ordering::Less,
        }
    }

    fn number(self) -> u32 {
        match self {
            Ordering::Less => 4294967295,
            Ordering::Equal => 0,
            Ordering::Greater => 1,
        }
    }
}

impl Stored for Order {
    ghost of = { order_of };

    ghost kind = { order };

    fn of_number(number: u32) -> Order {
        match number {
            0 => Order::Stopped,
            1 => Order::Velocity,
            _ => Order::Position,
        }
    }

    fn number(self) -> u32 {
        match self {
            Order::Stopped => 0,
            Order::Velocity => 1,
            Order::Position => 2,
        }
    }
}
