// Points of a program, as the program check walks them.
#![tactic(auto)]

ghost use Rattle.std.specs.Prelude.{◌≡◌};
ghost use Rattle.points.specs.Laws.{Laws};
ghost use Rattle.points.specs.Points.{first, point_at};

use status::Status;

// An address with a call depth.
#[derive(Clone, Copy, PartialEq, Eq)]
pub struct Point {
    pub address: u16,
    pub depth: u8,
}

// Where a point leads.
#[derive(Clone, Copy, PartialEq, Eq)]
pub enum Way {
    // The point is bad, with this status.
    Bad(Status),
    Nowhere,
    To(Point),
    Both(Point, Point),
}

impl Point {
    // The address behind the last record.
    pub const END: u16 = 1024;

    // The greatest depth, that of a full call stack.
    pub const DEEPEST: u8 = 8;

    // Where a program begins.
    pub fn first() -> Self
        ensures { result ≡ first }
    {
        Point {
            address: 0,
            depth: 0,
        }
    }
}

// The point of a number.
impl From<u16> for Point {
    ghost from_gives = { λ number point. point ≡ point_at number };

    fn from(number: u16) -> Point {
        Point {
            address: number / 9,
            depth: (number % 9) as u8,
        }
    }
}

// The laws of points and their numbers, held to be proved: the function does nothing.
pub fn laws()
    ensures { Laws }
{}
