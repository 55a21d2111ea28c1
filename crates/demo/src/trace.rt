// What changed on the board in 10 ms, and how it then stands, in one line.
use crate::bracket::parameter;
use crate::mnemonic::Mnemonic;
use crate::names;
use reg_image::REGISTERS;
use registers::Order;
use std::fmt;

// What a line tells of where it changes.
#[derive(Clone, Copy, PartialEq, Eq)]
pub(crate) struct Seen {
    up: bool,
    down: bool,
    right: bool,
    reached: bool,
    eto: bool,
    motor: &'static str,
    output_0: bool,
    output_1: bool,
}

impl Seen {
    pub(crate) fn of(image: &[u32; REGISTERS]) -> Seen {
        Seen {
            up: reg_image::get_at::<reg_image::Digital>(image, 0) != 0,
            down: reg_image::get_at::<reg_image::Digital>(image, 1) != 0,
            right: parameter(image, names::RIGHT_SWITCH) != 0,
            reached: parameter(image, names::REACHED) != 0,
            eto: reg_image::get::<reg_image::Eto>(image) != 0,
            motor: match reg_image::get::<reg_image::MotionOrder>(image) {
                Order::Stopped => "the motor stops; ",
                Order::Velocity => "the motor turns; ",
                Order::Position => "the motor goes to a position; ",
            },
            output_0: reg_image::get_at::<reg_image::Output>(image, 0) != 0,
            output_1: reg_image::get_at::<reg_image::Output>(image, 1) != 0,
        }
    }
}

// The words for what was on or off and is the other.
fn turned(was: bool, is: bool, on: &'static str, off: &'static str) -> &'static str {
    match (was, is) {
        (false, true) => on,
        (true, false) => off,
        _ => "",
    }
}

// What happened between two looks at the board.
#[derive(Clone, Copy)]
struct Happened(Seen, Seen);

impl fmt::Display for Happened {
    fn fmt<W: fmt::Write>(&self, f: &mut fmt::Formatter<W>) -> fmt::Result {
        let Happened(a, b) = self;
        let up = turned(a.up, b.up, "tilt up pressed; ", "tilt up released; ");
        let down = turned(
            a.down,
            b.down,
            "tilt down pressed; ",
            "tilt down released; ",
        );
        let right = turned(
            a.right,
            b.right,
            "right limit switch on; ",
            "right limit switch off; ",
        );
        let reached = turned(a.reached, b.reached, "position reached; ", "");
        let eto = turned(a.eto, b.eto, "ETO set: the wait ran out; ", "ETO cleared; ");
        let motor = if a.motor == b.motor { "" } else { b.motor };
        let output_0 = turned(a.output_0, b.output_0, "output 0 on; ", "output 0 off; ");
        let output_1 = turned(a.output_1, b.output_1, "output 1 on; ", "output 1 off; ");
        write!(
            f,
            "{up}{down}{right}{reached}{eto}{motor}{output_0}{output_1}"
        )
    }
}

// The motor's order, with the velocity or the target.
#[derive(Clone, Copy)]
struct Ordered<'a>(&'a [u32; REGISTERS]);

impl fmt::Display for Ordered<'_> {
    fn fmt<W: fmt::Write>(&self, f: &mut fmt::Formatter<W>) -> fmt::Result {
        match reg_image::get::<reg_image::MotionOrder>(self.0) {
            Order::Velocity => write!(
                f,
                "velocity {}",
                reg_image::get::<reg_image::Velocity>(self.0).v
            ),
            Order::Position => write!(f, "position {}", parameter(self.0, names::TARGET_POSITION)),
            Order::Stopped => write!(f, "stopped"),
        }
    }
}

// A tick, how the board looked before it, and the board behind it.
#[derive(Clone, Copy)]
pub(crate) struct Moment<'a> {
    pub(crate) time: u64,
    pub(crate) before: Seen,
    pub(crate) image: &'a [u32; REGISTERS],
    pub(crate) program: &'a [u8; 7168],
}

impl Moment<'_> {
    // Where the program stands, and what of a wait is left.
    fn write_place<W: fmt::Write>(&self, f: &mut fmt::Formatter<W>) -> fmt::Result {
        let address = reg_image::get::<reg_image::Address>(self.image);
        let program = self.program;
        let record = store::record_at(program, address as usize);
        write!(f, "; at {address} {}", Mnemonic(record))?;
        if reg_image::get::<reg_image::Armed>(self.image) {
            write!(
                f,
                ", ticks left {}",
                reg_image::get::<reg_image::Count>(self.image)
            )?;
        }
        write!(
            f,
            ", depth {}",
            reg_image::get::<reg_image::Depth>(self.image)
        )
    }
}

impl fmt::Display for Moment<'_> {
    fn fmt<W: fmt::Write>(&self, f: &mut fmt::Formatter<W>) -> fmt::Result {
        let time = self.time;
        let happened = Happened(self.before, Seen::of(self.image));
        let position = parameter(self.image, names::ACTUAL_POSITION);
        let order = Ordered(self.image);
        write!(
            f,
            "  tick {time}: {happened}position {position}, order {order}, outputs "
        )?;
        for port in 0..4 {
            write!(
                f,
                "{}",
                reg_image::get_at::<reg_image::Output>(self.image, port)
            )?;
        }
        self.write_place(f)
    }
}
