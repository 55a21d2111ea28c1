// The tilt program: its records put into a program store and listed, with what each is there for.
use crate::mnemonic::Mnemonic;
use crate::names;
use checking::Fault;
use std::fmt;
use streams::say;
use wire::Command;
use words::Word;

// A record: command, type, motor or bank, value, and what it is there for.
#[derive(Clone, Copy)]
struct Line(u8, u8, u8, i32, &'static str);

pub(crate) const RECORDS: usize = 30;

const LISTING: [Line; RECORDS] = [
    // The driver's two buttons, looked at every 10 ms.
    Line(
        names::SAP,
        names::ACCELERATION,
        0,
        1500,
        "acceleration, for this ignition only",
    ),
    Line(names::WAIT, names::TICKS, 0, 1, "10 ms"),
    Line(names::GIO, 0, 0, 0, "the button tilt up, digital input 0"),
    Line(names::COMP, 0, 0, 1, "1 is pressed"),
    Line(names::JC, names::EQ, 0, 9, "pressed"),
    Line(names::GIO, 1, 0, 0, "the button tilt down, digital input 1"),
    Line(names::JC, names::ZE, 0, 1, "neither is pressed: look again"),
    // The calls, behind which the buttons are looked at again.
    Line(names::CSUB, 0, 0, 19, "call tilt down"),
    Line(names::JA, 0, 0, 1, "look again"),
    Line(names::CSUB, 0, 0, 11, "call tilt up"),
    Line(names::JA, 0, 0, 1, "look again"),
    // To the right limit switch.
    Line(
        names::GAP,
        names::RIGHT_SWITCH,
        0,
        0,
        "tilt up: the right limit switch",
    ),
    Line(names::JC, names::NZ, 0, 17, "there already: do not move"),
    Line(names::ROR, 0, 0, 800, "turn right"),
    Line(
        names::WAIT,
        names::LIMSW,
        0,
        100,
        "until a limit switch is on, 100 ticks at most",
    ),
    Line(names::JC, names::ETO, 0, 24, "none in time: stuck"),
    Line(names::MST, 0, 0, 0, "stop"),
    Line(
        names::SIO,
        0,
        names::OUTPUTS,
        1,
        "output 0 on: the bracket is up",
    ),
    Line(names::RSUB, 0, 0, 0, "return"),
    // To position 0.
    Line(names::SIO, 0, names::OUTPUTS, 0, "tilt down: output 0 off"),
    Line(names::MVP, 0, 0, 0, "go to position 0"),
    Line(
        names::WAIT,
        names::POS,
        0,
        30,
        "until it is reached, 30 ticks at most",
    ),
    Line(names::JC, names::ETO, 0, 24, "not reached in time"),
    Line(names::RSUB, 0, 0, 0, "return"),
    // Where the bracket is stuck on its way down.
    Line(names::MST, 0, 0, 0, "stuck: stop"),
    Line(
        names::SIO,
        1,
        names::OUTPUTS,
        1,
        "output 1 on: the bracket is stuck",
    ),
    Line(names::WAIT, names::TICKS, 0, 20, "200 ms"),
    Line(names::SIO, 1, names::OUTPUTS, 0, "output 1 off"),
    Line(names::CLE, 1, 0, 0, "the timeout is dealt with"),
    Line(names::RSUB, 0, 0, 0, "return"),
];

// A command of so many numbers.
pub(crate) fn command(number: u8, kind: u8, motor: u8, value: i32) -> Command {
    Command {
        number,
        kind,
        motor,
        value: Word { v: value },
    }
}

// Puts the records into a program store, each with its line.
pub(crate) fn list(rt: &impl Print, store: &mut [u8; 7168]) {
    for (at, line) in LISTING.iter().enumerate() {
        let Line(number, kind, motor, value, why) = *line;
        let record = command(number, kind, motor, value);
        store::put_record(store, at, record);
        say(rt, format_args!("{at:>4}  {}  // {why}", Mnemonic(record)));
    }
}

// What the check says of a store.
#[derive(Clone, Copy)]
pub(crate) struct Checked<'a>(pub(crate) &'a [u8; 7168]);

impl fmt::Display for Checked<'_> {
    fn fmt<W: fmt::Write>(&self, f: &mut fmt::Formatter<W>) -> fmt::Result {
        let program = self.0;
        match checking::check(program) {
            Ok(()) => write!(f, "passed"),
            Err(Fault::Length) => write!(f, "of another length"),
            Err(Fault::Bad(point, status)) => write!(
                f,
                "refused at address {}, depth {}, status {}",
                point.address,
                point.depth,
                u8::from(status)
            ),
        }
    }
}
