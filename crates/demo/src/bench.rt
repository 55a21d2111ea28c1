// The board on the bench: the display's commands to it, time passing over it, and its ignition.
ghost use Rattle.std.specs.Prelude.{◌≤◌, length};

use crate::bracket::Outside;
use crate::mnemonic::Mnemonic;
use crate::names;
use crate::tilt::{RECORDS, command};
use crate::trace::{Moment, Seen};
use display::Unread;
use reg_image::REGISTERS;
use status::{Misfit, Status};
use std::fmt;
use streams::{Spelled, say};
use wire::Command;

// A command as the display sends it to address 1, and what comes back.
#[derive(Clone, Copy)]
struct Exchange {
    sent: Command,
    frame: [u8; 9],
    reply: [u8; 9],
    answered: Result<Option<Status>, Misfit>,
}

impl fmt::Display for Exchange {
    fn fmt<W: fmt::Write>(&self, f: &mut fmt::Formatter<W>) -> fmt::Result {
        let frame = Spelled(&self.frame);
        let reply = Spelled(&self.reply);
        write!(f, "  {}: {frame}, reply {reply}: ", Mnemonic(self.sent))?;
        match display::read_reply(&self.reply) {
            Ok(r) => write!(f, "status {}, value {}", r.status, r.value.v),
            Err(Unread::Length) => write!(f, "of another length"),
            Err(Unread::Checksum) => write!(f, "damaged"),
        }
    }
}

// A board with its stores, and what is around it.
#[derive(Clone, Copy)]
pub(crate) struct Bench {
    image: [u32; REGISTERS],
    pub(crate) program: [u8; 7168],
    cells: [u8; 364],
    pub(crate) outside: Outside,
}

// How many items are not as they were.
fn changed<T: PartialEq>(before: &[T], after: &[T]) -> usize
    ensures { result ≤ length before.now }
{
    before.iter().zip(after).filter(|(a, b)| a != b).count()
}

// Whether a line is due: something changed, the ignition was just turned on, or the bracket is on its
// way for another ten ticks.
fn is_due(time: u64, before: Seen, after: Seen, has_moved: bool) -> bool {
    time == 0 || before != after || (has_moved && time % 10 == 0)
}

impl Bench {
    // A new board, without power yet.
    pub(crate) fn new() -> Bench {
        let mut cells = [0u8; 364];
        let _ = board_events::new_cells(&mut cells);
        Bench {
            image: [0; REGISTERS],
            program: [0; 7168],
            cells,
            outside: Outside::default(),
        }
    }

    fn exchange(&mut self, sent: Command) -> Exchange {
        let mut frame = [0u8; 9];
        let mut reply = [0u8; 9];
        let _ = display::build_command(&mut frame, 1, sent);
        let answered = board_datagrams::datagram(
            &mut self.image,
            &mut self.program,
            &mut self.cells,
            &mut reply,
            &frame,
        );
        Exchange {
            sent,
            frame,
            reply,
            answered,
        }
    }

    // A command, told with its reply.
    pub(crate) fn send(&mut self, rt: &impl Print, sent: Command) {
        say(rt, self.exchange(sent));
    }

    // The tilt program, through download mode: the first and the last record are told.
    pub(crate) fn load(&mut self, rt: &impl Print, listed: &[u8; 7168]) {
        let last = RECORDS - 1;
        self.send(rt, command(names::START_DOWNLOAD, 0, 0, 0));
        self.send(rt, store::record_at(listed, 0));
        let stored = (1..last)
            .filter(|&at| self.exchange(store::record_at(listed, at)).answered
                == Ok(Some(Status::Stored)))
            .count();
        say(
            rt,
            format_args!(
                "  .. and so on: {stored} records more with status 101, put in program memory"
            ),
        );
        self.send(rt, store::record_at(listed, last));
        self.send(rt, command(names::END_DOWNLOAD, 0, 0, 0));
    }

    // How many of the registers and of the bytes of the cells are not as they were.
    pub(crate) fn changes_since(&self, before: &Bench) -> usize {
        changed(&before.image, &self.image) + changed(&before.cells, &self.cells)
    }

    // 10 ms: the bracket moves, the board measures and runs, and the tick comes.
    fn turn(&mut self, rt: &impl Print) {
        let before = Seen::of(&self.image);
        let position = self.outside.moved(&self.image);
        let has_moved = position != self.outside.position;
        self.outside.position = position;
        let fields = self.outside.sample(&self.image);
        let _ = board_events::sample(&mut self.image, &fields);
        let _ = board_runs::run(&mut self.image, &self.program, &mut self.cells, 1000);
        let moment = Moment {
            time: self.outside.time,
            before,
            image: &self.image,
            program: &self.program,
        };
        if is_due(moment.time, before, Seen::of(&self.image), has_moved) {
            say(rt, moment);
        }
        let _ = board_events::tick(&mut self.image);
        self.outside.time = self.outside.time.wrapping_add(1);
    }

    // So many ticks with the buttons held as they are.
    pub(crate) fn pass(&mut self, rt: &impl Print, ticks: usize) {
        for _ in 0..ticks {
            self.turn(rt);
        }
    }

    // Ignition off and on: the working values go, the cells stay.
    pub(crate) fn ignite(&mut self, rt: &impl Print) {
        let _ = board_events::power_up(&mut self.image, &self.cells);
        if reg_image::get::<reg_image::Running>(&self.image) {
            say(
                rt,
                "Ignition on: global 77 is 1, so the program runs by itself.",
            );
        } else {
            say(
                rt,
                "Ignition on: global 77 is 0, so the program does not run.",
            );
        }
    }
}
