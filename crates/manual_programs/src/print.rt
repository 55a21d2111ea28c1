// The lines of the trace: headings and remarks as the script has them, and what the board answered and
// did, set in by two spaces. Where standard output takes no more, the words are lost and the trace goes on.
//
// A line is put piece by piece and not formatted whole: the script's own bytes, which need not be text and
// so are written and not printed, stand between its words.
use checking::Fault;
use display::Unread;
use machine::Made;
use points::Point;
use reg_image::REGISTERS;
use registers::Order;
use status::{Misfit, Status};
use std::fmt;
use streams::Spelled;
use words::Word;

pub(crate) fn text(rt: &impl Print, t: &[u8]) {
    let _ = rt.write_all(t);
}

// A value behind the words that say what it is.
fn labelled<D: fmt::Display + Drop>(rt: &impl Print, words: &[u8], value: D) {
    text(rt, words);
    let _ = rt.print(value);
}

// A word in decimal behind the words that say what it is.
fn labelled_word(rt: &impl Print, words: &[u8], word: Word) {
    labelled(rt, words, word.v);
}

pub(crate) fn heading(rt: &impl Print, words: &[u8]) {
    text(rt, b"\n");
    text(rt, words);
    text(rt, b"\n");
}

pub(crate) fn remark(rt: &impl Print, words: &[u8]) {
    text(rt, words);
    text(rt, b"\n");
}

pub(crate) fn unknown(rt: &impl Print, number: u64) {
    labelled(rt, b"? ", number);
    text(rt, b"\n");
}

// The words that name a command, and the nine bytes sent.
pub(crate) fn command(rt: &impl Print, name: &[u8], sent: &[u8; 9]) {
    text(rt, b"  ");
    text(rt, name);
    labelled(rt, b": ", Spelled(sent));
}

// The nine bytes replied, and what the display reads in them.
fn received(rt: &impl Print, reply: &[u8; 9]) {
    labelled(rt, b", reply ", Spelled(reply));
    match display::read_reply(reply) {
        Ok(r) => {
            labelled(rt, b": status ", r.status);
            labelled_word(rt, b", value ", r.value);
        }
        Err(Unread::Length) => text(rt, b": of another length"),
        Err(Unread::Checksum) => text(rt, b": damaged"),
    }
}

// The number of an event that is carried out, or does not fit.
fn number(event: Result<(), Misfit>) -> u8 {
    event.map_or_else(u8::from, |()| 100)
}

// What a datagram was answered.
pub(crate) fn answer(rt: &impl Print, answered: Result<Option<Status>, Misfit>, reply: &[u8; 9]) {
    match answered {
        Ok(None) => text(rt, b", no reply"),
        Ok(Some(_)) => received(rt, reply),
        Err(misfit) => labelled(rt, b", refused with ", u8::from(misfit)),
    }
    text(rt, b"\n");
}

fn refused(rt: &impl Print, point: Point, status: u8) {
    labelled(rt, b"  check: refused at address ", point.address);
    labelled(rt, b", depth ", point.depth);
    labelled(rt, b", status ", status);
    text(rt, b"\n");
}

pub(crate) fn verdict(rt: &impl Print, verdict: Result<(), Fault>) {
    match verdict {
        Ok(()) => text(rt, b"  check: passed\n"),
        Err(Fault::Bad(point, status)) => refused(rt, point, status.into()),
        // The status of what does not fit.
        Err(Fault::Length) => refused(rt, Point::first(), 20),
    }
}

// A number of things by their name.
fn counted(rt: &impl Print, n: u64, name: &[u8]) {
    labelled(rt, b"", n);
    text(rt, name);
    if n != 1 {
        text(rt, b"s");
    }
}

// A wait armed with a value above 0 ends by its count too.
fn wait(rt: &impl Print, image: &[u32; REGISTERS]) {
    if !reg_image::get::<reg_image::Armed>(image) {
        text(rt, b"no wait");
    } else if reg_image::get::<reg_image::Timed>(image) {
        text(rt, b"waits, ");
        counted(
            rt,
            u64::from(reg_image::get::<reg_image::Count>(image)),
            b" tick",
        );
        text(rt, b" left");
    } else {
        text(rt, b"waits without timeout");
    }
}

// An axis parameter as the board holds it.
fn parameter(rt: &impl Print, words: &[u8], image: &[u32; REGISTERS], number: u8) {
    let value = reg_image::get_at::<reg_image::Value>(image, places::axis_place(number));
    labelled_word(rt, words, value);
}

// The order, with the velocity or the target position, parameter 50.
fn motion(rt: &impl Print, image: &[u32; REGISTERS]) {
    match reg_image::get::<reg_image::MotionOrder>(image) {
        Order::Stopped => text(rt, b", order stopped"),
        Order::Velocity => labelled_word(
            rt,
            b", order velocity ",
            reg_image::get::<reg_image::Velocity>(image),
        ),
        Order::Position => parameter(rt, b", order position ", image, 50),
    }
}

fn flags(rt: &impl Print, image: &[u32; REGISTERS]) {
    let flags: [(u32, &[u8]); 4] = [
        (reg_image::get::<reg_image::Eto>(image), b" ETO"),
        (reg_image::get::<reg_image::Eal>(image), b" EAL"),
        (reg_image::get::<reg_image::Edv>(image), b" EDV"),
        (reg_image::get::<reg_image::Epo>(image), b" EPO"),
    ];
    if flags.iter().all(|(on, _)| *on == 0) {
        text(rt, b", no flag");
        return;
    }
    text(rt, b", flags");
    for (on, name) in flags {
        if on != 0 {
            text(rt, name);
        }
    }
}

// Where the program stands.
fn place(rt: &impl Print, image: &[u32; REGISTERS]) {
    labelled(
        rt,
        b"; address ",
        reg_image::get::<reg_image::Address>(image),
    );
    if reg_image::get::<reg_image::Running>(image) {
        text(rt, b", running");
    } else {
        text(rt, b", stopped");
    }
    labelled(rt, b", depth ", reg_image::get::<reg_image::Depth>(image));
}

// What the program has worked out, what it waits for, and what the motor is ordered to do.
fn work(rt: &impl Print, image: &[u32; REGISTERS]) {
    labelled_word(
        rt,
        b", accumulator ",
        reg_image::get::<reg_image::Accumulator>(image),
    );
    labelled_word(rt, b", X ", reg_image::get::<reg_image::X>(image));
    text(rt, b", ");
    wait(rt, image);
    motion(rt, image);
    flags(rt, image);
    text(rt, b"\n");
}

// The steps of a run, the last one's status, and what it left.
pub(crate) fn ran(rt: &impl Print, ran: Result<Made, Misfit>, image: &[u32; REGISTERS]) {
    text(rt, b"  run: ");
    counted(rt, ran.map_or(0, |made| made.steps) as u64, b" step");
    labelled(
        rt,
        b", status ",
        ran.map_or_else(u8::from, |made| u8::from(made.status)),
    );
    place(rt, image);
    work(rt, image);
}

// A sample's status, and what the board then holds of it.
pub(crate) fn measured(rt: &impl Print, measured: Result<(), Misfit>, image: &[u32; REGISTERS]) {
    labelled(rt, b"  sample: status ", number(measured));
    parameter(rt, b"; position ", image, 52);
    parameter(rt, b", reached ", image, 55);
    labelled_word(
        rt,
        b", AIN0 ",
        reg_image::get_at::<reg_image::Analog>(image, 0),
    );
    parameter(rt, b", switches right ", image, 211);
    parameter(rt, b", left ", image, 212);
    parameter(rt, b", home ", image, 213);
    text(rt, b"\n");
}

pub(crate) fn ticked(
    rt: &impl Print,
    count: usize,
    ticked: Result<(), Misfit>,
    image: &[u32; REGISTERS],
) {
    text(rt, b"  ");
    counted(rt, count as u64, b" tick");
    labelled(rt, b": status ", number(ticked));
    text(rt, b"; ");
    wait(rt, image);
    text(rt, b"\n");
}
