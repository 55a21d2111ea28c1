// check_program IMAGE..: whether the program in each image of a program store can ever be refused, told
// in a line for each image. A refusal names the point, its status, and the record there.
#![tactic(auto)]

mod reason;
mod unread;

use checking::Fault;
use points::Point;
use reason::reason;
use status::Status;
use std::fs;
use std::rt::{Env, Files};
use streams::{Spelled, put, say};
use unread::Unread;
use wire::command_in;

// One byte more than a program store has, so that a longer image is seen to be one.
const MOST: usize = 7169;

// Where a program is refused and why, and the record that stands there.
fn tell_refusal(rt: &impl Print, image: &[u8], point: Point, status: Status) {
    put(
        rt,
        format_args!(
            "refused at address {}, depth {}, status {}: ",
            point.address,
            point.depth,
            u8::from(status)
        ),
    );
    match image.chunks_exact(7).nth(usize::from(point.address)) {
        Some(record) => {
            let why = reason(status, command_in(record));
            say(rt, format_args!("{why}; record {}", Spelled(record)));
        }
        None => say(rt, "the program runs behind the last record"),
    }
}

fn tell_verdict(rt: &impl Print, image: &[u8]) {
    match checking::check(image) {
        Ok(()) => say(rt, "passed"),
        Err(Fault::Length) => say(rt, "20: has another length than 7168 bytes"),
        Err(Fault::Bad(point, status)) => tell_refusal(rt, image, point, status),
    }
}

// The image in the file of a name. A file that goes on behind the room is no image, so no more of it is
// read.
fn read_image<'r>(
    rt: &impl Files,
    name: &[u8],
    room: &'r mut [u8; MOST],
) -> Result<&'r [u8], Unread> {
    // That it is no text is told before that it is too long, and in `serial_board` behind it.
    let Ok(path) = str::from_utf8(name) else {
        return Err(Unread::NoText);
    };
    let mut file = fs::open(rt, path)?;
    let count = streams::fill(&mut file, room)?;
    Ok(&room[..count])
}

fn tell_image(rt: &(impl Files + Print), name: &[u8]) {
    let mut room = [0u8; MOST];
    match read_image(rt, name, &mut room) {
        Ok(image) => tell_verdict(rt, image),
        Err(unread) => say(rt, unread),
    }
}

fn argument<'r>(rt: &impl Env, place: usize, room: &'r mut [u8; 4096]) -> Result<&'r [u8], Unread> {
    let length = rt.arg(place, room)?;
    Ok(&room[..length])
}

// The line for the image that an argument names. It begins with the name where there are more images.
fn answer(rt: &(impl Env + Files + Print), place: usize, is_named: bool) {
    let mut room = [0u8; 4096];
    let given = argument(rt, place, &mut room);
    if is_named {
        let _ = rt.write_all(given.unwrap_or(&[]));
        let _ = rt.write_all(b": ");
    }
    match given {
        Ok(name) => tell_image(rt, name),
        Err(unread) => say(rt, unread),
    }
}

fn main(rt: HostRuntime) {
    let count = streams::argument_count(&rt);
    if count < 2 {
        say(
            &rt,
            "usage: check_program IMAGE.. (each a program store of 7168 bytes)",
        );
        return;
    }
    for place in 1..count {
        answer(&rt, place, 2 < count);
    }
}
