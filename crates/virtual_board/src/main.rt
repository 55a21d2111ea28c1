// The virtual board. Without arguments it plays the event script on standard input; as `serial` it is a
// board on a serial line, standard input and output, with its stores in image files where names are
// given.
#![tactic(auto)]

use std::env::FillError;
use std::rt::{Env, Files};

// The longest argument that is taken.
const LONGEST: usize = 4096;

fn usage(stderr: &impl Print) {
    let _ = stderr.write_all(
        b"usage: virtual_board < SCRIPT, or virtual_board serial [CELLS [PROGRAM]]\n",
    );
}

// The name that an argument is, of no bytes where it is missing: none where it is empty or does not fit.
fn name<'r>(rt: &impl Env, place: usize, room: &'r mut [u8; LONGEST]) -> Option<&'r [u8]> {
    match rt.arg(place, room) {
        Ok(0) => None,
        Ok(count) => Some(&room[..count]),
        Err(FillError::NotPresent) => Some(&[]),
        Err(_) => None,
    }
}

// A board on a serial line, where the arguments ask for one.
fn serial(rt: &(impl Env + Files + Input + Print), stderr: &impl Print) -> Option<()> {
    let mut word = [0; LONGEST];
    let mut cells_room = [0; LONGEST];
    let mut program_room = [0; LONGEST];
    if name(rt, 1, &mut word)? != b"serial".as_slice() {
        return None;
    }
    let cells = name(rt, 2, &mut cells_room)?;
    let program = name(rt, 3, &mut program_room)?;
    serial_board::serve(rt, stderr, cells, program);
    Some(())
}

fn main(rt: HostRuntime) {
    let stderr = rt.stderr();
    match streams::argument_count(&rt) {
        0 | 1 => script_board::play(&rt, &stderr),
        2..=4 if serial(&rt, &stderr).is_some() => {}
        _ => usage(&stderr),
    }
}
