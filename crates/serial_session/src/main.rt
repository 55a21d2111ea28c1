// A session of a board on a serial line, as `virtual_board serial cells program` has it, and then what
// the two image files hold: each cell that is not as on a new board, and each record that is not empty.
// Before it comes a session with an image of five bytes, which is refused with 20: it takes nothing of the
// line, and the five bytes are there afterwards.
#![tactic(auto)]

ghost use Rattle.std.specs.Prelude.{◌<◌, ◌≤◌, length};

use serial_board::{CELLS, PROGRAM};
use std::rt::Files;
use text::Output;

// A line for each part of an image, all of one width, that is not as on a new board: the part's name, its
// number and its bytes.
fn put_parts(out: &mut Output, name: &[u8], image: &[u8], fresh: &[u8], width: usize)
    requires { 0 < width }
{
    let parts = image.chunks_exact(width).zip(fresh.chunks_exact(width));
    for (number, (part, fresh_part)) in parts.enumerate() {
        if part != fresh_part {
            out.put_all(name);
            out.put_number(number as u64);
            out.put_bytes(part);
            out.put(b'\n');
        }
    }
}

// The same of an image file, as long as on a new board, or that it holds no image. A struct of the file, its
// parts' name, what they are on a new board and their width would name each of them once more at its calls.
fn put_file(
    rt: &impl Files,
    stderr: &impl Print,
    out: &mut Output,
    file: &[u8],
    name: &[u8],
    fresh: &[u8],
    width: usize,
)
    requires narrow { 0 < width }
    requires short { length fresh.now ≤ 8192 }
{
    let mut room = [0; 8192];
    match serial_board::load(rt, file, fresh.len(), &mut room) {
        Ok(Some(image)) => return put_parts(out, name, image, fresh, width),
        Ok(None) => {}
        Err(failure) => failure.tell(stderr),
    }
    out.put_all(file);
    out.put_all(b": no image\n");
}

fn put_images(rt: &impl Files, stderr: &impl Print, out: &mut Output) {
    let mut cells = [0; CELLS];
    let _ = board_events::new_cells(&mut cells);
    out.put(b'\n');
    put_file(rt, stderr, out, b"short", b"short", &[0; 5], 5);
    put_file(rt, stderr, out, b"program", b"record", &[0; PROGRAM], 7);
    put_file(rt, stderr, out, b"cells", b"cell", &cells, 4);
}

fn main(rt: HostRuntime) {
    let stderr = rt.stderr();
    serial_board::serve(&rt, &stderr, b"short", b"program");
    serial_board::serve(&rt, &stderr, b"cells", b"program");
    let mut out = Output::new();
    put_images(&rt, &stderr, &mut out);
    // Where standard output takes no more, the lines are lost.
    let _ = rt.write_all(out.as_slice());
}
