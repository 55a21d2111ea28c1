// Setting the board up: a new board, and single records, cells, registers and lengths.
//
// A line that does not read changes nothing; any other is answered by its letter. Each takes the board, the
// words and the output, which its line needs in a way of its own.
use crate::bench::Board;
use crate::looking::image_place;
use crate::stores::Store;
use text::{Output, Words};
use wire::command_in;
use words::Word;

pub(crate) fn renew(board: &mut Board, words: Words, out: &mut Output) -> Option<()> {
    words.end()?;
    board.renew();
    out.put(b'n');
    Some(())
}

// Seven bytes at a record's address, where the program store is whole.
pub(crate) fn record(board: &mut Board, mut words: Words, out: &mut Output) -> Option<()> {
    let address = words.up_to(1023)?;
    let mut room = [0; 64];
    let count = words.bytes(&mut room)?;
    let program = board.program.as_mut_slice();
    if count != 7 || !store::is_program_store(program) {
        return None;
    }
    store::put_record(program, address, command_in(&room[..7]));
    out.put(b'w');
    Some(())
}

// A word's four bytes at a cell, where the parameter store is whole.
pub(crate) fn cell(board: &mut Board, mut words: Words, out: &mut Output) -> Option<()> {
    let cell = words.up_to(90)?;
    let word = words.word()?;
    words.end()?;
    let cells = board.cells.as_mut_slice();
    if !store::is_parameter_store(cells) {
        return None;
    }
    store::put_cell(cells, cell, Word { v: word });
    out.put(b'v');
    Some(())
}

// The bits of a value that the register at a place of the dump can hold: as wide as its kind, so that values
// out of its range can be set. The places are the script format's own, docs/SCRIPT.md.
fn bits_of(place: usize, value: i64) -> Option<u32> {
    let most = match place {
        8 | 9 | 11 | 12 => 1,
        14 => 2,
        10 => u32::MAX,
        // The flags, the outputs and digital inputs, the depth, and globals 66 and 76.
        3..=6 | 16..=21 | 25 | 77 | 79 => 255,
        // The addresses.
        7 | 13 | 26..=33 => 65535,
        _ => {
            let word = i32::try_from(value).ok()?;
            // The comparison is -1, 0 or 1.
            if place == 2 && !(-1..=1).contains(&word) {
                return None;
            }
            return Some(words::bits_of(Word { v: word }));
        }
    };
    u32::try_from(value).ok().filter(|bits| *bits <= most)
}

pub(crate) fn register(board: &mut Board, mut words: Words, out: &mut Output) -> Option<()> {
    let place = words.up_to(136)?;
    let value = words.number()?;
    words.end()?;
    board.image[image_place(place)] = bits_of(place, value)?;
    out.put(b'q');
    Some(())
}

pub(crate) fn length(board: &mut Board, mut words: Words, out: &mut Output) -> Option<()> {
    let which = words.up_to(2)?;
    let length = words.up_to(Store::MOST)?;
    words.end()?;
    match which {
        0 => board.program.resize(length),
        1 => board.cells.resize(length),
        _ => board.reply.resize(length),
    }
    out.put(b'l');
    Some(())
}
