// Registers that stand in a row, read and written. A place past the last of a row reads as 0 and is not
// written.
ghost use Rattle.std.specs.Prelude.{◌≡◌, ℕ, ◌+◌, ◌<◌, ltb, pos, get_or, Option};
ghost use Rattle.words.specs.Word.{word, pick};
ghost use Rattle.values.specs.Values.{value_at};
ghost use Rattle.board.specs.declared.Registers.{Registers};
ghost use Rattle.reg_image.specs.Image.{registers_of, Leaves};
ghost use Rattle.reg_image.specs.Row.{RowLaws, place_in, value_place};
ghost use Rattle.reg_image.specs.Rows as rows;
ghost use Rattle.reg_image.specs.Laws as laws;

use crate::stored::Stored;
use crate::{REGISTERS, at};
use words::Word;

// What names a row. `read` and `with` are as those of a `Register`, by the index in the row.
pub trait Row {
    type Value: Stored;

    ghost place: { ℕ → Option ℕ };

    ghost read: { ℕ → Registers → Self.Value };

    ghost with: { ℕ → Self.Value → Registers → Registers };

    // Where one of the row stands.
    fn place(index: usize) -> Option<usize>
        ensures { result ≡ place index };

    ghost laws: { RowLaws place Self.Value.kind Self.Value.of read with };
}

// One of so many places from a first on.
fn place_in(first: usize, size: usize, index: usize) -> Option<usize>
    requires { first + size < 2147483648 }
    ensures { result ≡ place_in first size index }
{
    if index < size {
        Some(first + index)
    } else {
        None
    }
}

pub struct Output;

impl Row for Output {
    type Value = u32;

    ghost place = { place_in 16 4 };

    ghost read = { λ i r. pick (ltb i 4) (get_or r.outputs i 0) 0 };

    ghost with = { λ i n. rows.set_output i n };

    fn place(index: usize) -> Option<usize> {
        place_in(at::OUTPUTS, 4, index)
    }

    ghost laws = { laws.output_laws };
}

pub struct Digital;

impl Row for Digital {
    type Value = u32;

    ghost place = { place_in 20 2 };

    ghost read = { λ i r. pick (ltb i 2) (get_or r.digital i 0) 0 };

    ghost with = { λ i n. rows.set_digital i n };

    fn place(index: usize) -> Option<usize> {
        place_in(at::DIGITAL, 2, index)
    }

    ghost laws = { laws.digital_laws };
}

pub struct Analog;

impl Row for Analog {
    type Value = Word;

    ghost place = { place_in 22 3 };

    ghost read = { λ i r. pick (ltb i 3) (word (get_or r.analog i (pos 0))) (word (pos 0)) };

    ghost with = { λ i w. rows.set_analog i w.v };

    fn place(index: usize) -> Option<usize> {
        place_in(at::ANALOG, 3, index)
    }

    ghost laws = { laws.analog_laws };
}

// A return address.
pub struct Entry;

impl Row for Entry {
    type Value = u32;

    ghost place = { place_in 26 8 };

    ghost read = { λ i r. pick (ltb i 8) (get_or r.entries i 0) 0 };

    ghost with = { λ i n. rows.set_entry i n };

    fn place(index: usize) -> Option<usize> {
        place_in(at::ENTRIES, 8, index)
    }

    ghost laws = { laws.entry_laws };
}

// A working value, by its place on the sheet: axis parameters, globals, user variables.
pub struct Value;

impl Row for Value {
    type Value = Word;

    ghost place = { value_place };

    ghost read = { λ i r. value_at r.values i };

    ghost with = { λ i w. rows.set_value_at i w.v };

    fn place(index: usize) -> Option<usize> {
        match index {
            0..43 => Some(at::AXIS + index),
            43..103 => Some(at::GLOBALS + (index - 43)),
            _ => None,
        }
    }

    ghost laws = { laws.value_laws };
}

// One of a row.
pub fn get_at<R: Row>(image: &[u32; REGISTERS], index: usize) -> R::Value
    ensures { result ≡ R.read index (registers_of image.now) }
{
    match R::place(index) {
        Some(place) => R::Value::of_number(image[place]),
        None => R::Value::of_number(0),
    }
}

// Writes one of a row, and nothing else.
pub fn set_at<R: Row>(image: &mut [u32; REGISTERS], index: usize, value: R::Value)
    ensures { Leaves (R.with index value) image.old image.new }
{
    if let Some(place) = R::place(index) {
        image[place] = value.number();
    }
}
