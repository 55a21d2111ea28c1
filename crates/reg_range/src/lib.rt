// Whether an image stands for registers in range.
//
// Every place is looked at, with no end in the middle, and the tests are counted: all hold exactly if the
// count is full. Put together by `&`, those with one bound would become one test of their places' bits,
// and the compiler would look at what is left place by place. Counted, tests stay alike, and it takes four
// neighbours at once. For that a place without such a test among them gets a wider one (`image[at::AXIS + 13]`,
// `image[at::AXIS + 25]`, `image[at::AXIS + 2]`), and its own beside.
#![tactic(auto)]

ghost use Rattle.std.specs.Prelude.{◌<◌, ◌≤◌, ◌≡◌, ◌&&◌, leb, get_or, pos};
ghost use Rattle.words.specs.Word.{of_bits};
ghost use Rattle.order.specs.Order.{in_range};
ghost use Rattle.sheet.specs.Rows.{rows};
ghost use Rattle.values.specs.Values as values;
ghost use Rattle.values.specs.Values.{allowed_at};
ghost use Rattle.ranges.specs.Range as ranges;
ghost use Rattle.registers.specs.Range as scalars;
ghost use Rattle.reg_image.specs.Image.{comparison, takes, shaped, registers_of};
ghost use Rattle.reg_range.specs.Count.{Counts};
ghost use Rattle.reg_range.specs.Range.{stands};

use reg_image::{REGISTERS, Value, at, get_at};
use words::Word;

mod lent;

pub use lent::fitting;

// How many of eight tests hold.
fn eight(a: bool, b: bool, c: bool, d: bool, e: bool, f: bool, g: bool, h: bool) -> u32
    ensures { Counts 8 (a && b && c && d && e && f && g && h) result }
{
    u32::from(a)
        + u32::from(b)
        + u32::from(c)
        + u32::from(d)
        + u32::from(e)
        + u32::from(f)
        + u32::from(g)
        + u32::from(h)
}

// Whether the working value at a place of the sheet is one that its row allows.
fn allowed_at(image: &[u32; REGISTERS], place: usize) -> bool
    requires { place < 103 }
    ensures { result ≡ allowed_at rows (registers_of image.now).values place }
{
    rows::allowed(sheet::row_at(place), get_at::<Value>(image, place))
}

// An analog input, by its bits.
fn analog_allowed(bits: u32) -> bool
    ensures { result ≡ in_range (pos 0) (pos 65535) (of_bits bits) }
{
    order::within(words::of_bits(bits), Word { v: 0 }, Word { v: 65535 })
}

// Comparison, flags, address, running and armed.
fn first_places(image: &[u32; REGISTERS]) -> u32
    ensures { Counts 8 (takes comparison (get_or image.now 2 0) && leb (get_or image.now 3 0) 1 && leb (get_or image.now 4 0) 1 && leb (get_or image.now 5 0) 1 && leb (get_or image.now 6 0) 1 && leb (get_or image.now 7 0) 1024 && leb (get_or image.now 8 0) 1 && leb (get_or image.now 9 0) 1) result }
{
    eight(
        (image[at::LAST] <= 1) | (image[at::LAST] == 4294967295),
        image[at::ETO] <= 1,
        image[at::EAL] <= 1,
        image[at::EDV] <= 1,
        image[at::EPO] <= 1,
        image[at::ADDRESS] <= 1024,
        image[at::RUNNING] <= 1,
        image[at::ARMED] <= 1,
    )
}

// Timed, download mode, write address and order; outputs.
fn second_places(image: &[u32; REGISTERS]) -> u32
    ensures { Counts 8 (leb (get_or image.now 11 0) 1 && leb (get_or image.now 12 0) 1 && leb (get_or image.now 13 0) 1024 && leb (get_or image.now 14 0) 2 && leb (get_or image.now 16 0) 1 && leb (get_or image.now 17 0) 1 && leb (get_or image.now 18 0) 1 && leb (get_or image.now 19 0) 1) result }
{
    eight(
        image[at::TIMED] <= 1,
        image[at::DOWNLOADING] <= 1,
        image[at::WRITE_ADDRESS] <= 1024,
        image[at::ORDER] <= 2,
        image[at::OUTPUTS] <= 1,
        image[at::OUTPUTS + 1] <= 1,
        image[at::OUTPUTS + 2] <= 1,
        image[at::OUTPUTS + 3] <= 1,
    )
}

// Inputs, depth, and the first two return addresses.
fn third_places(image: &[u32; REGISTERS]) -> u32
    ensures { Counts 8 (leb (get_or image.now 20 0) 1 && leb (get_or image.now 21 0) 1 && in_range (pos 0) (pos 65535) (of_bits (get_or image.now 22 0)) && in_range (pos 0) (pos 65535) (of_bits (get_or image.now 23 0)) && in_range (pos 0) (pos 65535) (of_bits (get_or image.now 24 0)) && leb (get_or image.now 25 0) 8 && leb (get_or image.now 26 0) 1024 && leb (get_or image.now 27 0) 1024) result }
{
    eight(
        image[at::DIGITAL] <= 1,
        image[at::DIGITAL + 1] <= 1,
        analog_allowed(image[at::ANALOG]),
        analog_allowed(image[at::ANALOG + 1]),
        analog_allowed(image[at::ANALOG + 2]),
        image[at::DEPTH] <= 8,
        image[at::ENTRIES] <= 1024,
        image[at::ENTRIES + 1] <= 1024,
    )
}

// The other return addresses; globals 66 and 73.
fn fourth_places(image: &[u32; REGISTERS]) -> u32
    ensures { Counts 8 (leb (get_or image.now 28 0) 1024 && leb (get_or image.now 29 0) 1024 && leb (get_or image.now 30 0) 1024 && leb (get_or image.now 31 0) 1024 && leb (get_or image.now 32 0) 1024 && leb (get_or image.now 33 0) 1024 && allowed_at rows (registers_of image.now).values 43 && allowed_at rows (registers_of image.now).values 44) result }
{
    eight(
        image[at::ENTRIES + 2] <= 1024,
        image[at::ENTRIES + 3] <= 1024,
        image[at::ENTRIES + 4] <= 1024,
        image[at::ENTRIES + 5] <= 1024,
        image[at::ENTRIES + 6] <= 1024,
        image[at::ENTRIES + 7] <= 1024,
        allowed_at(image, 43),
        allowed_at(image, 44),
    )
}

// All registers before the parameters, and two globals: 32 tests in the order of their places, four
// neighbours and four. In another order, or with a test that always holds, the compiler takes fewer at once.
fn scalars_in_range(image: &[u32; REGISTERS]) -> bool
    ensures { result ≡ shaped image.now && scalars.core_in_range (registers_of image.now).core && scalars.download_in_range (registers_of image.now).download && ranges.entries_in_range (registers_of image.now).entries && ranges.bits_in_range (registers_of image.now).outputs && ranges.bits_in_range (registers_of image.now).digital && ranges.analog_in_range (registers_of image.now).analog && allowed_at rows (registers_of image.now).values 44 && allowed_at rows (registers_of image.now).values 43 }
{
    first_places(image) + second_places(image) + third_places(image) + fourth_places(image) == 32
}

// The eight values from a place on. Callers name the place: so the compiler knows each row.
fn eight_allowed(image: &[u32; REGISTERS], place: usize) -> u32
    requires { place < 47 }
    ensures { Counts 8 (values.eight (allowed_at rows (registers_of image.now).values) place) result }
{
    eight(
        allowed_at(image, place + 7),
        allowed_at(image, place + 6),
        allowed_at(image, place + 5),
        allowed_at(image, place + 4),
        allowed_at(image, place + 3),
        allowed_at(image, place + 2),
        allowed_at(image, place + 1),
        allowed_at(image, place),
    )
}

// The eight values from 18 on, the last (102) by its range only.
fn eight_from_18(image: &[u32; REGISTERS]) -> u32
    ensures { Counts 8 (leb (get_or image.now 119 0) 2 && allowed_at rows (registers_of image.now).values 24 && allowed_at rows (registers_of image.now).values 23 && allowed_at rows (registers_of image.now).values 22 && allowed_at rows (registers_of image.now).values 21 && allowed_at rows (registers_of image.now).values 20 && allowed_at rows (registers_of image.now).values 19 && allowed_at rows (registers_of image.now).values 18) result }
{
    eight(
        image[at::AXIS + 25] <= 2,
        allowed_at(image, 24),
        allowed_at(image, 23),
        allowed_at(image, 22),
        allowed_at(image, 21),
        allowed_at(image, 20),
        allowed_at(image, 19),
        allowed_at(image, 18),
    )
}

// The eight values from 10 on, 56 by its sign only (of the least number not even that): its own test, and
// that of the sign alone, are signed ones.
fn eight_from_10(image: &[u32; REGISTERS]) -> u32
    ensures { Counts 8 (allowed_at rows (registers_of image.now).values 17 && allowed_at rows (registers_of image.now).values 16 && allowed_at rows (registers_of image.now).values 15 && allowed_at rows (registers_of image.now).values 14 && leb (get_or image.now 107 0) 2147483648 && allowed_at rows (registers_of image.now).values 12 && allowed_at rows (registers_of image.now).values 11 && allowed_at rows (registers_of image.now).values 10) result }
{
    eight(
        allowed_at(image, 17),
        allowed_at(image, 16),
        allowed_at(image, 15),
        allowed_at(image, 14),
        image[at::AXIS + 13] <= 2147483648,
        allowed_at(image, 12),
        allowed_at(image, 11),
        allowed_at(image, 10),
    )
}

// The first seven values, 14 by its range only, and global 77.
fn first_seven(image: &[u32; REGISTERS]) -> u32
    ensures { Counts 8 (allowed_at rows (registers_of image.now).values 46 && allowed_at rows (registers_of image.now).values 6 && allowed_at rows (registers_of image.now).values 5 && allowed_at rows (registers_of image.now).values 4 && allowed_at rows (registers_of image.now).values 3 && leb (get_or image.now 96 0) 3 && allowed_at rows (registers_of image.now).values 1 && allowed_at rows (registers_of image.now).values 0) result }
{
    eight(
        allowed_at(image, 46),
        allowed_at(image, 6),
        allowed_at(image, 5),
        allowed_at(image, 4),
        allowed_at(image, 3),
        image[at::AXIS + 2] <= 3,
        allowed_at(image, 1),
        allowed_at(image, 0),
    )
}

// The values from 10 to 41.
fn most_in_range(image: &[u32; REGISTERS]) -> bool
    ensures { result ≡ values.eight (allowed_at rows (registers_of image.now).values) 34 && values.eight (allowed_at rows (registers_of image.now).values) 26 && values.eight (allowed_at rows (registers_of image.now).values) 18 && values.eight (allowed_at rows (registers_of image.now).values) 10 }
{
    (eight_allowed(image, 34)
        + eight_allowed(image, 26)
        + eight_from_18(image)
        + eight_from_10(image)
        == 32)
        & allowed_at(image, 25)
        & allowed_at(image, 13)
}

// The values below 10, and behind 41 but the two globals. Four of them take every value and cost nothing.
fn ends_in_range(image: &[u32; REGISTERS]) -> bool
    ensures { result ≡ (allowed_at rows (registers_of image.now).values 46 && allowed_at rows (registers_of image.now).values 6 && allowed_at rows (registers_of image.now).values 5 && allowed_at rows (registers_of image.now).values 4 && allowed_at rows (registers_of image.now).values 3 && allowed_at rows (registers_of image.now).values 2 && allowed_at rows (registers_of image.now).values 1 && allowed_at rows (registers_of image.now).values 0) && allowed_at rows (registers_of image.now).values 45 && allowed_at rows (registers_of image.now).values 42 && allowed_at rows (registers_of image.now).values 9 && allowed_at rows (registers_of image.now).values 8 && allowed_at rows (registers_of image.now).values 7 }
{
    (first_seven(image) == 8)
        & allowed_at(image, 2)
        & allowed_at(image, 45)
        & allowed_at(image, 42)
        & allowed_at(image, 9)
        & allowed_at(image, 8)
        & allowed_at(image, 7)
}

// Whether each place has a number of its kind, and the registers are in range.
pub fn in_range(image: &[u32; REGISTERS]) -> bool
    ensures { result ≡ stands image.now }
{
    scalars_in_range(image) & most_in_range(image) & ends_in_range(image)
}
