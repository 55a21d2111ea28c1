// The image of the registers: 137 numbers of 32 bits that the caller lends, each at its place.
//
// Every register is read and written here: one that stands alone by `get` and `set` at the type that names it,
// as `get::<Running>(image)`, and one of a row by `get_at` and `set_at`, as `set_at::<Output>(image, port, 1)`.
// Each such type says what it reads and what it changes, and keeps the laws that tie both to its place, so that
// the four functions are proved once. Two crates know places beside this one: `reg_range`, which looks at all of
// them at once, by the names of `at`, and `board_events`, whose power-up clears them all. A contract speaks of
// the registers that the image stands for (`specs/Image.antt`), so that no other caller sees a place.
#![tactic(auto)]

pub mod at;
mod register;
mod row;
mod stored;
mod whole;

// The numbers of an image.
pub const REGISTERS: usize = 137;

pub use register::{
    Accumulator, Address, Armed, Count, Depth, Downloading, Eal, Edv, Epo, Eto, Last, MotionOrder,
    Register, Running, Timed, Velocity, WriteAddress, X, get, set,
};
pub use row::{Analog, Digital, Entry, Output, Row, Value, get_at, set_at};
pub use stored::Stored;
pub use whole::{empty_stack, set_motion, set_wait};
