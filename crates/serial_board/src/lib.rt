// A board on a serial line: datagrams of nine bytes in, replies of nine bytes out, and its two stores
// in image files.
#![tactic(auto)]

mod failure;
mod files;
mod kept;
mod line;

pub use failure::Failure;
pub use files::load;
pub use line::{CELLS, PROGRAM, serve};
