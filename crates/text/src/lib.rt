// Words of a line read as numbers and bytes, and numbers and bytes put into a buffer as words.
//
// A word that is asked for stands behind one space.
#![tactic(auto)]

ghost use Rattle.text.specs.Laws.{Laws};

mod print;
mod scan;

pub use print::Output;
pub use scan::Words;

// The laws of numbers in a text, held to be proved: the function does nothing.
pub fn laws()
    ensures { Laws }
{}
