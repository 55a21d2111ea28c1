// CALC's and CALCX's types 0 to 8: what is made of the accumulator and a second word.
#![tactic(auto)]

ghost use Rattle.std.specs.Prelude.{◌≡◌};
ghost use Rattle.dividing.specs.Divide.{answer_of};
ghost use Rattle.calculating.specs.Calculate.{calculated};

use dividing::ByZero;
use words::Word;

// The accumulator and a second word under an operation; NOT, the last, is of its operand alone. The
// operation stays the byte of its command: an enum of nine would be read off it by the same arms.
#[tactic(auto, unfolding(crate::specs::Calculate::calculated))]
pub fn calculate(kind: u8, accumulator: Word, second: Word, operand: Word) -> Result<Word, ByZero>
    ensures { answer_of result ≡ calculated kind accumulator.v second.v operand.v }
{
    match kind {
        0 => Ok(wrapping::add(accumulator, second)),
        1 => Ok(wrapping::sub(accumulator, second)),
        2 => Ok(wrapping::mul(accumulator, second)),
        3 => dividing::div(accumulator, second),
        4 => dividing::modulo(accumulator, second),
        5 => Ok(logic::and(accumulator, second)),
        6 => Ok(logic::or(accumulator, second)),
        7 => Ok(logic::xor(accumulator, second)),
        _ => Ok(logic::not(operand)),
    }
}
