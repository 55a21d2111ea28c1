// What CALC, COMP, CALCX and CLE decide.
#![tactic(auto)]

ghost use Rattle.board.specs.declared.Registers.{Registers};
ghost use Rattle.reg_image.specs.Image.{registers_of};
ghost use Rattle.cmd_turns.specs.Decides.{Always, From};
ghost use Rattle.cmd_numbers.specs.Into.{Into};

use cmd_turns::Deed;
use dividing::ByZero;
use reg_image::{REGISTERS, X};
use status::Refusal;
use wire::Command;
use words::Word;

// A result into the accumulator; a zero divisor is refused.
fn into_accumulator(calculated: Result<Word, ByZero>) -> Result<Deed, Refusal>
    ensures { Into calculated result }
{
    calculated.map(Deed::Number).or(Err(Refusal::Value))
}

// CALC: the accumulator and the value.
pub fn calc(c: Command, accumulator: Word) -> Result<Deed, Refusal>
    ensures { (regs : Registers) → From 19 c accumulator regs result }
{
    number_fields::calc(c)?;
    let value = c.value;
    if c.kind == 9 {
        return Ok(Deed::Number(value));
    }
    into_accumulator(calculating::calculate(c.kind, accumulator, value, accumulator))
}

// COMP: the accumulator against the value.
pub fn comp(c: Command, accumulator: Word) -> Result<Deed, Refusal>
    ensures { (regs : Registers) → From 20 c accumulator regs result }
{
    Ok(Deed::Last(order::compare(accumulator, c.value)))
}

// CALCX: the accumulator and X.
pub fn calcx(c: Command, accumulator: Word, image: &[u32; REGISTERS]) -> Result<Deed, Refusal>
    ensures { From 33 c accumulator (registers_of image.now) result }
{
    number_fields::calcx(c)?;
    let x = reg_image::get::<X>(image);
    match c.kind {
        9 => Ok(Deed::Numbers(accumulator, accumulator)),
        10 => Ok(Deed::Numbers(x, accumulator)),
        kind => into_accumulator(calculating::calculate(kind, accumulator, x, x)),
    }
}

// CLE.
pub fn clear(c: Command) -> Result<Deed, Refusal>
    ensures { (regs : Registers) → Always 36 c regs result }
{
    number_fields::cle(c)?;
    Ok(Deed::Clear(c.kind))
}
