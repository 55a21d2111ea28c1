// What the commands that only a program has decide: JC, JA, CSUB, RSUB and WAIT.
#![tactic(auto)]

ghost use Rattle.std.specs.Prelude.{◌≡◌, Ok};
ghost use Rattle.board.specs.declared.Registers.{Registers};
ghost use Rattle.wire.specs.declared.Command.{Command};
ghost use Rattle.jumping.specs.Jump as jump;
ghost use Rattle.waiting.specs.Waiting as waits;
ghost use Rattle.reg_image.specs.Image.{registers_of};
ghost use Rattle.cmd_turns.specs.Decides.{Always, From};
ghost use Rattle.cmd_flow.specs.Flow.{Before, Tests, dropping};

use cmd_turns::Deed;
use reg_image::{Armed, Count, Eal, Edv, Epo, Eto, Last, REGISTERS, Timed, Value};
use status::Refusal;
use wire::Command;
use words::Word;

// Whether JC of a type jumps.
#[tactic(auto, unfolding(jumping::specs::Jump::jumps))]
fn jumps(kind: u8, accumulator: Word, image: &[u32; REGISTERS]) -> bool
    ensures { result ≡ jump.jumps kind accumulator.v (registers_of image.now).core.last (registers_of image.now).core.flags }
{
    match kind {
        0 => order::equals(accumulator, Word { v: 0 }),
        1 => !order::equals(accumulator, Word { v: 0 }),
        2 => reg_image::get::<Last>(image).is_eq(),
        3 => !reg_image::get::<Last>(image).is_eq(),
        4 => reg_image::get::<Last>(image).is_gt(),
        5 => !reg_image::get::<Last>(image).is_lt(),
        6 => reg_image::get::<Last>(image).is_lt(),
        7 => !reg_image::get::<Last>(image).is_gt(),
        8 => reg_image::get::<Eto>(image) == 1,
        9 => reg_image::get::<Eal>(image) == 1,
        10 => reg_image::get::<Edv>(image) == 1,
        _ => reg_image::get::<Epo>(image) == 1,
    }
}

// JC is a jump whether or not it is taken: one deed, so that a step has no second dispatch.
pub fn jc(
    c: Command,
    accumulator: Word,
    next: u16,
    image: &[u32; REGISTERS],
) -> Result<Deed, Refusal>
    ensures { Before 21 c accumulator next (registers_of image.now) result }
{
    target_fields::jc(c)?;
    if jumps(c.kind, accumulator, image) {
        Ok(Deed::Jump(jumping::address_of(c.value)))
    } else {
        Ok(Deed::Jump(next))
    }
}

pub fn ja(c: Command) -> Result<Deed, Refusal>
    ensures { (regs : Registers) → Always 22 c regs result }
{
    target_fields::ja(c)?;
    Ok(Deed::Jump(jumping::address_of(c.value)))
}

// CSUB, with a stack of this depth, is refused after its target, where the stack is full.
pub fn csub(c: Command, depth: u32) -> Result<Deed, Refusal>
    ensures { (regs : Registers) → regs.core.depth ≡ depth → Always 23 c regs result }
{
    target_fields::ja(c)?;
    if 8 <= depth {
        return Err(Refusal::Unavailable);
    }
    Ok(Deed::Call(jumping::address_of(c.value)))
}

pub fn rsub(depth: u32) -> Result<Deed, Refusal>
    ensures { (c : Command) (regs : Registers) → regs.core.depth ≡ depth → Always 24 c regs result }
{
    if depth == 0 {
        return Err(Refusal::Unavailable);
    }
    Ok(Deed::Back)
}

// Whether an axis parameter is 1.
fn is_on(image: &[u32; REGISTERS], number: u8) -> bool
    ensures { result ≡ waits.is_on (registers_of image.now).values number }
{
    order::equals(
        reg_image::get_at::<Value>(image, places::axis_place(number)),
        Word { v: 1 },
    )
}

// Whether what POS, REFSW or LIMSW wait for has happened.
#[tactic(auto, unfolding(waiting::specs::Waiting::happened))]
fn happened(kind: u8, image: &[u32; REGISTERS]) -> bool
    ensures { result ≡ waits.happened kind (registers_of image.now).values }
{
    match kind {
        1 => is_on(image, 55),
        2 => is_on(image, 213),
        _ => is_on(image, 211) || is_on(image, 212),
    }
}

// Whether a wait of this count passes; if not, the deed to hold on. The condition is looked at first. Count and
// whether it is timed come alone: in a `Wait`, whether it is armed would stand beside them and say nothing.
fn tested(kind: u8, image: &[u32; REGISTERS], count: u32, timed: bool, holding: Deed) -> Deed
    ensures { Tests kind (registers_of image.now) count timed holding result }
{
    if kind == 0 {
        if count == 0 {
            return Deed::Passed;
        }
        return holding;
    }
    if happened(kind, image) {
        return Deed::Passed;
    }
    if !timed {
        return holding;
    }
    if count == 0 {
        return Deed::TimedOut;
    }
    holding
}

// What a wait is armed from: TICKS -1 takes the accumulator.
fn armed_from(kind: u8, value: Word, accumulator: Word) -> Word
    ensures { result ≡ waits.armed_from kind value accumulator }
{
    if kind == 0 && order::equals(value, Word { v: -1 }) {
        accumulator
    } else {
        value
    }
}

// A WAIT that finds nothing armed arms first, and the same step tests.
fn waited(c: Command, accumulator: Word, image: &[u32; REGISTERS]) -> Result<Deed, Refusal>
    ensures { From 27 c accumulator (registers_of image.now) (Ok (dropping result)) }
{
    target_fields::wait(c)?;
    let kind = c.kind;
    if reg_image::get::<Armed>(image) {
        let count = reg_image::get::<Count>(image);
        let timed = reg_image::get::<Timed>(image);
        return Ok(tested(kind, image, count, timed, Deed::Waits));
    }
    let from = armed_from(kind, c.value, accumulator);
    if !waiting::not_negative(from) {
        return Err(Refusal::Value);
    }
    let count = words::bits_of(from);
    Ok(tested(kind, image, count, 0 < count, Deed::Held(from)))
}

// A WAIT that is refused drops the wait.
pub fn wait(c: Command, accumulator: Word, image: &[u32; REGISTERS]) -> Result<Deed, Refusal>
    ensures { From 27 c accumulator (registers_of image.now) result }
{
    Ok(waited(c, accumulator, image).unwrap_or_else(Deed::Dropped))
}
