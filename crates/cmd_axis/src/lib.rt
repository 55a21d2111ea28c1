// What the commands on the axis decide, once their fields are judged.
#![tactic(auto)]

ghost use Rattle.std.specs.Prelude.{◌<◌, ◌≤◌, ◌≡◌, eqb, ◌+ℤ◌, true, false, Ok, Err, IfOk, IfErr};
ghost use Rattle.words.specs.Word.{pick, word};
ghost use Rattle.words.specs.declared.Word.{Word};
ghost use Rattle.status.specs.declared.Refusal.{Refusal};
ghost use Rattle.status.specs.declared.Refusal.TheVariants as refusal;
ghost use Rattle.settings.specs.Settings.{locked};
ghost use Rattle.rules.specs.Motion.{within_limit, is_word};
ghost use Rattle.board.specs.declared.Registers.{Registers};
ghost use Rattle.reg_image.specs.Image.{registers_of};
ghost use Rattle.cmd_turns.specs.declared.Deed.TheVariants as deed;
ghost use Rattle.cmd_turns.specs.Decides.{Always, From, Stored};

use cmd_turns::Deed;
use reg_image::{REGISTERS, Value};
use registers::Order;
use status::Refusal;
use wire::Command;
use words::Word;

// The places of parameters 43, 50 and 52.
const LIMIT: usize = 4;

const POSITION: usize = 7;

const ACTUAL: usize = 9;

// The place of global 73.
pub const LOCK: usize = 44;

// A place or a cell as a byte, 0 from 256 on: there are none past 102.
pub fn narrow(place: usize) -> u8
    ensures { (place < 256 → result ≡ place) × (256 ≤ place → result ≡ 0) }
{
    u8::try_from(place).unwrap_or(0)
}

// Whether the working 73 says locked.
pub fn locked(image: &[u32; REGISTERS]) -> bool
    ensures { result ≡ locked (registers_of image.now).values }
{
    order::equals(reg_image::get_at::<Value>(image, LOCK), Word { v: 1 })
}

// Whether a velocity is within plus or minus a limit. `!v` is -1 - v, so nothing is negated that has
// no negative.
fn within_limit(velocity: Word, limit: Word) -> bool
    ensures { result ≡ within_limit limit.v velocity.v }
{
    let v = velocity.v;
    if 0 <= v { v <= limit.v } else { !v < limit.v }
}

// A velocity beyond plus or minus a limit is refused.
fn limited(velocity: Word, limit: Word) -> Result<Word, Refusal>
    ensures within { IfOk result (λ (w : Word). (w ≡ velocity) × (within_limit limit.v velocity.v ≡ true)) }
    ensures beyond { IfErr result (λ (e : Refusal). (e ≡ refusal.Value) × (within_limit limit.v velocity.v ≡ false)) }
{
    if within_limit(velocity, limit) {
        Ok(velocity)
    } else {
        Err(Refusal::Value)
    }
}

// ROR.
pub fn right(c: Command, image: &[u32; REGISTERS]) -> Result<Deed, Refusal>
    ensures { Always 1 c (registers_of image.now) result }
{
    axis_fields::motor_alone(c)?;
    let velocity = limited(c.value, reg_image::get_at::<Value>(image, LIMIT))?;
    Ok(Deed::Order(Order::Velocity, velocity))
}

// ROL: negated once it is known to be within the limit.
pub fn left(c: Command, image: &[u32; REGISTERS]) -> Result<Deed, Refusal>
    ensures { Always 2 c (registers_of image.now) result }
{
    axis_fields::motor_alone(c)?;
    let asked = limited(c.value, reg_image::get_at::<Value>(image, LIMIT))?;
    Ok(Deed::Order(Order::Velocity, Word { v: -asked.v }))
}

// MST.
pub fn stop(c: Command) -> Result<Deed, Refusal>
    ensures { (regs : Registers) → Always 3 c regs result }
{
    axis_fields::motor_alone(c)?;
    Ok(Deed::Order(Order::Stopped, Word { v: 0 }))
}

// Adds to the actual position, where the sum is a word.
fn move_by(value: Word, actual: Word) -> Result<Deed, Refusal>
    ensures { result ≡ pick (is_word (actual.v +ℤ value.v)) (Ok (deed.Move (word (actual.v +ℤ value.v)))) (Err refusal.Value) }
{
    let v = actual.v.checked_add(value.v).ok_or(Refusal::Value)?;
    Ok(Deed::Move(Word { v }))
}

// MVP: ABS or REL.
pub fn mvp(c: Command, image: &[u32; REGISTERS]) -> Result<Deed, Refusal>
    ensures { Always 4 c (registers_of image.now) result }
{
    axis_fields::mvp(c)?;
    let value = c.value;
    if c.kind == 0 {
        return Ok(Deed::Move(value));
    }
    move_by(value, reg_image::get_at::<Value>(image, ACTUAL))
}

// Setting 50 acts as MVP ABS.
fn set_axis(place: usize, w: Word) -> Deed
    ensures { place < 43 → result ≡ pick (eqb place 7) (deed.Move w) (deed.Set place w) }
{
    if place == POSITION {
        return Deed::Move(w);
    }
    Deed::Set(narrow(place), w)
}

// SAP.
pub fn sap(c: Command) -> Result<Deed, Refusal>
    ensures { (regs : Registers) → Always 5 c regs result }
{
    axis_fields::sap(c)?;
    Ok(set_axis(places::axis_place(c.kind), c.value))
}

// AAP: the accumulator, which is judged now.
pub fn aap(c: Command, accumulator: Word) -> Result<Deed, Refusal>
    ensures { (regs : Registers) → From 34 c accumulator regs result }
{
    axis_fields::aap(c)?;
    let place = places::axis_place(c.kind);
    if !settings::settable(place, accumulator) {
        return Err(Refusal::Value);
    }
    Ok(set_axis(place, accumulator))
}

// GAP loads the working value.
pub fn gap(c: Command, image: &[u32; REGISTERS]) -> Result<Deed, Refusal>
    ensures { Always 6 c (registers_of image.now) result }
{
    axis_fields::gap(c)?;
    Ok(Deed::Number(reg_image::get_at::<Value>(image, places::axis_place(c.kind))))
}

// STAP.
pub fn stap(c: Command, image: &[u32; REGISTERS]) -> Result<Deed, Refusal>
    ensures { Always 7 c (registers_of image.now) result }
{
    axis_fields::stap(c)?;
    if locked(image) {
        return Err(Refusal::Locked);
    }
    let place = places::axis_place(c.kind);
    let value = reg_image::get_at::<Value>(image, place);
    Ok(Deed::Store(narrow(sheet::cell_of(place)), value))
}

// RSAP takes the cell as power-up does.
pub fn rsap(c: Command, store: &[u8]) -> Result<Deed, Refusal>
    ensures { (regs : Registers) → Stored 8 c regs store.now result }
{
    axis_fields::stap(c)?;
    let place = places::axis_place(c.kind);
    Ok(Deed::Set(narrow(place), values::powered_value(store, place)))
}
