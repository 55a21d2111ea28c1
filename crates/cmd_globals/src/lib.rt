// What the commands on globals, user variables and ports decide, once their fields are judged.
#![tactic(auto)]

ghost use Rattle.std.specs.Prelude.{◌+◌, ◌<◌, ◌≡◌, eqb, pos, Ok, Err};
ghost use Rattle.words.specs.Word.{pick, word};
ghost use Rattle.order.specs.Order.{same_w};
ghost use Rattle.status.specs.declared.Refusal.TheVariants.{Locked};
ghost use Rattle.settings.specs.Settings.{bank_place, locked};
ghost use Rattle.rules.specs.Reading as reads;
ghost use Rattle.board.specs.declared.Registers.{Registers};
ghost use Rattle.reg_image.specs.With.{with_address};
ghost use Rattle.reg_image.specs.Image.{registers_of};
ghost use Rattle.cmd_turns.specs.declared.Deed.TheVariants as deed;
ghost use Rattle.cmd_turns.specs.Decides.{Always, From, At, Stored};

use cmd_axis::LOCK;
use cmd_turns::Deed;
use reg_image::{Analog, Digital, Output, REGISTERS, Running, Value};
use status::Refusal;
use wire::Command;
use words::Word;

// The cell of a user variable.
fn user_cell(number: u8) -> u8
    requires { number < 56 }
    ensures { result ≡ 35 + number }
{
    35 + number
}

// What the lock keeps of its key.
fn lock_word(key: Word) -> Word
    ensures { result ≡ pick (same_w key.v (pos 1234)) (word (pos 1)) (word (pos 0)) }
{
    cmd_turns::bit(order::equals(key, Word { v: 1234 }))
}

// 66, 73, 76 and 77: the lock guards the others.
fn set_global(number: u8, w: Word, image: &[u32; REGISTERS]) -> Result<Deed, Refusal>
    ensures { result ≡ pick (eqb (bank_place 0 number) 44) (Ok (deed.Global 44 (pick (same_w w.v (pos 1234)) (word (pos 1)) (word (pos 0))))) (pick (locked (registers_of image.now).values) (Err Locked) (Ok (deed.Global (bank_place 0 number) w))) }
{
    let place = settings::bank_place(0, number);
    if place == LOCK {
        return Ok(Deed::Global(44, lock_word(w)));
    }
    if cmd_axis::locked(image) {
        return Err(Refusal::Locked);
    }
    Ok(Deed::Global(cmd_axis::narrow(place), w))
}

// SGP.
pub fn sgp(c: Command, image: &[u32; REGISTERS]) -> Result<Deed, Refusal>
    ensures { Always 9 c (registers_of image.now) result }
{
    global_fields::sgp(c)?;
    let value = c.value;
    if c.motor == 2 {
        return Ok(Deed::User(c.kind, value));
    }
    set_global(c.kind, value, image)
}

// AGP: the accumulator, which is judged now; a user variable takes every word.
pub fn agp(c: Command, accumulator: Word, image: &[u32; REGISTERS]) -> Result<Deed, Refusal>
    ensures { From 35 c accumulator (registers_of image.now) result }
{
    global_fields::agp(c)?;
    if c.motor == 2 {
        return Ok(Deed::User(c.kind, accumulator));
    }
    if !settings::settable(settings::bank_place(0, c.kind), accumulator) {
        return Err(Refusal::Value);
    }
    set_global(c.kind, accumulator, image)
}

// What GGP reads: 128 and 130 of bank 0 are no working values.
fn global_word(bank: u8, number: u8, address: u32, image: &[u32; REGISTERS]) -> Word
    ensures { result ≡ reads.global bank number (with_address address (registers_of image.now).core) (registers_of image.now).values }
{
    if bank == 2 {
        return reg_image::get_at::<Value>(image, settings::bank_place(2, number));
    }
    if number == 128 {
        return cmd_turns::bit(reg_image::get::<Running>(image));
    }
    if number == 130 {
        return words::of_bits(address);
    }
    reg_image::get_at::<Value>(image, settings::bank_place(0, number))
}

// GGP. The address is not the image's, which a run leaves behind.
pub fn ggp(c: Command, address: u32, image: &[u32; REGISTERS]) -> Result<Deed, Refusal>
    ensures { At 10 c address (registers_of image.now) result }
{
    global_fields::ggp(c)?;
    Ok(Deed::Number(global_word(c.motor, c.kind, address, image)))
}

// STGP.
pub fn stgp(c: Command, image: &[u32; REGISTERS]) -> Result<Deed, Refusal>
    ensures { Always 11 c (registers_of image.now) result }
{
    global_fields::stgp(c)?;
    if cmd_axis::locked(image) {
        return Err(Refusal::Locked);
    }
    let value = reg_image::get_at::<Value>(image, settings::bank_place(2, c.kind));
    Ok(Deed::Store(user_cell(c.kind), value))
}

// RSGP: a user variable takes what its cell has, as every word is allowed.
pub fn rsgp(c: Command, store: &[u8]) -> Result<Deed, Refusal>
    ensures { (regs : Registers) → Stored 12 c regs store.now result }
{
    global_fields::stgp(c)?;
    let value = store::cell_at(store, 35 + usize::from(c.kind));
    Ok(Deed::User(c.kind, value))
}

// SIO.
pub fn sio(c: Command) -> Result<Deed, Refusal>
    ensures { (regs : Registers) → Always 14 c regs result }
{
    port_fields::sio(c)?;
    Ok(Deed::Output(c.kind, u32::from(pins::bit_of(c.value))))
}

// What a port reads: digital inputs, analog inputs, outputs.
fn port_word(bank: u8, port: usize, image: &[u32; REGISTERS]) -> Word
    ensures { result ≡ reads.port bank port (registers_of image.now).outputs (registers_of image.now).digital (registers_of image.now).analog }
{
    match bank {
        0 => words::of_bits(reg_image::get_at::<Digital>(image, port)),
        1 => reg_image::get_at::<Analog>(image, port),
        _ => words::of_bits(reg_image::get_at::<Output>(image, port)),
    }
}

// GIO.
pub fn gio(c: Command, image: &[u32; REGISTERS]) -> Result<Deed, Refusal>
    ensures { Always 15 c (registers_of image.now) result }
{
    port_fields::gio(c)?;
    Ok(Deed::Number(port_word(c.motor, usize::from(c.kind), image)))
}
