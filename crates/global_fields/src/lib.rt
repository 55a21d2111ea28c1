// Commands on globals and user variables: banks 0 and 2.
#![tactic(auto)]

ghost use Rattle.std.specs.Prelude.{◌≡◌, eqb, ltb};
ghost use Rattle.words.specs.Word.{pick};
ghost use Rattle.sheet.specs.Places.{global_in};
ghost use Rattle.status.specs.Refusal.{judged_as};
ghost use Rattle.fields.specs.Fields as spec;

use fields::by_bytes;
use status::Refusal;
use wire::Command;

// The globals of bank 0 that can be read. The first of them can be set: 128 and 130 are read only.
const READABLE: usize = 6;

const SETTABLE: usize = 4;

// Whether a bank has globals or user variables.
fn is_bank(bank: u8) -> bool
    ensures { result ≡ spec.is_bank bank }
{
    matches!(bank, 0 | 2)
}

// Whether a number is that of a user variable in bank 2, else of one of so many globals.
fn names<const GLOBALS: usize>(bank: u8, number: u8) -> bool
    ensures { result ≡ pick (eqb bank 2) (ltb number 56) (ltb (global_in number) GLOBALS) }
{
    if bank == 2 {
        number < 56
    } else {
        places::global_place(number) < GLOBALS
    }
}

// A user variable takes every word.
pub fn sgp(c: Command) -> Result<(), Refusal>
    ensures { judged_as result ≡ spec.sgp c }
{
    let bank = c.motor;
    let kind = c.kind;
    if bank == 2 {
        return by_bytes(true, names::<SETTABLE>(2, kind), true);
    }
    let value = settings::settable(settings::bank_place(bank, kind), c.value);
    by_bytes(is_bank(bank), names::<SETTABLE>(bank, kind), value)
}

// The bank of user variables is told first, here and in `agp`: so the compiler takes the fields one by one.
#[tactic(auto, unfolding(fields::specs::Fields::has))]
pub fn ggp(c: Command) -> Result<(), Refusal>
    ensures { judged_as result ≡ spec.ggp c }
{
    let bank = c.motor;
    let kind = c.kind;
    if bank == 2 {
        return by_bytes(true, names::<READABLE>(2, kind), true);
    }
    by_bytes(is_bank(bank), names::<READABLE>(bank, kind), true)
}

// STGP and RSGP.
pub fn stgp(c: Command) -> Result<(), Refusal>
    ensures { judged_as result ≡ spec.stgp c }
{
    by_bytes(c.motor == 2, c.kind < 56, true)
}

#[tactic(auto, unfolding(fields::specs::Fields::takes))]
pub fn agp(c: Command) -> Result<(), Refusal>
    ensures { judged_as result ≡ spec.agp c }
{
    let bank = c.motor;
    let kind = c.kind;
    if bank == 2 {
        return by_bytes(true, names::<SETTABLE>(2, kind), true);
    }
    by_bytes(is_bank(bank), names::<SETTABLE>(bank, kind), true)
}
