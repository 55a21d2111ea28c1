// The refusals of the control commands, and the value that each answers.
ghost use Rattle.std.specs.Prelude.{◌≡◌};
ghost use Rattle.status.specs.Refusal.{judged_as};
ghost use Rattle.rules.specs.Control as spec;

use status::{Refusal, in_order};
use wire::Command;
use words::Word;

// Whether a value is that of 137 and 255.
fn is_1234(value: Word) -> bool
    ensures { result ≡ spec.is1234 value.v }
{
    order::equals(value, Word { v: 1234 })
}

// Where 129 begins can be seen in its value: type 0 has none.
fn begins(kind: u8, value: Word) -> bool
    ensures { result ≡ spec.begins kind value.v }
{
    kind == 0 || jumping::is_address(value)
}

// What refuses a control command.
#[tactic(auto, unfolding(rules::specs::Control::judged))]
pub(crate) fn judge(
    c: Command,
    running: bool,
    downloading: bool,
    locked: bool,
) -> Result<(), Refusal>
    ensures { judged_as result ≡ spec.judged c running downloading locked }
{
    let kind = c.kind;
    let value = c.value;
    match c.number {
        128 | 131 | 133 | 135 => Ok(()),
        129 => in_order(!downloading, true, kind <= 1, begins(kind, value), true),
        130 => in_order(!running & !downloading, true, true, true, true),
        132 => in_order(!running, true, true, jumping::is_address(value), !locked),
        134 => in_order(true, true, kind <= 1, jumping::is_address(value), true),
        137 => in_order(!running, true, true, is_1234(value), !locked),
        255 => in_order(true, true, true, is_1234(value), true),
        _ => Err(Refusal::Unknown),
    }
}

// 134: a record of the lent program store, its value or its three bytes.
#[tactic(auto, unfolding(rules::specs::Control::shown))]
fn show(kind: u8, value: Word, program: &[u8]) -> Word
    ensures { result ≡ spec.shown kind value.v program.now }
{
    let record = store::record_at(program, usize::from(jumping::address_of(value)));
    if kind == 0 {
        return record.value;
    }
    words::of_bits(
        u32::from(record.number) * 65536 + u32::from(record.kind) * 256 + u32::from(record.motor),
    )
}

// The value that a control command answers: what 134 and 135 read, else the value sent.
#[tactic(auto, unfolding(rules::specs::Control::answer))]
pub fn answer(c: Command, running: bool, program: &[u8]) -> Word
    ensures { result ≡ spec.answer c running program.now }
{
    match c.number {
        134 => show(c.kind, c.value, program),
        135 => cmd_turns::bit(running),
        _ => c.value,
    }
}
