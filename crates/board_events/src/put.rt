// What a sample sets, put to its places.
ghost use Rattle.std.specs.Prelude.{◌<◌, ◌≡◌, pos, get_or};
ghost use Rattle.words.specs.Word.{word};
ghost use Rattle.flags.specs.Flags.{raised_flag};
ghost use Rattle.reg_image.specs.Rows as rows;
ghost use Rattle.reg_image.specs.Image.{registers_of, Leaves};
ghost use Rattle.board_events.specs.Events as spec;
ghost use Rattle.board_events.specs.Parts as parts;

use crate::carried::signals_of;
use reg_image::{Analog, Digital, Eal, Edv, Epo, REGISTERS, Register, Value, get, set, set_at};
use words::Word;

fn field(fields: &[i32; 16], at: usize) -> Word
    requires { at < 16 }
    ensures { result ≡ word (get_or fields.now at (pos 0)) }
{
    Word { v: fields[at] }
}

// A flag after its alarm: 1, or as it was, which is no number of the alarm alone.
fn raised_flag(alarm: bool, flag: u32) -> u32
    ensures { result ≡ raised_flag alarm flag }
{
    if alarm { 1 } else { flag }
}

// One of the three after its alarm.
fn raise<R: Register<Value = u32>>(image: &mut [u32; REGISTERS], alarm: bool)
    ensures { Leaves (R.with (raised_flag alarm (R.read (registers_of image.old)))) image.old image.new }
{
    let flag = raised_flag(alarm, get::<R>(image));
    set::<R>(image, flag);
}

// EAL, EDV and EPO.
pub(crate) fn alarms(image: &mut [u32; REGISTERS], fields: &[i32; 16])
    ensures { Leaves (parts.alarmed (spec.signals_of fields.now)) image.old image.new }
{
    let alarms = signals_of(fields).alarms();
    raise::<Eal>(image, alarms.eal);
    raise::<Edv>(image, alarms.edv);
    raise::<Epo>(image, alarms.epo);
}

// The digital and the analog inputs.
pub(crate) fn inputs(image: &mut [u32; REGISTERS], fields: &[i32; 16])
    ensures { Leaves (parts.with_inputs (spec.inputs_of fields.now)) image.old image.new }
{
    set_at::<Digital>(image, 0, u32::from(pins::bit_of(field(fields, 8))));
    set_at::<Digital>(image, 1, u32::from(pins::bit_of(field(fields, 9))));
    set_at::<Analog>(image, 0, field(fields, 10));
    set_at::<Analog>(image, 1, field(fields, 11));
    set_at::<Analog>(image, 2, field(fields, 12));
}

// A field as the working value at a place.
fn reading(image: &mut [u32; REGISTERS], place: usize, fields: &[i32; 16], at: usize)
    requires { at < 16 }
    ensures { Leaves (rows.set_value_at place (get_or fields.now at (pos 0))) image.old image.new }
{
    set_at::<Value>(image, place, field(fields, at));
}

// Parameters 51, 52, 55, 211, 212, 213, 220 and 221. Each place is named: so the compiler knows where it stands, and
// writes it with no test. In a loop over places it would not.
pub(crate) fn readings(image: &mut [u32; REGISTERS], fields: &[i32; 16])
    ensures { Leaves (parts.with_readings (spec.readings_of fields.now)) image.old image.new }
{
    reading(image, 8, fields, 0);
    reading(image, 9, fields, 1);
    reading(image, 12, fields, 2);
    reading(image, 37, fields, 3);
    reading(image, 38, fields, 4);
    reading(image, 39, fields, 5);
    reading(image, 40, fields, 6);
    reading(image, 41, fields, 7);
}
