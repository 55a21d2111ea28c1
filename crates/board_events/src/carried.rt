// The sixteen fields of a sample, as the C interface lends them. Neither the array nor `Sample` is of this crate,
// so that no `From` between them can stand here.
ghost use Rattle.std.specs.Prelude.{◌≡◌};
ghost use Rattle.board_events.specs.Events as spec;

use pins::{Inputs, Signals};
use sampling::{Readings, Sample};
use words::Word;

fn readings_of(fields: &[i32; 16]) -> Readings
    ensures { result ≡ spec.readings_of fields.now }
{
    Readings {
        ramp_position: fields[0],
        actual_position: fields[1],
        reached: fields[2],
        right: fields[3],
        left: fields[4],
        home: fields[5],
        supply_voltage: fields[6],
        temperature: fields[7],
    }
}

fn inputs_of(fields: &[i32; 16]) -> Inputs
    ensures { result ≡ spec.inputs_of fields.now }
{
    Inputs {
        digital_0: Word { v: fields[8] },
        digital_1: Word { v: fields[9] },
        analog_0: fields[10],
        analog_1: fields[11],
        analog_2: fields[12],
    }
}

pub(crate) fn signals_of(fields: &[i32; 16]) -> Signals
    ensures { result ≡ spec.signals_of fields.now }
{
    Signals {
        eal: Word { v: fields[13] },
        edv: Word { v: fields[14] },
        epo: Word { v: fields[15] },
    }
}

pub(crate) fn sample_of(fields: &[i32; 16]) -> Sample
    ensures { result ≡ spec.sample_of fields.now }
{
    Sample {
        readings: readings_of(fields),
        inputs: inputs_of(fields),
        signals: signals_of(fields),
    }
}
