// The inputs and alarms that a sample carries.
//
// Each field is a 32-bit number, so that one out of range can be handed in: a word where it is looked
// at by itself, an i32 where it is set in an array.
#![tactic(auto)]

ghost use Rattle.std.specs.Prelude.{◌≡◌};
ghost use Rattle.pins.specs.Pins.{
  is_on,
  bit_of,
  inputs_in_range,
  signals_in_range,
  digital_of,
  analog_of,
  alarms_of,
};

use flags::Alarms;
use words::Word;

#[derive(Clone, Copy)]
pub struct Inputs {
    pub digital_0: Word,
    pub digital_1: Word,
    pub analog_0: i32,
    pub analog_1: i32,
    pub analog_2: i32,
}

// The alarms, each 1 where it is on and 0 where it is off.
#[derive(Clone, Copy)]
pub struct Signals {
    pub eal: Word,
    pub edv: Word,
    pub epo: Word,
}

fn is_on(w: Word) -> bool
    ensures { result ≡ is_on w.v }
{
    w.v == 1
}

// 1 where a word is 1, else 0.
pub fn bit_of(w: Word) -> u8
    ensures { result ≡ bit_of w.v }
{
    u8::from(is_on(w))
}

impl Inputs {
    // Whether the digital inputs are 0 or 1 and the analog inputs 0 to 65535.
    pub fn in_range(self) -> bool
        ensures { result ≡ inputs_in_range self }
    {
        ranges::each_up_to(&[self.digital_0.v, self.digital_1.v], Word { v: 1 })
            && ranges::analog_in_range(&self.analog())
    }

    // As they are.
    pub fn analog(self) -> [i32; 3]
        ensures { result ≡ analog_of self }
    {
        [self.analog_0, self.analog_1, self.analog_2]
    }
}

impl Signals {
    // Whether each is 0 or 1.
    pub fn in_range(self) -> bool
        ensures { result ≡ signals_in_range self }
    {
        ranges::each_up_to(&[self.eal.v, self.edv.v, self.epo.v], Word { v: 1 })
    }

    // The alarms that are on.
    pub fn alarms(self) -> Alarms
        ensures { result ≡ alarms_of self }
    {
        Alarms {
            eal: is_on(self.eal),
            edv: is_on(self.edv),
            epo: is_on(self.epo),
        }
    }
}
