// A sample: what the board's inputs, switches and alarms are found to be, and what that sets.
//
// Each reading is a 32-bit number, so that one out of range can be handed in.
#![tactic(auto)]

ghost use Rattle.std.specs.Prelude.{◌≡◌};
ghost use Rattle.sampling.specs.Laws.{Laws};
ghost use Rattle.sampling.specs.Sample.{sample_in_range};

use pins::{Inputs, Signals};

mod settings;

// What sets parameters: 51, 52, 55, 211, 212, 213, 220 and 221, in this order.
#[derive(Clone, Copy)]
pub struct Readings {
    pub ramp_position: i32,
    pub actual_position: i32,
    pub reached: i32,
    pub right: i32,
    pub left: i32,
    pub home: i32,
    pub supply_voltage: i32,
    pub temperature: i32,
}

#[derive(Clone, Copy)]
pub struct Sample {
    pub readings: Readings,
    pub inputs: Inputs,
    pub signals: Signals,
}

impl Sample {
    // Whether every field is in range.
    #[tactic(auto, unfolding(crate::specs::Sample::sample_in_range))]
    pub fn in_range(self) -> bool
        ensures { result ≡ sample_in_range self }
    {
        self.readings.in_range() && self.inputs.in_range() && self.signals.in_range()
    }
}

// The laws of samples, held to be proved: the function does nothing.
pub fn laws()
    ensures { Laws }
{}
