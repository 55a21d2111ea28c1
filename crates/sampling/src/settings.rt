// The readings, and the parameters that they set.
ghost use Rattle.std.specs.Prelude.{◌<◌, ◌≡◌};
ghost use Rattle.sampling.specs.Sample.{
  settings,
  setting_at,
  settings_in_range,
  readings_in_range,
};

use crate::Readings;
use words::Word;

impl Readings {
    // What the parameters are set to.
    pub fn settings(self) -> [i32; 8]
        ensures { result ≡ settings self }
    {
        [
            self.ramp_position,
            self.actual_position,
            self.reached,
            self.right,
            self.left,
            self.home,
            self.supply_voltage,
            self.temperature,
        ]
    }

    // Whether each is in its parameter's range.
    pub fn in_range(self) -> bool
        ensures { result ≡ readings_in_range self }
    {
        settings_in_range(&self.settings())
    }
}

// Whether one of them is, by its parameter's place among the working values.
fn setting_in_range(settings: &[i32; 8], i: usize, place: usize) -> bool
    requires { i < 8 }
    ensures { result ≡ setting_at settings.now i place }
{
    rows::allowed(sheet::row_at(place), Word { v: settings[i] })
}

// All eight are looked at, by `&` with no end in the middle, and each place is named: so the compiler knows
// each row. By a chain over places or by `&&` it would not.
fn settings_in_range(settings: &[i32; 8]) -> bool
    ensures { result ≡ settings_in_range settings.now }
{
    setting_in_range(settings, 7, 41)
        & setting_in_range(settings, 6, 40)
        & setting_in_range(settings, 5, 39)
        & setting_in_range(settings, 4, 38)
        & setting_in_range(settings, 3, 37)
        & setting_in_range(settings, 2, 12)
        & setting_in_range(settings, 1, 9)
        & setting_in_range(settings, 0, 8)
}
