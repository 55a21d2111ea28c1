// 137: every value that may be set goes to its default, in the image and in its cell.
ghost use Rattle.rules.specs.Controlling.{defaults};
ghost use Rattle.reg_image.specs.Image.{registers_of, Leaves};
ghost use Rattle.cmd_control.specs.Carried.{Carries};
ghost use Rattle.cmd_control.specs.Defaults as spec;

use reg_image::{REGISTERS, Value, set_at};
use registers::Order;
use words::Word;

// The working value at a place, unless it is read only.
fn default_value(image: &mut [u32; REGISTERS], place: usize)
    ensures { Leaves (spec.defaulted place) image.old image.new }
{
    let row = sheet::row_at(place);
    if row.access.writes() {
        set_at::<Value>(image, place, row.standard);
    }
}

// All working values, in rising order.
fn default_values(image: &mut [u32; REGISTERS])
    ensures { Leaves (spec.all_defaulted 103) image.old image.new }
{
    for place in 0..sheet::VALUES {
        default_value(image, place);
    }
}

// Values and cells, and the order is stopped.
pub fn to_defaults(image: &mut [u32; REGISTERS], store: &mut [u8])
    ensures { Carries (defaults (registers_of image.old) store.old) image.old image.new store.new }
{
    default_values(image);
    resetting::reset_cells(store);
    reg_image::set_motion(image, Order::Stopped, Word { v: 0 });
}
