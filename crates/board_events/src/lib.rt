// Power-up, sample and tick over an image of the registers, and the cells of a new board.
//
// An event that does not fit says what of it, and leaves what it was lent as it was; any other writes what it
// changes, at its places, and nothing else. `told` in a contract is document 01's number of either.
#![tactic(auto)]

ghost use Rattle.std.specs.Prelude.{◌≡◌};
ghost use Rattle.status.specs.Misfit.{told};
ghost use Rattle.rules.specs.Events.{with_tick, with_sample};
ghost use Rattle.reg_image.specs.Image.{registers_of, Leaves};
ghost use Rattle.board_events.specs.Standing.{Told};
ghost use Rattle.board_events.specs.Events as spec;

use reg_image::{Armed, Count, REGISTERS, Timed, get, set};
use status::Misfit;
use waits::Wait;

mod carried;
mod power;
mod put;

pub use power::power_up;

// The default cells, for a store of their length.
pub fn new_cells(cells: &mut [u8]) -> Result<(), Misfit>
    ensures { spec.cells_left (told result) cells.new ≡ spec.new_cells cells.old }
{
    if !store::is_parameter_store(cells) {
        return Err(Misfit::Length);
    }
    resetting::reset_cells(cells);
    Ok(())
}

// The count of an armed wait after 10 ms more.
fn put_tick(image: &mut [u32; REGISTERS])
    ensures { Leaves with_tick image.old image.new }
{
    let wait = Wait {
        armed: get::<Armed>(image),
        count: get::<Count>(image),
        timed: get::<Timed>(image),
    };
    let later = wait.ticked();
    set::<Count>(image, later.count);
}

// 10 ms more.
pub fn tick(image: &mut [u32; REGISTERS]) -> Result<(), Misfit>
    ensures { Told (spec.tick_status image.old) (with_tick (registers_of image.old)) image.old image.new (told result) }
{
    if !reg_range::in_range(image) {
        return Err(Misfit::Registers);
    }
    put_tick(image);
    Ok(())
}

// A sample of sixteen fields.
pub fn sample(image: &mut [u32; REGISTERS], fields: &[i32; 16]) -> Result<(), Misfit>
    ensures { Told (spec.sample_status fields.now image.old) (with_sample (spec.sample_of fields.now) (registers_of image.old)) image.old image.new (told result) }
{
    if !reg_range::in_range(image) {
        return Err(Misfit::Registers);
    }
    if !carried::sample_of(fields).in_range() {
        return Err(Misfit::Sample);
    }
    put::alarms(image, fields);
    put::inputs(image, fields);
    put::readings(image, fields);
    Ok(())
}
