// Power-up.
//
// The image may hold anything before: it is cleared, and then each working value is put to its place.
ghost use Rattle.std.specs.Prelude.{◌+◌, ◌≤◌, ◌<◌};
ghost use Rattle.status.specs.Misfit.{told};
ghost use Rattle.board.specs.Registers.{unpowered, powered};
ghost use Rattle.board_events.specs.Standing.{Is, Told};
ghost use Rattle.board_events.specs.Events as spec;
ghost use Rattle.board_events.specs.Filling.{Fills};

use reg_image::{REGISTERS, Running, Value, get_at, set, set_at};
use sheet::{VALUES, WITHOUT_CELL};
use status::Misfit;
use words::Word;

// So many values are filled by fours: the 47 that the sheet lists, and the first user variable.
const BY_FOURS: usize = 48;

// Every register 0, "equal", "stopped".
fn clear(image: &mut [u32; REGISTERS])
    ensures { Is image.new unpowered }
{
    *image = [0; REGISTERS];
}

// The working value at a place, from its cell or by default.
fn fill(image: &mut [u32; REGISTERS], cells: &[u8], place: usize)
    requires { place < 103 }
    ensures { Fills cells.now place (place + 1) image.old image.new }
{
    set_at::<Value>(image, place, values::powered_value(cells, place));
}

// The four values from a place on. Callers name the place, and four calls are few enough to be merged into
// them: so the compiler knows each row.
fn fill_four(image: &mut [u32; REGISTERS], cells: &[u8], place: usize)
    requires { place + 4 ≤ 103 }
    ensures { Fills cells.now place (place + 4) image.old image.new }
{
    fill(image, cells, place);
    fill(image, cells, place + 1);
    fill(image, cells, place + 2);
    fill(image, cells, place + 3);
}

// The first values.
fn fill_parameters(image: &mut [u32; REGISTERS], cells: &[u8])
    ensures { Fills cells.now 0 48 image.old image.new }
{
    fill_four(image, cells, 0);
    fill_four(image, cells, 4);
    fill_four(image, cells, 8);
    fill_four(image, cells, 12);
    fill_four(image, cells, 16);
    fill_four(image, cells, 20);
    fill_four(image, cells, 24);
    fill_four(image, cells, 28);
    fill_four(image, cells, 32);
    fill_four(image, cells, 36);
    fill_four(image, cells, 40);
    fill_four(image, cells, 44);
}

// A user variable takes what its cell has, whatever that is.
fn fill_variable(image: &mut [u32; REGISTERS], cells: &[u8], place: usize)
    requires { (47 ≤ place) × (place < 103) }
    ensures { Fills cells.now place (place + 1) image.old image.new }
{
    set_at::<Value>(image, place, store::cell_at(cells, place - WITHOUT_CELL));
}

// The other user variables.
fn fill_user(image: &mut [u32; REGISTERS], cells: &[u8])
    ensures { Fills cells.now 48 103 image.old image.new }
{
    for place in BY_FOURS..VALUES {
        fill_variable(image, cells, place);
    }
}

// Whatever the image held, it is written whole, from a store of its length.
pub fn power_up(image: &mut [u32; REGISTERS], cells: &[u8]) -> Result<(), Misfit>
    ensures { Told (spec.power_status cells.now) (powered cells.now) image.old image.new (told result) }
{
    if !store::is_parameter_store(cells) {
        return Err(Misfit::Length);
    }
    clear(image);
    fill_parameters(image, cells);
    fill_user(image, cells);
    // Global 77.
    let starts = order::equals(get_at::<Value>(image, 46), Word { v: 1 });
    set::<Running>(image, starts);
    Ok(())
}
