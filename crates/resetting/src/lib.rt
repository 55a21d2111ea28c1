// 137 sets cells and working values to their defaults; these are the cells.
#![tactic(auto)]

ghost use Rattle.std.specs.Prelude.{◌≡◌};
ghost use Rattle.sheet.specs.Rows.{rows};
ghost use Rattle.resetting.specs.Laws.{Laws};
ghost use Rattle.resetting.specs.Resetting.{reset_cell, reset_cells};

// The cell of the value at a place to the default, where it has one.
fn reset_cell(store: &mut [u8], place: usize)
    ensures { store.new ≡ reset_cell rows place store.old }
{
    let row = sheet::row_at(place);
    if row.access.stores() {
        store::put_cell(store, sheet::cell_of(place), row.standard);
    }
}

// All cells, in rising order.
pub fn reset_cells(store: &mut [u8])
    ensures { store.new ≡ reset_cells rows 103 store.old }
{
    for place in 0..sheet::VALUES {
        reset_cell(store, place);
    }
}

// The laws of 137, held to be proved: the function does nothing.
pub fn laws()
    ensures { Laws }
{}
