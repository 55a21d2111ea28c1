// A deed done: the one place where a command changes anything, but for the accumulator and the address.
//
// Accumulator and address go by value, so that a run keeps them in machine registers; all else is written
// in place, in the image and in the lent parameter store.
ghost use Rattle.std.specs.Prelude.{◌<◌, ◌≡◌};
ghost use Rattle.rules.specs.Numbers as numbers;
ghost use Rattle.waiting.specs.Waiting.{armed_with};
ghost use Rattle.reg_image.specs.With.{in_core};
ghost use Rattle.cmd_turns.specs.Deed.{cleared_flags, doing, seen};
ghost use Rattle.reg_image.specs.Image.{registers_of, Leaves};
ghost use Rattle.machine.specs.Applied.{Makes, Pops};
ghost use Rattle.machine.specs.Applied as spec;

use crate::Stepped;
use cmd_turns::{Deed, Left, drop_wait};
use reg_image::{
    Depth, Eal, Edv, Entry, Epo, Eto, Last, Output, REGISTERS, Value, X, get, get_at, set, set_at,
};
use registers::Order;
use status::Status;
use waits::Wait;
use words::Word;

// The place of user variable 0.
const USER_VARIABLES: usize = 47;

// Made anew, field by field: a struct that is copied and changed in a part is copied in pieces. Three names
// for what becomes of the program, where one function of all four fields would be the struct again.
pub(crate) fn goes(accumulator: Word, address: u32, status: Status) -> Stepped
    ensures { result ≡ spec.goes accumulator address status }
{
    Stepped {
        accumulator: accumulator,
        address: address,
        status: status,
        left: Left::Goes,
    }
}

fn holds(accumulator: Word, address: u32) -> Stepped
    ensures { result ≡ spec.holds accumulator address }
{
    Stepped {
        accumulator: accumulator,
        address: address,
        status: Status::Done,
        left: Left::Holds,
    }
}

fn stops(accumulator: Word, address: u32, status: Status) -> Stepped
    ensures { result ≡ spec.stops accumulator address status }
{
    Stepped {
        accumulator: accumulator,
        address: address,
        status: status,
        left: Left::Stops,
    }
}

// A return address on the stack, where there is room. `stack` has this by value, as 01 wants it; a step
// writes the two places, and both are held to one definition.
fn push(image: &mut [u32; REGISTERS], back: u32)
    ensures { Leaves (spec.pushing back) image.old image.new }
{
    let depth = get::<Depth>(image);
    if depth < 8 {
        set_at::<Entry>(image, depth as usize, back);
        set::<Depth>(image, depth + 1);
    }
}

// The last return address off the stack, whose entry becomes 0.
fn pop(image: &mut [u32; REGISTERS]) -> u32
    ensures { Pops image.old result image.new }
{
    let depth = get::<Depth>(image);
    if depth == 0 {
        return 0;
    }
    if 8 < depth {
        return 0;
    }
    let less = depth - 1;
    let back = get_at::<Entry>(image, less as usize);
    set_at::<Entry>(image, less as usize, 0);
    set::<Depth>(image, less);
    back
}

// A flag after CLE of a type: 0 is ALL.
fn cleared(kind: u8, own: u8, flag: u32) -> u32
    ensures { result ≡ numbers.cleared kind own flag }
{
    if kind == 0 {
        return 0;
    }
    if kind == own { 0 } else { flag }
}

// The flags after CLE of a type.
fn clear(image: &mut [u32; REGISTERS], kind: u8)
    ensures { Leaves (in_core (cleared_flags kind)) image.old image.new }
{
    let eto = cleared(kind, 1, get::<Eto>(image));
    let eal = cleared(kind, 2, get::<Eal>(image));
    let edv = cleared(kind, 3, get::<Edv>(image));
    let epo = cleared(kind, 4, get::<Epo>(image));
    set::<Eto>(image, eto);
    set::<Eal>(image, eal);
    set::<Edv>(image, edv);
    set::<Epo>(image, epo);
}

// A wait with the count of a word.
fn armed_with(w: Word) -> Wait
    ensures { result ≡ armed_with w.v }
{
    let count = words::bits_of(w);
    Wait {
        armed: true,
        count: count,
        timed: 0 < count,
    }
}

// Position 50, and the order to go there.
fn move_to(image: &mut [u32; REGISTERS], w: Word)
    ensures { Leaves (spec.moving w.v) image.old image.new }
{
    set_at::<Value>(image, places::axis_place(50), w);
    reg_image::set_motion(image, Order::Position, Word { v: 0 });
}

// ETO, and no wait.
fn time_out(image: &mut [u32; REGISTERS])
    ensures { Leaves spec.timed_out image.old image.new }
{
    set::<Eto>(image, 1);
    drop_wait(image);
}

pub(crate) fn apply(
    deed: Deed,
    accumulator: Word,
    address: u32,
    image: &mut [u32; REGISTERS],
    store: &mut [u8],
) -> Stepped
    requires { address < 1024 }
    ensures { Makes (doing deed (seen accumulator address (registers_of image.old)) store.old) image.old result image.new store.new }
{
    let next = address + 1;
    match deed {
        Deed::Number(w) => goes(w, next, Status::Done),
        Deed::Numbers(w, x) => {
            set::<X>(image, x);
            goes(w, next, Status::Done)
        }
        Deed::Jump(to) => goes(accumulator, to as u32, Status::Done),
        Deed::Call(to) => {
            push(image, next);
            goes(accumulator, to as u32, Status::Done)
        }
        Deed::Back => {
            let back = pop(image);
            goes(accumulator, back, Status::Done)
        }
        Deed::Set(place, w) => {
            set_at::<Value>(image, place as usize, w);
            goes(accumulator, next, Status::Done)
        }
        Deed::Output(port, bit) => {
            set_at::<Output>(image, port as usize, bit);
            goes(accumulator, next, Status::Done)
        }
        Deed::Last(last) => {
            set::<Last>(image, last);
            goes(accumulator, next, Status::Done)
        }
        Deed::Clear(kind) => {
            clear(image, kind);
            goes(accumulator, next, Status::Done)
        }
        Deed::Order(order, velocity) => {
            reg_image::set_motion(image, order, velocity);
            goes(accumulator, next, Status::Done)
        }
        Deed::Move(w) => {
            move_to(image, w);
            goes(accumulator, next, Status::Done)
        }
        Deed::Store(cell, w) => {
            store::put_cell(store, cell as usize, w);
            goes(accumulator, next, Status::Done)
        }
        Deed::Global(place, w) => {
            set_at::<Value>(image, place as usize, w);
            store::put_cell(store, sheet::cell_of(place as usize), w);
            goes(accumulator, next, Status::Done)
        }
        Deed::Held(w) => {
            reg_image::set_wait(image, armed_with(w));
            holds(accumulator, address)
        }
        Deed::Waits => holds(accumulator, address),
        Deed::Passed => {
            drop_wait(image);
            goes(accumulator, next, Status::Done)
        }
        Deed::TimedOut => {
            time_out(image);
            goes(accumulator, next, Status::Done)
        }
        Deed::Dropped(refusal) => {
            drop_wait(image);
            goes(accumulator, next, Status::from(refusal))
        }
        Deed::Halt => {
            reg_image::empty_stack(image);
            stops(accumulator, 0, Status::Done)
        }
        Deed::Nothing => stops(accumulator, address, Status::Unknown),
        Deed::User(number, w) => {
            set_at::<Value>(image, USER_VARIABLES + number as usize, w);
            goes(accumulator, next, Status::Done)
        }
    }
}
