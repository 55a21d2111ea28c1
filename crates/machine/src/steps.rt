// Steps: a record is read in the arm of its number, decided, and done. `step` is called from one place, so
// that the compiler makes one loop of all this, and keeps accumulator and address in machine registers.
ghost use Rattle.std.specs.Prelude.{◌+◌, ◌*◌, ◌<◌, ◌≤◌, ◌≡◌, length, get_or};
ghost use Rattle.wire.specs.Frame.{command_at};
ghost use Rattle.registers.specs.Registers.{next_address};
ghost use Rattle.status.specs.declared.Status.TheVariants as status;
ghost use Rattle.cmd_turns.specs.declared.Left.TheVariants as left;
ghost use Rattle.cmd_turns.specs.Turn.{turn};
ghost use Rattle.cmd_turns.specs.Deed.{seen};
ghost use Rattle.reg_image.specs.Image.{registers_of};
ghost use Rattle.machine.specs.Applied.{Makes};
ghost use Rattle.machine.specs.Steps as spec;

use crate::deeds::{apply, goes};
use crate::{Gone, Stepped};
use cmd_turns::{Deed, Left};
use reg_image::{Depth, REGISTERS};
use status::{Refusal, Status};
use wire::command_in;
use words::Word;

// CSUB and RSUB are told apart by tests behind the match: calls nest and returns follow one another, and in
// a row of equal steps a processor foresees a test from further back than the target of a jump. What both
// need is read before the tests, else the compiler makes them cases of the jump again. The match is by the
// record's byte: an enum of commands would be made by one such match and read by another.
fn decide(
    number: u8,
    seven: &[u8],
    accumulator: Word,
    address: u32,
    next: u16,
    image: &[u32; REGISTERS],
    store: &[u8],
) -> Result<Deed, Refusal>
    requires { (number ≡ get_or seven.now 0 0) × (next_address address ≡ next) }
    ensures { spec.Right (command_at seven.now 0) accumulator address (registers_of image.now) store.now result }
{
    match number {
        1 => cmd_axis::right(command_in(seven), image),
        2 => cmd_axis::left(command_in(seven), image),
        3 => cmd_axis::stop(command_in(seven)),
        4 => cmd_axis::mvp(command_in(seven), image),
        5 => cmd_axis::sap(command_in(seven)),
        6 => cmd_axis::gap(command_in(seven), image),
        7 => cmd_axis::stap(command_in(seven), image),
        8 => cmd_axis::rsap(command_in(seven), store),
        9 => cmd_globals::sgp(command_in(seven), image),
        10 => cmd_globals::ggp(command_in(seven), address, image),
        11 => cmd_globals::stgp(command_in(seven), image),
        12 => cmd_globals::rsgp(command_in(seven), store),
        14 => cmd_globals::sio(command_in(seven)),
        15 => cmd_globals::gio(command_in(seven), image),
        19 => cmd_numbers::calc(command_in(seven), accumulator),
        20 => cmd_numbers::comp(command_in(seven), accumulator),
        21 => cmd_flow::jc(command_in(seven), accumulator, next, image),
        22 => cmd_flow::ja(command_in(seven)),
        27 => cmd_flow::wait(command_in(seven), accumulator, image),
        28 => Ok(Deed::Halt),
        33 => cmd_numbers::calcx(command_in(seven), accumulator, image),
        34 => cmd_axis::aap(command_in(seven), accumulator),
        35 => cmd_globals::agp(command_in(seven), accumulator, image),
        36 => cmd_numbers::clear(command_in(seven)),
        _ => {
            let depth = reg_image::get::<Depth>(image);
            if number == 23 {
                return cmd_flow::csub(command_in(seven), depth);
            }
            if number == 24 {
                return cmd_flow::rsub(depth);
            }
            Ok(Deed::Nothing)
        }
    }
}

// One step, at one of so many records, from a place on.
fn step(
    accumulator: Word,
    address: u32,
    image: &mut [u32; REGISTERS],
    store: &mut [u8],
    program: &[u8],
    first: usize,
    records: u32,
) -> Stepped
    requires { (address < records) × (first + records * 7 ≤ length program.now) × (records ≤ 1024) }
    ensures { Makes (spec.step_turn program.now first records (seen accumulator address (registers_of image.old)) store.old) image.old result image.new store.new }
{
    let p = first + address as usize * 7;
    let next = (address + 1) as u16;
    let number = program[p];
    match decide(
        number,
        &program[p..p + 7],
        accumulator,
        address,
        next,
        image,
        store,
    ) {
        Ok(deed) => apply(deed, accumulator, address, image, store),
        Err(refusal) => goes(accumulator, address + 1, Status::from(refusal)),
    }
}

fn goes_on(left: Left) -> bool
    ensures { result ≡ spec.is_going left }
{
    matches!(left, Left::Goes)
}

// Steps until the budget is used or one does not go on. The end of the records is told here: what a step
// answers there is not held in a machine register at every other one.
pub(crate) fn go(
    from: Word,
    address: u32,
    image: &mut [u32; REGISTERS],
    store: &mut [u8],
    program: &[u8],
    first: usize,
    records: u32,
    budget: usize,
) -> Gone
    requires { (first + records * 7 ≤ length program.now) × (records ≤ 1024) }
    ensures { spec.Goings (spec.going program.now first records budget (turn (seen from address (registers_of image.old)) store.old status.Done left.Goes)) image.old result image.new store.new }
{
    let mut accumulator = from;
    let mut there = address;
    let mut status = Status::Done;
    for made in 0..budget {
        if records <= there {
            return Gone {
                accumulator: accumulator,
                address: there,
                status: Status::Value,
                left: Left::Stops,
                unused: budget - made - 1,
            };
        }
        let stepped = step(accumulator, there, image, store, program, first, records);
        accumulator = stepped.accumulator;
        there = stepped.address;
        status = stepped.status;
        let left = stepped.left;
        if !goes_on(left) {
            return Gone {
                accumulator: accumulator,
                address: there,
                status: status,
                left: left,
                unused: budget - made - 1,
            };
        }
    }
    Gone {
        accumulator: accumulator,
        address: there,
        status: status,
        left: Left::Goes,
        unused: 0,
    }
}
