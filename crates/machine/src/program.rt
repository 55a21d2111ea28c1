// The steps of a program, from the registers as an image has them to the registers as they are left.
ghost use Rattle.std.specs.Prelude.{◌<◌, ◌≡◌, length};
ghost use Rattle.status.specs.declared.Status.TheVariants as status;
ghost use Rattle.cmd_turns.specs.declared.Left.TheVariants as left;
ghost use Rattle.cmd_turns.specs.Turn.{turn};
ghost use Rattle.reg_image.specs.Image.{registers_of, Leaves};
ghost use Rattle.machine.specs.Steps.{going};
ghost use Rattle.machine.specs.Alone as spec;

use crate::steps::go;
use crate::{Gone, Made, PROGRAM};
use cmd_turns::{Left, drop_wait};
use reg_image::{Accumulator, Address, REGISTERS, Running};
use status::Status;

// Whether the record at an address is a WAIT.
fn is_wait(address: u32, program: &[u8; PROGRAM]) -> bool
    ensures { result ≡ spec.is_wait program.now address }
{
    if address < 1024 {
        let at = address as usize * 7;
        return program[at] == 27;
    }
    false
}

// Any step that is not a WAIT drops the wait. A step that leaves one armed ends the run, so only the first
// step can find one, and it is dropped here.
fn begin(image: &mut [u32; REGISTERS], program: &[u8; PROGRAM])
    ensures { Leaves (spec.readied program.now) image.old image.new }
{
    let address = reg_image::get::<Address>(image);
    if !is_wait(address, program) {
        drop_wait(image);
    }
}

fn is_stop(left: Left) -> bool
    ensures { result ≡ spec.is_stop left }
{
    matches!(left, Left::Stops)
}

// What was carried by value goes back to its places.
fn finish(image: &mut [u32; REGISTERS], gone: Gone)
    ensures { Leaves (spec.finished gone) image.old image.new }
{
    reg_image::set::<Accumulator>(image, gone.accumulator);
    reg_image::set::<Address>(image, gone.address);
    if is_stop(gone.left) {
        reg_image::set::<Running>(image, false);
    }
}

// Steps of the 1,024 records, at most so many.
fn walk(
    image: &mut [u32; REGISTERS],
    store: &mut [u8],
    program: &[u8; PROGRAM],
    budget: usize,
) -> Gone
    ensures { spec.Walks (going program.now 0 1024 budget (turn (spec.readied program.now (registers_of image.old)) store.old status.Done left.Goes)) image.old result image.new store.new }
{
    begin(image, program);
    let from = reg_image::get::<Accumulator>(image);
    let address = reg_image::get::<Address>(image);
    let gone = go(from, address, image, store, program, 0, 1024, budget);
    finish(image, gone);
    gone
}

// One step, whether or not the program runs, and its status. There is none of a program of another length.
pub fn step_alone(image: &mut [u32; REGISTERS], store: &mut [u8], program: &[u8]) -> Status
    ensures { (length program.now ≡ 7168 → spec.StepsAlone program.now image.old store.old result image.new store.new) × ((length program.now ≡ 7168 → ⊥) → (result ≡ status.Done) × spec.Stays image.old store.old image.new store.new) }
{
    match <&[u8; PROGRAM]>::try_from(program) {
        Ok(records) => walk(image, store, records, 1).status,
        Err(_) => Status::Done,
    }
}

// The steps of a run. One that has nothing to do ends before it looks at anything else.
pub fn run(image: &mut [u32; REGISTERS], store: &mut [u8], program: &[u8], budget: usize) -> Made
    ensures { (length program.now ≡ 7168 → spec.Runs program.now budget image.old store.old result image.new store.new) × ((length program.now ≡ 7168 → ⊥) → (result ≡ spec.none_made) × spec.Stays image.old store.old image.new store.new) }
{
    let Ok(records) = <&[u8; PROGRAM]>::try_from(program) else {
        return none_made();
    };
    if !reg_image::get::<Running>(image) {
        return none_made();
    }
    if budget == 0 {
        return none_made();
    }
    let gone = walk(image, store, records, budget);
    let status = gone.status;
    Made {
        status: status,
        steps: budget - gone.unused,
    }
}

fn none_made() -> Made
    ensures { result ≡ spec.none_made }
{
    Made {
        status: Status::Done,
        steps: 0,
    }
}
