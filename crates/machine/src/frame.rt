// A command of direct mode: the seven bytes behind the first of a frame are a program of one record.
ghost use Rattle.std.specs.Prelude.{ℕ, ◌≡◌, false, ◌&&◌, List, eqb, length};
ghost use Rattle.wire.specs.Frame.{command_at};
ghost use Rattle.judge.specs.Judge.{is_flow};
ghost use Rattle.rules.specs.Direct as directs;
ghost use Rattle.rules.specs.Obey as obeying;
ghost use Rattle.reg_image.specs.Image.{registers_of};
ghost use Rattle.cmd_turns.specs.Obeys.{Obeys};
ghost use Rattle.cmd_turns.specs.Obeyed.{refused};
ghost use Rattle.status.specs.declared.Status.TheVariants as status;
ghost use Rattle.machine.specs.Alone.{Stays};
ghost use Rattle.machine.specs.Direct as spec;

use crate::steps::go;
use cmd_turns::Obeyed;
use reg_image::{Accumulator, Address, REGISTERS};
use status::{Refusal, Status};
use wire::{Command, command_in};
use words::Word;

// The value of a reply to a command that was done: CALC and CALCX answer the accumulator.
fn answer(c: Command, accumulator: Word) -> Word
    ensures { result ≡ spec.answer c accumulator }
{
    if matches!(c.number, 19 | 33) {
        accumulator
    } else {
        c.value
    }
}

// GGP 130 reads the program address, which the one record of a frame does not have.
fn reads_address(c: Command) -> bool
    ensures { result ≡ (eqb c.number 10 && eqb c.kind 130) }
{
    c.number == 10 && c.kind == 130
}

fn show_address(c: Command, image: &[u32; REGISTERS]) -> Obeyed
    ensures { spec.Shows c image.now result }
{
    match global_fields::ggp(c) {
        Ok(()) => Obeyed {
            status: Status::Done,
            value: words::of_bits(reg_image::get::<Address>(image)),
        },
        Err(refusal) => Obeyed::refused(refusal),
    }
}

// One step of the frame's record. What it carries goes back unless the command is refused or only reads. The
// value to answer is read again behind the step, so that nothing of the command is kept across it.
fn obey_record(image: &mut [u32; REGISTERS], store: &mut [u8], frame: &[u8], c: Command) -> Obeyed
    requires { (length frame.now ≡ 9) × (c ≡ command_at frame.now 1) × (is_flow c.number ≡ false) × ((eqb c.number 10 && eqb c.kind 130) ≡ false) }
    ensures { Obeys (obeying.direct c (registers_of image.old) store.old) image.old result image.new store.new }
{
    let from = reg_image::get::<Accumulator>(image);
    let gone = go(from, 0, image, store, frame, 1, 1, 1);
    let status = gone.status;
    let accumulator = gone.accumulator;
    if !status.is_done() {
        return Obeyed {
            status: status,
            value: Word { v: 0 },
        };
    }
    if judge::is_reading(c.number) {
        return Obeyed {
            status: status,
            value: accumulator,
        };
    }
    reg_image::set::<Accumulator>(image, accumulator);
    Obeyed {
        status: status,
        value: answer(command_in(&frame[1..8]), accumulator),
    }
}

// A command of direct mode, in a frame of nine bytes; a frame of another length has none. One that only a program has is refused before its
// fields are looked at.
pub fn direct(image: &mut [u32; REGISTERS], store: &mut [u8], frame: &[u8]) -> Obeyed
    ensures { (length frame.now ≡ 9 → Obeys (obeying.direct (command_at frame.now 1) (registers_of image.old) store.old) image.old result image.new store.new) × ((length frame.now ≡ 9 → ⊥) → (result ≡ refused status.Unknown) × Stays image.old store.old image.new store.new) }
{
    if frame.len() != 9 {
        return Obeyed::refused(Refusal::Unknown);
    }
    let c = command_in(&frame[1..8]);
    if judge::is_flow(c.number) {
        return Obeyed::refused(Refusal::Unavailable);
    }
    if reads_address(c) {
        return show_address(c, image);
    }
    obey_record(image, store, frame, c)
}
