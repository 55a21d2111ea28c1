// What a datagram is received as, and its reply.
ghost use Rattle.std.specs.Prelude.{ℕ, true, ◌≡◌};
ghost use Rattle.status.specs.Status.{number_of};
ghost use Rattle.serial.specs.Serial.{taken_of};
ghost use Rattle.rules.specs.Datagram.{lent, board, obeyed_by, received};
ghost use Rattle.reg_image.specs.Image.{registers_of};
ghost use Rattle.board_datagrams.specs.Command.{Ready};
ghost use Rattle.board_datagrams.specs.Datagram.{Gives, number_replied};
ghost use Rattle.board_datagrams.specs.Datagram as spec;

use crate::addresses;
use crate::obeying::obey;
use cmd_turns::Obeyed;
use reg_image::REGISTERS;
use serial::NotTaken;
use status::Status;
use wire::Command;
use words::Word;

// Obeys a command, and replies from the addresses of before.
#[tactic(auto, unfolding(rules::specs::Datagram::obeyed_by))]
fn answer(
    image: &mut [u32; REGISTERS],
    program: &mut [u8],
    cells: &mut [u8],
    reply: &mut [u8],
    c: Command,
    frame: &[u8],
) -> Status
    ensures { Ready c frame.now program.old cells.old → Gives (obeyed_by c (board (registers_of image.old) program.old cells.old reply.old)) image.old (number_of result) image.new program.new cells.new reply.new }
{
    let from = addresses(image);
    let obeyed = obey(image, program, cells, c, frame).unwrap_or_else(Obeyed::refused);
    replying::reply_with(reply, from, obeyed.status, c.number, obeyed.value);
    obeyed.status
}

// A damaged frame: value 0, and nothing changes but the reply.
fn refuse(image: &[u32; REGISTERS], reply: &mut [u8], number: u8) -> Status
    ensures { spec.Refuses image.now reply.old number (number_of result) reply.new }
{
    replying::reply_with(
        reply,
        addresses(image),
        Status::Checksum,
        number,
        Word { v: 0 },
    );
    Status::Checksum
}

// Nothing of ours, damaged, or a command.
#[tactic(auto, unfolding(rules::specs::Datagram::received))]
pub(crate) fn receive(
    image: &mut [u32; REGISTERS],
    program: &mut [u8],
    cells: &mut [u8],
    reply: &mut [u8],
    bytes: &[u8],
    taken: Result<Command, NotTaken>,
) -> Option<Status>
    ensures { (ours : ℕ) → taken ≡ taken_of ours bytes.now → lent program.old cells.old reply.old ≡ true → Gives (received taken (board (registers_of image.old) program.old cells.old reply.old)) image.old (number_replied result) image.new program.new cells.new reply.new }
{
    match taken {
        Err(NotTaken::NotOurs) => None,
        Err(NotTaken::Damaged(number)) => Some(refuse(image, reply, number)),
        Ok(c) => Some(answer(image, program, cells, reply, c, bytes)),
    }
}
