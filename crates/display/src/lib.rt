// The display's side of a serial line: commands built, replies read.
//
// No caller checks first: a buffer of another length than nine bytes is refused with 20, and a reply
// with a wrong checksum with 1.
#![tactic(auto)]

ghost use Rattle.std.specs.Prelude.{◌≡◌};
ghost use Rattle.wire.specs.Frame.{Wrote, command_frame, reply_of};
ghost use Rattle.display.specs.Display.{answer_of, read_of};

use wire::{Command, Reply, WrongLength};
use words::{Four, byte_in, word_of};

// Why lent bytes are no reply: of another length than nine, or with a wrong checksum.
#[derive(Clone, Copy, PartialEq, Eq, Debug)]
pub enum Unread {
    Length,
    Checksum,
}

// A command to the module at an address, into a lent buffer; one of another length than nine is left
// as it is.
pub fn build_command(out: &mut [u8], address: u8, command: Command) -> Result<(), WrongLength>
    ensures { Wrote 9 out.old out.new (command_frame address command) result }
{
    let value = command.value;
    wire::put_frame(
        out,
        address,
        command.number,
        command.kind,
        command.motor,
        value,
    )
}

// The fields of a reply, as its first eight bytes have them; 0 for each byte that is missing.
pub fn reply_in(bytes: &[u8]) -> Reply
    ensures { result ≡ reply_of bytes.now }
{
    let value = word_of(Four {
        b3: byte_in(bytes, 4),
        b2: byte_in(bytes, 5),
        b1: byte_in(bytes, 6),
        b0: byte_in(bytes, 7),
    });
    Reply {
        reply_address: byte_in(bytes, 0),
        module_address: byte_in(bytes, 1),
        status: byte_in(bytes, 2),
        command: byte_in(bytes, 3),
        value: value,
    }
}

// The reply in lent bytes of any length.
#[tactic(auto, unfolding(crate::specs::Display::read_of))]
pub fn read_reply(s: &[u8]) -> Result<Reply, Unread>
    ensures { answer_of result ≡ read_of s.now }
{
    if s.len() != 9 {
        return Err(Unread::Length);
    }
    if !checksum::is_right(s) {
        return Err(Unread::Checksum);
    }
    Ok(reply_in(s))
}
