// The board's side of a serial line: a command taken apart, a reply put together.
#![tactic(auto)]

ghost use Rattle.std.specs.Prelude.{◌≡◌};
ghost use Rattle.wire.specs.Frame.{Wrote, reply_frame};
ghost use Rattle.serial.specs.Serial.{taken_of};

use checksum::is_right;
use wire::{Command, Reply, WrongLength, command_in, put_frame};

// Why a datagram is no command to the board.
#[derive(Clone, Copy, PartialEq, Eq, Debug)]
pub enum NotTaken {
    // Of another length, or to another address: no reply.
    NotOurs,
    // A wrong checksum: the reply names the command as received.
    Damaged(u8),
}

// What a datagram of any length is to the board whose address is `ours`.
#[tactic(auto, unfolding(crate::specs::Serial::taken_of))]
pub fn take_command(s: &[u8], ours: u8) -> Result<Command, NotTaken>
    ensures { result ≡ taken_of ours s.now }
{
    if s.len() != 9 {
        return Err(NotTaken::NotOurs);
    }
    if s[0] != ours {
        return Err(NotTaken::NotOurs);
    }
    if !is_right(s) {
        return Err(NotTaken::Damaged(s[1]));
    }
    Ok(command_in(&s[1..8]))
}

// A reply into a lent buffer; one of another length than nine is left as it is.
pub fn put_reply(out: &mut [u8], reply: Reply) -> Result<(), WrongLength>
    ensures { Wrote 9 out.old out.new (reply_frame reply) result }
{
    let value = reply.value;
    put_frame(
        out,
        reply.reply_address,
        reply.module_address,
        reply.status,
        reply.command,
        value,
    )
}
