// A reply to a command: its nine bytes, and the two addresses that it is sent from and to.
#![tactic(auto)]

ghost use Rattle.std.specs.Prelude.{◌≡◌};
ghost use Rattle.replying.specs.Reply as spec;

use status::Status;
use wire::Reply;
use words::Word;

// The two addresses of a reply.
#[derive(Clone, Copy)]
pub struct Addresses {
    pub reply_address: u8,
    pub module_address: u8,
}

// Writes a reply of nine bytes, and answers the number of the status. A buffer of another length stays
// as it is.
#[tactic(auto, unfolding(crate::specs::Reply::replied))]
pub fn reply_with(reply: &mut [u8], from: Addresses, status: Status, number: u8, value: Word) -> u8
    ensures { spec.Replies from status number value reply.old result reply.new }
{
    let told = u8::from(status);
    let _ = serial::put_reply(
        reply,
        Reply {
            reply_address: from.reply_address,
            module_address: from.module_address,
            status: told,
            command: number,
            value: value,
        },
    );
    told
}
