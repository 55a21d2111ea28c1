// The event datagram over an image of the registers: the reply's status, no reply, or what does not fit.
// `number_answered` in a contract is document 01's number of each.
#![tactic(auto)]

ghost use Rattle.std.specs.Prelude.{◌≡◌};
ghost use Rattle.words.specs.Bytes.{four_of};
ghost use Rattle.values.specs.Values.{value_at};
ghost use Rattle.replying.specs.Reply as replies;
ghost use Rattle.reg_image.specs.Image.{registers_of};
ghost use Rattle.board_datagrams.specs.Datagram.{Answers, number_answered};

use reg_image::{REGISTERS, Value, get_at};
use replying::Addresses;
use status::{Misfit, Status};

mod controls;
mod obeying;
mod receiving;

// The places of globals 66 and 76.
const MODULE_ADDRESS: usize = 43;

const REPLY_ADDRESS: usize = 45;

// The lowest byte of a working value.
fn byte_of(image: &[u32; REGISTERS], place: usize) -> u8
    ensures { result ≡ (four_of (value_at (registers_of image.now).values place).v).b0 }
{
    words::four_of(get_at::<Value>(image, place)).b0
}

#[tactic(auto, unfolding(replying::specs::Reply::byte_of), using(crate::proofs::Taking::module_place))]
fn module_address(image: &[u32; REGISTERS]) -> u8
    ensures { result ≡ replies.byte_of (registers_of image.now).values 66 }
{
    byte_of(image, MODULE_ADDRESS)
}

// The two addresses of a reply.
#[tactic(auto, unfolding(replying::specs::Reply::byte_of, replying::specs::Reply::addresses), using(crate::proofs::Taking::module_place, crate::proofs::Taking::reply_place))]
pub(crate) fn addresses(image: &[u32; REGISTERS]) -> Addresses
    ensures { result ≡ replies.addresses (registers_of image.now).values }
{
    Addresses {
        reply_address: byte_of(image, REPLY_ADDRESS),
        module_address: byte_of(image, MODULE_ADDRESS),
    }
}

// A datagram of any bytes: the reply's status, or none where there is no reply by length or address.
//
// What is lent goes on in its four parts: of a struct that holds the four loans, each function would have to
// promise that each is the same loan still.
#[tactic(auto, unfolding(crate::specs::Datagram::answered))]
pub fn datagram(
    image: &mut [u32; REGISTERS],
    program: &mut [u8],
    cells: &mut [u8],
    reply: &mut [u8],
    bytes: &[u8],
) -> Result<Option<Status>, Misfit>
    ensures { Answers bytes.now image.old program.old cells.old reply.old (number_answered result) image.new program.new cells.new reply.new }
{
    if reply.len() != 9 {
        return Err(Misfit::Length);
    }
    reg_range::fitting(image, program, cells)?;
    let taken = serial::take_command(bytes, module_address(image));
    Ok(receiving::receive(image, program, cells, reply, bytes, taken))
}
