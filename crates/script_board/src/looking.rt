// The dump: the registers in their order, and each store's length and mix.
ghost use Rattle.std.specs.Prelude.{◌<◌};

use crate::bench::Board;
use reg_image::REGISTERS;
use text::{Output, Words};

// The mix of a store is mix = mix * FACTOR + byte, of 32 bits, for each byte. Four bytes are mixed at once,
// by the factor's powers, so that a dump is not spent on waiting for products.
const START: u32 = 2166136261;

const FACTOR: u32 = 16777619;

const FACTOR_2: u32 = 637696617;

const FACTOR_3: u32 = 1055306571;

const FACTOR_4: u32 = 1345077009;

// The place of the wait's count, the one register that has no sign.
const COUNT: usize = 10;

// Where the register at a place of the dump stands in the image, which has the axis parameters behind the
// globals and the user variables. The places are the script format's own, docs/SCRIPT.md.
pub(crate) fn image_place(place: usize) -> usize
    requires { place < 137 }
    ensures { result < 137 }
{
    match place {
        0..=33 => place,
        34..=76 => place + 60,
        _ => place - 43,
    }
}

fn mix(store: &[u8]) -> u32 {
    let (fours, rest) = store.as_chunks::<4>();
    let mut mix = START;
    for [first, second, third, last] in fours {
        mix = mix
            .wrapping_mul(FACTOR_4)
            .wrapping_add(u32::from(*first).wrapping_mul(FACTOR_3))
            .wrapping_add(u32::from(*second).wrapping_mul(FACTOR_2))
            .wrapping_add(u32::from(*third).wrapping_mul(FACTOR))
            .wrapping_add(u32::from(*last));
    }
    for byte in rest {
        mix = mix.wrapping_mul(FACTOR).wrapping_add(u32::from(*byte));
    }
    mix
}

fn put_store(out: &mut Output, store: &[u8]) {
    out.put_number(store.len() as u64);
    out.put_number(u64::from(mix(store)));
}

fn put_registers(out: &mut Output, image: &[u32; REGISTERS]) {
    for place in 0..REGISTERS {
        let number = image[image_place(place)];
        if place == COUNT {
            out.put_number(u64::from(number));
        } else {
            out.put_signed(words::of_bits(number).v);
        }
    }
}

pub(crate) fn dump(board: &Board, words: Words, out: &mut Output) -> Option<()> {
    words.end()?;
    out.put(b'u');
    put_registers(out, &board.image);
    put_store(out, board.program.as_slice());
    put_store(out, board.cells.as_slice());
    put_store(out, board.reply.as_slice());
    Some(())
}
