// The display's side.
ghost use Rattle.std.specs.Prelude.{◌<◌, ◌≡◌, set};
ghost use Rattle.std.proofs.lemmas.List.Edits.{sets};
ghost use Rattle.words.specs.Word.{word, of_bits};
ghost use Rattle.display.specs.Display.{refused};
ghost use Rattle.wire.specs.Frame.{written_status};
ghost use Rattle.numbered.specs.Host as spec;

use checksum::is_right;
use display::reply_in;
use wire::{Command, WrongLength};
use words::Word;

// A function and no `From`, since neither type is of this crate.
fn number_of(written: Result<(), WrongLength>) -> u8
    ensures { result ≡ written_status written }
{
    match written {
        Ok(()) => 100,
        Err(WrongLength) => 20,
    }
}

// A command to the module at an address, into a lent buffer.
pub fn build_command(out: &mut [u8], address: u8, number: u8, kind: u8, motor: u8, value: i32) -> u8
    ensures { spec.bytes_left result out.new ≡ spec.built address (spec.command number kind motor value) out.old }
{
    let command = Command {
        number: number,
        kind: kind,
        motor: motor,
        value: Word { v: value },
    };
    number_of(display::build_command(out, address, command))
}

// The five numbers of a reply to an address, from a module. Its fields come one by one: a struct that is
// handed on is copied in pieces.
fn put_reply(numbers: &mut [i32; 5], to: u8, from: u8, status: u8, command: u8, value: Word)
    ensures { numbers.new ≡ sets numbers.old 0 (spec.five_of to from status command value) }
{
    *numbers = [
        i32::from(to),
        i32::from(from),
        i32::from(status),
        i32::from(command),
        value.v,
    ];
}

// No numbers.
fn clear(numbers: &mut [i32; 5])
    ensures { numbers.new ≡ sets numbers.old 0 (spec.numbers_of (refused 0)) }
{
    *numbers = [0; 5];
}

// The reply in lent bytes of any length: its reply address, module address, status, command and value,
// or 0 each where it is refused. The numbers are put before the sum is looked at, so that the compiler
// takes the bytes together for each of the two.
pub fn read_reply(bytes: &[u8], numbers: &mut [i32; 5]) -> u8
    ensures { spec.numbers_left result numbers.new ≡ spec.read bytes.now numbers.old }
{
    if bytes.len() != 9 {
        clear(numbers);
        return 20;
    }
    let r = reply_in(bytes);
    put_reply(
        numbers,
        r.reply_address,
        r.module_address,
        r.status,
        r.command,
        r.value,
    );
    if is_right(bytes) {
        return 100;
    }
    clear(numbers);
    1
}
