// What the programs that read and write share: bytes read until a room is full, how many arguments there
// are, words put where they may be lost, bytes spelled as digits, and the line that says what failed and why.
#![tactic(auto)]

ghost use Rattle.std.specs.Prelude.{◌≤◌, IfOk, Some, length};
ghost use Rattle.streams.specs.Spelled.{spelled};

use std::env::FillError;
use std::fmt::Display;
use std::io::{Read, Write};
use std::rt::Env;
use std::{fmt, io};

// Reads until the room is full, the input ends or a read fails.
pub fn fill(from: &mut impl Read, room: &mut [u8]) -> io::Result<usize>
    ensures { IfOk result (λ n. n ≤ length room.new) }
{
    let mut held = 0;
    while held < room.len() {
        let count = from.read(&mut room[held..])?;
        if count == 0 {
            break;
        }
        held += count;
    }
    Ok(held)
}

// How many arguments there are, the program's own name among them.
pub fn argument_count(rt: &impl Env) -> usize {
    (0..usize::MAX)
        .find(|&place| matches!(rt.arg(place, &mut []), Err(FillError::NotPresent)))
        .unwrap_or(usize::MAX)
}

// Bytes as two digits each, single spaces between.
#[derive(Clone, Copy)]
pub struct Spelled<'a>(pub &'a [u8]);

impl Display for Spelled<'_> {
    ghost output = { λ s. Some (spelled s.0.now) };

    fn fmt<W: fmt::Write>(&self, f: &mut fmt::Formatter<W>) -> fmt::Result {
        if let [first, rest @ ..] = self.0 {
            write!(f, "{first:02X}")?;
            for byte in rest {
                write!(f, " {byte:02X}")?;
            }
        }
        Ok(())
    }
}

// Words on a stream. Where it takes no more, they are lost and the program goes on.
pub fn put(stream: &impl Print, words: impl Display + Drop) {
    let _ = stream.print(words);
}

// The same, and the end of the line.
pub fn say(stream: &impl Print, line: impl Display + Drop) {
    let _ = stream.println(line);
}

// The system's words of an error: as std prints them, they have its number behind them, and what is left of
// the room behind that is zeros. Words without a number have the zeros trimmed, as a test holds.
fn cause(said: &str) -> &str {
    match said.split_once(" (os error ") {
        Some((before, _)) => before,
        None => said.trim_end_matches('\0'),
    }
}

// Tells on a stream that something of this name failed, and why. Where the stream takes no more, the line
// is lost. The name is written and not printed, since it is bytes that need not be text.
pub fn tell(stream: &impl Print, name: &[u8], error: &io::Error) {
    let mut said = [0u8; 256];
    let mut room: &mut [u8] = &mut said;
    let _ = write!(room, "{error}");
    let _ = stream.write_all(name);
    let _ = stream.write_all(b": ");
    if let Ok(text) = str::from_utf8(&said) {
        let _ = stream.write_all(cause(text).as_bytes());
    }
    let _ = stream.write_all(b"\n");
}

#[cfg(test)]
mod tests {
    use super::*;

    // So many arguments of one byte.
    struct Given(usize);

    impl Env for Given {
        fn arg(&self, i: usize, buf: &mut [u8]) -> Result<usize, FillError> {
            if self.0 <= i {
                return Err(FillError::NotPresent);
            }
            if buf.is_empty() {
                return Err(FillError::TooLong);
            }
            Ok(1)
        }

        fn var(&self, _name: &str, _buf: &mut [u8]) -> Result<usize, FillError> {
            Err(FillError::NotPresent)
        }

        fn var_at(&self, _i: usize, _buf: &mut [u8]) -> Result<usize, FillError> {
            Err(FillError::NotPresent)
        }
    }

    #[test]
    fn the_arguments_are_counted(rt: HostRuntime) {
        assert_eq!(rt; argument_count(&Given(0)), 0);
        assert_eq!(rt; argument_count(&Given(3)), 3);
    }

    #[test]
    fn bytes_are_spelled(rt: HostRuntime) {
        let mut said = [b'.'; 12];
        let mut room: &mut [u8] = &mut said;
        let _ = write!(room, "{}{}", Spelled(&[]), Spelled(&[0, 0x1f, 0xaa]));
        assert_eq!(rt; said, *b"00 1F AA....");
    }

    #[test]
    fn the_number_goes(rt: HostRuntime) {
        assert_eq!(rt;
            cause("No such file or directory (os error 2)\0\0"),
            "No such file or directory"
        );
        assert_eq!(rt;
            cause("failed to write whole buffer\0\0"),
            "failed to write whole buffer"
        );
    }
}
