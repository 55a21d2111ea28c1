// The events under test: a line's words, the event, and the words that it is answered by.
//
// A line that does not read is answered by nothing here, and leaves the board as it is. Board, words and
// output are three parameters and no struct, since each line needs them in other ways.
use crate::bench::Board;
use status::Misfit;
use text::{Output, Words};

// A letter, and the status behind it.
fn put_status(out: &mut Output, letter: u8, status: u8) {
    out.put(letter);
    out.put_number(u64::from(status));
}

// The number of an event that is carried out, or does not fit.
fn number(event: Result<(), Misfit>) -> u8 {
    event.map_or_else(u8::from, |()| 100)
}

// A datagram's status, whether it was replied to, and the reply buffer.
pub(crate) fn datagram(board: &mut Board, words: Words, out: &mut Output) -> Option<()> {
    let mut room = [0; 64];
    let count = words.bytes(&mut room)?;
    let answered = board.datagram(&room[..count]);
    let status = answered.map_or_else(u8::from, |replied| replied.map_or(0, u8::from));
    put_status(out, b'd', status);
    out.put_number(u64::from(matches!(answered, Ok(Some(_)))));
    out.put_bytes(board.reply.as_slice());
    Some(())
}

pub(crate) fn sample(board: &mut Board, mut words: Words, out: &mut Output) -> Option<()> {
    let fields = words.words::<16>()?;
    words.end()?;
    put_status(out, b's', number(board.sample(&fields)));
    Some(())
}

pub(crate) fn tick(board: &mut Board, words: Words, out: &mut Output) -> Option<()> {
    words.end()?;
    put_status(out, b't', number(board.tick()));
    Some(())
}

pub(crate) fn run(board: &mut Board, mut words: Words, out: &mut Output) -> Option<()> {
    let budget = words.up_to(usize::MAX)?;
    words.end()?;
    let ran = board.run(budget);
    let status = ran.map_or_else(u8::from, |made| u8::from(made.status));
    put_status(out, b'r', status);
    out.put_number(ran.map_or(0, |made| made.steps) as u64);
    Some(())
}

pub(crate) fn power_up(board: &mut Board, words: Words, out: &mut Output) -> Option<()> {
    words.end()?;
    put_status(out, b'p', number(board.power_up()));
    Some(())
}

pub(crate) fn check(board: &Board, words: Words, out: &mut Output) -> Option<()> {
    words.end()?;
    let verdict = board.check();
    put_status(out, b'c', verdict.status);
    out.put_number(u64::from(verdict.address));
    out.put_number(u64::from(verdict.depth));
    Some(())
}

// A command built at the start of a buffer of which so many bytes are lent: the status, and the buffer.
pub(crate) fn build(mut words: Words, out: &mut Output) -> Option<()> {
    let count = words.up_to(64)?;
    let [address, number, kind, motor, value] = words.words::<5>()?;
    words.end()?;
    let mut buffer = [170; 64];
    let status = numbered::build_command(
        &mut buffer[..count],
        u8::try_from(address).ok()?,
        u8::try_from(number).ok()?,
        u8::try_from(kind).ok()?,
        u8::try_from(motor).ok()?,
        value,
    );
    put_status(out, b'b', status);
    out.put_bytes(&buffer[..count]);
    Some(())
}

// A reply's status and fields.
pub(crate) fn read_reply(words: Words, out: &mut Output) -> Option<()> {
    let mut room = [0; 64];
    let count = words.bytes(&mut room)?;
    let mut fields = [0; 5];
    let status = numbered::read_reply(&room[..count], &mut fields);
    put_status(out, b'a', status);
    for field in fields {
        out.put_signed(field);
    }
    Some(())
}
