// A line of the script, and what it asks for.
//
// Its first byte says the kind; words stand apart by single spaces; numbers are decimal, with a minus
// where they are negative, and fit 32 bits. A line that reads as no kind is unknown, whatever it holds.
use text::Words;
use wire::Command;
use words::Word;

#[derive(Clone, Copy)]
pub(crate) enum Line<'a> {
    // A new board, and the words of its heading.
    Heading(&'a [u8]),
    Remark(&'a [u8]),
    // A command, and the words that name it.
    Tell(Command, &'a [u8]),
    Check,
    // As many steps at most.
    Run(usize),
    Measure([i32; 16]),
    // As many ticks.
    Ticks(usize),
}

// More ticks than this in one line are taken for a slip.
const MOST_TICKS: usize = 100000;

// A line of four numbers, the first three of them bytes, and the words that name the command.
fn command<'a>(mut words: Words<'a>) -> Option<Line<'a>> {
    let [number, kind, motor, value] = words.words::<4>()?;
    let command = Command {
        number: u8::try_from(number).ok()?,
        kind: u8::try_from(kind).ok()?,
        motor: u8::try_from(motor).ok()?,
        value: Word { v: value },
    };
    Some(Line::Tell(command, words.rest()?))
}

// A line of one number, from 0 to a highest.
fn amount(mut words: Words, most: usize) -> Option<usize> {
    let amount = words.up_to(most)?;
    words.end()?;
    Some(amount)
}

// A line of a sample.
fn sample(mut words: Words) -> Option<[i32; 16]> {
    let fields = words.words::<16>()?;
    words.end()?;
    Some(fields)
}

// What a line asks for. What its numbers may be is the board's to judge.
pub(crate) fn read(line: &[u8]) -> Option<Line<'_>> {
    let (kind, rest) = line.split_first()?;
    let words = Words::new(rest);
    match *kind {
        b'=' => Some(Line::Heading(words.rest()?)),
        b'#' => Some(Line::Remark(words.rest()?)),
        b'd' => command(words),
        b'c' => {
            words.end()?;
            Some(Line::Check)
        }
        b'r' => Some(Line::Run(amount(words, i32::MAX as usize)?)),
        b's' => Some(Line::Measure(sample(words)?)),
        b't' => Some(Line::Ticks(amount(words, MOST_TICKS)?)),
        _ => None,
    }
}
