// A line, by its first letter, and the line that answers it.
use crate::bench::Board;
use crate::{events, looking, setting};
use text::{Output, Words};

// The words that answer a line, if it reads: where it does not, nothing is put. The letter says which
// function answers, and an enum of the letters would only stand between the two.
pub(crate) fn answer(board: &mut Board, line: &[u8], out: &mut Output) -> Option<()> {
    let (letter, rest) = line.split_first()?;
    let words = Words::new(rest);
    match *letter {
        b'd' => events::datagram(board, words, out),
        b's' => events::sample(board, words, out),
        b't' => events::tick(board, words, out),
        b'r' => events::run(board, words, out),
        b'p' => events::power_up(board, words, out),
        b'c' => events::check(board, words, out),
        b'b' => events::build(words, out),
        b'a' => events::read_reply(words, out),
        b'u' => looking::dump(board, words, out),
        b'n' => setting::renew(board, words, out),
        b'w' => setting::record(board, words, out),
        b'v' => setting::cell(board, words, out),
        b'q' => setting::register(board, words, out),
        b'l' => setting::length(board, words, out),
        _ => None,
    }
}
