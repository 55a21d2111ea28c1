// A script on standard input, played line by line. The answers to a piece are written before the next is
// read, so that a host that waits for an answer has it.
ghost use Rattle.std.specs.Prelude.{◌≤◌, length};

use crate::answers;
use crate::bench::Board;
use crate::script::Script;
use std::io;
use text::Output;

// A longer line is refused unread.
const LONGEST: usize = 16384;

// Answers behind so many bytes may find no room: the longest, a datagram's with a reply buffer of 8,192
// bytes, has some 16,400.
const ROOM: usize = 49000;

// What ends a script before its end.
#[derive(Debug, Drop)]
enum Failure {
    Input(io::Error),
    Output(io::Error),
}

impl Failure {
    fn tell(&self, stderr: &impl Print) {
        match self {
            Failure::Input(error) => streams::tell(stderr, b"standard input", error),
            Failure::Output(error) => streams::tell(stderr, b"standard output", error),
        }
    }
}

#[derive(Drop)]
struct Player {
    board: Board,
    // The answers that are not written yet.
    out: Output,
    // How many lines are answered.
    number: u64,
    // The line in hand is too long, and what came of it is dropped.
    long: bool,
}

impl Player {
    fn new() -> Self {
        Player {
            board: Board::new(),
            out: Output::new(),
            number: 0,
            long: false,
        }
    }

    // The next answer may find no room.
    fn is_full(&self) -> bool {
        ROOM < self.out.as_slice().len()
    }

    // The answer to a line, or to the end of one whose begin is dropped: the line's number where it does
    // not read.
    fn line(&mut self, line: &[u8]) {
        self.number = self.number.wrapping_add(1);
        let is_long = self.long || LONGEST < line.len();
        if is_long || answers::answer(&mut self.board, line, &mut self.out).is_none() {
            self.out.put(b'?');
            self.out.put_number(self.number);
        }
        self.out.put(b'\n');
        self.long = false;
    }

    // The answers to a piece's whole lines, as long as there is room. Answers how many bytes they have. The
    // loop ends where there is no room behind an answer, and counts the bytes of the lines that it took: a
    // chain over the lines would have to carry both.
    fn lines(&mut self, piece: &[u8]) -> usize {
        let mut rest = piece;
        while let Some(end) = rest.iter().position(|b| *b == b'\n') {
            self.line(&rest[..end]);
            rest = &rest[end + 1..];
            if self.is_full() {
                break;
            }
        }
        piece.len() - rest.len()
    }

    // The answers written out.
    fn write(&mut self, rt: &impl Print) -> Result<(), Failure> {
        rt.write_all(self.out.as_slice()).map_err(Failure::Output)?;
        self.out.clear();
        Ok(())
    }

    // A proved loop has to end, and nothing says that a script does. So the loop counts its turns, up to a
    // number that no run uses up.
    fn play(&mut self, rt: &(impl Input + Print), script: &mut Script) -> Result<(), Failure> {
        let mut is_full = false;
        for _ in 0..u64::MAX {
            if !is_full && !script.fill(rt).map_err(Failure::Input)? {
                break;
            }
            let answered = self.lines(script.waiting());
            is_full = self.is_full();
            self.write(rt)?;
            script.advance(answered);
            if !is_full && (self.long || LONGEST < script.waiting().len()) {
                script.clear();
                self.long = true;
            }
        }
        // The last line, which no line feed ends.
        if self.long || !script.waiting().is_empty() {
            self.line(script.waiting());
        }
        self.write(rt)
    }
}

// The script on standard input, played on a new board. What fails is told on `stderr`.
pub fn play(rt: &(impl Input + Print), stderr: &impl Print) {
    let mut script = Script::new();
    let mut player = Player::new();
    if let Err(failure) = player.play(rt, &mut script) {
        failure.tell(stderr);
    }
}
