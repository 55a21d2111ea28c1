// The serial line: each nine bytes in are a datagram, then time passes by one tick and the program runs
// for at most 100 steps.
//
// A reply says that what was asked is done, so it goes out only once the files hold what it changed.
use crate::failure::Failure;
use crate::files::{ImageFile, remove};
use crate::kept::Kept;
use reg_image::REGISTERS;
use std::rt::Files;

pub const CELLS: usize = 364;

pub const PROGRAM: usize = 7168;

const STEPS: usize = 100;

// The next nine bytes of the line, where there are so many.
fn receive(rt: &impl Input) -> Result<Option<[u8; 9]>, Failure<'static>> {
    let mut frame = [0u8; 9];
    match streams::fill(&mut rt.reader(), &mut frame) {
        Ok(count) => Ok((count == 9).then_some(frame)),
        Err(error) => Err(Failure::Io(b"standard input", error)),
    }
}

fn send(rt: &impl Print, reply: &[u8; 9]) -> Result<(), Failure<'static>> {
    rt.write_all(reply)
        .map_err(|error| Failure::Io(b"standard output", error))
}

// A board and its stores.
#[derive(Drop)]
struct Board {
    image: [u32; REGISTERS],
    program: [u8; PROGRAM],
    cells: [u8; CELLS],
}

impl Board {
    // The board powered up on its stores.
    fn powered(program: [u8; PROGRAM], cells: [u8; CELLS]) -> Board {
        let mut image = [0u32; REGISTERS];
        let _ = board_events::power_up(&mut image, &cells);
        Board {
            image,
            program,
            cells,
        }
    }

    // The reply to a datagram, where there is one.
    fn reply_to(&mut self, frame: &[u8; 9]) -> Option<[u8; 9]> {
        let mut reply = [0u8; 9];
        let answered = board_datagrams::datagram(
            &mut self.image,
            &mut self.program,
            &mut self.cells,
            &mut reply,
            frame,
        );
        matches!(answered, Ok(Some(_))).then_some(reply)
    }

    // A tick, and the steps that go into it.
    fn work(&mut self) {
        let _ = board_events::tick(&mut self.image);
        let _ = board_runs::run(&mut self.image, &self.program, &mut self.cells, STEPS);
    }
}

// A board on the line, and what keeps its stores.
#[derive(Drop)]
struct Line<'a> {
    board: Board,
    program: Kept<'a, PROGRAM>,
    cells: Kept<'a, CELLS>,
}

impl<'a> Line<'a> {
    // The board powered up on the stores of these files.
    fn opened(
        rt: &impl Files,
        cells: Option<ImageFile<'a>>,
        program: Option<ImageFile<'a>>,
    ) -> Result<Self, Failure<'a>> {
        let mut new_cells = [0u8; CELLS];
        let _ = board_events::new_cells(&mut new_cells);
        let cells = Kept::taken(rt, cells, new_cells)?;
        let program = Kept::taken(rt, program, [0u8; PROGRAM])?;
        Ok(Line {
            board: Board::powered(program.held, cells.held),
            program,
            cells,
        })
    }

    // A datagram, its reply, and what the board does behind it.
    fn turn(&mut self, rt: &(impl Files + Print), frame: &[u8; 9]) -> Result<(), Failure<'a>> {
        let reply = self.board.reply_to(frame);
        self.program.keep(rt, &self.board.program)?;
        self.cells.keep(rt, &self.board.cells)?;
        if let Some(reply) = reply {
            send(rt, &reply)?;
        }
        self.board.work();
        self.cells.keep(rt, &self.board.cells)
    }

    // Datagram by datagram. A proved loop has to end, and nothing says that a line does. So the loop counts
    // its turns, up to a number that no run uses up.
    fn serve(&mut self, rt: &(impl Files + Input + Print)) -> Result<(), Failure<'a>> {
        for _ in 0..u64::MAX {
            let Some(frame) = receive(rt)? else {
                break;
            };
            self.turn(rt, &frame)?;
        }
        Ok(())
    }
}

// A session on the files of these names, up to the end of the line or to what fails.
fn session<'a>(
    rt: &(impl Files + Input + Print),
    cells: Option<ImageFile<'a>>,
    program: Option<ImageFile<'a>>,
) -> Result<(), Failure<'a>> {
    Line::opened(rt, cells, program)?.serve(rt)
}

// A board on standard input and output, with its images in the files of these names; an empty name is
// no file. What fails or is refused is told on `stderr`.
pub fn serve(
    rt: &(impl Files + Input + Print),
    stderr: &impl Print,
    cells_name: &[u8],
    program_name: &[u8],
) {
    let mut cells_room = [0u8; 4096];
    let mut program_room = [0u8; 4096];
    let cells = ImageFile::named(cells_name, &mut cells_room);
    let program = ImageFile::named(program_name, &mut program_room);
    if let Err(failure) = session(rt, cells, program) {
        failure.tell(stderr);
        if let Failure::Unsaved(_, _, fresh) = failure {
            remove(rt, fresh);
        }
    }
}
