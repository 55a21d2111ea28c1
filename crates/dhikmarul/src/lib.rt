// The board for C and Rust: every event, the program check and the display's side under names of C.
//
// `include/dhikmarul.h` says what each argument and each number is. A slice is a pointer and a length; an
// array of known length is a pointer alone. Each function does what the one of its name does in
// `board_events`, `board_datagrams`, `board_runs` or `numbered`, and takes every input. A register's number
// stands in the image by its bits, so C may read it as signed.
#![tactic(auto)]

ghost use Rattle.std.specs.Prelude.{◌≡◌};
ghost use Rattle.status.specs.Misfit.{told};
ghost use Rattle.board.specs.Registers.{powered};
ghost use Rattle.rules.specs.Events.{with_tick, with_sample};
ghost use Rattle.reg_image.specs.Image.{registers_of};
ghost use Rattle.board_events.specs.Standing.{Told};
ghost use Rattle.board_events.specs.Events as events;
ghost use Rattle.board_datagrams.specs.Datagram.{Answers};
ghost use Rattle.board_runs.specs.Run.{Runs, answered};
ghost use Rattle.numbered.specs.Host as host;
ghost use Rattle.dhikmarul.specs.Answers.{Checked};

use reg_image::REGISTERS;
use status::Misfit;

// The number of an event that is carried out, or does not fit.
fn number(event: Result<(), Misfit>) -> u8
    ensures { result ≡ told event }
{
    event.map_or_else(u8::from, |()| 100)
}

// The cells of a new board.
#[unsafe(no_mangle)]
pub extern "C" fn dhikmarul_new_cells(cells: &mut [u8]) -> u8
    ensures { events.cells_left result cells.new ≡ events.new_cells cells.old }
{
    number(board_events::new_cells(cells))
}

// Power-up.
#[unsafe(no_mangle)]
pub extern "C" fn dhikmarul_power_up(registers: &mut [u32; REGISTERS], cells: &[u8]) -> u8
    ensures { Told (events.power_status cells.now) (powered cells.now) registers.old registers.new result }
{
    number(board_events::power_up(registers, cells))
}

// A datagram.
#[unsafe(no_mangle)]
pub extern "C" fn dhikmarul_datagram(
    registers: &mut [u32; REGISTERS],
    program: &mut [u8],
    cells: &mut [u8],
    reply: &mut [u8],
    bytes: &[u8],
) -> u8
    ensures { Answers bytes.now registers.old program.old cells.old reply.old result registers.new program.new cells.new reply.new }
{
    board_datagrams::datagram(registers, program, cells, reply, bytes).map_or_else(
        u8::from,
        |replied| replied.map_or(0, u8::from),
    )
}

// A sample of sixteen fields.
#[unsafe(no_mangle)]
pub extern "C" fn dhikmarul_sample(registers: &mut [u32; REGISTERS], fields: &[i32; 16]) -> u8
    ensures { Told (events.sample_status fields.now registers.old) (with_sample (events.sample_of fields.now) (registers_of registers.old)) registers.old registers.new result }
{
    number(board_events::sample(registers, fields))
}

// A tick.
#[unsafe(no_mangle)]
pub extern "C" fn dhikmarul_tick(registers: &mut [u32; REGISTERS]) -> u8
    ensures { Told (events.tick_status registers.old) (with_tick (registers_of registers.old)) registers.old registers.new result }
{
    number(board_events::tick(registers))
}

// A run, and how many steps it made.
#[unsafe(no_mangle)]
pub extern "C" fn dhikmarul_run(
    registers: &mut [u32; REGISTERS],
    program: &[u8],
    cells: &mut [u8],
    budget: usize,
    steps: &mut usize,
) -> u8
    ensures { Runs program.now budget registers.old cells.old (answered result steps.new) registers.new cells.new }
{
    let ran = board_runs::run(registers, program, cells, budget);
    *steps = ran.map_or(0, |made| made.steps);
    ran.map_or_else(u8::from, |made| u8::from(made.status))
}

// The program check, and the bad point that it names.
#[unsafe(no_mangle)]
pub extern "C" fn dhikmarul_check(program: &[u8], address: &mut u16, depth: &mut u8) -> u8
    ensures { Checked program.now result address.new depth.new }
{
    let checked = numbered::check(program);
    *address = checked.address;
    *depth = checked.depth;
    checked.status
}

// A command built for the board.
#[unsafe(no_mangle)]
pub extern "C" fn dhikmarul_build_command(
    out: &mut [u8],
    address: u8,
    command: u8,
    kind: u8,
    motor: u8,
    value: i32,
) -> u8
    ensures { host.bytes_left result out.new ≡ host.built address (host.command command kind motor value) out.old }
{
    numbered::build_command(out, address, command, kind, motor, value)
}

// A reply read.
#[unsafe(no_mangle)]
pub extern "C" fn dhikmarul_read_reply(bytes: &[u8], numbers: &mut [i32; 5]) -> u8
    ensures { host.numbers_left result numbers.new ≡ host.read bytes.now numbers.old }
{
    numbered::read_reply(bytes, numbers)
}
