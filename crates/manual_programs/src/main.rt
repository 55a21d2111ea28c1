// Every command that document 000 prints as nine bytes, sent to the board and replied to, and every TMCL
// program that it prints in its chapters 2, 3 and 6, loaded, checked and run with samples and ticks. The
// script on standard input says what is done, a line for each event; each line is answered by one.
#![tactic(auto)]

mod bench;
mod print;
mod script;

use bench::Bench;
use script::Line;
use std::io;
use wire::Command;

// One byte more than a script may have, so that a longer one is seen to be one.
const MOST: usize = 65536;

// A command as the display sends it to address 1, and the reply to it.
fn tell(rt: &impl Print, bench: &mut Bench, command: Command, name: &[u8]) {
    let mut frame = [0; 9];
    let _ = display::build_command(&mut frame, 1, command);
    print::command(rt, name, &frame);
    let answered = bench.datagram(&frame);
    print::answer(rt, answered, &bench.reply);
}

// One line, and the number it has in the script.
fn answer(rt: &impl Print, bench: &mut Bench, line: &[u8], number: u64) {
    match script::read(line) {
        Some(Line::Heading(words)) => {
            print::heading(rt, words);
            bench.renew();
        }
        Some(Line::Remark(words)) => print::remark(rt, words),
        Some(Line::Tell(command, name)) => tell(rt, bench, command, name),
        Some(Line::Check) => print::verdict(rt, bench.check()),
        Some(Line::Run(budget)) => {
            let ran = bench.run(budget);
            print::ran(rt, ran, &bench.image);
        }
        Some(Line::Measure(fields)) => {
            let measured = bench.sample(&fields);
            print::measured(rt, measured, &bench.image);
        }
        Some(Line::Ticks(count)) => {
            let ticked = bench.ticks(count);
            print::ticked(rt, count, ticked, &bench.image);
        }
        None => print::unknown(rt, number),
    }
}

// The script, line by line, on one board after the other; a line before the first heading meets one
// that was never powered.
fn play(rt: &impl Print, script: &[u8]) {
    let mut bench = Bench::new();
    let lines = script.split_inclusive(|b| *b == b'\n');
    for (place, line) in lines.enumerate() {
        let line = line.strip_suffix(b"\n").unwrap_or(line);
        answer(rt, &mut bench, line, (place as u64).saturating_add(1));
    }
}

fn main(rt: HostRuntime) -> io::Result<()> {
    let mut script = [0; MOST];
    let count = streams::fill(&mut rt.reader(), &mut script)?;
    if count == MOST {
        print::text(&rt, b"the script is too long: it may have 65535 bytes\n");
        return Ok(());
    }
    play(&rt, &script[..count]);
    Ok(())
}
