// A trace of the board at work, to read from the top: a tilt program is listed, checked and loaded, the
// board is set up, and a driver tilts the bracket up and down. Nothing is read.
#![tactic(auto)]

mod bench;
mod bracket;
mod mnemonic;
mod names;
mod tilt;
mod trace;

use bench::Bench;
use bracket::Outside;
use streams::{put, say};
use tilt::{Checked, command};

// The program as listed, and with one mistake in it.
fn show_check(rt: &impl Print, listed: &mut [u8; 7168]) {
    say(
        rt,
        "A motor board that tilts a bracket: what it is told, what it does and why.\n",
    );
    say(rt, "1. A tilt program, address by address");
    tilt::list(rt, listed);
    say(rt, "\n2. The program check, before anything is loaded");
    store::put_record(listed, 9, command(names::JA, 0, 0, 11));
    say(
        rt,
        format_args!(
            "  with JA 11 for CSUB 11 at address 9, checked: {}",
            Checked(listed)
        ),
    );
    say(
        rt,
        "  JA leaves no return address, so RSUB at 18 would be a return with no call: status 6.",
    );
    store::put_record(listed, 9, command(names::CSUB, 0, 0, 11));
    say(
        rt,
        format_args!("  with CSUB 11, checked: {}", Checked(listed)),
    );
}

fn show_loading(rt: &impl Print, bench: &mut Bench, listed: &[u8; 7168]) {
    say(
        rt,
        "\n3. A new board is loaded: nine bytes there, nine bytes back",
    );
    bench.ignite(rt);
    bench.load(rt, listed);
    bench.send(rt, command(names::READ_PROGRAM, 1, 0, 9));
    say(rt, "  1507328 is 23 x 65536: the record at 9 is CSUB.");
    say(
        rt,
        format_args!(
            "  the board's own program store, checked: {}",
            Checked(&bench.program)
        ),
    );
}

// The speed limit set, and stored so that it lasts.
fn set_speed_limit(rt: &impl Print, bench: &mut Bench, limit: i32) {
    bench.send(rt, command(names::SAP, names::SPEED_LIMIT, 0, limit));
    bench.send(rt, command(names::STAP, names::SPEED_LIMIT, 0, 0));
}

fn show_settings(rt: &impl Print, bench: &mut Bench) {
    say(
        rt,
        "\n4. Settings that are to last: the speed limit 43 by SAP and STAP, autostart 77 by SGP",
    );
    set_speed_limit(rt, bench, 1500);
    bench.send(rt, command(names::SGP, names::AUTO_START, 0, 1));
}

// Up to the limit switch.
fn show_up(rt: &impl Print, bench: &mut Bench) {
    bench.pass(rt, 4);
    say(
        rt,
        "The driver presses tilt up. ROR 800 moves it by 8 a tick; the limit switch is at 320.",
    );
    bench.outside.up = true;
    bench.pass(rt, 45);
    say(
        rt,
        "The button is still pressed, but GAP 211 answers 1: the program does not turn the motor again.",
    );
    bench.outside.up = false;
    bench.pass(rt, 5);
}

// Down onto a stone, and down to the end.
fn show_down(rt: &impl Print, bench: &mut Bench) {
    say(
        rt,
        "The driver presses tilt down. MVP moves it by 15 a tick, the speed limit; a stone lies at 200.",
    );
    bench.outside.lowest = 200;
    bench.outside.down = true;
    bench.pass(rt, 4);
    bench.outside.down = false;
    bench.pass(rt, 50);
    say(
        rt,
        "The stone is taken away, and the driver presses tilt down again.",
    );
    bench.outside.lowest = 0;
    bench.outside.down = true;
    bench.pass(rt, 4);
    bench.outside.down = false;
    bench.pass(rt, 15);
}

fn show_driving(rt: &impl Print, bench: &mut Bench) {
    say(
        rt,
        "\n5. The driver: a line for a tick of 10 ms in which something happens, with outputs 0 to 3",
    );
    put(rt, "Ignition off. ");
    bench.ignite(rt);
    bench.outside = Outside::default();
    show_up(rt, bench);
    show_down(rt, bench);
}

fn show_refusal(rt: &impl Print, bench: &mut Bench) {
    say(
        rt,
        "\n6. A refused command changes nothing: a speed limit above 200000, and a jump outside a program",
    );
    let before = *bench;
    bench.send(rt, command(names::SAP, names::SPEED_LIMIT, 0, 200001));
    bench.send(rt, command(names::JA, 0, 0, 9));
    let changes = bench.changes_since(&before);
    say(
        rt,
        format_args!("  registers and bytes of cells that changed: {changes}"),
    );
    bench.send(rt, command(names::GAP, names::SPEED_LIMIT, 0, 0));
}

fn read_both(rt: &impl Print, bench: &mut Bench) {
    bench.send(rt, command(names::GAP, names::SPEED_LIMIT, 0, 0));
    bench.send(rt, command(names::GAP, names::MAXIMUM_CURRENT, 0, 0));
}

// One setting with STAP and one without.
fn show_store(rt: &impl Print, bench: &mut Bench) {
    say(
        rt,
        "\n7. Stored, and not stored: the speed limit 43 with STAP, the current 11 without",
    );
    set_speed_limit(rt, bench, 1200);
    bench.send(rt, command(names::SAP, names::MAXIMUM_CURRENT, 0, 3000));
    say(
        rt,
        "Both read back as set. GAP answers the working value, so this says nothing of the store:",
    );
    read_both(rt, bench);
    put(rt, "Ignition off. ");
    bench.ignite(rt);
    read_both(rt, bench);
    say(
        rt,
        "The stored speed limit is kept. The current is lost: its cell still had the default, 2000.",
    );
}

fn main(rt: HostRuntime) {
    let mut listed = [0u8; 7168];
    show_check(&rt, &mut listed);
    let mut bench = Bench::new();
    show_loading(&rt, &mut bench, &listed);
    show_settings(&rt, &mut bench);
    show_driving(&rt, &mut bench);
    show_refusal(&rt, &mut bench);
    show_store(&rt, &mut bench);
}
