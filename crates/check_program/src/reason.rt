// Why a record is bad, in words.
use status::Status;
use wire::Command;

// Which of motor, bank, value and target is wrong, by what the command takes. A wrong motor and a wrong bank
// are judged before a wrong value. Commands are told apart by number, as `wire` has them: their bytes may be
// of no command, and an enum would want a case for that, read off by the same arms.
fn wrong_field(command: Command) -> &'static str {
    match (command.number, command.kind, command.motor) {
        (15, _, _) => "wrong bank",
        (19, _, _) => "division by 0",
        (21..=23, _, _) => "wrong target",
        // WAIT TICKS has no motor.
        (27, 0, _) => "wrong value",
        (1..=8 | 27 | 34, _, 0) => "wrong value",
        (1..=8 | 27 | 34, _, _) => "wrong motor",
        (9 | 10 | 35, _, 0 | 2) => "wrong value",
        (11 | 12 | 14, _, 2) => "wrong value",
        (9..=12 | 14 | 35, _, _) => "wrong bank",
        _ => "wrong motor, bank or value",
    }
}

fn unavailable(command: Command) -> &'static str {
    match command.number {
        23 => "the ninth call: the call stack has eight entries",
        24 => "a return with no call",
        _ => "not available now",
    }
}

// Why a command has a status that the check refuses.
pub(crate) fn reason(status: Status, command: Command) -> &'static str {
    match status {
        Status::Unknown => "unknown command, or one that no program has",
        Status::Kind => "type wrong, or access not allowed",
        Status::Value => wrong_field(command),
        Status::Unavailable => unavailable(command),
        _ => "refused",
    }
}
