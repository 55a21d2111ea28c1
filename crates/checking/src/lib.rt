// The program check: a stored program passes exactly when no bad point is reachable from address 0.
#![tactic(auto)]

ghost use Rattle.std.specs.Prelude.{◌≡◌};
ghost use Rattle.checking.specs.Check.{Right, answer_of};
ghost use Rattle.checking.specs.Laws.{Laws};

use points::Point;
use status::Status;
use walking::lowest;

// Why a program does not pass.
#[derive(Clone, Copy, PartialEq, Eq)]
pub enum Fault {
    // The program store has another length than 7,168.
    Length,
    // The lowest bad point that is reached, and its status.
    Bad(Point, Status),
}

// The numbers of a verdict.
#[derive(Clone, Copy, PartialEq, Eq)]
pub struct Answer {
    pub number: u8,
    pub point: Point,
}

// For a caller that hands numbers on.
impl From<Result<(), Fault>> for Answer {
    ghost from_gives = { λ verdict answer. answer ≡ answer_of verdict };

    fn from(verdict: Result<(), Fault>) -> Answer {
        match verdict {
            Ok(()) => Answer {
                number: 100,
                point: Point::first(),
            },
            Err(Fault::Length) => Answer {
                number: 20,
                point: Point::first(),
            },
            Err(Fault::Bad(point, status)) => Answer {
                number: status.into(),
                point,
            },
        }
    }
}

// Checks a program along every path.
pub fn check(program: &[u8]) -> Result<(), Fault>
    ensures { Right program.now result }
{
    if !store::is_program_store(program) {
        return Err(Fault::Length);
    }
    match lowest(program) {
        Some(found) => Err(Fault::Bad(found.number.into(), found.status)),
        None => Ok(()),
    }
}

// The laws of the check, held to be proved: the function does nothing.
#[tactic(auto, using(crate::proofs::Unique::laws))]
pub fn laws()
    ensures { Laws }
{}
