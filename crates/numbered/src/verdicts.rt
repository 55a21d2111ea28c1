// The program check.
ghost use Rattle.std.specs.Prelude.{◌≡◌};
ghost use Rattle.numbered.specs.Check.{Checks, numbers_of};

use crate::Checked;
use checking::Answer;

impl From<Answer> for Checked {
    ghost from_gives = { λ answer checked. checked ≡ numbers_of answer };

    fn from(answer: Answer) -> Checked {
        Checked {
            status: answer.number,
            address: answer.point.address,
            depth: answer.point.depth,
        }
    }
}

// A program store of any length, checked along every path.
pub fn check(program: &[u8]) -> Checked
    ensures { Checks program.now result }
{
    Answer::from(checking::check(program)).into()
}
