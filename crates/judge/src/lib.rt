// The one judge: what the seven bytes of a command decide by themselves, as one definition, `judged`, over the
// fields' own. The machine and the program check have a dispatch of their own by the command's number, whose
// arms ask the judges of its fields, and are held to it.
#![tactic(auto)]

ghost use Rattle.std.specs.Prelude.{◌≡◌};
ghost use Rattle.judge.specs.Judge.{is_flow, is_reading};

// Whether a command is one that only a program has.
#[tactic(auto, unfolding(crate::specs::Judge::is_flow))]
pub fn is_flow(number: u8) -> bool
    ensures { result ≡ is_flow number }
{
    matches!(number, 21..=24 | 27 | 28)
}

// Whether a command reads a value, which a program loads into the accumulator.
#[tactic(auto, unfolding(crate::specs::Judge::is_reading))]
pub fn is_reading(number: u8) -> bool
    ensures { result ≡ is_reading number }
{
    matches!(number, 6 | 10 | 15)
}
