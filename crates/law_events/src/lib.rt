// What 01 says of one event of the C door: its steps, its reply, that its answer is the only one, and
// that what the code answers is known by its number.
#![tactic(auto)]

ghost use Rattle.law_events.specs.Steps.{Steps};
ghost use Rattle.law_events.specs.Replies.{Replies};
ghost use Rattle.law_events.specs.Answers.{OneAnswer};
ghost use Rattle.law_events.specs.Known.{Known};

// The laws, held to be proved: the function does nothing.
pub fn laws()
    ensures { Steps × Replies × OneAnswer × Known }
{}
