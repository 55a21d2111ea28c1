// What is relied on of the board's events, above all that they are made of.
#![tactic(auto)]

ghost use Rattle.promises.specs.Commands.{Commands};
ghost use Rattle.promises.specs.Examples.{Examples};
ghost use Rattle.promises.specs.Laws.{Laws};

// The laws of the events and worked examples, held to be proved: the function does nothing.
pub fn laws()
    ensures { Laws × Commands × Examples }
{}
