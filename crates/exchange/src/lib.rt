// What a user of both sides of a serial line relies on: the board's (`serial`) and the display's
// (`display`).
#![tactic(auto)]

ghost use Rattle.exchange.specs.Laws.{Laws};

// The laws of both sides, held to be proved: the function does nothing.
pub fn laws()
    ensures { Laws }
{}
