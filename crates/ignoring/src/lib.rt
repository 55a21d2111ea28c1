// "Fields a command does not use are ignored": in a step, in direct mode and among the control commands.
#![tactic(auto)]

ghost use Rattle.ignoring.specs.Laws.{Laws};

// The laws, held to be proved: the function does nothing.
pub fn laws()
    ensures { Laws }
{}
