// What every step, run and direct command keeps: registers in range stay so, a refused direct command
// changes nothing, and only a WAIT that holds leaves a wait armed.
#![tactic(auto)]

ghost use Rattle.keeping.specs.Laws.{Laws};

// The laws, held to be proved: the function does nothing.
pub fn laws()
    ensures { Laws }
{}
