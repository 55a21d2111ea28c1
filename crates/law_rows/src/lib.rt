// What is relied on of the events of the C door in a row: registers in range stay so, and what a refused event leaves.
#![tactic(auto)]

ghost use Rattle.law_rows.specs.Laws.{Laws};

// The laws, held to be proved: the function does nothing.
pub fn laws()
    ensures { Laws }
{}
