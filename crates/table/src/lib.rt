// Document 01's proved table, and worked examples of commands, steps and runs.
#![tactic(auto)]

ghost use Rattle.table.specs.Examples.{Examples};
ghost use Rattle.table.specs.Table.{Table};

// The table and the examples, held to be proved: the function does nothing.
pub fn laws()
    ensures { Table × Examples }
{}
