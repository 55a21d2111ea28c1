// Document 01's rules over the registers, for a reader and for the theorems: what a command decides and
// does, a program step, a run, direct mode, control commands, download, and the five events. They stand
// in specs/. The board that carries them out, in place, is `machine` and the crates above it.
#![tactic(auto)]

ghost use Rattle.rules.specs.RunLaws.{Laws};

// The laws of a run, held to be proved: the function does nothing.
pub fn laws()
    ensures { Laws }
{}
