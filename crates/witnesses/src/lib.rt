// Programs that show the check and its promise at work: none of their premises is empty.
#![tactic(auto)]

ghost use Rattle.witnesses.specs.Checks.{Checks};
ghost use Rattle.witnesses.specs.Runs.{Runs};
ghost use Rattle.witnesses.specs.Replies.{Replies};
ghost use Rattle.witnesses.specs.Rows.{Rows};

// The witnesses, held to be proved: the function does nothing.
pub fn laws()
    ensures { Checks × Runs × Replies × Rows }
{}
