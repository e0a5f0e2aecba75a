//! What holds of every evaluation, as a contract.

ghost use Rattle.call_rules.specs.Laws.{TasksAreRuled};

/// Each task of a sequential evaluation has the outcome that the rule of its call gives by the outcomes of the others.
pub fn tasks_are_ruled()
    ensures { TasksAreRuled }
{}
