//! What holds of reasons.
ghost use Rattle.call_reasons.specs.Laws.{ErrorsAreCauses, OthersHaveNone, ReasonsRefuse, RefusalsHaveReasons, RefusedStepsHaveReasons, ToldAfterwards, ToldIsReason};

/// Calls have reasons exactly if they are refused.
pub fn refusals_have_reasons()
    // If there is a reason, the call answers -1, and changes nothing else. (The process has no memory from 2^38 on.)
    ensures reasons_refuse { ReasonsRefuse }

    // If a call answers -1, there is a reason.
    ensures refusals_have_reasons { RefusalsHaveReasons }
{}

/// What is told of an answer is its reason.
pub fn answers_tell_reasons()
    // What a machine shows, and the answer, tell it.
    ensures told_is_reason { ToldIsReason }

    // Of any other answer none is told.
    ensures others_have_none { OthersHaveNone }

    // The view after a refused call tells the same as the one before it.
    ensures told_afterwards { ToldAfterwards }
{}

/// What is told of a program that can't be loaded is so.
pub fn errors_are_causes()
    // If the reason of an exec is its file or its words, they can't be loaded for that.
    ensures { ErrorsAreCauses }
{}

/// A machine shows why the next step's call is refused.
pub fn refused_steps_have_reasons()
    // If a call of a process is refused by an event, the state before it shows why.
    ensures { RefusedStepsHaveReasons }
{}
