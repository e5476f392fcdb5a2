//! What stands of a session whatever its machine went through.
ghost use Rattle.xv_session.specs.Again.{PlayedAgain};
ghost use Rattle.xv_session.specs.LastStep.{LastStepIsOne};

/// The same programs and the same events make the same run.
pub fn runs_are_determined()
    // Two machines that were booted with the same numbers and programs, and got the same events, can't be told apart:
    // each process sees the same in both, the outcomes were the same, and who runs and who sleeps are the same.
    ensures { PlayedAgain }
{}

/// Whose step was last is settled by the events.
pub fn the_last_step_is_one()
    ensures { LastStepIsOne }
{}
