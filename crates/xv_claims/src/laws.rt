//! The laws that a reader meets first, each as a clause of a function with an empty body.
ghost use Rattle.xv_claims.specs.ToldLaws.{OutcomesAreDetermined, OutcomesGoOn, TellsOutcomes};
ghost use Rattle.xv_claims.specs.ApartLaws.{ApartLasts, ApartSeesChannels, ApartWorlds, OnlyTicksWake};

/// What can be seen of a machine.
pub fn outcomes_of()
    // A machine that was booted and was sent any events has told what the definitions give of its configuration, its
    // programs and these events, and nothing else.
    ensures tells_outcomes { TellsOutcomes }

    // And they give one answer.
    ensures outcomes_are_determined { OutcomesAreDetermined }

    // It goes on event by event: nothing of it depends on a later event.
    ensures outcomes_go_on { OutcomesGoOn }
{}

/// Two processes that have nothing in common.
pub fn apart_processes()
    // A step of one changes for the other the channels, and nothing else.
    ensures apart_sees_channels { ApartSeesChannels }

    // They have nothing in common after any event.
    ensures apart_lasts { ApartLasts }

    // A step wakes nobody who sleeps for ticks.
    ensures only_ticks_wake { OnlyTicksWake }

    // Two worlds that show a process the same, and the same channels as each of its steps begins, can't be told
    // apart by it, if all others who make steps are apart from it.
    ensures apart_worlds { ApartWorlds }
{}
