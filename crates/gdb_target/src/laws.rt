//! What holds of the events of a run.
ghost use Rattle.gdb_target.specs.Plan.{FirstOfFirst, MoreOfOneKind, RecordIsFirst, RoundsAlone};

/// The first events of a run's first events are its first events.
pub fn first_of_first()
    ensures { FirstOfFirst }
{}

/// Where so many events from a place on are equal, the run up to their end is the run up to the place, and these.
pub fn more_of_one_kind()
    ensures { MoreOfOneKind }
{}

/// As many of the first events as the record has are the record's.
pub fn record_is_first()
    ensures { RecordIsFirst }
{}

/// A run without a record gets the rounds' events from the first on.
pub fn rounds_alone()
    ensures { RoundsAlone }
{}
