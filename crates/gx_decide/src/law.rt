// What holds of every list of opens, settles and stops.
ghost use Rattle.std.specs.Prelude.{Bool, List};
ghost use Rattle.gx_decide.specs.Disk.{DiskState};
ghost use Rattle.gx_decide.specs.History.{AreAnswersEqual, Event, IsDurable, Led};

/// Whatever the list of opens, settles and stops, within a call too, and whatever bytes stand where a write wasn't synced: the
/// disk stays a log, each answered pair stands in it, and two answers for one transaction are equal.
pub fn verdict_log()
    ensures durable { (events : List Event) (disk : DiskState) (ready : Bool) → Led events disk ready → IsDurable events disk }
    ensures equal { (events : List Event) (disk : DiskState) (ready : Bool) → Led events disk ready → AreAnswersEqual events }
{}
