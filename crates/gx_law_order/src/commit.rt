//! Laws of the commit protocol in every run, whatever the network loses, repeats, delays and reorders, and whichever appends fail.
ghost use Rattle.std.specs.Prelude.{◌≤◌, Bool, List, []};
ghost use Rattle.gx_rules.specs.Machine.{World as OneWorld, world_of};
ghost use Rattle.gx_script.specs.declared.Script.{Script};
ghost use Rattle.gx_store.specs.declared.event.Event.{Event as OneEvent};
ghost use Rattle.gx_law_order.specs.Runs.{steps_after};
ghost use Rattle.gx_store.specs.Protocol.{DoStepsFollow};
ghost use Rattle.gx_law_order.specs.Horizons.{AreHoldersAbove, AreHorizonsLow};
ghost use Rattle.gx_law_order.specs.Pairs.{DoAgree};
ghost use Rattle.gx_law_order.specs.Said.{AreMeant};
ghost use Rattle.gx_law_order.specs.Told.{DoStepsTell};

/// Of every transaction, the coordinator, each segment and the marks so far agree.
pub fn nodes_agree()
    ensures { (script : Script) (events : List (OneEvent × Bool)) → 1 ≤ script.segments → DoAgree (world_of script events) }
{}

/// Every message that was ever sent says what is true, of who sent it and of who may receive it.
pub fn messages_mean_what_they_say()
    ensures { (script : Script) (events : List (OneEvent × Bool)) → 1 ≤ script.segments → AreMeant (world_of script events) (world_of script events).sent }
{}

/// PREPARED and COMMITTED come behind the marks that they tell of, ABORT behind the Abort mark, and FORGET behind the Commit
/// mark.
pub fn messages_follow_their_marks()
    ensures { (script : Script) (events : List (OneEvent × Bool)) → 1 ≤ script.segments → DoStepsTell [] (steps_after script events) }
{}

/// Every run follows the commit protocol: transactions promise, decide, commit and abort in one phase or in two, a journal's
/// failure stands before what tells of it, segments do only what they are told, and a command is answered only when every
/// segment that it was sent to is done.
pub fn runs_follow_the_protocol()
    ensures { (script : Script) (events : List (OneEvent × Bool)) → 1 ≤ script.segments → DoStepsFollow script [] (steps_after script events) }
{}

/// No horizon is above what somebody still needs: that of each segment, and of each command that was ever sent, is at or below
/// each transaction that runs or that somebody has not forgotten, the xmin of each live snapshot, and the gxids to come.
pub fn horizons_are_low()
    ensures { (script : Script) (events : List (OneEvent × Bool)) → 1 ≤ script.segments → AreHorizonsLow (world_of script events) }
{}

/// Nor is a horizon above a transaction that holds locks at the segment: no command is refused for who holds locks there.
pub fn holders_are_above_horizons()
    ensures { (script : Script) (events : List (OneEvent × Bool)) → 1 ≤ script.segments → AreHoldersAbove (world_of script events) }
{}
