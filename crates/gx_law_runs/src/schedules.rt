//! Laws of schedules in every run, whatever the network loses, repeats, delays and reorders, and whichever appends fail.
ghost use Rattle.std.specs.Prelude.{◌≡◌, ◌≤◌, ℕ, ◌+◌, ◌==◌, Bool, true, false, ◌&&◌, is_some, List, [], None, Some, Contains};
ghost use Rattle.std.specs.List.{list_all, list_any};
ghost use Rattle.gx_ids.specs.declared.ids.Gxid.{Gxid as OneGxid};
ghost use Rattle.gx_ids.specs.declared.ids.Node.{Node as OneNode};
ghost use Rattle.gx_ids.specs.declared.ids.SessionId.{SessionId as OneSession};
ghost use Rattle.gx_store.specs.Language.{AreLinesNumbered};
ghost use Rattle.gx_rules.specs.AtCoordinator.{awaited, coord_can, is_idle, next_line};
ghost use Rattle.gx_rules.specs.Coordinators.{session_of};
ghost use Rattle.gx_rules.specs.Machine.{can, found, world_of};
ghost use Rattle.gx_script.specs.declared.Line.{Line as OneLine};
ghost use Rattle.gx_script.specs.declared.Script.{Script};
ghost use Rattle.gx_store.specs.Marks.{is_same_gxid, is_same_session};
ghost use Rattle.gx_store.specs.Ordered.{sent_in};
ghost use Rattle.gx_store.specs.Points.{marks_in, starts_in};
ghost use Rattle.gx_store.specs.Refusals.{the_coordinator};
ghost use Rattle.gx_store.specs.Schedule as schedule;
ghost use Rattle.gx_store.specs.declared.event.Event.{Event as OneEvent};
ghost use Rattle.gx_store.specs.declared.node.NodeEvent.TheVariants as here;
ghost use Rattle.gx_law_runs.specs.Enabled.{drawn, enabled_there};
ghost use Rattle.gx_law_runs.specs.Links.{is_number, message_of};
ghost use Rattle.gx_law_runs.specs.Room.{HasRoom};

/// As many messages were sent to a segment as the coordinator counts.
pub fn coordinator_counts_its_messages()
    ensures { (script : Script) (events : List (OneEvent × Bool)) (i : ℕ) → 1 ≤ script.segments
        → sent_in the_coordinator (record { 0 = i }) (world_of script events).steps ≡ (world_of script events).coord.sent i }
{}

/// As many messages were sent by a segment as it counts.
pub fn segments_count_their_messages()
    ensures { (script : Script) (events : List (OneEvent × Bool)) (i : ℕ) → 1 ≤ script.segments → 1 ≤ i
        → sent_in (record { 0 = i }) the_coordinator (world_of script events).steps ≡ ((world_of script events).segs i).sent }
{}

/// The message of a number on a link is the one that is found by it.
pub fn messages_are_found()
    ensures { (script : Script) (events : List (OneEvent × Bool)) (from to : OneNode) (number : ℕ) → 1 ≤ script.segments
        → schedule.sent_message from to number (world_of script events).steps ≡ message_of (found from to number (world_of script events).sent) }
{}

/// And one is found for each number from 1 to the count, and for no other.
pub fn messages_are_numbered()
    ensures { (script : Script) (events : List (OneEvent × Bool)) (from to : OneNode) (number : ℕ) → 1 ≤ script.segments
        → is_some (found from to number (world_of script events).sent) ≡ is_number number (sent_in from to (world_of script events).steps) }
{}

/// As many lines of a session were started as the coordinator counts.
pub fn started_lines_are_counted()
    ensures { (script : Script) (events : List (OneEvent × Bool)) (session : OneSession) → 1 ≤ script.segments
        → starts_in session (world_of script events).steps ≡ (session_of (world_of script events).coord session).lines }
{}

/// A session is idle by the steps where it is at the coordinator.
pub fn idle_sessions_are_idle()
    ensures { (script : Script) (events : List (OneEvent × Bool)) (session : OneSession) → 1 ≤ script.segments
        → schedule.is_idle (world_of script events).steps session ≡ is_idle (session_of (world_of script events).coord session) }
{}

/// A line is next where its session is idle at the coordinator and the line's number follows the started ones.
pub fn next_lines_are_next()
    ensures { (script : Script) (events : List (OneEvent × Bool)) (line : OneLine) → 1 ≤ script.segments
        → schedule.is_next (world_of script events).steps line
        ≡ (is_idle (session_of (world_of script events).coord line.session) && (line.number == (session_of (world_of script events).coord line.session).lines + 1)) }
{}

/// If the script's lines are numbered, a line that is next is the one that its session starts.
pub fn next_lines_are_started()
    ensures { (script : Script) (events : List (OneEvent × Bool)) (line : OneLine) → 1 ≤ script.segments → AreLinesNumbered [] script.lines → Contains script.lines line
        → schedule.is_next (world_of script events).steps line ≡ true → next_line script (world_of script events).coord line.session ≡ Some line.stmt }
{}

/// A session has a next line exactly where the coordinator admits its start.
pub fn starts_are_admitted()
    ensures { (script : Script) (events : List (OneEvent × Bool)) (session : OneSession) → 1 ≤ script.segments
        → list_any (λ line. is_same_session line.session session && schedule.is_next (world_of script events).steps line) script.lines
        ≡ coord_can script (world_of script events).coord (here.Start session) }
{}

/// A session is to be ended exactly where the coordinator admits its end.
pub fn ends_are_admitted()
    ensures { (script : Script) (events : List (OneEvent × Bool)) (session : OneSession) → 1 ≤ script.segments
        → schedule.is_to_end script (world_of script events).steps session ≡ coord_can script (world_of script events).coord (here.End session) }
{}

/// No count is above what the number of steps allows.
pub fn counts_have_room()
    ensures { (script : Script) (events : List (OneEvent × Bool)) → 1 ≤ script.segments → HasRoom (world_of script events) }
{}

/// The message that was sent last to a segment about a transaction and isn't answered is the one whose answer the coordinator
/// awaits.
pub fn asked_is_awaited()
    ensures { (script : Script) (events : List (OneEvent × Bool)) (segment : OneNode) (g : OneGxid) → 1 ≤ script.segments
        → schedule.asked (world_of script events).steps segment g ≡ awaited (world_of script events).coord g segment }
{}

/// The transactions that have begun are those of the gxids that were drawn.
pub fn begun_are_drawn()
    ensures { (script : Script) (events : List (OneEvent × Bool)) → 1 ≤ script.segments → schedule.gxids_of (marks_in (world_of script events).steps) ≡ drawn (world_of script events).coord }
{}

/// Nothing is awaited of a transaction that hasn't begun.
pub fn nothing_is_awaited_before_it_begins()
    ensures { (script : Script) (events : List (OneEvent × Bool)) (segment : OneNode) (g : OneGxid) → 1 ≤ script.segments
        → list_any (λ h. is_same_gxid h g) (schedule.gxids_of (marks_in (world_of script events).steps)) ≡ false → awaited (world_of script events).coord g segment ≡ None }
{}

/// What is enabled by the steps is what is enabled by what the nodes hold, whoever waits.
pub fn enabled_by_what_nodes_hold()
    ensures { (script : Script) (events : List (OneEvent × Bool)) → 1 ≤ script.segments → schedule.enabled script (world_of script events).steps ≡ enabled_there script (world_of script events) }
{}

/// The machine admits each event that is enabled, whoever waits.
pub fn enabled_is_admitted()
    ensures { (script : Script) (events : List (OneEvent × Bool)) → 1 ≤ script.segments
        → list_all (can script (world_of script events)) (schedule.enabled script (world_of script events).steps) ≡ true }
{}
