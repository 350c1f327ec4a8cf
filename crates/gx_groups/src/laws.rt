//! Laws of the groups, over every list of calls that may be made.
ghost use Rattle.std.specs.Prelude.{◌≡◌, ◌++◌, ℕ, List, All, Option, length, true};
ghost use Rattle.gx_ids.specs.declared.ids.SessionId.{SessionId};
ghost use Rattle.gx_groups.specs.Table.{IsWithin, KeepsLimit, asks, group_at, holds, is_asking, is_holding, is_known};
ghost use Rattle.gx_groups.specs.Calls.{Call, IsRun, after, asked_by, fresh_table, standing_after, taken_by};

/// No group has more holders than slots.
pub fn limits_are_kept()
    ensures { (limits : List ℕ) (of : List (Option ℕ)) (calls : List Call) → All (IsWithin (length limits)) of → IsRun (fresh_table limits of) calls
        → All KeepsLimit (after (fresh_table limits of) calls).groups }
{}

/// The sessions of a group that have taken slots are the first of those that asked, in the order in which they asked; the
/// others still ask.
pub fn slots_are_taken_in_order()
    ensures { (limits : List ℕ) (of : List (Option ℕ)) (calls : List Call) (place : ℕ) → All (IsWithin (length limits)) of
        → IsRun (fresh_table limits of) calls → taken_by (fresh_table limits of) place calls
        ++ (group_at (after (fresh_table limits of) calls) place).askers ≡ asked_by (fresh_table limits of) place calls }
{}

/// A session asks from its ask to its take, and holds a slot from its take to its give.
pub fn calls_tell_what_sessions_do()
    ensures asks { (limits : List ℕ) (of : List (Option ℕ)) (calls : List Call) (s : SessionId) → All (IsWithin (length limits)) of
        → IsRun (fresh_table limits of) calls → is_known (fresh_table limits of) s ≡ true → asks (after (fresh_table limits of) calls) s
        ≡ is_asking (standing_after s calls) }
    ensures holds { (limits : List ℕ) (of : List (Option ℕ)) (calls : List Call) (s : SessionId) → All (IsWithin (length limits)) of
        → IsRun (fresh_table limits of) calls → is_known (fresh_table limits of) s ≡ true → holds (after (fresh_table limits of) calls) s
        ≡ is_holding (standing_after s calls) }
{}
