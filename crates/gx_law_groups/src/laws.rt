//! Laws of resource groups.
ghost use Rattle.std.specs.Prelude.{◌≡◌, ◌<◌, ◌++◌, ◌∷◌, List, [], false, length, true};
ghost use Rattle.std.specs.List.{list_any};
ghost use Rattle.gx_groups.specs.Table.{asks, holds, may};
ghost use Rattle.gx_ids.specs.declared.ids.SessionId.{SessionId as OneSession};
ghost use Rattle.gx_script.specs.declared.Script.{Script};
ghost use Rattle.gx_store.specs.Groups.{AlwaysKeepsSlots, AreStartsLet, BeginAsAsked, is_to_open, open_in, slots_after};
ghost use Rattle.gx_store.specs.Language.{IsScript};
ghost use Rattle.gx_store.specs.Legal.{AreLegalSteps};
ghost use Rattle.gx_store.specs.Points.{marks_in};
ghost use Rattle.gx_store.specs.declared.run.Step.{Step as OneStep};
ghost use Rattle.gx_law_groups.specs.OneSlot.{answering, asked, beginning, behind, ending, failing, first, second};
ghost use Rattle.gx_law_groups.specs.Openers.{is_of};

/// In a legal history whose lines were started where the groups let them, no group has more open transactions than slots, at any point.
pub fn groups_keep_their_slots()
    ensures { (script : Script) (steps : List OneStep) → IsScript script → AreLegalSteps script [] steps → AreStartsLet script steps → AlwaysKeepsSlots script (marks_in steps) }
{}

/// The sessions of a group begin their transactions in the order in which they asked.
pub fn sessions_begin_as_they_asked()
    ensures { (script : Script) (steps : List OneStep) → IsScript script → AreLegalSteps script [] steps → AreStartsLet script steps → BeginAsAsked script steps }
{}

/// A session asks for a slot exactly where it is idle and its next line begins a transaction, and holds one exactly where it has an open
/// transaction.
pub fn slots_tell_what_sessions_do()
    ensures asks { (script : Script) (steps : List OneStep) (session : OneSession) → IsScript script → AreLegalSteps script [] steps → AreStartsLet script steps
        → session.0 < length script.sessions → asks (slots_after script steps) session ≡ is_to_open script steps session }
    ensures holds { (script : Script) (steps : List OneStep) (session : OneSession) → IsScript script → AreLegalSteps script [] steps → AreStartsLet script steps
        → session.0 < length script.sessions → holds (slots_after script steps) session ≡ list_any (is_of session) (open_in (marks_in steps)) }
{}

/// Of two sessions that ask for one slot the first takes it where its transaction begins, not before, and keeps it until that commits or
/// aborts, also behind the answer to a line; then the second may take it, not before.
pub fn a_slot_goes_from_one_to_the_next()
    ensures asked { (holds asked first ≡ false) × (may asked first ≡ true) × (may asked second ≡ false) }
    ensures begun { (holds (behind beginning) first ≡ true) × (may (behind beginning) second ≡ false) }
    ensures answered { (holds (behind (beginning ++ answering ∷ [])) first ≡ true) × (may (behind (beginning ++ answering ∷ [])) second ≡ false) }
    ensures committed { (holds (behind (beginning ++ ending ∷ [])) first ≡ false) × (may (behind (beginning ++ ending ∷ [])) second ≡ true) }
    ensures aborted { (holds (behind (beginning ++ failing ∷ [])) first ≡ false) × (may (behind (beginning ++ failing ∷ [])) second ≡ true) }
{}
