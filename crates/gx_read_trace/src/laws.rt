//! What the lines of a text are read as that may be shown.
ghost use Rattle.std.specs.Prelude.{◌≡◌, ℕ, ◌+◌, ◌^◌, ◌<◌, ◌↔◌, List, length, All, Ok, Err};
ghost use Rattle.gx_script.specs.declared.Script.{Script as AnyScript};
ghost use Rattle.gx_store.specs.Language.{IsScript};
ghost use Rattle.gx_trace.specs.Lawful.{IsLine};
ghost use Rattle.gx_trace.specs.Shown.{IsShown};
ghost use Rattle.gx_trace.specs.ShownText.{shown_text};
ghost use Rattle.gx_trace.specs.declared.seen.Seen.{Seen as AnySeen};
ghost use Rattle.gx_read_trace.specs.FirstBad.{IsFirstBad};
ghost use Rattle.gx_read_trace.specs.Lines.{fed, seen_lines};
ghost use Rattle.gx_read_trace.specs.ReadText.{read_text};
ghost use Rattle.gx_read_trace.specs.Reading.{AreReadAs, AreTaken, BeginText, HasPlainNames};

/// The lines of what a script's run may show, each with its line feed, are its text.
pub fn lines_are_the_text()
    ensures { (script : AnyScript) (seen : AnySeen) → IsShown script seen → fed (seen_lines script seen) ≡ shown_text script seen }
{}

/// The machine, which takes a line at a time, reads them as what they show.
pub fn printed_lines_are_read()
    ensures { (script : AnyScript) (seen : AnySeen) → length script.lines + 1 < 2 ^ 32 → IsShown script seen → AreReadAs script (seen_lines script seen) seen }
{}

/// What it reads lines as may be shown, and is what they show: it reads no other lines.
pub fn what_is_read_is_printed()
    ensures { (script : AnyScript) (lines : List (List ℕ)) (seen : AnySeen) → length script.lines + 1 < 2 ^ 32 → AreReadAs script lines seen → IsShown script seen × (lines ≡ seen_lines script seen) }
{}

/// Lines are read as one thing at most.
pub fn lines_are_read_as_one()
    ensures { (script : AnyScript) (lines : List (List ℕ)) (seen other : AnySeen) → AreReadAs script lines seen → AreReadAs script lines other → seen ≡ other }
{}

/// None of the lines has a line feed in it, where the names of the script have none.
pub fn printed_lines_have_no_feeds()
    ensures { (script : AnyScript) (seen : AnySeen) → length script.lines + 1 < 2 ^ 32 → HasPlainNames script → IsShown script seen → All IsLine (seen_lines script seen) }
{}

/// So a text shows one thing at most.
pub fn texts_show_one_thing()
    ensures { (script : AnyScript) (seen other : AnySeen) → length script.lines + 1 < 2 ^ 32 → HasPlainNames script → IsShown script seen → IsShown script other
        → shown_text script seen ≡ shown_text script other → seen ≡ other }
{}

/// The machine takes lines where some text begins with them: so a line at which it stops is the first with which no text goes on.
pub fn lines_are_taken_that_begin_a_text()
    ensures { (script : AnyScript) (lines : List (List ℕ)) → length script.lines + 1 < 2 ^ 32 → AreTaken script lines ↔ BeginText script lines }
{}

/// Bytes are read as what is seen exactly where they are its text.
pub fn texts_are_read_as_seen()
    ensures { (script : AnyScript) (bytes : List ℕ) (seen : AnySeen) → length script.lines + 1 < 2 ^ 32 → HasPlainNames script
        → read_text script bytes ≡ Ok seen ↔ IsShown script seen × (bytes ≡ shown_text script seen) }
{}

/// A line is named exactly where it is the first with which no text goes on.
pub fn the_first_bad_line_is_named()
    ensures { (script : AnyScript) (bytes : List ℕ) (line : ℕ) → length script.lines + 1 < 2 ^ 32 → HasPlainNames script → read_text script bytes ≡ Err line ↔ IsFirstBad script bytes line }
{}

/// All that these ask of a script is so where it keeps the language.
pub fn scripts_of_the_language_have_plain_names()
    ensures { (script : AnyScript) → IsScript script → (length script.lines + 1 < 2 ^ 32) × HasPlainNames script }
{}
