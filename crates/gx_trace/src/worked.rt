//! What is shown of small runs.
ghost use Rattle.std.specs.Prelude.{◌≡◌, ◌++◌};
ghost use Rattle.gx_report.specs.Worked.{a_script, smallest_trace};
ghost use Rattle.gx_trace.specs.Shown.{IsShown};
ghost use Rattle.gx_trace.specs.ShownText.{shown_text};
ghost use Rattle.gx_trace.specs.Worked.{many_marks_seen, many_marks_text, small_script, small_seen, small_text};

/// A block that is begun and rolled back: two answers, an empty table, and two steps.
pub fn a_small_run_is_shown()
    ensures { shown_text small_script small_seen ≡ small_text ++ smallest_trace }
{}

/// It may be shown: both lines of the session are answered, the table has its rows, and names and numbers are lawful.
pub fn a_small_run_may_be_shown()
    ensures { IsShown small_script small_seen }
{}

/// Answers with rows, a table with a row, and marks and events of several kinds.
pub fn many_marks_are_shown()
    ensures { shown_text a_script many_marks_seen ≡ many_marks_text }
{}
