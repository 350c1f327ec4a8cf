// The text and trace of a whole run.
ghost use Rattle.std.specs.Prelude.{◌<◌, ◌≤◌, ◌^◌, length};
ghost use Rattle.gx_store.specs.Language.{IsScript};
ghost use Rattle.gx_read_trace.specs.GoingOn as of;
ghost use Rattle.gx_read_trace.specs.ReadText.{read_text};

use crate::answers::read_answers;
use crate::fault::TraceFault;
use crate::lines::Lines;
use crate::steps::read_steps;
use crate::table_rows::read_tables;
use gx_script::Script;
use gx_trace::Seen;
use std::alloc::Global;

fn read_all(alloc: Global, script: &Script, bytes: &[u8]) -> Result<Seen, TraceFault>
    requires sessions { length script.now.sessions ≤ 2 ^ 8 }
    requires lines { length script.now.lines < 2 ^ 32 }
    ensures { of.IsReading result (read_text script.now bytes.now) }
{
    let mut lines = Lines::new(bytes);
    let answers = read_answers(alloc, script, &mut lines)?;
    let tables = read_tables(alloc, script, &mut lines)?;
    let steps = read_steps(alloc, script, &mut lines)?;
    lines.end()?;
    Ok(Seen {
        answers,
        tables,
        steps,
    })
}

/// Reads the text and the trace of a run of the script that came to its end.
pub fn read_trace(alloc: Global, script: &Script, bytes: &[u8]) -> Result<Seen, TraceFault>
    requires { IsScript script.now }
    // The answer is what the bytes are read as, unless memory ran out.
    ensures read { of.IsReading result (read_text script.now bytes.now) }
    // So the bytes are the text of what is seen, and a line that is named is the first with which no text goes on.
    ensures meant { of.IsMeant script.now bytes.now result }
{
    read_all(alloc, script, bytes)
}
