ghost use Rattle.std.specs.Prelude.{◌≡◌, ◌++◌, Some, IfOk};

use crate::running::Ran;
use gx_ids::{Mem, Seq};
use gx_msg::Reply;
use gx_store::Mark;

/// How far a command has come: its marks in order, and its answer, which is kept besides as the transaction's last; none where it
/// waits.
#[derive(Drop)]
pub struct Progress {
    pub marks: Seq<Mark>,
    pub reply: Option<Reply>,
}

pub(crate) fn answered(ran: Ran) -> Progress
    ensures { result ≡ record { marks = ran.marks; reply = Some ran.reply } }
{
    Progress {
        marks: ran.marks,
        reply: Some(ran.reply),
    }
}

// Behind these marks.
pub(crate) fn after(mut marks: Vec<Mark>, progress: Progress) -> Mem<Progress>
    ensures { IfOk result (λ all. all ≡ record { marks = marks.items ++ progress.marks; reply = progress.reply }) }
{
    let mut more = progress.marks.into_vec();
    marks.append(&mut more)?;
    Ok(Progress {
        marks: Seq::from_vec(marks),
        reply: progress.reply,
    })
}
