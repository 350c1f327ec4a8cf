// Running the commands.
ghost use Rattle.std.specs.Prelude.{◌≡◌, ◌*◌, ◌++◌, ◌<◌, ◌≤◌, [], List, All, IfOk, IfErr, OnOk};
ghost use Rattle.std.specs.Fmt.{decimal};
ghost use Rattle.gx_decide.specs.History.{Event};
ghost use Rattle.gx_decide.specs.Kept.{Knows};
ghost use Rattle.gx_decide.specs.Disk.{ReachesTo};
ghost use Rattle.gx_decide.specs.Log.{slots_of};
ghost use Rattle.gx_settle.specs.Commands.{IsDrawn};
ghost use Rattle.gx_settle.specs.Running.{IsCut, IsRun, IsStep, IsStepCut, answer_text, text_of};

use crate::command::Command;
use gx_decide::{DecideFault, Decider, Decision, Disk, open_log};
use gx_ids::{Gxid, Mem};
use gx_text::{push_bytes, push_count};
use std::alloc::Global;

/// Opens the disk and runs commands; adds a line to the text for each answer.
pub fn run_commands<D: Disk>(
    alloc: Global,
    disk: &mut D,
    commands: &[Command],
    text: &mut Vec<u8>,
) -> Result<(), DecideFault>
    requires drawn { All IsDrawn commands.now }
    requires empty { text.old.items ≡ [] }
    ensures ok { OnOk result ((events : List Event) × IsRun commands.now (D.state disk.old) (D.state disk.new) events × (text.new.items ≡ text_of events)) }
    ensures cut { IfErr result (λ fault. IsCut fault commands.now (D.state disk.old) (D.state disk.new) (D.fault_count disk.old) (D.fault_count disk.new) text.new.items) }
    ensures reach { ReachesTo (16 * slots_of (D.state disk.old).size) (D.reach disk.old) (D.reach disk.new) }
{
    let mut decider = open_log(alloc, disk)?;
    for command in commands {
        decider = run_command(alloc, disk, decider, *command, text)?;
    }
    Ok(())
}

// Runs a command; adds a line to the text for its answer.
fn run_command<D: Disk>(
    alloc: Global,
    disk: &mut D,
    decider: Decider,
    command: Command,
    text: &mut Vec<u8>,
) -> Result<Decider, DecideFault>
    requires drawn { IsDrawn command }
    requires known { Knows decider (D.state disk.old) }
    ensures known { IfOk result (λ next. Knows next (D.state disk.new)) }
    ensures step { OnOk result (IsStep command (D.state disk.old) (D.state disk.new) text.old.items text.new.items) }
    ensures cut { IfErr result (λ fault. IsStepCut fault command (D.state disk.old) (D.state disk.new) (D.fault_count disk.old) (D.fault_count disk.new) text.old.items text.new.items) }
    ensures later { D.fault_count disk.old ≤ D.fault_count disk.new }
    ensures size { (D.state disk.new).size ≡ (D.state disk.old).size }
    ensures reach { ReachesTo (16 * slots_of (D.state disk.old).size) (D.reach disk.old) (D.reach disk.new) }
{
    match command {
        Command::Reopen => open_log(alloc, disk),
        Command::Settle(gxid, wish) => {
            let (next, answer) = decider.settle(disk, gxid, wish)?;
            match push_answer(text, gxid, answer) {
                Ok(()) => Ok(next),
                Err(_) => Err(DecideFault::OutOfMemory),
            }
        }
    }
}

fn push_answer(text: &mut Vec<u8>, gxid: Gxid, answer: Decision) -> Mem<()>
    ensures { OnOk result (text.new.items ≡ text.old.items ++ decimal gxid.0 ++ answer_text answer) }
{
    push_count(text, u128::from(gxid.0))?;
    match answer {
        Decision::Commit => push_bytes(text, b" commit\n"),
        Decision::Abort => push_bytes(text, b" abort\n"),
    }
}
