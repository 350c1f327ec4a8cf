ghost use Rattle.std.specs.Prelude.{◌≡◌, []};

use gx_dsnap::Snapshot;
use gx_ids::{Cid, Gxid, Node, Seq, SessionId};
use gx_meaning::Piece;
use gx_msg::Out;
use gx_script::SessionState;
use gx_tree::{Level, Part};
use std::alloc::Global;
use std::mem;

/// A command under way: the place of its line in the script, its number, what was sent for it to each segment, the segments
/// whose answers are awaited, and what was answered so far.
#[derive(Drop)]
pub struct Command {
    pub line: usize,
    pub cid: Cid,
    pub orders: Seq<Out>,
    pub awaited: Seq<Node>,
    pub count: u128,
    pub parts: Seq<Part>,
}

/// What is known of a transaction besides its status: its session and level, its last command's number, the snapshot that a
/// repeatable-read block keeps, the segments where it has written, the command under way, and the place of the line whose
/// statement waits for its table's lock.
#[derive(Drop)]
pub struct Work {
    pub session: SessionId,
    pub level: Level,
    pub last: u32,
    pub snapshot: Option<Snapshot>,
    pub writers: Seq<Node>,
    pub command: Option<Command>,
    pub waiting: Option<usize>,
}

/// Lists of a command that is over, of its pieces and of messages that were sent, whose memory the next ones take.
#[derive(Drop)]
pub struct Spare {
    pub orders: Vec<Out>,
    pub awaited: Vec<Node>,
    pub parts: Vec<Part>,
    pub outs: Vec<Out>,
    pub pieces: Vec<Piece>,
}

impl Spare {
    /// Lists without memory.
    pub fn new(alloc: Global) -> Spare {
        Spare {
            orders: Vec::new(alloc),
            awaited: Vec::new(alloc),
            parts: Vec::new(alloc),
            outs: Vec::new(alloc),
            pieces: Vec::new(alloc),
        }
    }

    /// Keeps the lists of a command.
    pub fn keep(&mut self, command: Command) {
        let Command {
            orders,
            awaited,
            parts,
            ..
        } = command;
        self.orders = emptied(orders.into_vec());
        self.awaited = emptied(awaited.into_vec());
        self.parts = emptied(parts.into_vec());
    }
}

fn emptied<T: Drop>(list: Vec<T>) -> Vec<T>
    ensures { result.items ≡ [] }
{
    let mut list = list;
    list.clear();
    list
}

/// An empty list with the memory of a spare one.
pub fn taken<T: Drop>(alloc: Global, spare: &mut Vec<T>) -> Vec<T>
    ensures { result.items ≡ [] }
{
    emptied(mem::replace(spare, Vec::new(alloc)))
}

/// A session: where it stands, how many of its lines were started, and the transaction of its block or of its line under
/// way.
#[derive(Clone, Copy)]
pub struct Session {
    pub state: SessionState,
    pub lines: u32,
    pub transaction: Gxid,
}
