// What the reader of a journal item is in.
use crate::item::{JournalItem, Kept};
use gx_ids::{Cid, Gxid, Rid, Seq, Table};
use gx_tree::Value;

// An item with rows.
#[derive(Clone, Copy)]
pub(crate) enum Listed {
    Prepare,
    Commit,
}

// An item without rows.
#[derive(Clone, Copy)]
pub(crate) enum Lone {
    Finish,
    Decide,
    Abort,
    Forget,
}

// The rows that are read, and how many come behind the one that is being read.
#[derive(Drop)]
pub(crate) struct Rows {
    pub(crate) listed: Listed,
    pub(crate) gxid: Gxid,
    pub(crate) kept: Seq<Kept>,
    pub(crate) others: u64,
}

// A row's line, before its image.
#[derive(Drop)]
pub(crate) struct Spot {
    pub(crate) rows: Rows,
    pub(crate) rid: Rid,
    pub(crate) table: Table,
}

// Letters that stand as they are: an item's name with the space behind it, or an image that is gone with the line's end.
#[derive(Drop)]
pub(crate) enum Word {
    Listed(Listed),
    Lone(Lone),
    Gone(Spot),
}

// What a number is: the item's transaction, the count of its rows, a part of a row's identity, a row's table, or a value
// that is negative or not, behind others.
#[derive(Drop)]
pub(crate) enum Field {
    Listed(Listed),
    Lone(Lone),
    Count(Listed, Gxid),
    RidGxid(Rows),
    RidCid(Rows, Gxid),
    RidOrdinal(Rows, Gxid, Cid),
    Table(Rows, Rid),
    Int(Spot, Seq<Value>, bool),
}

// What the reader is in. With the letter of a fork two items' names begin; a word has the number of its letters that are
// read, a text the bytes of it, and a quote in a text may be its end or the first of two.
#[derive(Drop)]
pub(crate) enum Mid {
    Start,
    Fork,
    Word(Word, usize),
    Digits(Field, Option<u64>),
    Value(Spot, Seq<Value>),
    Text(Spot, Seq<Value>, Seq<u8>),
    Quoted(Spot, Seq<Value>, Seq<u8>),
    Done(JournalItem),
}
