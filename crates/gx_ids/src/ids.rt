// The numbers by which the parts of the system name things.

/// A transaction, by its number in the whole system. The coordinator draws them from 1 upwards.
#[derive(Clone, Copy, PartialEq, Eq, PartialOrd, Ord)]
pub struct Gxid(pub u64);

/// A transaction, by its number at one segment, which draws them from 1 upwards at a transaction's first write there.
#[derive(Clone, Copy, PartialEq, Eq, PartialOrd, Ord)]
pub struct Lxid(pub u64);

/// A command of a transaction, numbered from 1 within it.
#[derive(Clone, Copy, PartialEq, Eq, PartialOrd, Ord)]
pub struct Cid(pub u32);

/// A node: 0 is the coordinator, and 1 to 16 are the segments.
#[derive(Clone, Copy, PartialEq, Eq, PartialOrd, Ord)]
pub struct Node(pub u8);

/// A table, by its place in the script, from 0.
#[derive(Clone, Copy, PartialEq, Eq, PartialOrd, Ord)]
pub struct Table(pub u8);

/// A session, by its place in the order of first appearance in the script, from 0.
#[derive(Clone, Copy, PartialEq, Eq, PartialOrd, Ord)]
pub struct SessionId(pub u8);
