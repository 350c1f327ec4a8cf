use crate::classes::{Agg, Direction, Fate, KindSyn, Size, Switch, Way};
use gx_grammar::Syn;
use gx_ids::{Boxed, Seq};
use gx_lex::Name;
use gx_modes::Mode;
use gx_tree::{Level, Txt};

/// What SELECT gives.
#[derive(Drop)]
pub enum ItemSyn {
    Column(Txt),
    Count,
    Agg(Agg, Txt),
}

/// The items of SELECT, or all columns.
#[derive(Drop)]
pub enum ItemsSyn {
    All,
    These(Seq<ItemSyn>),
}

/// A key of ORDER BY.
#[derive(Drop)]
pub struct KeySyn {
    pub column: Txt,
    pub direction: Option<Direction>,
}

#[derive(Drop)]
pub struct SelectSyn<'t> {
    pub items: ItemsSyn,
    pub table: Name<'t>,
    pub cond: Option<Syn>,
    pub group: Option<Seq<Txt>>,
    pub order: Option<Seq<KeySyn>>,
    pub limit: Option<Size>,
}

/// A tuple of VALUES.
#[derive(Drop)]
pub struct TupleSyn {
    pub values: Seq<Syn>,
}

/// An assignment of SET.
#[derive(Drop)]
pub struct AssignSyn {
    pub column: Txt,
    pub value: Syn,
}

#[derive(Drop)]
pub enum StmtSyn<'t> {
    Begin(Level),
    Commit,
    Rollback,
    Select(Boxed<SelectSyn<'t>>),
    Insert(Name<'t>, Seq<TupleSyn>),
    Update(Name<'t>, Seq<AssignSyn>, Option<Syn>),
    Delete(Name<'t>, Option<Syn>),
    Lock(Name<'t>, Mode),
}

/// A column of a table line.
#[derive(Drop)]
pub struct ColumnSyn {
    pub name: Txt,
    pub kind: KindSyn,
}

#[derive(Drop)]
pub enum DistSyn {
    By(Txt),
    Randomly,
}

#[derive(Drop)]
pub struct TableSyn {
    pub name: Txt,
    pub columns: Seq<ColumnSyn>,
    pub dist: DistSyn,
}

/// A message that is lost or repeated.
#[derive(Clone, Copy)]
pub struct LinkSyn {
    pub fate: Fate,
    pub way: Way,
    pub segment: u64,
    pub number: u64,
}

/// A group of sessions.
#[derive(Drop)]
pub struct GroupSyn {
    pub name: Txt,
    pub limit: u64,
    pub sessions: Seq<Txt>,
}

/// A line behind the segments.
#[derive(Drop)]
pub enum LineSyn<'t> {
    Detector(Switch),
    Table(TableSyn),
    Link(LinkSyn),
    Group(GroupSyn),
    Session(Name<'t>, StmtSyn<'t>),
}
