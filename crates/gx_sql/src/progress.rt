// What the lines of a script have said so far.
ghost use Rattle.std.specs.Prelude.{◌≡◌, ◌++◌, ◌∷◌, [], ◌-◌, IfErr, ◌≤◌, ◌<◌, ◌+◌, ◌^◌, ◌&&◌, not, nat_le, false, length, vec_len, OnOk, IfOk, List, Option, Some, None};
ghost use Rattle.std.specs.Option.{option_and_then, option_map, ForSome};
ghost use Rattle.indexmap.specs.IndexMap.{set_value_at};
ghost use Rattle.gx_resolve.specs.Resolving.{table_after, table_named, table_from, stmt_of};
ghost use Rattle.gx_sql.specs.Counts.{is_session};
ghost use Rattle.gx_sql.specs.Held.{named, schemas, progress_of, AreTables, AreCounts, IsHeld, HasRoom, Ends, Gives, OnFault};
ghost use Rattle.gx_sql.specs.Progress as said;
ghost use Rattle.gx_sql.specs.declared.refusal.LineError.TheVariants as error;

use crate::groups::{GroupHead, add_members, is_group};
use crate::refusal::{LineError, LineFault, fault_of};
use gx_ids::{Mem, Node, OutOfMemory, SessionId, Table};
use gx_lines::{Fate, GroupSyn, LineSyn, LinkSyn, StmtSyn, Switch, TableSyn, Way};
use gx_resolve::{ResolveError, named_table, resolve_stmt, resolve_table};
use gx_script::{Line, LinkFault};
use gx_tree::{Schema, Stmt, Txt};
use indexmap::{IndexMap, IndexSet};
use std::alloc::Global;
use std::mem;

/// What the lines of a script have said so far.
#[derive(Drop)]
pub struct Progress {
    pub segments: Option<u64>,
    pub detector: Option<bool>,
    pub tables: IndexMap<Vec<u8>, Schema>,
    pub sessions: IndexMap<Vec<u8>, u32>,
    pub lines: Vec<Line>,
    pub faults: IndexSet<LinkFault>,
    pub groups: Vec<GroupHead>,
    pub members: IndexMap<Vec<u8>, u32>,
}

fn link_fault(link: LinkSyn) -> LinkFault
    requires { link.segment ≤ 16 }
    ensures { result ≡ said.link_fault link }
{
    LinkFault {
        to_segment: link.way == Way::To,
        segment: Node(link.segment as u8),
        number: link.number,
        repeat: link.fate == Fate::Repeat,
    }
}

/// The table of this name, with its place.
fn find_named<'a>(tables: &'a IndexMap<Vec<u8>, Schema>, name: &[u8]) -> Option<(Table, &'a Schema)>
    requires named { AreTables tables.now.entries }
    requires few { length tables.now.entries ≤ 64 }
    ensures found { option_map (λ f. (f.0, f.1.now)) result ≡ table_after 0 name.now (schemas tables.now.entries) }
    ensures narrow { ForSome result (λ f. length f.1.now.columns ≤ 32) }
{
    match tables.get_full(name) {
        Some((place, _key, schema)) => Some((Table(place as u8), schema)),
        None => None,
    }
}

/// The table that the statement names, with its place.
pub fn find_table<'a>(
    tables: &'a IndexMap<Vec<u8>, Schema>,
    stmt: &StmtSyn,
) -> Option<(Table, &'a Schema)>
    requires named { AreTables tables.now.entries }
    requires few { length tables.now.entries ≤ 64 }
    ensures found { option_map (λ f. (f.0, f.1.now)) result ≡ option_and_then (λ name. table_after 0 name (schemas tables.now.entries)) (table_named stmt.now) }
    ensures narrow { ForSome result (λ f. length f.1.now.columns ≤ 32) }
{
    match named_table(stmt) {
        Some(name) => find_named(tables, name.as_slice()),
        None => None,
    }
}

/// What a statement is over the tables.
fn resolve(
    alloc: Global,
    tables: &IndexMap<Vec<u8>, Schema>,
    stmt: &StmtSyn,
) -> Result<Stmt, LineError>
    requires named { AreTables tables.now.entries }
    requires few { length tables.now.entries ≤ 64 }
    ensures { Gives result (said.giving (λ stmt. stmt) (stmt_of (schemas tables.now.entries) stmt.now)) }
{
    match resolve_stmt(alloc, find_table(tables, stmt), stmt) {
        Ok(stmt) => Ok(stmt),
        Err(ResolveError::Fault(fault)) => Err(LineError::Fault(fault_of(fault))),
        Err(ResolveError::OutOfMemory) => Err(LineError::OutOfMemory),
    }
}

/// The place of a session, and how many lines it has.
fn find_session(sessions: &IndexMap<Vec<u8>, u32>, name: &[u8]) -> (usize, u32)
    ensures place { result.0 ≡ said.place_of name.now (named sessions.now.entries) }
    ensures count { result.1 ≡ said.count_of name.now (named sessions.now.entries) }
{
    match sessions.get_full(name) {
        Some((place, _key, count)) => (place, *count),
        None => (sessions.len(), 0),
    }
}

fn is_known(tables: &IndexMap<Vec<u8>, Schema>, name: &[u8]) -> bool
    requires { AreTables tables.now.entries }
    ensures { result ≡ said.is_known name.now (schemas tables.now.entries) }
{
    tables.contains_key(name)
}

/// The key of what has this name.
fn key_of(alloc: Global, name: &[u8]) -> Mem<Vec<u8>>
    ensures { IfOk result (λ key. key.items ≡ name.now) }
{
    Ok(Vec::from_slice(alloc, name)?)
}

/// Adds a table whose name is new.
fn insert_table(
    alloc: Global,
    tables: &mut IndexMap<Vec<u8>, Schema>,
    schema: Schema,
) -> Result<(), LineError>
    requires named { AreTables tables.old.entries }
    requires new { said.is_known schema.name (schemas tables.old.entries) ≡ false }
    requires bounded { length schema.columns ≤ 32 }
    ensures never { IfErr result (λ e. e ≡ error.OutOfMemory) }
    ensures schemas { OnOk result (schemas tables.new.entries ≡ schemas tables.old.entries ++ schema ∷ []) }
    ensures named { OnOk result (AreTables tables.new.entries) }
    ensures more { OnOk result (length tables.new.entries ≡ length tables.old.entries + 1) }
{
    match key_of(alloc, schema.name.as_slice()) {
        Ok(key) => {
            tables.insert(key, schema)?;
            Ok(())
        }
        Err(OutOfMemory) => {
            drop(schema);
            Err(LineError::OutOfMemory)
        }
    }
}

/// Adds a table, or says what is wrong with it.
fn push_table(
    alloc: Global,
    tables: &mut IndexMap<Vec<u8>, Schema>,
    table: &TableSyn,
) -> Result<(), LineError>
    requires named { AreTables tables.old.entries }
    requires bounded { length table.now.columns ≤ 32 }
    ensures said { Ends result (schemas tables.new.entries) (said.giving (λ schema. schemas tables.old.entries ++ schema ∷ [])
        (table_from (said.is_known table.now.name (schemas tables.old.entries)) table.now)) }
    ensures kept { OnFault result (tables.new ≡ tables.old) }
    ensures named { OnOk result (AreTables tables.new.entries) }
    ensures more { OnOk result (length tables.new.entries ≡ length tables.old.entries + 1) }
{
    let known = is_known(tables, table.name.as_slice());
    let schema = resolve_table(alloc, known, table)?;
    insert_table(alloc, tables, schema)
}

/// Adds a group without its sessions.
fn push_group(alloc: Global, groups: &mut Vec<GroupHead>, group: &GroupSyn) -> Result<(), LineError>
    ensures never { IfErr result (λ e. e ≡ error.OutOfMemory) }
    ensures more { OnOk result (groups.new.items ≡ groups.old.items ++ record { name = group.now.name; limit = group.now.limit } ∷ []) }
{
    let name = key_of(alloc, group.name.as_slice())?;
    groups.push(GroupHead {
        name: Txt::from_vec(name),
        limit: group.limit,
    })?;
    Ok(())
}

/// Sets how many lines the session at a place has.
fn set_count(sessions: &mut IndexMap<Vec<u8>, u32>, place: usize, count: u32)
    requires { place < length sessions.old.entries }
    ensures { sessions.new.entries ≡ set_value_at sessions.old.entries place count }
{
    sessions[place] = count;
}

/// Adds a session, or sets how many lines the one of this name has.
fn insert_count(
    alloc: Global,
    sessions: &mut IndexMap<Vec<u8>, u32>,
    name: &[u8],
    count: u32,
) -> Result<(), LineError>
    ensures never { IfErr result (λ e. e ≡ error.OutOfMemory) }
    ensures counted { OnOk result (named sessions.new.entries ≡ said.counted name.now count (named sessions.old.entries)) }
{
    let key = key_of(alloc, name)?;
    sessions.insert(key, count)?;
    Ok(())
}

/// Notes how many lines the session of this name has, which stands at this place or is new.
fn note_count(
    alloc: Global,
    sessions: &mut IndexMap<Vec<u8>, u32>,
    name: &[u8],
    place: usize,
    count: u32,
) -> Result<(), LineError>
    requires { place ≡ said.place_of name.now (named sessions.old.entries) }
    ensures never { IfErr result (λ e. e ≡ error.OutOfMemory) }
    ensures counted { OnOk result (named sessions.new.entries ≡ said.counted name.now count (named sessions.old.entries)) }
{
    if place < sessions.len() {
        set_count(sessions, place, count);
        Ok(())
    } else {
        insert_count(alloc, sessions, name, count)
    }
}

/// Adds a line of a session.
fn push_line(
    alloc: Global,
    sessions: &mut IndexMap<Vec<u8>, u32>,
    lines: &mut Vec<Line>,
    name: &[u8],
    stmt: Stmt,
) -> Result<(), LineError>
    requires counts { AreCounts (vec_len lines.old) sessions.old.entries }
    requires sessions { length sessions.old.entries ≤ 64 }
    requires few { (nat_le 64 (length (named sessions.old.entries)) && not (is_session name.now (named sessions.old.entries))) ≡ false }
    requires short { vec_len lines.old < 2 ^ 32 - 1 }
    ensures never { IfErr result (λ e. e ≡ error.OutOfMemory) }
    ensures sessions { OnOk result (named sessions.new.entries ≡ said.counted name.now (said.count_of name.now (named sessions.old.entries) + 1) (named sessions.old.entries)) }
    ensures lines { OnOk result (lines.new.items ≡ lines.old.items ++ said.next_line name.now (named sessions.old.entries) stmt ∷ []) }
    ensures counts { OnOk result (AreCounts (vec_len lines.new) sessions.new.entries) }
    ensures few { OnOk result (length sessions.new.entries ≤ 64) }
    ensures longer { vec_len lines.new ≤ vec_len lines.old + 1 }
{
    let (place, count) = find_session(sessions, name);
    let session = SessionId(place as u8);
    let number = count + 1;
    match note_count(alloc, sessions, name, place, number) {
        Ok(()) => {
            lines.push(Line {
                session,
                number,
                stmt,
            })?;
            Ok(())
        }
        Err(error) => {
            drop(stmt);
            Err(error)
        }
    }
}

/// Gives back the memory of a line that was read.
pub fn drop_line(line: LineSyn) {
    drop(line);
}

/// Lets go of a line that was read, and leaves its memory to the end of the process.
pub fn forget_line(line: LineSyn) {
    mem::forget(line);
}

impl Progress {
    /// Lets go of what lines have said, and leaves its memory to the end of the process.
    pub fn forget(self) {
        mem::forget(self);
    }

    /// At the front of a script.
    pub fn new(alloc: Global) -> Progress
        ensures said { progress_of result ≡ said.start }
        ensures held { IsHeld result }
    {
        Progress {
            segments: None,
            detector: None,
            tables: IndexMap::new(alloc),
            sessions: IndexMap::new(alloc),
            lines: Vec::new(alloc),
            faults: IndexSet::new(alloc),
            groups: Vec::new(alloc),
            members: IndexMap::new(alloc),
        }
    }

    fn add_detector(&mut self, switch: Switch) -> Result<(), LineError>
        requires { IsHeld self.old }
        ensures said { Ends result (progress_of self.new) (said.with_detector (progress_of self.old) switch) }
        ensures kept { OnFault result (self.new ≡ self.old) }
        ensures held { IsHeld self.new }
        ensures lines { vec_len self.new.lines ≤ vec_len self.old.lines + 1 }
    {
        if self.detector.is_some() {
            return Err(LineError::Fault(LineFault::Syntax));
        }
        self.detector = Some(switch == Switch::On);
        Ok(())
    }

    fn add_link(&mut self, link: LinkSyn) -> Result<(), LineError>
        requires held { IsHeld self.old }
        requires bounded { link.segment ≤ 16 }
        ensures said { Ends result (progress_of self.new) (said.with_link (progress_of self.old) link) }
        ensures kept { OnFault result (self.new ≡ self.old) }
        ensures held { IsHeld self.new }
        ensures lines { vec_len self.new.lines ≤ vec_len self.old.lines + 1 }
    {
        self.faults.insert(link_fault(link))?;
        Ok(())
    }

    fn add_table(&mut self, alloc: Global, table: &TableSyn) -> Result<(), LineError>
        requires held { IsHeld self.old }
        requires few { length self.old.tables.entries < 64 }
        requires bounded { length table.now.columns ≤ 32 }
        ensures said { Ends result (progress_of self.new) (said.with_table (progress_of self.old) table.now) }
        ensures kept { OnFault result (self.new ≡ self.old) }
        ensures held { OnOk result (IsHeld self.new) }
        ensures lines { vec_len self.new.lines ≤ vec_len self.old.lines + 1 }
    {
        push_table(alloc, &mut self.tables, table)
    }

    fn add_group(&mut self, alloc: Global, group: &GroupSyn) -> Result<(), LineError>
        requires held { IsHeld self.old }
        requires few { length self.old.groups.items < 64 }
        ensures said { Ends result (progress_of self.new) (said.with_group (progress_of self.old) group.now) }
        ensures kept { OnFault result (self.new ≡ self.old) }
        ensures held { OnOk result (IsHeld self.new) }
        ensures lines { vec_len self.new.lines ≤ vec_len self.old.lines + 1 }
    {
        if is_group(self.groups.as_slice(), group.name.as_slice()) {
            return Err(LineError::Fault(LineFault::Syntax));
        }
        let place = self.groups.len() as u32;
        match add_members(alloc, &mut self.members, group.sessions.as_slice(), place) {
            Ok(()) => push_group(alloc, &mut self.groups, group),
            Err(error) => Err(error),
        }
    }

    fn add_line(&mut self, alloc: Global, name: &[u8], stmt: &StmtSyn) -> Result<(), LineError>
        requires held { IsHeld self.old }
        requires few { (nat_le 64 (length (named self.old.sessions.entries)) && not (is_session name.now (named self.old.sessions.entries))) ≡ false }
        requires short { vec_len self.old.lines < 2 ^ 32 - 1 }
        ensures said { Ends result (progress_of self.new) (said.with_session (progress_of self.old) name.now stmt.now) }
        ensures kept { OnFault result (self.new ≡ self.old) }
        ensures held { OnOk result (IsHeld self.new) }
        ensures lines { vec_len self.new.lines ≤ vec_len self.old.lines + 1 }
    {
        match resolve(alloc, &self.tables, stmt) {
            Ok(stmt) => push_line(alloc, &mut self.sessions, &mut self.lines, name, stmt),
            Err(error) => Err(error),
        }
    }

    /// Adds what a line says for which there is room.
    pub fn add(&mut self, alloc: Global, line: &LineSyn) -> Result<(), LineError>
        requires held { IsHeld self.old }
        requires room { HasRoom (length self.old.tables.entries) (length self.old.groups.items) (named self.old.sessions.entries) line.now }
        requires short { vec_len self.old.lines < 2 ^ 32 - 1 }
        ensures said { Ends result (progress_of self.new) (said.with_line_syn (progress_of self.old) line.now) }
        ensures kept { OnFault result (self.new ≡ self.old) }
        ensures held { OnOk result (IsHeld self.new) }
        ensures lines { vec_len self.new.lines ≤ vec_len self.old.lines + 1 }
    {
        match line {
            LineSyn::Detector(switch) => self.add_detector(*switch),
            LineSyn::Table(table) => self.add_table(alloc, table),
            LineSyn::Link(link) => self.add_link(*link),
            LineSyn::Group(group) => self.add_group(alloc, group),
            LineSyn::Session(name, stmt) => self.add_line(alloc, name.as_slice(), stmt),
        }
    }
}
