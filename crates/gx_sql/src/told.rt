// Reads the lines of a script, one at a time.
ghost use Rattle.std.specs.Prelude.{◌≡◌, ◌≤◌, ◌<◌, ◌+◌, ◌-◌, ◌^◌, length, vec_len, OnOk, IfOk, IsTrue, ◌↔◌, []};
ghost use Rattle.gx_lex.specs.Lexing.{Lexes};
ghost use Rattle.gx_lines.specs.Heads as of;
ghost use Rattle.gx_sql.specs.declared.refusal.Limit.{Limit};
ghost use Rattle.gx_sql.specs.Counts.{PassesInHead, PassesInLine};
ghost use Rattle.gx_sql.specs.Held.{named, progress_of, IsHeld, OnFault, Stands, Finds};
ghost use Rattle.gx_sql.specs.Progress as said;
ghost use Rattle.gx_sql.specs.Script.{the_limits, Follows, Counts, Told, TokensSay, LineSays};

use crate::count::{passes_columns, passes_groups, passes_sessions, passes_tables};
use crate::progress::Progress;
use crate::refusal::{Limit, LineError, LineFault};
use gx_grammar::Limits;
use gx_ids::Mem;
use gx_lex::{Token, cut_line};
use gx_lines::{read_head_line, read_segments_line, read_session_line};
use gx_script::Line;
use indexmap::IndexMap;
use std::alloc::Global;

/// The limits of lines.
pub fn limits() -> Limits
    ensures { result ≡ the_limits }
{
    Limits {
        segments: 16,
        name: 63,
        text: 1000,
        depth: 100,
        operators: 1000,
    }
}

/// The count that a line passes where a head may stand.
fn passed_in_head(
    alloc: Global,
    tables: usize,
    groups: usize,
    sessions: &IndexMap<Vec<u8>, u32>,
    tokens: &[Token],
) -> Mem<Option<Limit>>
    ensures { IfOk result (Finds (PassesInHead the_limits tables groups (named sessions.now.entries) tokens.now)) }
{
    if passes_sessions(sessions, tokens) {
        return Ok(Some(Limit::Sessions));
    }
    if passes_tables(tables, tokens) {
        return Ok(Some(Limit::Tables));
    }
    if passes_groups(groups, tokens) {
        return Ok(Some(Limit::Groups));
    }
    if passes_columns(alloc, limits(), tokens)? {
        return Ok(Some(Limit::Columns));
    }
    Ok(None)
}

/// The count that a line passes where a session's line came before.
fn passed_in_line(sessions: &IndexMap<Vec<u8>, u32>, tokens: &[Token]) -> Option<Limit>
    ensures { Finds (PassesInLine (named sessions.now.entries) tokens.now) result }
{
    if passes_sessions(sessions, tokens) {
        Some(Limit::Sessions)
    } else {
        None
    }
}

fn is_none(lines: &[Line]) -> bool
    ensures { IsTrue result ↔ (lines.now ≡ []) }
{
    lines.is_empty()
}

impl Progress {
    fn read_segments(&mut self, alloc: Global, tokens: &[Token]) -> Result<(), LineError>
        requires held { IsHeld self.old }
        ensures said { Stands (Follows of.segments (said.with_segments (progress_of self.old)) tokens.now) result (progress_of self.new) }
        ensures kept { OnFault result (self.new ≡ self.old) }
        ensures held { OnOk result (IsHeld self.new) }
        ensures lines { vec_len self.new.lines ≤ vec_len self.old.lines + 1 }
    {
        match read_segments_line(alloc, limits(), tokens) {
            Ok(segments) => {
                self.segments = Some(segments.0);
                Ok(())
            }
            Err(error) => Err(LineError::from(error)),
        }
    }

    fn add_head(&mut self, alloc: Global, segments: u64, tokens: &[Token]) -> Result<(), LineError>
        requires held { IsHeld self.old }
        requires some { 1 ≤ segments }
        requires few { segments ≤ 16 }
        requires none { (l : Limit) → PassesInHead the_limits (length self.old.tables.entries) (length self.old.groups.items) (named self.old.sessions.entries) tokens.now l → ⊥ }
        requires short { vec_len self.old.lines < 2 ^ 32 - 1 }
        ensures said { Stands (Follows (of.head_line segments) (said.with_line_syn (progress_of self.old)) tokens.now) result (progress_of self.new) }
        ensures kept { OnFault result (self.new ≡ self.old) }
        ensures held { OnOk result (IsHeld self.new) }
        ensures lines { vec_len self.new.lines ≤ vec_len self.old.lines + 1 }
    {
        match read_head_line(alloc, segments, limits(), tokens) {
            Ok(line) => {
                let added = self.add(alloc, &line);
                drop(line);
                added
            }
            Err(error) => Err(LineError::from(error)),
        }
    }

    fn read_head(&mut self, alloc: Global, segments: u64, tokens: &[Token]) -> Result<(), LineError>
        requires held { IsHeld self.old }
        requires some { 1 ≤ segments }
        requires few { segments ≤ 16 }
        requires short { vec_len self.old.lines < 2 ^ 32 - 1 }
        ensures said { Stands (Counts (PassesInHead the_limits (length self.old.tables.entries) (length self.old.groups.items) (named self.old.sessions.entries) tokens.now)
            (Follows (of.head_line segments) (said.with_line_syn (progress_of self.old)) tokens.now)) result (progress_of self.new) }
        ensures kept { OnFault result (self.new ≡ self.old) }
        ensures held { OnOk result (IsHeld self.new) }
        ensures lines { vec_len self.new.lines ≤ vec_len self.old.lines + 1 }
    {
        match passed_in_head(
            alloc,
            self.tables.len(),
            self.groups.len(),
            &self.sessions,
            tokens,
        )? {
            Some(limit) => Err(LineError::Fault(LineFault::TooMany(limit))),
            None => self.add_head(alloc, segments, tokens),
        }
    }

    fn add_session(&mut self, alloc: Global, tokens: &[Token]) -> Result<(), LineError>
        requires held { IsHeld self.old }
        requires none { (l : Limit) → PassesInLine (named self.old.sessions.entries) tokens.now l → ⊥ }
        requires short { vec_len self.old.lines < 2 ^ 32 - 1 }
        ensures said { Stands (Follows of.session_line (said.with_line_syn (progress_of self.old)) tokens.now) result (progress_of self.new) }
        ensures kept { OnFault result (self.new ≡ self.old) }
        ensures held { OnOk result (IsHeld self.new) }
        ensures lines { vec_len self.new.lines ≤ vec_len self.old.lines + 1 }
    {
        match read_session_line(alloc, limits(), tokens) {
            Ok(line) => {
                let added = self.add(alloc, &line);
                drop(line);
                added
            }
            Err(error) => Err(LineError::from(error)),
        }
    }

    fn read_session(&mut self, alloc: Global, tokens: &[Token]) -> Result<(), LineError>
        requires held { IsHeld self.old }
        requires short { vec_len self.old.lines < 2 ^ 32 - 1 }
        ensures said { Stands (Counts (PassesInLine (named self.old.sessions.entries) tokens.now)
            (Follows of.session_line (said.with_line_syn (progress_of self.old)) tokens.now)) result (progress_of self.new) }
        ensures kept { OnFault result (self.new ≡ self.old) }
        ensures held { OnOk result (IsHeld self.new) }
        ensures lines { vec_len self.new.lines ≤ vec_len self.old.lines + 1 }
    {
        match passed_in_line(&self.sessions, tokens) {
            Some(limit) => Err(LineError::Fault(LineFault::TooMany(limit))),
            None => self.add_session(alloc, tokens),
        }
    }

    fn read_told(&mut self, alloc: Global, segments: u64, tokens: &[Token]) -> Result<(), LineError>
        requires held { IsHeld self.old }
        requires some { 1 ≤ segments }
        requires few { segments ≤ 16 }
        requires short { vec_len self.old.lines < 2 ^ 32 - 1 }
        ensures said { Stands (Told segments (progress_of self.old) self.old.lines.items tokens.now) result (progress_of self.new) }
        ensures kept { OnFault result (self.new ≡ self.old) }
        ensures held { OnOk result (IsHeld self.new) }
        ensures lines { vec_len self.new.lines ≤ vec_len self.old.lines + 1 }
    {
        if is_none(self.lines.as_slice()) {
            self.read_head(alloc, segments, tokens)
        } else {
            self.read_session(alloc, tokens)
        }
    }

    fn read_tokens(&mut self, alloc: Global, tokens: &[Token]) -> Result<(), LineError>
        requires held { IsHeld self.old }
        requires short { vec_len self.old.lines < 2 ^ 32 - 1 }
        ensures said { Stands (TokensSay self.old.segments (progress_of self.old) tokens.now) result (progress_of self.new) }
        ensures kept { OnFault result (self.new ≡ self.old) }
        ensures held { OnOk result (IsHeld self.new) }
        ensures lines { vec_len self.new.lines ≤ vec_len self.old.lines + 1 }
    {
        match self.segments {
            None => self.read_segments(alloc, tokens),
            Some(segments) => self.read_told(alloc, segments, tokens),
        }
    }

    /// Adds what the bytes of a line say. The list is for its tokens.
    pub fn read_line<'t>(
        &mut self,
        alloc: Global,
        tokens: &mut Vec<Token<'t>>,
        line: &'t [u8],
    ) -> Result<(), LineError>
        requires held { IsHeld self.old }
        requires short { vec_len self.old.lines < 2 ^ 32 - 1 }
        ensures said { Stands (LineSays (progress_of self.old) line.now) result (progress_of self.new) }
        // Where the line has a fault, its tokens stand in the list, and nothing is added.
        ensures cut { OnFault result (Lexes tokens.new.items line.now) }
        ensures kept { OnFault result (self.new ≡ self.old) }
        ensures held { OnOk result (IsHeld self.new) }
        ensures lines { vec_len self.new.lines ≤ vec_len self.old.lines + 1 }
    {
        cut_line(alloc, line, tokens)?;
        self.read_tokens(alloc, tokens.as_slice())
    }
}
