//! The printed form of the lines of a script, which reads as the same statement under the script's tables.
ghost use Rattle.std.specs.Prelude.{◌≡◌, ◌≤◌, ◌++◌, ℕ, List, Ok, IfOk};
ghost use Rattle.gx_print.specs.Reading.{HasSize, IsNamed};
ghost use Rattle.gx_print.specs.Written.{printed};
ghost use Rattle.gx_script.specs.declared.Script.{Script as OneScript};
ghost use Rattle.gx_sql.specs.Script.{Reads, the_limits};
ghost use Rattle.gx_print.specs.OneLine.{AreHeads, IsReadWith, line_of};
ghost use Rattle.gx_print.specs.Reprinting.{Among, ReadsAs};

use crate::print_stmt;
use gx_ids::Mem;
use gx_script::{Line, Script};
use gx_tree::Stmt;
use std::alloc::Global;

fn in_64_bits(limit: u64) -> u64
    ensures same { result ≡ limit }
    ensures fits { result ≤ 18446744073709551615 }
{
    limit
}

/// The limit of a query, where the statement has one. It has 64 bits.
fn limit_of(stmt: &Stmt) -> Option<u64>
    ensures { HasSize stmt.now }
{
    match stmt {
        Stmt::Select(query) => match query.get().limit {
            Some(limit) => Some(in_64_bits(limit)),
            None => None,
        },
        _ => None,
    }
}

/// The printed form of the statement in a line of a script: keywords in capitals, one space between tokens, parentheses
/// only where the tree needs them.
pub fn print_line(alloc: Global, script: &Script, line: &Line) -> Mem<Vec<u8>>
    ensures form { IfOk result (λ text. text.items ≡ printed script.now.tables line.now.stmt) }
    // Where the script was read and has the line, the text reads as its statement under the script's tables.
    ensures again { (bytes : List ℕ) → Reads bytes (Ok script.now) → Among line.now script.now.lines → IfOk result (λ text. ReadsAs script.now.tables line.now.stmt text.items) }
    // And behind heads with its tables the text as a session's line is read as just that statement, and as nothing else.
    ensures whole { (bytes heads : List ℕ) (over : OneScript) (name : List ℕ) → Reads bytes (Ok script.now) → Among line.now script.now.lines
        → AreHeads heads over → over.tables ≡ script.now.tables → IsNamed the_limits name
        → IfOk result (λ text. IsReadWith (heads ++ line_of name text.items) over name line.now.stmt) }
{
    let _limit = limit_of(&line.stmt);
    print_stmt(alloc, script.tables.as_slice(), &line.stmt)
}
