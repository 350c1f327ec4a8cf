// The printed form reads back: its tokens are written so, and what was read is printed within the limits.
ghost use Rattle.std.specs.Prelude.{◌≡◌, ◌++◌, ℕ, List, Ok};
ghost use Rattle.gx_tree.specs.declared.schema.Schema.{Schema};
ghost use Rattle.gx_tree.specs.declared.stmt.Stmt.{Stmt};
ghost use Rattle.gx_lex.specs.declared.token.Token.{Token};
ghost use Rattle.gx_lex.specs.Lexing.{Lexes};
ghost use Rattle.gx_grammar.specs.declared.fault.Limits.{Limits};
ghost use Rattle.gx_grammar.specs.declared.syn.Syn.{Syn};
ghost use Rattle.gx_grammar.specs.Grammar.{expr};
ghost use Rattle.gx_lines.specs.declared.syn.StmtSyn.{StmtSyn};
ghost use Rattle.gx_lines.specs.declared.syn.TableSyn.{TableSyn};
ghost use Rattle.gx_lines.specs.declared.syn.LineSyn.TheVariants.{Table};
ghost use Rattle.gx_lines.specs.Heads.{table};
ghost use Rattle.gx_lines.specs.Statements.{stmt};
ghost use Rattle.gx_resolve.specs.Resolving.{new_table, stmt_of};
ghost use Rattle.gx_meaning.specs.Statements.{IsSchema};
ghost use Rattle.gx_print.specs.Forms.{IsShallow};
ghost use Rattle.gx_print.specs.Statements.{stmt_tokens, stmt_text};
ghost use Rattle.gx_print.specs.Limited.{IsWithin, StmtClear, IsPrintedAs};
ghost use Rattle.gx_print.specs.Written.{written, printed};
ghost use Rattle.gx_print.specs.Reading.{IsTable, AreTables, HasSize, IsNamed};
ghost use Rattle.gx_script.specs.declared.Script.{Script};
ghost use Rattle.gx_script.specs.declared.Line.{Line};
ghost use Rattle.gx_sql.specs.Script.{Reads, the_limits};
ghost use Rattle.gx_print.specs.Reprinting.{Among, ReadsAs};
ghost use Rattle.gx_print.specs.OneLine.{AreHeads, IsOneLine, IsReadWith, line_of};

/// A statement's bytes are cut into its tokens.
pub fn printed_is_cut()
    ensures { (s : StmtSyn) → StmtClear s → Lexes (stmt_tokens s) (stmt_text s) }
{}

/// A statement that is printed within the limits is spelled by its tokens, so they are read back as it.
pub fn printed_is_spelled()
    ensures { (d : Limits) (s : StmtSyn) → IsWithin d s → stmt d s (stmt_tokens s) }
{}

/// An expression that was read within the limits is printed within them: its own writing has the parentheses that the
/// printed form has.
pub fn read_is_shallow()
    ensures { (d : Limits) (t : Syn) (ts : List Token) → expr d t ts → IsShallow d t }
{}

/// A statement that was read within the limits is printed within them.
pub fn read_is_within()
    ensures { (d : Limits) (s : StmtSyn) (ts : List Token) → stmt d s ts → IsWithin d s }
{}

/// A statement that was read over tables is printed as bytes that are cut and spelled within the limits, and what they
/// spell reads as the same statement over the same tables.
pub fn printed_reads_again()
    ensures { (d : Limits) (tables : List Schema) (s : StmtSyn) (x : Stmt) (ts : List Token) → AreTables d tables → stmt d s ts
        → stmt_of tables s ≡ Ok x → HasSize x → IsPrintedAs d (written tables x) (printed tables x) × (stmt_of tables (written tables x) ≡ Ok x) }
{}

/// A table that a line declares is one over which statements are read: its names are those of the language.
pub fn declared_is_table()
    ensures { (d : Limits) (t : TableSyn) (schema : Schema) (ts : List Token) (bytes : List ℕ) → Lexes ts bytes → table d (Table t) ts → new_table t ≡ Ok schema → IsSchema schema → IsTable d schema }
{}

/// Behind the heads of a script, a session's line with such a text is read as just that statement: the bytes are a script of
/// these heads and that line, and nothing else; a group that names its session then has it.
pub fn one_line_is_read()
    ensures { (heads : List ℕ) (over : Script) (name : List ℕ) (x : Stmt) (text : List ℕ) → AreHeads heads over → IsNamed the_limits name
        → ReadsAs over.tables x text → IsOneLine text → IsReadWith (heads ++ line_of name text) over name x }
{}

/// A line of a script that was read is written within the limits: its names and texts are short enough, no token stands too
/// deep, and no expression has too many operators; each list has a part at least, an INSERT a tuple and a query an item; and
/// its names are those of the language.
pub fn read_lines_keep_the_limits()
    ensures { (bytes : List ℕ) (script : Script) (line : Line) → Reads bytes (Ok script) → Among line script.lines → HasSize line.stmt
        → IsWithin the_limits (written script.tables line.stmt) × StmtClear (written script.tables line.stmt) }
{}
