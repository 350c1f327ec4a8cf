// The usual mistakes, and what to write in their place: one a line, with its hint. Before the hint stand, each with a ~ behind it,
// in which clause of a line the mistake stands, behind which token, and how what stands there begins, or its mark, which has a capital.
// What is empty is any, and a $ is the front of a line.
use gx_sql::Limit;
use gx_sql::refusal::LineFault;

// What no grammar of lines takes: by its word or by what stands before it, then by its mark, and at last by its clause or by how it
// begins.
const SYNTAX: &str =
    "groups~~in~a group has a name, a limit and sessions: group g limit 2 in ann, bob
groups~~;~a head has no semicolon
into~~select~an INSERT has VALUES, and no query
into~~(~INSERT has no list of columns: VALUES has one value for each, in the table's order
~~null~there is no NULL: each column of each row has a value
~~is~there is no NULL: each column of each row has a value
~~default~there are no defaults: each column of each row has a value
~~on~there are no unique keys, and no conflicts
~~in~there is no IN: write a = 1 OR a = 2
~~between~there is no BETWEEN: write a >= 1 AND a <= 9
~~like~there is no LIKE: texts are compared by =, <>, <, <=, > and >=
~~avg~there is no AVG: ask for SUM and COUNT(*)
~avg~(~there is no AVG: ask for SUM and COUNT(*)
~~distinct~there is no DISTINCT: GROUP BY the columns
~distinct~~there is no DISTINCT: GROUP BY the columns
~~having~there is no HAVING: WHERE chooses rows, and all groups are given
~~join~there is no JOIN: a SELECT reads one table
~~inner~there is no JOIN: a SELECT reads one table
~~left~there is no JOIN: a SELECT reads one table
~~right~there is no JOIN: a SELECT reads one table
~~cross~there is no JOIN: a SELECT reads one table
from~~,~there is no JOIN: a SELECT reads one table
~(~select~there are no subqueries: write two statements
~~union~there is no UNION: write two statements
~~offset~there is no OFFSET: ask from a value on, by WHERE
~~fetch~write LIMIT 1
~~as~there are no aliases: columns and tables have their own names
~~for~there is no FOR UPDATE: an UPDATE that changes nothing locks the rows
~~returning~there is no RETURNING: SELECT the rows behind it, in its block
~~serializable~the levels are READ COMMITTED and REPEATABLE READ
~~uncommitted~the levels are READ COMMITTED and REPEATABLE READ
~~start~write BEGIN, or BEGIN ISOLATION LEVEL REPEATABLE READ
~begin~~write BEGIN, or BEGIN ISOLATION LEVEL REPEATABLE READ
~:~set~the level stands with BEGIN: BEGIN ISOLATION LEVEL REPEATABLE READ
~~work~write COMMIT or ROLLBACK alone
~~end~write COMMIT, or ROLLBACK
~~abort~write COMMIT, or ROLLBACK
~~create~tables are heads, above the first session's line: table t (a bigint, b text) distributed by (a)
~:~table~tables are heads, above the first session's line: table t (a bigint, b text) distributed by (a)
lines~$~table~tables are heads, above the first session's line: table t (a bigint, b text) distributed by (a)
~~drop~tables stay as the heads make them
~~alter~tables stay as the heads make them
~~truncate~write DELETE FROM t
~delete~~write DELETE FROM t
~~savepoint~there are no savepoints: a block commits or rolls back whole
~~nowait~there is no NOWAIT: who meets a lock waits
~~explain~there is no EXPLAIN: gx --trace shows what a statement does
count~(~~COUNT counts rows: COUNT(*)
set~set~(~SET gives one column after the other: SET b = 11, c = 'z'
lock~lock~~write LOCK TABLE t IN EXCLUSIVE MODE
lock~~End~LOCK TABLE names its mode: LOCK TABLE t IN EXCLUSIVE MODE
~;~~a line has one statement
heads~~;~a head has no semicolon
distributed~)~;~a head has no semicolon
distributed~~,~one column distributes a table
heads~)~End~a table ends with distributed by (a), or with distributed randomly
heads~bigint~~a column is its name and its kind: no keys, no defaults, and none is ever null
heads~text~~a column is its name and its kind: no keys, no defaults, and none is ever null
heads~table~:~a keyword is no session's name
heads~$~segments~the number of segments is told once
lines~$~detector~heads stand above the first session's line
lines~$~group~heads stand above the first session's line
~~Keyword~this word is a keyword, and can't be a name
~~Fitting~this is told already
~~Capital~names are written in small letters
~~Quote~a text ends on its line, and a quote within it is written twice
groups~~End~a group has a name, a limit and sessions: group g limit 2 in ann, bob
~~End~a statement stands whole on one line, and a text ends on its line
~~--~a comment is a line of its own, and begins with --
~~/*~a comment is a line of its own, and begins with --
~~#~a comment is a line of its own, and begins with --
~~!~write <> for !=
~~\"~names stand without quotes, and texts in single ones
~~|~texts are stored and compared, and not joined
~~.~numbers are whole, and a column stands by its name alone
~=~>~write >= for =>
~=~<~write <= for =<
~=~=~write = for ==
where~~<~comparisons don't stand in a chain: join two by AND
where~~=~comparisons don't stand in a chain: join two by AND
where~~>~comparisons don't stand in a chain: join two by AND
select~~~an item is a column, COUNT(*), or SUM, MIN or MAX of a column, and no expression
count~~~an item is a column, COUNT(*), or SUM, MIN or MAX of a column, and no expression
group~~~GROUP BY and ORDER BY take columns, and no expressions
order~~~GROUP BY and ORDER BY take columns, and no expressions
lines~$~~a line is the name of a session, a colon and a statement
heads~$~~a line is a head, or the name of a session, a colon and a statement
heads~detector~~write detector on, or detector off
heads~table~~a table has a name, columns and how its rows are spread: table t (a bigint) distributed by (a)
groups~limit~~a group's limit is a number from 1 to 18446744073709551615
groups~~~a group has a name, a limit and sessions: group g limit 2 in ann, bob
lose~~~a link is that to or from a segment of the script, and its messages are numbered from 1
repeat~~~a link is that to or from a segment of the script, and its messages are numbered from 1
heads~~~a column is its name and its kind, bigint or text
segments~~~the first line tells how many segments there are: segments 2";

// Names that are no columns.
const NAMES: &str = "~~null~there is no NULL: each column of each row has a value
~~true~there are no truth values: compare, as 1 = 1 does
~~false~there are no truth values: compare, as 1 = 1 does
distributed~~~the table has no such column
~~~the table has no such column; a text stands in single quotes";

// Parts that are of the wrong kind.
const KINDS: &str = "where~where~~a condition compares two numbers or two texts, as a = 1 does
limit~~~a number is at most 18446744073709551615
values~~~a tuple has a value for each column, of its kind, and names no column
~~(~a tuple has a value for each column, of its kind, and names no column
set~~~SET gives a column a value of its kind
~~sum~SUM is of a bigint column
order~~~in a query with an aggregate or GROUP BY each ORDER BY column is a GROUP BY column
~~~in a query with an aggregate or GROUP BY each item is an aggregate or a GROUP BY column";

/// The rules on a fault.
pub fn rules_on(fault: LineFault) -> &'static str {
    match fault {
        LineFault::Syntax => SYNTAX,
        LineFault::UnknownTable => "~~~no table line has this name",
        LineFault::UnknownColumn => NAMES,
        LineFault::TableExists => "~~~a table line above has this name",
        LineFault::TypeMismatch => KINDS,
        LineFault::KeyUpdate => "~~~a row keeps its key: DELETE it and INSERT another, in a block",
        LineFault::TooMany(Limit::Segments) => "~~~there are at most 16 segments",
        LineFault::TooMany(Limit::Sessions) => "~~~there are at most 64 sessions",
        LineFault::TooMany(Limit::Tables) => "~~~there are at most 64 tables",
        LineFault::TooMany(Limit::Groups) => "~~~there are at most 64 groups",
        LineFault::TooMany(Limit::Columns) => "~~~a table has at most 32 columns",
        LineFault::TooMany(Limit::Lines) => "~~~there are at most 100000 lines",
        LineFault::TooMany(Limit::Name) => "~~~a name has at most 63 bytes",
        LineFault::TooMany(Limit::Text) => "~~~a text has at most 1000 bytes",
        LineFault::TooMany(Limit::Depth) =>
            "~~~at most 100 parentheses, NOTs and minus signs stand around a token, and 1000 operators in an expression",
    }
}
