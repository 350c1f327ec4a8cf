// The lines of bytes.
ghost use Rattle.std.specs.Prelude.{◌≡◌, ◌<◌, ◌≤◌, [], ◌∷◌, length, MatchOption, IfSome};
ghost use Rattle.std.specs.List.{prefix_len};
ghost use Rattle.gx_sql.specs.Lines as of;
ghost use Rattle.gx_lex.specs.Lexing as lexing;
ghost use Rattle.gx_sql.specs.Cutting as cutting;

use memchr::memchr;

fn line_len(bytes: &[u8]) -> usize
    ensures value { result ≡ prefix_len cutting.is_within bytes.now }
    ensures within { result ≤ length bytes.now }
{
    match memchr(10, bytes) {
        Some(len) => len,
        None => bytes.len(),
    }
}

/// The line without a carriage return at its end.
fn without_return(line: &[u8]) -> &[u8]
    ensures { result.now ≡ cutting.without_return line.now }
{
    match line.split_last() {
        Some((last, front)) => { if *last == 13 { front } else { line } }
        None => line,
    }
}

/// The first line of the bytes, and the bytes behind its line feed.
pub fn first_line(bytes: &[u8]) -> Option<(&[u8], &[u8])>
    ensures cases { MatchOption result (bytes.now ≡ []) (λ r. of.lines_of bytes.now ≡ r.0.now ∷ of.lines_of r.1.now) }
    ensures shorter { IfSome result (λ r. length r.1.now < length bytes.now) }
{
    if bytes.is_empty() {
        return None;
    }
    let (line, rest) = bytes.split_at(line_len(bytes));
    match rest.split_first() {
        None => Some((line, rest)),
        Some((_feed, rest)) => Some((without_return(line), rest)),
    }
}

fn is_blank(byte: u8) -> bool
    ensures { result ≡ lexing.is_blank byte }
{
    byte == 32 || byte == 9
}

fn blanks_len(line: &[u8]) -> usize
    ensures value { result ≡ prefix_len lexing.is_blank line.now }
    ensures within { result ≤ length line.now }
{
    for count in 0..line.len() {
        if !is_blank(line[count]) {
            return count;
        }
    }
    line.len()
}

/// The line without blanks at its front.
pub fn behind_blanks(line: &[u8]) -> &[u8]
    ensures value { result.now ≡ of.behind_blanks line.now }
    ensures within { length result.now ≤ length line.now }
{
    let (_blanks, rest) = line.split_at(blanks_len(line));
    rest
}

/// Whether the line is empty or a comment.
pub fn is_skipped(line: &[u8]) -> bool
    ensures { result ≡ of.is_skipped line.now }
{
    match behind_blanks(line).split_first() {
        None => true,
        Some((first, rest)) => *first == b'-' && rest.first() == Some(&b'-'),
    }
}
