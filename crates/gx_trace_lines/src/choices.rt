ghost use Rattle.gx_trace_lines.specs.Choices.{IsSkipped};

use gx_trace::Cursor;

// Goes behind a word, if it stands here.
pub fn skips<'a>(cursor: &mut Cursor<'a>, word: &[u8]) -> bool
    ensures { IsSkipped result cursor.new word.now cursor.old }
{
    let left = cursor.left();
    match cursor.skip(word) {
        Some(()) => true,
        None => {
            cursor.go_to(left);
            false
        }
    }
}
