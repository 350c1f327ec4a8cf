ghost use Rattle.std.specs.Prelude.{◌≡◌, nat_eq};
ghost use Rattle.std.specs.Cmp.Lexicographic.{pointwise};
ghost use Rattle.gx_lex.specs.Lexing.{smalls};
ghost use Rattle.gx_lex.specs.Words;
ghost use Rattle.gx_lex.specs.Words.{number_of, text_of, keyword_of};
ghost use Rattle.gx_lex.specs.declared.word.Word.{Word};

use crate::byte::small;
use crate::shape::of_shape;

/// A keyword of the script language.
#[derive(Clone, Copy)]
pub enum Word {
    Segments,
    Detector,
    On,
    Off,
    Table,
    Bigint,
    Text,
    Distributed,
    By,
    Randomly,
    Lose,
    Repeat,
    To,
    From,
    Number,
    Begin,
    Isolation,
    Level,
    Read,
    Committed,
    Repeatable,
    Commit,
    Rollback,
    Select,
    Group,
    Order,
    Limit,
    Insert,
    Into,
    Values,
    Update,
    Set,
    Delete,
    Where,
    Lock,
    In,
    Mode,
    Access,
    Share,
    Row,
    Exclusive,
    Count,
    Sum,
    Min,
    Max,
    Asc,
    Desc,
    Or,
    And,
    Not,
}

/// The keywords, in the order of their numbers.
pub const WORDS: [Word; 50] = [
    Word::Segments,
    Word::Detector,
    Word::On,
    Word::Off,
    Word::Table,
    Word::Bigint,
    Word::Text,
    Word::Distributed,
    Word::By,
    Word::Randomly,
    Word::Lose,
    Word::Repeat,
    Word::To,
    Word::From,
    Word::Number,
    Word::Begin,
    Word::Isolation,
    Word::Level,
    Word::Read,
    Word::Committed,
    Word::Repeatable,
    Word::Commit,
    Word::Rollback,
    Word::Select,
    Word::Group,
    Word::Order,
    Word::Limit,
    Word::Insert,
    Word::Into,
    Word::Values,
    Word::Update,
    Word::Set,
    Word::Delete,
    Word::Where,
    Word::Lock,
    Word::In,
    Word::Mode,
    Word::Access,
    Word::Share,
    Word::Row,
    Word::Exclusive,
    Word::Count,
    Word::Sum,
    Word::Min,
    Word::Max,
    Word::Asc,
    Word::Desc,
    Word::Or,
    Word::And,
    Word::Not,
];

// The same in small letters.
const TEXTS: [&[u8]; 50] = [
    b"segments",
    b"detector",
    b"on",
    b"off",
    b"table",
    b"bigint",
    b"text",
    b"distributed",
    b"by",
    b"randomly",
    b"lose",
    b"repeat",
    b"to",
    b"from",
    b"number",
    b"begin",
    b"isolation",
    b"level",
    b"read",
    b"committed",
    b"repeatable",
    b"commit",
    b"rollback",
    b"select",
    b"group",
    b"order",
    b"limit",
    b"insert",
    b"into",
    b"values",
    b"update",
    b"set",
    b"delete",
    b"where",
    b"lock",
    b"in",
    b"mode",
    b"access",
    b"share",
    b"row",
    b"exclusive",
    b"count",
    b"sum",
    b"min",
    b"max",
    b"asc",
    b"desc",
    b"or",
    b"and",
    b"not",
];

impl Word {
    /// The keyword's place among the keywords.
    pub fn number(self) -> u8
        ensures { result ≡ number_of self }
    {
        self as u8
    }

    /// The keyword in small letters.
    pub fn text(self) -> &'static [u8]
        ensures { result.now ≡ text_of self }
    {
        TEXTS[self as usize]
    }
}

/// Whether a word is spelled so, in letters of either case.
fn is_spelled(spelling: &[u8], word: &[u8]) -> bool
    ensures { result ≡ pointwise nat_eq spelling.now (smalls word.now) }
{
    let mut spelling = spelling;
    for byte in word {
        match spelling.split_first() {
            None => return false,
            Some((letter, others)) => {
                if *letter != small(*byte) {
                    return false;
                }
                spelling = others;
            }
        }
    }
    spelling.is_empty()
}

/// The first of these keywords that the word is, in letters of either case, where there is one.
fn find(words: &[Word], word: &[u8]) -> Option<Word>
    ensures { result ≡ Words.find (smalls word.now) words.now }
{
    for keyword in words {
        if is_spelled(keyword.text(), word) {
            return Some(*keyword);
        }
    }
    None
}

/// The keyword that the word is, in letters of either case, where it is one.
pub fn keyword_in_any_case(word: &[u8]) -> Option<Word>
    ensures { result ≡ keyword_of (smalls word.now) }
{
    match word.split_first() {
        None => None,
        Some((first, _others)) => find(of_shape(word.len(), small(*first)), word),
    }
}
