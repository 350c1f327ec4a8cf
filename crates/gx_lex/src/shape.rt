// Keywords by their length and their first letter.
ghost use Rattle.std.specs.Prelude.{◌≡◌, ℕ, suc, List, [], ◌∷◌, length};
ghost use Rattle.gx_lex.specs.Words as words;

use crate::word::{WORDS, Word};

// Keywords of two letters among which one that begins with this letter is found.
fn of_two(first: u8) -> &'static [Word]
    ensures { (rest : List ℕ) → words.find (first ∷ rest) result.now ≡ words.find (first ∷ rest) (words.of_length 2) }
{
    match first {
        b'b' => &[Word::By],
        b'i' => &[Word::In],
        b'o' => &[Word::On, Word::Or],
        b't' => &[Word::To],
        _ => &[],
    }
}

// Keywords of three letters among which one that begins with this letter is found.
fn of_three(first: u8) -> &'static [Word]
    ensures { (rest : List ℕ) → words.find (first ∷ rest) result.now ≡ words.find (first ∷ rest) (words.of_length 3) }
{
    match first {
        b'a' => &[Word::Asc, Word::And],
        b'm' => &[Word::Min, Word::Max],
        b'n' => &[Word::Not],
        b'o' => &[Word::Off],
        b'r' => &[Word::Row],
        b's' => &[Word::Set, Word::Sum],
        _ => &[],
    }
}

// Keywords of four letters among which one that begins with this letter is found.
fn of_four(first: u8) -> &'static [Word]
    ensures { (rest : List ℕ) → words.find (first ∷ rest) result.now ≡ words.find (first ∷ rest) (words.of_length 4) }
{
    match first {
        b'd' => &[Word::Desc],
        b'f' => &[Word::From],
        b'i' => &[Word::Into],
        b'l' => &[Word::Lose, Word::Lock],
        b'm' => &[Word::Mode],
        b'r' => &[Word::Read],
        b't' => &[Word::Text],
        _ => &[],
    }
}

// Keywords of five letters among which one that begins with this letter is found.
fn of_five(first: u8) -> &'static [Word]
    ensures { (rest : List ℕ) → words.find (first ∷ rest) result.now ≡ words.find (first ∷ rest) (words.of_length 5) }
{
    match first {
        b'b' => &[Word::Begin],
        b'c' => &[Word::Count],
        b'g' => &[Word::Group],
        b'l' => &[Word::Level, Word::Limit],
        b'o' => &[Word::Order],
        b's' => &[Word::Share],
        b't' => &[Word::Table],
        b'w' => &[Word::Where],
        _ => &[],
    }
}

// Keywords of six letters among which one that begins with this letter is found.
fn of_six(first: u8) -> &'static [Word]
    ensures { (rest : List ℕ) → words.find (first ∷ rest) result.now ≡ words.find (first ∷ rest) (words.of_length 6) }
{
    match first {
        b'a' => &[Word::Access],
        b'b' => &[Word::Bigint],
        b'c' => &[Word::Commit],
        b'd' => &[Word::Delete],
        b'i' => &[Word::Insert],
        b'n' => &[Word::Number],
        b'r' => &[Word::Repeat],
        b's' => &[Word::Select],
        b'u' => &[Word::Update],
        b'v' => &[Word::Values],
        _ => &[],
    }
}

// Keywords of eight letters among which one that begins with this letter is found.
fn of_eight(first: u8) -> &'static [Word]
    ensures { (rest : List ℕ) → words.find (first ∷ rest) result.now ≡ words.find (first ∷ rest) (words.of_length 8) }
{
    match first {
        b'd' => &[Word::Detector],
        b'r' => &[Word::Randomly, Word::Rollback],
        b's' => &[Word::Segments],
        _ => &[],
    }
}

// Keywords of nine letters among which one that begins with this letter is found.
fn of_nine(first: u8) -> &'static [Word]
    ensures { (rest : List ℕ) → words.find (first ∷ rest) result.now ≡ words.find (first ∷ rest) (words.of_length 9) }
{
    match first {
        b'c' => &[Word::Committed],
        b'e' => &[Word::Exclusive],
        b'i' => &[Word::Isolation],
        _ => &[],
    }
}

// Keywords of ten letters among which one that begins with this letter is found.
fn of_ten(first: u8) -> &'static [Word]
    ensures { (rest : List ℕ) → words.find (first ∷ rest) result.now ≡ words.find (first ∷ rest) (words.of_length 10) }
{
    match first {
        b'r' => &[Word::Repeatable],
        _ => &[],
    }
}

// Keywords of eleven letters among which one that begins with this letter is found.
fn of_eleven(first: u8) -> &'static [Word]
    ensures { (rest : List ℕ) → words.find (first ∷ rest) result.now ≡ words.find (first ∷ rest) (words.of_length 11) }
{
    match first {
        b'd' => &[Word::Distributed],
        _ => &[],
    }
}

/// Keywords among which one of so many letters that begins with this letter is found. None has seven letters, and none more
/// than eleven.
pub fn of_shape(letters: usize, first: u8) -> &'static [Word]
    ensures { (rest : List ℕ) → suc (length rest) ≡ letters → words.find (first ∷ rest) result.now ≡ words.keyword_of (first ∷ rest) }
{
    match letters {
        0 => &[],
        1 => &[],
        2 => of_two(first),
        3 => of_three(first),
        4 => of_four(first),
        5 => of_five(first),
        6 => of_six(first),
        7 => &[],
        8 => of_eight(first),
        9 => of_nine(first),
        10 => of_ten(first),
        11 => of_eleven(first),
        _ => &WORDS,
    }
}
