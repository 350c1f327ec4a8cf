// Classes of tokens: words of which one stands, and numbers.
ghost use Rattle.std.specs.Prelude.{◌≡◌, Option};
ghost use Rattle.gx_lines.specs.Classes as of;
ghost use Rattle.gx_lines.specs.Classes.{word_of};
ghost use Rattle.gx_grammar.specs.Rules.{one_at};
ghost use Rattle.gx_grammar.specs.Code.{Gives, pick_of};
ghost use Rattle.gx_lex.specs.declared.word.Word.{Word};

use gx_grammar::{Fault, Limits, LineLimit, Picked, ReadError, TokenClass};
use gx_ids::Mem;
use gx_lex::{Token, Word};
use std::alloc::Global;

// A class of words, each of which has a value.
trait WordClass: Sized {
    ghost words: { Word → Option Self };

    // The value of a word.
    fn of_word(word: Word) -> Option<Self>
        ensures { result ≡ words word };
}

// What a token is to a class of words.
fn pick_word<T: WordClass>(token: &Token) -> Picked<T>
    ensures { pick_of result ≡ word_of T.words token.now }
{
    match token {
        Token::Word(word) => match T::of_word(*word) {
            Some(value) => Picked::Is(value),
            None => Picked::Isnt,
        },
        _ => Picked::Isnt,
    }
}

/// An aggregate over a column.
#[derive(Clone, Copy)]
pub enum Agg {
    Sum,
    Min,
    Max,
}

impl WordClass for Agg {
    ghost use Rattle.gx_lines.specs.Classes.{agg_word};

    ghost words = { agg_word };

    fn of_word(word: Word) -> Option<Agg> {
        match word {
            Word::Sum => Some(Agg::Sum),
            Word::Min => Some(Agg::Min),
            Word::Max => Some(Agg::Max),
            _ => None,
        }
    }
}

impl TokenClass for Agg {
    ghost use Rattle.gx_lines.specs.Classes.{agg_of};

    ghost class = { λ limits. agg_of };

    fn pick(_alloc: Global, _limits: Limits, token: &Token) -> Mem<Picked<Agg>> {
        Ok(pick_word(token))
    }
}

/// How a key of ORDER BY orders.
#[derive(Clone, Copy)]
pub enum Direction {
    Asc,
    Desc,
}

impl WordClass for Direction {
    ghost use Rattle.gx_lines.specs.Classes.{direction_word};

    ghost words = { direction_word };

    fn of_word(word: Word) -> Option<Direction> {
        match word {
            Word::Asc => Some(Direction::Asc),
            Word::Desc => Some(Direction::Desc),
            _ => None,
        }
    }
}

impl TokenClass for Direction {
    ghost use Rattle.gx_lines.specs.Classes.{direction_of};

    ghost class = { λ limits. direction_of };

    fn pick(_alloc: Global, _limits: Limits, token: &Token) -> Mem<Picked<Direction>> {
        Ok(pick_word(token))
    }
}

/// The word behind ACCESS or ROW in a mode's name.
#[derive(Clone, Copy)]
pub enum Strength {
    Share,
    Exclusive,
}

impl WordClass for Strength {
    ghost use Rattle.gx_lines.specs.Classes.{strength_word};

    ghost words = { strength_word };

    fn of_word(word: Word) -> Option<Strength> {
        match word {
            Word::Share => Some(Strength::Share),
            Word::Exclusive => Some(Strength::Exclusive),
            _ => None,
        }
    }
}

impl TokenClass for Strength {
    ghost use Rattle.gx_lines.specs.Classes.{strength_of};

    ghost class = { λ limits. strength_of };

    fn pick(_alloc: Global, _limits: Limits, token: &Token) -> Mem<Picked<Strength>> {
        Ok(pick_word(token))
    }
}

/// Whether the detector runs.
#[derive(Clone, Copy)]
pub enum Switch {
    On,
    Off,
}

impl WordClass for Switch {
    ghost use Rattle.gx_lines.specs.Classes.{switch_word};

    ghost words = { switch_word };

    fn of_word(word: Word) -> Option<Switch> {
        match word {
            Word::On => Some(Switch::On),
            Word::Off => Some(Switch::Off),
            _ => None,
        }
    }
}

impl TokenClass for Switch {
    ghost use Rattle.gx_lines.specs.Classes.{switch_of};

    ghost class = { λ limits. switch_of };

    fn pick(_alloc: Global, _limits: Limits, token: &Token) -> Mem<Picked<Switch>> {
        Ok(pick_word(token))
    }
}

/// What a column holds.
#[derive(Clone, Copy)]
pub enum KindSyn {
    Bigint,
    Text,
}

impl WordClass for KindSyn {
    ghost use Rattle.gx_lines.specs.Classes.{kind_word};

    ghost words = { kind_word };

    fn of_word(word: Word) -> Option<KindSyn> {
        match word {
            Word::Bigint => Some(KindSyn::Bigint),
            Word::Text => Some(KindSyn::Text),
            _ => None,
        }
    }
}

impl TokenClass for KindSyn {
    ghost use Rattle.gx_lines.specs.Classes.{kind_of};

    ghost class = { λ limits. kind_of };

    fn pick(_alloc: Global, _limits: Limits, token: &Token) -> Mem<Picked<KindSyn>> {
        Ok(pick_word(token))
    }
}

/// What happens to a message.
#[derive(Clone, Copy)]
pub enum Fate {
    Lose,
    Repeat,
}

impl WordClass for Fate {
    ghost use Rattle.gx_lines.specs.Classes.{fate_word};

    ghost words = { fate_word };

    fn of_word(word: Word) -> Option<Fate> {
        match word {
            Word::Lose => Some(Fate::Lose),
            Word::Repeat => Some(Fate::Repeat),
            _ => None,
        }
    }
}

impl TokenClass for Fate {
    ghost use Rattle.gx_lines.specs.Classes.{fate_of};

    ghost class = { λ limits. fate_of };

    fn pick(_alloc: Global, _limits: Limits, token: &Token) -> Mem<Picked<Fate>> {
        Ok(pick_word(token))
    }
}

/// The link from the coordinator to a segment, or the one from it.
#[derive(Clone, Copy)]
pub enum Way {
    To,
    From,
}

impl WordClass for Way {
    ghost use Rattle.gx_lines.specs.Classes.{way_word};

    ghost words = { way_word };

    fn of_word(word: Word) -> Option<Way> {
        match word {
            Word::To => Some(Way::To),
            Word::From => Some(Way::From),
            _ => None,
        }
    }
}

impl TokenClass for Way {
    ghost use Rattle.gx_lines.specs.Classes.{way_of};

    ghost class = { λ limits. way_of };

    fn pick(_alloc: Global, _limits: Limits, token: &Token) -> Mem<Picked<Way>> {
        Ok(pick_word(token))
    }
}

/// A number of any size, `None` where it is above 18446744073709551615.
#[derive(Clone, Copy)]
pub struct Size(pub Option<u64>);

impl TokenClass for Size {
    ghost use Rattle.gx_lines.specs.Classes.{size_of};

    ghost class = { λ limits. size_of };

    fn pick(_alloc: Global, _limits: Limits, token: &Token) -> Mem<Picked<Size>> {
        match token {
            Token::Number(size) => Ok(Picked::Is(Size(*size))),
            _ => Ok(Picked::Isnt),
        }
    }
}

/// The number of segments.
#[derive(Clone, Copy)]
pub struct Segments(pub u64);

impl TokenClass for Segments {
    ghost use Rattle.gx_lines.specs.Classes.{segments_of};

    ghost class = { segments_of };

    fn pick(_alloc: Global, limits: Limits, token: &Token) -> Mem<Picked<Segments>> {
        match token {
            Token::Number(Some(number)) => {
                if *number == 0 {
                    Ok(Picked::Isnt)
                } else if *number <= limits.segments.max(1) {
                    Ok(Picked::Is(Segments(*number)))
                } else {
                    Ok(Picked::Passes(LineLimit::Segments))
                }
            }
            Token::Number(None) => Ok(Picked::Passes(LineLimit::Segments)),
            _ => Ok(Picked::Isnt),
        }
    }
}

/// The number that a token is, where it is within a range.
fn number_within(least: u64, greatest: u64, token: &Token) -> Option<u64>
    ensures { of.pick_some result ≡ of.number_in least greatest token.now }
{
    match token {
        Token::Number(Some(number)) => {
            if least <= *number && *number <= greatest {
                Some(*number)
            } else {
                None
            }
        }
        _ => None,
    }
}

/// The number that stands first, where it is within a range, and the tokens behind it.
pub fn read_number<'a, 't>(
    least: u64,
    greatest: u64,
    tokens: &'a [Token<'t>],
) -> Result<(u64, &'a [Token<'t>]), ReadError>
    ensures { Gives (λ r. (r.0, r.1.now)) result (one_at (of.number_in least greatest) tokens.now) }
{
    match tokens.split_first() {
        None => Err(ReadError::Fault(Fault::Syntax, tokens.len())),
        Some((token, rest)) => match number_within(least, greatest, token) {
            Some(number) => Ok((number, rest)),
            None => Err(ReadError::Fault(Fault::Syntax, tokens.len())),
        },
    }
}
