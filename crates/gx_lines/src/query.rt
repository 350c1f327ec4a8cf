// Reads SELECT.
ghost use Rattle.std.specs.Prelude.{◌≡◌};
ghost use Rattle.gx_lex.specs.declared.symbol.Symbol.TheVariants as sign;
ghost use Rattle.gx_lex.specs.declared.word.Word.TheVariants as keyword;
ghost use Rattle.gx_grammar.specs.Code.{Gives};
ghost use Rattle.gx_grammar.specs.Tokens as class;
ghost use Rattle.gx_grammar.specs.Tokens.{enclosed_at, listed_at};
ghost use Rattle.gx_grammar.specs.Rules.{starts, made_at, maybe_at, behind_at, both_at, one_at};
ghost use Rattle.gx_lines.specs.Classes.{direction_of};
ghost use Rattle.gx_lines.specs.declared.syn.ItemSyn.TheVariants as item_syn;
ghost use Rattle.gx_lines.specs.Queries as of;

use crate::classes::{Direction, Size};
use crate::joining::{before_sign, paired};
use crate::syn::{ItemSyn, ItemsSyn, KeySyn, SelectSyn};
use gx_grammar::{
    Limits, Part, ReadError, Syn, begins_with_sign, begins_with_word, is_word, read_list,
    read_name, read_one, read_sign, read_word,
};
use gx_ids::Seq;
use gx_lex::{Name, Symbol, Token, Word};
use gx_tree::Txt;
use std::alloc::Global;

pub type Reading<'a, 't, T> = Result<(T, &'a [Token<'t>]), ReadError>;

/// A name in parentheses.
pub fn enclosed_name<'a, 't>(
    alloc: Global,
    limits: Limits,
    tokens: &'a [Token<'t>],
) -> Reading<'a, 't, Txt>
    ensures { Gives (λ r. (r.0, r.1.now)) result (enclosed_at (of.name_at limits) tokens.now) }
{
    let rest = read_sign(Symbol::Open, tokens)?;
    let (name, rest) = read_one(alloc, limits, rest)?;
    before_sign(name, Symbol::Close, rest)
}

/// `COUNT(*)`.
fn count<'a, 't>(tokens: &'a [Token<'t>]) -> Reading<'a, 't, ItemSyn>
    ensures { Gives (λ r. (r.0, r.1.now)) result (of.count_at tokens.now) }
{
    let rest = read_word(Word::Count, tokens)?;
    let rest = read_sign(Symbol::Open, rest)?;
    let rest = read_sign(Symbol::Star, rest)?;
    let rest = read_sign(Symbol::Close, rest)?;
    Ok((ItemSyn::Count, rest))
}

/// `SUM`, `MIN` or `MAX` of a column.
fn agg<'a, 't>(alloc: Global, limits: Limits, tokens: &'a [Token<'t>]) -> Reading<'a, 't, ItemSyn>
    ensures { Gives (λ r. (r.0, r.1.now)) result (of.agg_at limits tokens.now) }
{
    let (agg, rest) = read_one(alloc, limits, tokens)?;
    let (name, rest) = enclosed_name(alloc, limits, rest)?;
    Ok((ItemSyn::Agg(agg, name), rest))
}

fn column<'a, 't>(
    alloc: Global,
    limits: Limits,
    tokens: &'a [Token<'t>],
) -> Reading<'a, 't, ItemSyn>
    ensures { Gives (λ r. (r.0, r.1.now)) result (made_at item_syn.Column (of.name_at limits) tokens.now) }
{
    let (name, rest) = read_one(alloc, limits, tokens)?;
    Ok((ItemSyn::Column(name), rest))
}

fn is_agg(token: &Token) -> bool
    ensures { result ≡ of.is_agg token.now }
{
    is_word(Word::Sum, token) || is_word(Word::Min, token) || is_word(Word::Max, token)
}

fn begins_with_agg(tokens: &[Token]) -> bool
    ensures { result ≡ starts of.is_agg tokens.now }
{
    match tokens.first() {
        Some(token) => is_agg(token),
        None => false,
    }
}

fn item<'a, 't>(alloc: Global, limits: Limits, tokens: &'a [Token<'t>]) -> Reading<'a, 't, ItemSyn>
    ensures { Gives (λ r. (r.0, r.1.now)) result (of.item_at limits tokens.now) }
{
    if begins_with_word(Word::Count, tokens) {
        count(tokens)
    } else if begins_with_agg(tokens) {
        agg(alloc, limits, tokens)
    } else {
        column(alloc, limits, tokens)
    }
}

impl Part for ItemSyn {
    ghost use Rattle.gx_lines.specs.Queries.{item_at};

    ghost reads = { item_at };

    fn read<'a, 't>(
        alloc: Global,
        limits: Limits,
        tokens: &'a [Token<'t>],
    ) -> Result<(ItemSyn, &'a [Token<'t>]), ReadError> {
        item(alloc, limits, tokens)
    }
}

fn items<'a, 't>(
    alloc: Global,
    limits: Limits,
    tokens: &'a [Token<'t>],
) -> Reading<'a, 't, ItemsSyn>
    ensures { Gives (λ r. (r.0, r.1.now)) result (of.items_at limits tokens.now) }
{
    if begins_with_sign(Symbol::Star, tokens) {
        let rest = read_sign(Symbol::Star, tokens)?;
        Ok((ItemsSyn::All, rest))
    } else {
        let (list, rest) = read_list(alloc, limits, tokens)?;
        Ok((ItemsSyn::These(list), rest))
    }
}

fn is_direction(token: &Token) -> bool
    ensures { result ≡ of.is_direction token.now }
{
    is_word(Word::Asc, token) || is_word(Word::Desc, token)
}

fn direction<'a, 't>(
    alloc: Global,
    limits: Limits,
    tokens: &'a [Token<'t>],
) -> Reading<'a, 't, Option<Direction>>
    ensures { Gives (λ r. (r.0, r.1.now)) result (maybe_at of.is_direction (one_at direction_of) tokens.now) }
{
    match tokens.split_first() {
        None => Ok((None, tokens)),
        Some((token, _)) => {
            if is_direction(token) {
                let (direction, rest) = read_one(alloc, limits, tokens)?;
                Ok((Some(direction), rest))
            } else {
                Ok((None, tokens))
            }
        }
    }
}

impl Part for KeySyn {
    ghost use Rattle.gx_lines.specs.Queries.{key_at};

    ghost reads = { key_at };

    fn read<'a, 't>(
        alloc: Global,
        limits: Limits,
        tokens: &'a [Token<'t>],
    ) -> Result<(KeySyn, &'a [Token<'t>]), ReadError> {
        let (column, rest) = read_one(alloc, limits, tokens)?;
        let (direction, rest) = direction(alloc, limits, rest)?;
        Ok((KeySyn { column, direction }, rest))
    }
}

impl Part for Size {
    ghost use Rattle.gx_grammar.specs.Rules.{one_at};
    ghost use Rattle.gx_lines.specs.Classes.{size_of};

    ghost reads = { λ limits. one_at size_of };

    fn read<'a, 't>(
        alloc: Global,
        limits: Limits,
        tokens: &'a [Token<'t>],
    ) -> Result<(Size, &'a [Token<'t>]), ReadError> {
        read_one(alloc, limits, tokens)
    }
}

/// A part behind a word, where the word stands first.
pub fn part_behind<'a, 't, T: Part>(
    word: Word,
    alloc: Global,
    limits: Limits,
    tokens: &'a [Token<'t>],
) -> Reading<'a, 't, Option<T>>
    ensures { Gives (λ r. (r.0, r.1.now)) result (maybe_at (class.is_word word) (behind_at (class.is_word word) (T.reads limits)) tokens.now) }
{
    match tokens.split_first() {
        None => Ok((None, tokens)),
        Some((token, _)) => {
            if is_word(word, token) {
                let rest = read_word(word, tokens)?;
                let (part, rest) = T::read(alloc, limits, rest)?;
                Ok((Some(part), rest))
            } else {
                Ok((None, tokens))
            }
        }
    }
}

// A list behind a word and BY, where the word stands first.
fn list_by<'a, 't, T: Part>(
    word: Word,
    alloc: Global,
    limits: Limits,
    tokens: &'a [Token<'t>],
) -> Reading<'a, 't, Option<Seq<T>>>
    ensures { Gives (λ r. (r.0, r.1.now)) result (maybe_at (class.is_word word) (behind_at (class.is_word word) (behind_at (class.is_word keyword.By) (listed_at (T.reads limits)))) tokens.now) }
{
    match tokens.split_first() {
        None => Ok((None, tokens)),
        Some((token, _)) => {
            if is_word(word, token) {
                let rest = read_word(word, tokens)?;
                let rest = read_word(Word::By, rest)?;
                let (list, rest) = read_list(alloc, limits, rest)?;
                Ok((Some(list), rest))
            } else {
                Ok((None, tokens))
            }
        }
    }
}

type Ending = (Option<Seq<KeySyn>>, Option<Size>);

type Grouping = (Option<Seq<Txt>>, Ending);

type Filter = (Option<Syn>, Grouping);

type Source<'t> = (Name<'t>, Filter);

// ORDER BY and LIMIT.
fn ending<'a, 't>(alloc: Global, limits: Limits, tokens: &'a [Token<'t>]) -> Reading<'a, 't, Ending>
    ensures { Gives (λ r. (r.0, r.1.now)) result (both_at (of.order_at limits) of.limit_at tokens.now) }
{
    let (order, rest) = list_by(Word::Order, alloc, limits, tokens)?;
    paired(order, part_behind(Word::Limit, alloc, limits, rest))
}

// GROUP BY and what stands behind it.
fn grouping<'a, 't>(
    alloc: Global,
    limits: Limits,
    tokens: &'a [Token<'t>],
) -> Reading<'a, 't, Grouping>
    ensures { Gives (λ r. (r.0, r.1.now)) result (both_at (of.group_at limits) (both_at (of.order_at limits) of.limit_at) tokens.now) }
{
    let (group, rest) = list_by(Word::Group, alloc, limits, tokens)?;
    paired(group, ending(alloc, limits, rest))
}

// WHERE and what stands behind it.
fn filter<'a, 't>(alloc: Global, limits: Limits, tokens: &'a [Token<'t>]) -> Reading<'a, 't, Filter>
    ensures { Gives (λ r. (r.0, r.1.now)) result (both_at (of.where_at limits) (both_at (of.group_at limits) (both_at (of.order_at limits) of.limit_at)) tokens.now) }
{
    let (cond, rest) = part_behind(Word::Where, alloc, limits, tokens)?;
    paired(cond, grouping(alloc, limits, rest))
}

// FROM and what stands behind it.
fn source<'a, 't>(
    alloc: Global,
    limits: Limits,
    tokens: &'a [Token<'t>],
) -> Reading<'a, 't, Source<'t>>
    ensures { Gives (λ r. (r.0, r.1.now)) result (both_at (behind_at (class.is_word keyword.From) (of.name_at limits))
        (both_at (of.where_at limits) (both_at (of.group_at limits) (both_at (of.order_at limits) of.limit_at))) tokens.now) }
{
    let rest = read_word(Word::From, tokens)?;
    let (table, rest) = read_name(limits, rest)?;
    paired(table, filter(alloc, limits, rest))
}

/// Reads the SELECT that stands first, and hands back the tokens behind it.
pub fn select<'a, 't>(
    alloc: Global,
    limits: Limits,
    tokens: &'a [Token<'t>],
) -> Reading<'a, 't, SelectSyn<'t>>
    ensures { Gives (λ r. (r.0, r.1.now)) result (of.select_at limits tokens.now) }
{
    let rest = read_word(Word::Select, tokens)?;
    let (items, rest) = items(alloc, limits, rest)?;
    let ((items, source), rest) = paired(items, source(alloc, limits, rest))?;
    let (table, (cond, (group, (order, limit)))) = source;
    Ok((
        SelectSyn {
            items,
            table,
            cond,
            group,
            order,
            limit,
        },
        rest,
    ))
}
