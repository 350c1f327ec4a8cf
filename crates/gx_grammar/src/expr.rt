// Reads an expression, token by token.
ghost use Rattle.std.specs.Prelude.{◌≡◌, ◌≤◌, ◌+◌, ◌∷◌, ◌++◌, [], nat_le, if◌then◌else◌, length, List, IfOk, IfSome, Ok, is_some, reverse, Option, Some, None, true};
ghost use Rattle.gx_grammar.specs.Grammar.{level as level_of, left_level as left_level_of, expr as is_expr};
ghost use Rattle.gx_grammar.specs.Machine as machine;
ghost use Rattle.gx_grammar.specs.Rules.{starts};
ghost use Rattle.gx_grammar.specs.declared.fault.Limits.{Limits};
ghost use Rattle.gx_grammar.specs.Code.{stack, turn_of, mode_of, Gives};

use crate::fault::{Fault, Limits, LineLimit, ReadError};
use crate::rest::Rest;
use crate::syn::{Op, Syn};
use gx_ids::{Boxed, Duplicate, Mem};
use gx_lex::{Name, Symbol, Token, Word};
use gx_tree::Txt;
use std::alloc::Global;

/// What is open to the left of the next token.
#[derive(Drop)]
pub enum Frame {
    Paren,
    Minus,
    Negation,
    Left(Op, Syn),
}

/// An operand is awaited, or is there, behind so many operators.
#[derive(Drop)]
pub enum Wait {
    Operand(usize),
    Operator(usize, Syn),
}

/// What a token did.
#[derive(Drop)]
pub enum Turn {
    Stop(Fault),
    Go(Wait),
    Done(Syn),
}

fn level(op: Op) -> u8
    ensures { result ≡ level_of op }
{
    match op {
        Op::Or => 1,
        Op::And => 2,
        Op::Equal => 4,
        Op::NotEqual => 4,
        Op::Less => 4,
        Op::LessEqual => 4,
        Op::Greater => 4,
        Op::GreaterEqual => 4,
        Op::Add => 5,
        Op::Sub => 5,
        Op::Mul => 6,
        Op::Div => 6,
        Op::Rem => 6,
    }
}

fn left_level(op: Op) -> u8
    ensures { result ≡ left_level_of op }
{
    match op {
        Op::Or => 1,
        Op::And => 2,
        Op::Equal => 5,
        Op::NotEqual => 5,
        Op::Less => 5,
        Op::LessEqual => 5,
        Op::Greater => 5,
        Op::GreaterEqual => 5,
        Op::Add => 5,
        Op::Sub => 5,
        Op::Mul => 6,
        Op::Div => 6,
        Op::Rem => 6,
    }
}

fn is_not(word: Word) -> bool
    ensures { result ≡ machine.is_not word }
{
    match word {
        Word::Not => true,
        _ => false,
    }
}

fn word_op(word: Word) -> Option<Op>
    ensures { result ≡ machine.word_op word }
{
    match word {
        Word::Or => Some(Op::Or),
        Word::And => Some(Op::And),
        _ => None,
    }
}

fn symbol_op(symbol: Symbol) -> Option<Op>
    ensures { result ≡ machine.symbol_op symbol }
{
    match symbol {
        Symbol::Equal => Some(Op::Equal),
        Symbol::NotEqual => Some(Op::NotEqual),
        Symbol::Less => Some(Op::Less),
        Symbol::LessEqual => Some(Op::LessEqual),
        Symbol::Greater => Some(Op::Greater),
        Symbol::GreaterEqual => Some(Op::GreaterEqual),
        Symbol::Plus => Some(Op::Add),
        Symbol::Minus => Some(Op::Sub),
        Symbol::Star => Some(Op::Mul),
        Symbol::Slash => Some(Op::Div),
        Symbol::Percent => Some(Op::Rem),
        _ => None,
    }
}

/// The operator that a token is.
fn op_of(token: &Token) -> Option<Op>
    ensures { result ≡ machine.op_of token.now }
{
    match token {
        Token::Word(word) => word_op(*word),
        Token::Symbol(symbol) => symbol_op(*symbol),
        _ => None,
    }
}

fn is_close_symbol(symbol: Symbol) -> bool
    ensures { result ≡ machine.is_close_symbol symbol }
{
    match symbol {
        Symbol::Close => true,
        _ => false,
    }
}

fn is_close(token: &Token) -> bool
    ensures { result ≡ machine.is_close token.now }
{
    match token {
        Token::Symbol(symbol) => is_close_symbol(*symbol),
        _ => false,
    }
}

fn frame_level(frame: &Frame) -> u8
    ensures { result ≡ machine.frame_level frame.now }
{
    match frame {
        Frame::Paren => 0,
        Frame::Minus => 7,
        Frame::Negation => 3,
        Frame::Left(op, _) => level(*op),
    }
}

/// The level that an operand must have behind this frame.
fn wants_behind(frame: &Frame) -> u8
    ensures { (k : List Frame) → result ≡ machine.wants (frame.now ∷ k) }
{
    match frame {
        Frame::Paren => 1,
        Frame::Minus => 7,
        Frame::Negation => 3,
        Frame::Left(op, _) => level(*op) + 1,
    }
}

fn wants(frames: &[Frame]) -> u8
    ensures { result ≡ machine.wants (reverse frames.now) }
{
    match frames.last() {
        Some(frame) => wants_behind(frame),
        None => 1,
    }
}

fn is_minus_frame(frame: &Frame) -> bool
    ensures { (k : List Frame) → result ≡ machine.is_minus (frame.now ∷ k) }
{
    match frame {
        Frame::Minus => true,
        _ => false,
    }
}

fn is_minus(frames: &[Frame]) -> bool
    ensures { result ≡ machine.is_minus (reverse frames.now) }
{
    match frames.last() {
        Some(frame) => is_minus_frame(frame),
        None => false,
    }
}

fn close(alloc: Global, frame: Frame, operand: Syn) -> Mem<Syn>
    ensures { IfOk result (λ t. t ≡ machine.close frame operand) }
{
    match frame {
        Frame::Paren => Ok(operand),
        Frame::Minus => Ok(Syn::Neg(Boxed::new(alloc, operand)?)),
        Frame::Negation => Ok(Syn::Not(Boxed::new(alloc, operand)?)),
        Frame::Left(op, left) => {
            let left = Boxed::new(alloc, left)?;
            let right = Boxed::new(alloc, operand)?;
            Ok(Syn::Bin(op, left, right))
        }
    }
}

/// Closes the frames down to a level.
fn reduce(alloc: Global, to: u8, operand: Syn, frames: &mut Vec<Frame>) -> Mem<Syn>
    ensures { IfOk result (λ t. (t, stack frames.new) ≡ machine.reduce to operand (stack frames.old)) }
{
    let mut operand = operand;
    while let Some(frame) = frames.pop() {
        if to <= frame_level(&frame) {
            operand = close(alloc, frame, operand)?;
        } else {
            frames.push(frame)?;
            return Ok(operand);
        }
    }
    Ok(operand)
}

/// How many frames count as depth.
fn deep(frames: &[Frame]) -> usize
    ensures counted { result ≡ machine.deep (reverse frames.now) }
    ensures within { result ≤ length frames.now }
{
    let mut deep = 0usize;
    let mut behind_minus = false;
    for frame in frames {
        match frame {
            Frame::Paren => {
                if !behind_minus {
                    deep += 1;
                }
            }
            Frame::Left(_, _) => {}
            _ => deep += 1,
        }
        behind_minus = is_minus_frame(frame);
    }
    deep
}

/// The count with one more, where that is within the limit.
fn one_more(limit: usize, count: usize) -> Option<usize>
    ensures { result ≡ (if nat_le (count + 1) limit then Some (count + 1) else None) }
{
    if count < limit { Some(count + 1) } else { None }
}

/// The operators so far, where they are within the limit; a minus directly before counts.
fn so_far(limit: usize, count: usize, frames: &[Frame]) -> Option<usize>
    ensures { result ≡ (if nat_le (machine.so_far count (reverse frames.now)) limit then Some (machine.so_far count (reverse frames.now)) else None) }
{
    if is_minus(frames) {
        one_more(limit, count)
    } else if count <= limit {
        Some(count)
    } else {
        None
    }
}

fn too_deep() -> Turn
    ensures { (k : List Frame) → turn_of result k ≡ machine.too_deep }
{
    Turn::Stop(Fault::TooMany(LineLimit::Depth))
}

fn number(frames: &mut Vec<Frame>, count: usize, number: Option<u64>) -> Mem<Wait>
    ensures { IfOk result (λ w. mode_of w (stack frames.new) ≡ machine.on_number count number (stack frames.old)) }
{
    match frames.pop() {
        None => Ok(Wait::Operator(count, Syn::Number(false, number))),
        Some(Frame::Minus) => Ok(Wait::Operator(count, Syn::Number(true, number))),
        Some(frame) => {
            frames.push(frame)?;
            Ok(Wait::Operator(count, Syn::Number(false, number)))
        }
    }
}

/// An operand of one token that is no number.
fn leaf(limits: Limits, count: usize, frames: &[Frame], operand: Syn) -> Turn
    ensures { turn_of result (reverse frames.now) ≡ machine.on_leaf limits count (reverse frames.now) operand }
{
    if deep(frames) <= limits.depth {
        match so_far(limits.operators, count, frames) {
            Some(count) => Turn::Go(Wait::Operator(count, operand)),
            None => too_deep(),
        }
    } else {
        too_deep()
    }
}

fn name(alloc: Global, limits: Limits, count: usize, frames: &[Frame], name: &Name) -> Mem<Turn>
    ensures { IfOk result (λ turn. turn_of turn (reverse frames.now) ≡ machine.on_name limits count (reverse frames.now) name.now) }
{
    if name.as_slice().len() <= limits.name {
        Ok(leaf(limits, count, frames, Syn::Column(name.to_txt(alloc)?)))
    } else {
        Ok(Turn::Stop(Fault::TooMany(LineLimit::Name)))
    }
}

fn text(alloc: Global, limits: Limits, count: usize, frames: &[Frame], text: &Txt) -> Mem<Turn>
    ensures { IfOk result (λ turn. turn_of turn (reverse frames.now) ≡ machine.on_text limits count (reverse frames.now) text.now) }
{
    if text.as_slice().len() <= limits.text {
        Ok(leaf(limits, count, frames, Syn::Text(text.copy(alloc)?)))
    } else {
        Ok(Turn::Stop(Fault::TooMany(LineLimit::Text)))
    }
}

fn negation(limits: Limits, count: usize, frames: &mut Vec<Frame>) -> Mem<Turn>
    ensures { IfOk result (λ turn. turn_of turn (stack frames.new) ≡ machine.on_not limits count (stack frames.old)) }
{
    if wants(frames.as_slice()) > 3 {
        return Ok(Turn::Stop(Fault::Syntax));
    }
    frames.push(Frame::Negation)?;
    if deep(frames.as_slice()) <= limits.depth {
        match one_more(limits.operators, count) {
            Some(count) => Ok(Turn::Go(Wait::Operand(count))),
            None => Ok(too_deep()),
        }
    } else {
        Ok(too_deep())
    }
}

fn minus(limits: Limits, count: usize, frames: &mut Vec<Frame>) -> Mem<Turn>
    ensures { IfOk result (λ turn. turn_of turn (stack frames.new) ≡ machine.on_minus limits count (stack frames.old)) }
{
    if deep(frames.as_slice()) <= limits.depth {
        match so_far(limits.operators, count, frames.as_slice()) {
            Some(count) => {
                frames.push(Frame::Minus)?;
                Ok(Turn::Go(Wait::Operand(count)))
            }
            None => Ok(too_deep()),
        }
    } else {
        Ok(too_deep())
    }
}

fn open(limits: Limits, count: usize, frames: &mut Vec<Frame>) -> Mem<Turn>
    ensures { IfOk result (λ turn. turn_of turn (stack frames.new) ≡ machine.on_open limits count (stack frames.old)) }
{
    let count = so_far(limits.operators, count, frames.as_slice());
    frames.push(Frame::Paren)?;
    if deep(frames.as_slice()) <= limits.depth {
        match count {
            Some(count) => Ok(Turn::Go(Wait::Operand(count))),
            None => Ok(too_deep()),
        }
    } else {
        Ok(too_deep())
    }
}

fn word(limits: Limits, count: usize, frames: &mut Vec<Frame>, word: Word) -> Mem<Turn>
    ensures { IfOk result (λ turn. turn_of turn (stack frames.new) ≡ machine.on_word limits count (stack frames.old) word) }
{
    if is_not(word) {
        negation(limits, count, frames)
    } else {
        Ok(Turn::Stop(Fault::Syntax))
    }
}

/// A sign that may begin an operand.
#[derive(Clone, Copy)]
pub enum Prefix {
    Minus,
    Open,
}

fn prefix_of(symbol: Symbol) -> Option<Prefix>
    ensures { result ≡ machine.prefix_of symbol }
{
    match symbol {
        Symbol::Minus => Some(Prefix::Minus),
        Symbol::Open => Some(Prefix::Open),
        _ => None,
    }
}

fn symbol(limits: Limits, count: usize, frames: &mut Vec<Frame>, symbol: Symbol) -> Mem<Turn>
    ensures { IfOk result (λ turn. turn_of turn (stack frames.new) ≡ machine.on_symbol limits count (stack frames.old) symbol) }
{
    match prefix_of(symbol) {
        Some(Prefix::Minus) => minus(limits, count, frames),
        Some(Prefix::Open) => open(limits, count, frames),
        None => Ok(Turn::Stop(Fault::Syntax)),
    }
}

fn operand(
    alloc: Global,
    limits: Limits,
    count: usize,
    frames: &mut Vec<Frame>,
    token: &Token,
) -> Mem<Turn>
    ensures { IfOk result (λ turn. turn_of turn (stack frames.new) ≡ machine.operand limits count (stack frames.old) token.now) }
{
    match token {
        Token::Number(size) => Ok(Turn::Go(number(frames, count, *size)?)),
        Token::Name(column) => name(alloc, limits, count, frames.as_slice(), column),
        Token::Text(value) => text(alloc, limits, count, frames.as_slice(), value),
        Token::Word(keyword) => word(limits, count, frames, *keyword),
        Token::Symbol(sign) => symbol(limits, count, frames, *sign),
        Token::Bad => Ok(Turn::Stop(Fault::Syntax)),
    }
}

fn infix(
    alloc: Global,
    limits: Limits,
    count: usize,
    operand: Syn,
    frames: &mut Vec<Frame>,
    op: Op,
) -> Mem<Turn>
    ensures { IfOk result (λ turn. turn_of turn (stack frames.new) ≡ machine.on_op limits count op (machine.reduce (left_level_of op) operand (stack frames.old))) }
{
    let left = reduce(alloc, left_level(op), operand, frames)?;
    if wants(frames.as_slice()) <= level(op) {
        match one_more(limits.operators, count) {
            Some(count) => {
                frames.push(Frame::Left(op, left))?;
                Ok(Turn::Go(Wait::Operand(count)))
            }
            None => Ok(too_deep()),
        }
    } else {
        Ok(Turn::Stop(Fault::Syntax))
    }
}

fn close_paren(alloc: Global, count: usize, operand: Syn, frames: &mut Vec<Frame>) -> Mem<Turn>
    ensures { IfOk result (λ turn. turn_of turn (stack frames.new) ≡ machine.behind_operand count (machine.reduce 1 operand (stack frames.old)) true) }
{
    let inside = reduce(alloc, 1, operand, frames)?;
    match frames.pop() {
        None => Ok(Turn::Done(inside)),
        Some(Frame::Paren) => Ok(Turn::Go(Wait::Operator(count, inside))),
        Some(_) => Ok(Turn::Stop(Fault::Syntax)),
    }
}

fn end(alloc: Global, operand: Syn, frames: &mut Vec<Frame>) -> Mem<Turn>
    ensures { IfOk result (λ turn. turn_of turn (stack frames.new) ≡ machine.ending (machine.reduce 1 operand (stack frames.old))) }
{
    let all = reduce(alloc, 1, operand, frames)?;
    if frames.is_empty() {
        Ok(Turn::Done(all))
    } else {
        Ok(Turn::Stop(Fault::Syntax))
    }
}

fn operator(
    alloc: Global,
    limits: Limits,
    count: usize,
    operand: Syn,
    frames: &mut Vec<Frame>,
    token: &Token,
) -> Mem<Turn>
    ensures { IfOk result (λ turn. turn_of turn (stack frames.new) ≡ machine.operator limits count operand (stack frames.old) token.now) }
{
    match op_of(token) {
        Some(op) => infix(alloc, limits, count, operand, frames, op),
        None => {
            if is_close(token) {
                close_paren(alloc, count, operand, frames)
            } else {
                end(alloc, operand, frames)
            }
        }
    }
}

fn step(
    alloc: Global,
    limits: Limits,
    frames: &mut Vec<Frame>,
    wait: Wait,
    token: &Token,
) -> Mem<Turn>
    ensures { IfOk result (λ turn. turn_of turn (stack frames.new) ≡ machine.step limits (mode_of wait (stack frames.old)) token.now) }
{
    match wait {
        Wait::Operand(count) => operand(alloc, limits, count, frames, token),
        Wait::Operator(count, tree) => operator(alloc, limits, count, tree, frames, token),
    }
}

fn finish(alloc: Global, frames: &mut Vec<Frame>, wait: Wait) -> Mem<Turn>
    ensures { IfOk result (λ turn. turn_of turn (stack frames.new) ≡ machine.finish (mode_of wait (stack frames.old))) }
{
    match wait {
        Wait::Operand(_count) => Ok(Turn::Stop(Fault::Syntax)),
        Wait::Operator(_count, tree) => end(alloc, tree, frames),
    }
}

/// Reads the expression that stands first step by step, and hands back the tokens behind it.
pub fn expr_by_steps<'a, 't>(
    alloc: Global,
    limits: Limits,
    tokens: &'a [Token<'t>],
) -> Result<(Syn, &'a [Token<'t>]), ReadError>
    ensures { Gives (λ r. (r.0, r.1.now)) result (machine.expr_at limits tokens.now) }
{
    let mut frames = Vec::new(alloc);
    let mut wait = Wait::Operand(0);
    let mut rest = Rest { tokens };
    while let Some((token, others)) = rest.tokens.split_first() {
        match step(alloc, limits, &mut frames, wait, token)? {
            Turn::Stop(fault) => return Err(ReadError::Fault(fault, rest.tokens.len())),
            Turn::Go(next) => {
                wait = next;
                rest = Rest { tokens: others };
            }
            Turn::Done(tree) => return Ok((tree, rest.tokens)),
        }
    }
    match finish(alloc, &mut frames, wait)? {
        Turn::Done(tree) => Ok((tree, rest.tokens)),
        _ => Err(ReadError::Fault(Fault::Syntax, rest.tokens.len())),
    }
}

fn begins_with_operator(tokens: &[Token]) -> bool
    ensures { result ≡ starts (λ x. is_some (machine.op_of x)) tokens.now }
{
    match tokens.first() {
        Some(token) => op_of(token).is_some(),
        None => false,
    }
}

/// The number that stands first, where it is the whole expression, and the tokens behind it.
#[tactic(auto, using(crate::proofs::Alone::number_alone))]
pub fn lone_number<'a, 't>(tokens: &'a [Token<'t>]) -> Option<(Syn, &'a [Token<'t>])>
    ensures { IfSome result (λ r. (limits : Limits) → machine.expr_at limits tokens.now ≡ Ok (r.0, r.1.now)) }
{
    match tokens.split_first() {
        Some((Token::Number(size), rest)) => {
            if begins_with_operator(rest) {
                None
            } else {
                Some((Syn::Number(false, *size), rest))
            }
        }
        _ => None,
    }
}

/// Reads the expression that stands first, and hands back the tokens behind it.
pub fn expr<'a, 't>(
    alloc: Global,
    limits: Limits,
    tokens: &'a [Token<'t>],
) -> Result<(Syn, &'a [Token<'t>]), ReadError>
    ensures { Gives (λ r. (r.0, r.1.now)) result (machine.expr_at limits tokens.now) }
{
    match lone_number(tokens) {
        Some(read) => Ok(read),
        None => expr_by_steps(alloc, limits, tokens),
    }
}
