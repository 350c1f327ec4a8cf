// One byte of a journal item.
ghost use Rattle.std.specs.Prelude.{◌≡◌, ◌+◌, ◌*◌, ◌++◌, ◌∷◌, [], IfOk, Some, true};
ghost use Rattle.gx_msg.specs.Steps as of;
ghost use Rattle.gx_msg.specs.declared.mid.Field.TheVariants as field;
ghost use Rattle.gx_msg.specs.declared.mid.Mid.TheVariants as mid;

use crate::item::{JournalItem, Kept};
use crate::mid::{Field, Listed, Lone, Mid, Rows, Spot, Word};
use gx_ids::{Cid, Gxid, Mem, Rid, Seq, Table};
use gx_tree::{Row, Txt, Value};
use std::alloc::Global;

fn letters(word: &Word) -> &'static [u8]
    ensures { result.now ≡ of.letters_of word.now }
{
    match word {
        Word::Listed(Listed::Prepare) => b"prepare ",
        Word::Listed(Listed::Commit) => b"commit ",
        Word::Lone(Lone::Finish) => b"finish ",
        Word::Lone(Lone::Decide) => b"decide ",
        Word::Lone(Lone::Abort) => b"abort ",
        Word::Lone(Lone::Forget) => b"forget ",
        Word::Gone(_) => b"gone\n",
    }
}

fn listed_item(listed: Listed, gxid: Gxid, rows: Seq<Kept>) -> JournalItem
    ensures { result ≡ of.listed_item listed gxid rows }
{
    match listed {
        Listed::Prepare => JournalItem::Prepare(gxid, rows),
        Listed::Commit => JournalItem::Commit(gxid, rows),
    }
}

fn lone_item(lone: Lone, gxid: Gxid) -> JournalItem
    ensures { result ≡ of.lone_item lone gxid }
{
    match lone {
        Lone::Finish => JournalItem::Finish(gxid),
        Lone::Decide => JournalItem::Decide(gxid),
        Lone::Abort => JournalItem::Abort(gxid),
        Lone::Forget => JournalItem::Forget(gxid),
    }
}

// What comes when this many rows are still to be read.
fn rows_from(listed: Listed, gxid: Gxid, kept: Seq<Kept>, left: u64) -> Mid
    ensures { result ≡ of.rows_from listed gxid kept left }
{
    if left == 0 {
        Mid::Done(listed_item(listed, gxid, kept))
    } else {
        let rows = Rows {
            listed,
            gxid,
            kept,
            others: left - 1,
        };
        Mid::Digits(Field::RidGxid(rows), None)
    }
}

fn line_ended(spot: Spot, image: Option<Row>) -> Mem<Mid>
    ensures { IfOk result (λ mid. mid ≡ of.line_ended spot image) }
{
    let Spot { rows, rid, table } = spot;
    let Rows {
        listed,
        gxid,
        mut kept,
        others,
    } = rows;
    match kept.push(Kept { rid, table, image }) {
        Ok(()) => Ok(rows_from(listed, gxid, kept, others)),
        Err(fault) => {
            drop(kept);
            Err(fault)
        }
    }
}

fn row_ended(alloc: Global, spot: Spot, values: Seq<Value>) -> Mem<Option<Mid>>
    ensures { IfOk result (λ mid. mid ≡ Some (of.line_ended spot (Some values))) }
{
    match Row::from_vec(alloc, values.into_vec()) {
        Ok(row) => Ok(Some(line_ended(spot, Some(row))?)),
        Err(fault) => {
            drop(spot);
            Err(fault)
        }
    }
}

fn value_ended(alloc: Global, spot: Spot, values: Seq<Value>, byte: u8) -> Mem<Option<Mid>>
    ensures { IfOk result (λ mid. mid ≡ of.value_ended spot values byte) }
{
    if byte == b'|' {
        Ok(Some(Mid::Value(spot, values)))
    } else if byte == b'\n' {
        row_ended(alloc, spot, values)
    } else {
        drop(spot);
        drop(values);
        Ok(None)
    }
}

// One more value, and the byte behind it.
fn value_read(
    alloc: Global,
    spot: Spot,
    mut values: Seq<Value>,
    value: Value,
    byte: u8,
) -> Mem<Option<Mid>>
    ensures { IfOk result (λ mid. mid ≡ of.value_ended spot (values ++ value ∷ []) byte) }
{
    match values.push(value) {
        Ok(()) => value_ended(alloc, spot, values, byte),
        Err(fault) => {
            drop(spot);
            drop(values);
            Err(fault)
        }
    }
}

fn negative(number: u64) -> Option<i64>
    ensures { result ≡ of.negative number }
{
    if number < 1 << 63 {
        Some(-(number as i64))
    } else if number == 1 << 63 {
        Some(i64::MIN)
    } else {
        None
    }
}

fn signed(is_negative: bool, number: u64) -> Option<i64>
    ensures { result ≡ of.signed is_negative number }
{
    if is_negative {
        negative(number)
    } else if number < 1 << 63 {
        Some(number as i64)
    } else {
        None
    }
}

fn int_ended(
    alloc: Global,
    spot: Spot,
    values: Seq<Value>,
    number: Option<i64>,
    byte: u8,
) -> Mem<Option<Mid>>
    ensures { IfOk result (λ mid. mid ≡ of.int_ended spot values number byte) }
{
    match number {
        None => {
            drop(spot);
            drop(values);
            Ok(None)
        }
        Some(number) => value_read(alloc, spot, values, Value::Int(number), byte),
    }
}

fn at(stop: u8, byte: u8, mid: Mid) -> Option<Mid>
    ensures { result ≡ of.at stop byte mid }
{
    if byte == stop {
        Some(mid)
    } else {
        drop(mid);
        None
    }
}

fn cid_ended(rows: Rows, gxid: Gxid, number: u64, byte: u8) -> Option<Mid>
    ensures { result ≡ of.number_ended (field.RidCid rows gxid) number byte }
{
    if number < 1 << 32 {
        let field = Field::RidOrdinal(rows, gxid, Cid(number as u32));
        at(b'.', byte, Mid::Digits(field, None))
    } else {
        drop(rows);
        None
    }
}

fn ordinal_ended(rows: Rows, gxid: Gxid, cid: Cid, number: u64, byte: u8) -> Option<Mid>
    ensures { result ≡ of.number_ended (field.RidOrdinal rows gxid cid) number byte }
{
    if number < 1 << 32 {
        let ordinal = number as u32;
        let field = Field::Table(rows, Rid { gxid, cid, ordinal });
        at(b' ', byte, Mid::Digits(field, None))
    } else {
        drop(rows);
        None
    }
}

fn table_ended(alloc: Global, rows: Rows, rid: Rid, number: u64, byte: u8) -> Option<Mid>
    ensures { result ≡ of.number_ended (field.Table rows rid) number byte }
{
    if number < 1 << 8 {
        let table = Table(number as u8);
        at(
            b' ',
            byte,
            Mid::Value(Spot { rows, rid, table }, Seq::new(alloc)),
        )
    } else {
        drop(rows);
        None
    }
}

fn number_ended(alloc: Global, field: Field, number: u64, byte: u8) -> Mem<Option<Mid>>
    ensures { IfOk result (λ mid. mid ≡ of.number_ended field number byte) }
{
    match field {
        Field::Listed(listed) => {
            let field = Field::Count(listed, Gxid(number));
            Ok(at(b' ', byte, Mid::Digits(field, None)))
        }
        Field::Lone(lone) => Ok(at(b'\n', byte, Mid::Done(lone_item(lone, Gxid(number))))),
        Field::Count(listed, gxid) => {
            let rows = Seq::new(alloc);
            Ok(at(b'\n', byte, rows_from(listed, gxid, rows, number)))
        }
        Field::RidGxid(rows) => {
            let field = Field::RidCid(rows, Gxid(number));
            Ok(at(b'.', byte, Mid::Digits(field, None)))
        }
        Field::RidCid(rows, gxid) => Ok(cid_ended(rows, gxid, number, byte)),
        Field::RidOrdinal(rows, gxid, cid) => Ok(ordinal_ended(rows, gxid, cid, number, byte)),
        Field::Table(rows, rid) => Ok(table_ended(alloc, rows, rid, number, byte)),
        Field::Int(spot, values, is_negative) => {
            int_ended(alloc, spot, values, signed(is_negative, number), byte)
        }
    }
}

fn most(field: &Field) -> u64
    ensures { result ≡ of.most field.now }
{
    match field {
        Field::Listed(_) | Field::Lone(_) | Field::Count(_, _) | Field::RidGxid(_) => u64::MAX,
        Field::RidCid(_, _) | Field::RidOrdinal(_, _, _) => 4294967295,
        Field::Table(_, _) => 255,
        Field::Int(_, _, false) => 9223372036854775807,
        Field::Int(_, _, true) => 9223372036854775808,
    }
}

fn is_negative(field: &Field) -> bool
    ensures { result ≡ of.is_negative field.now }
{
    match field {
        Field::Int(_, _, negative) => *negative,
        _ => false,
    }
}

fn within(limit: u64, number: u64, digit: u64) -> Option<u64>
    ensures { result ≡ of.within limit (number * 10 + digit) }
{
    let number = number.checked_mul(10)?.checked_add(digit)?;
    if number <= limit { Some(number) } else { None }
}

// The number with one more digit. None begins with 0 but 0 itself, which has no sign.
fn grown(signed: bool, limit: u64, number: Option<u64>, digit: u64) -> Option<u64>
    ensures { result ≡ of.grown signed limit number digit }
{
    match number {
        None => {
            if signed && digit == 0 {
                None
            } else {
                Some(digit)
            }
        }
        Some(number) => {
            if number == 0 {
                None
            } else {
                within(limit, number, digit)
            }
        }
    }
}

fn is_digit(byte: u8) -> bool
    ensures { result ≡ of.is_digit byte }
{
    48 <= byte && byte <= 57
}

fn one_more(field: Field, number: Option<u64>, byte: u8) -> Option<Mid>
    requires { of.is_digit byte ≡ true }
    ensures { result ≡ of.next_digit field number byte }
{
    let digit = u64::from(byte - 48);
    match grown(is_negative(&field), most(&field), number, digit) {
        None => {
            drop(field);
            None
        }
        Some(number) => Some(Mid::Digits(field, Some(number))),
    }
}

fn digits_over(alloc: Global, field: Field, number: Option<u64>, byte: u8) -> Mem<Option<Mid>>
    ensures { IfOk result (λ mid. mid ≡ of.digits_over field number byte) }
{
    match number {
        None => {
            drop(field);
            Ok(None)
        }
        Some(number) => number_ended(alloc, field, number, byte),
    }
}

fn next_digit(alloc: Global, field: Field, number: Option<u64>, byte: u8) -> Mem<Option<Mid>>
    ensures { IfOk result (λ mid. mid ≡ of.next_digit field number byte) }
{
    if is_digit(byte) {
        Ok(one_more(field, number, byte))
    } else {
        digits_over(alloc, field, number, byte)
    }
}

fn word_ended(word: Word) -> Mem<Mid>
    ensures { IfOk result (λ mid. mid ≡ of.word_ended word) }
{
    match word {
        Word::Listed(listed) => Ok(Mid::Digits(Field::Listed(listed), None)),
        Word::Lone(lone) => Ok(Mid::Digits(Field::Lone(lone), None)),
        Word::Gone(spot) => line_ended(spot, None),
    }
}

fn next_letter(word: Word, place: usize, byte: u8) -> Mem<Option<Mid>>
    ensures { IfOk result (λ mid. mid ≡ of.next_letter word place byte) }
{
    let text = letters(&word);
    match text.get(place) {
        None => {
            drop(word);
            Ok(None)
        }
        Some(letter) => {
            if *letter != byte {
                drop(word);
                Ok(None)
            } else if place + 1 < text.len() {
                Ok(Some(Mid::Word(word, place + 1)))
            } else {
                Ok(Some(word_ended(word)?))
            }
        }
    }
}

// The first letter tells the item, but for finish and forget.
fn begin(byte: u8) -> Option<Mid>
    ensures { result ≡ of.begin byte }
{
    if byte == b'p' {
        Some(Mid::Word(Word::Listed(Listed::Prepare), 1))
    } else if byte == b'c' {
        Some(Mid::Word(Word::Listed(Listed::Commit), 1))
    } else if byte == b'f' {
        Some(Mid::Fork)
    } else if byte == b'a' {
        Some(Mid::Word(Word::Lone(Lone::Abort), 1))
    } else {
        at(b'd', byte, Mid::Word(Word::Lone(Lone::Decide), 1))
    }
}

// The second letter of finish or forget.
fn fork(byte: u8) -> Option<Mid>
    ensures { result ≡ of.fork byte }
{
    if byte == b'i' {
        Some(Mid::Word(Word::Lone(Lone::Finish), 2))
    } else {
        at(b'o', byte, Mid::Word(Word::Lone(Lone::Forget), 2))
    }
}

fn begin_value(alloc: Global, spot: Spot, values: Seq<Value>, byte: u8) -> Mem<Option<Mid>>
    ensures { IfOk result (λ mid. mid ≡ of.begin_value spot values byte) }
{
    if byte == b'\'' {
        Ok(Some(Mid::Text(spot, values, Seq::new(alloc))))
    } else if byte == b'-' {
        Ok(Some(Mid::Digits(Field::Int(spot, values, true), None)))
    } else if byte == b'g' && values.len() == 0 {
        Ok(Some(Mid::Word(Word::Gone(spot), 1)))
    } else {
        next_digit(alloc, Field::Int(spot, values, false), None, byte)
    }
}

// One more byte of a text.
fn byte_read(spot: Spot, values: Seq<Value>, mut text: Seq<u8>, byte: u8) -> Mem<Option<Mid>>
    ensures { IfOk result (λ next. next ≡ Some (mid.Text spot values (text ++ byte ∷ []))) }
{
    match text.push(byte) {
        Ok(()) => Ok(Some(Mid::Text(spot, values, text))),
        Err(fault) => {
            drop(spot);
            drop(values);
            drop(text);
            Err(fault)
        }
    }
}

fn in_text(spot: Spot, values: Seq<Value>, text: Seq<u8>, byte: u8) -> Mem<Option<Mid>>
    ensures { IfOk result (λ next. next ≡ of.next (mid.Text spot values text) byte) }
{
    if byte == b'\'' {
        Ok(Some(Mid::Quoted(spot, values, text)))
    } else {
        byte_read(spot, values, text, byte)
    }
}

fn quoted(
    alloc: Global,
    spot: Spot,
    values: Seq<Value>,
    text: Seq<u8>,
    byte: u8,
) -> Mem<Option<Mid>>
    ensures { IfOk result (λ next. next ≡ of.next (mid.Quoted spot values text) byte) }
{
    if byte == b'\'' {
        byte_read(spot, values, text, byte)
    } else {
        let value = Value::Text(Txt::from_vec(text.into_vec()));
        value_read(alloc, spot, values, value, byte)
    }
}

// What the reader is in behind one more byte, where an item's bytes may go on with it.
pub(crate) fn next(alloc: Global, mid: Mid, byte: u8) -> Mem<Option<Mid>>
    ensures { IfOk result (λ next. next ≡ of.next mid byte) }
{
    match mid {
        Mid::Start => Ok(begin(byte)),
        Mid::Fork => Ok(fork(byte)),
        Mid::Word(word, place) => next_letter(word, place, byte),
        Mid::Digits(field, number) => next_digit(alloc, field, number, byte),
        Mid::Value(spot, values) => begin_value(alloc, spot, values, byte),
        Mid::Text(spot, values, text) => in_text(spot, values, text, byte),
        Mid::Quoted(spot, values, text) => quoted(alloc, spot, values, text, byte),
        Mid::Done(item) => {
            drop(item);
            Ok(None)
        }
    }
}
