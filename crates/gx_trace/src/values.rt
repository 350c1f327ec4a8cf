// Values, images and rows where they stand.
ghost use Rattle.std.specs.Prelude.{◌≡◌, ◌++◌, ◌^◌, IfOk, codes, false, []};
ghost use Rattle.gx_msg.specs.ItemBytes.{bytes_of_image};
ghost use Rattle.gx_report.specs.Words.{word_text};
ghost use Rattle.gx_trace.specs.Lawful.{IsImage};
ghost use Rattle.gx_trace.specs.Readers.{IsEnd, IsRead, IsReaderOf, behind, made, to_end};
ghost use Rattle.gx_trace.specs.Values as of;

use crate::cursor::Cursor;
use gx_ids::{Mem, Seq};
use gx_text::push_byte;
use gx_tree::{Row, Txt, Value};
use std::alloc::Global;

// The number behind a minus sign, which isn't 0.
fn minus(number: u64) -> Option<i64>
    ensures { result ≡ of.minus (2 ^ 63) number }
{
    if number == 0 {
        None
    } else if number < 1 << 63 {
        Some(-(number as i64))
    } else if number == 1 << 63 {
        Some(i64::MIN)
    } else {
        None
    }
}

fn plus(number: u64) -> Option<i64>
    ensures { result ≡ of.plus (2 ^ 63) number }
{
    if number < 1 << 63 {
        Some(number as i64)
    } else {
        None
    }
}

impl<'a> Cursor<'a> {
    // The bytes of a text, to the quote that ends it.
    fn text_on(&mut self, alloc: Global) -> Mem<Option<Txt>>
        ensures { IfOk result (λ read. IsRead read self.new (of.text_on false [] self.old)) }
    {
        let left = self.left();
        let mut text = Vec::new(alloc);
        let mut quote = false;
        for (place, byte) in left.iter().enumerate() {
            if quote && *byte != b'\'' {
                self.go_to(&left[place..]);
                return Ok(Some(Txt::from_vec(text)));
            }
            if !quote && *byte == b'\n' {
                return Ok(None);
            }
            if quote || *byte != b'\'' {
                push_byte(&mut text, *byte)?;
                quote = false;
            } else {
                quote = true;
            }
        }
        if !quote {
            return Ok(None);
        }
        self.go_to(&left[left.len()..]);
        Ok(Some(Txt::from_vec(text)))
    }

    /// Reads a text in quotes.
    pub fn text(&mut self, alloc: Global) -> Mem<Option<Txt>>
        ensures { IfOk result (λ read. IsRead read self.new (of.text self.old)) }
    {
        match self.skip(b"'") {
            Some(()) => self.text_on(alloc),
            None => Ok(None),
        }
    }

    fn negative(&mut self) -> Option<i64>
        ensures { IsRead result self.new (of.negative (2 ^ 64) (2 ^ 63) self.old) }
    {
        self.skip(b"-")?;
        let number = self.number()?;
        minus(number)
    }

    fn positive(&mut self) -> Option<i64>
        ensures { IsRead result self.new (of.positive (2 ^ 64) (2 ^ 63) self.old) }
    {
        let number = self.number()?;
        plus(number)
    }

    fn integer(&mut self) -> Option<i64>
        ensures { IsRead result self.new (of.integer self.old) }
    {
        let left = self.left();
        if let Some(number) = self.negative() {
            return Some(number);
        }
        self.go_to(left);
        self.positive()
    }

    fn value(&mut self, alloc: Global) -> Mem<Option<Value>>
        ensures { IfOk result (λ read. IsRead read self.new (of.value_at self.old)) }
    {
        let left = self.left();
        if let Some(text) = self.text(alloc)? {
            return Ok(Some(Value::Text(text)));
        }
        self.go_to(left);
        match self.integer() {
            Some(number) => Ok(Some(Value::Int(number))),
            None => Ok(None),
        }
    }

    // A value behind a bar.
    fn other_value(&mut self, alloc: Global) -> Mem<Option<Value>>
        ensures { IfOk result (λ read. IsRead read self.new (of.other_value self.old)) }
    {
        match self.skip(b"|") {
            Some(()) => self.value(alloc),
            None => Ok(None),
        }
    }

    // The values behind those so far, to the end.
    fn other_values(&mut self, alloc: Global, mut values: Seq<Value>) -> Mem<Option<Seq<Value>>>
        ensures { IfOk result (λ read. IsRead read self.new (made (λ others. values ++ others) (to_end of.other_value self.old))) }
    {
        let most = self.left().len();
        for _step in 0..most {
            if self.is_at_end() {
                return Ok(Some(values));
            }
            match self.other_value(alloc)? {
                Some(value) => values.push(value)?,
                None => return Ok(None),
            }
        }
        if self.is_at_end() {
            Ok(Some(values))
        } else {
            Ok(None)
        }
    }

    fn values(&mut self, alloc: Global) -> Mem<Option<Seq<Value>>>
        ensures { IfOk result (λ read. IsRead read self.new (of.values self.old)) }
    {
        let Some(first) = self.value(alloc)? else {
            return Ok(None);
        };
        let mut values = Seq::new(alloc);
        values.push(first)?;
        self.other_values(alloc, values)
    }

    /// Reads the values of a row, to the end.
    pub fn row(&mut self, alloc: Global) -> Mem<Option<Row>>
        ensures { IfOk result (λ read. IsRead read self.new (of.values self.old)) }
    {
        match self.values(alloc)? {
            Some(values) => Ok(Some(Row::from_vec(alloc, values.into_vec())?)),
            None => Ok(None),
        }
    }

    fn image_at(&mut self, alloc: Global) -> Mem<Option<Option<Row>>>
        ensures { IfOk result (λ read. IsRead read self.new (of.image_at self.old)) }
    {
        let left = self.left();
        if let Some(()) = self.skip(b"gone") {
            return Ok(Some(None));
        }
        self.go_to(left);
        match self.row(alloc)? {
            Some(row) => Ok(Some(Some(row))),
            None => Ok(None),
        }
    }

    /// Reads the values of a row, or that it is gone, behind a blank and to the end.
    pub fn image(&mut self, alloc: Global) -> Mem<Option<Option<Row>>>
        ensures { IfOk result (λ read. IsRead read self.new (of.image self.old)) }
    {
        match self.skip(b" ") {
            Some(()) => self.image_at(alloc),
            None => Ok(None),
        }
    }
}

/// Images are read as they are printed, but where a text holds a line feed.
pub fn images_are_read()
    ensures { IsReaderOf (λ image. word_text (bytes_of_image image)) IsImage IsEnd of.image }
{}
