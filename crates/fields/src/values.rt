ghost use Rattle.std.specs.Prelude.{◌≡◌, ◌↔◌, ◌≤◌, [], length, IsTrue, IfNone};
ghost use Rattle.fields.specs.Fields.{FindsUnder, ReadsNumber, ReadsOperator};

use crate::numbers::number;
use crate::parts::{Field, field_at};
use keys::LineKey;
use words::Operator;

// The fields of a line that are not read yet: those from a place on. A place beside the line, and not the rest alone: a
// `Field` (parts.rt) is a piece of the line with its place in it, and reading goes on where that piece ends.
#[derive(Drop, Clone, Copy, PartialEq, Eq, Debug)]
pub struct Fields<'a> {
    line: &'a [u8],
    at: usize,
    ghost within: { at ≤ length line.now },
}

impl<'a> Fields<'a> {
    ghost use Rattle.fields.specs.Rest.{rest_of};

    // All fields of a line.
    pub fn of(line: &'a [u8]) -> Fields<'a>
        ensures { rest_of result ≡ line.now }
    {
        Fields { line, at: 0 }
    }

    pub fn is_at_end(&self) -> bool
        ensures { IsTrue result ↔ (rest_of self.now ≡ []) }
    {
        self.at == self.line.len()
    }

    // What of the line is not read yet. So the place that reading has come to is the line's length less that of this.
    pub fn rest(&self) -> &'a [u8]
        ensures { result.now ≡ rest_of self.now }
    {
        self.line.split_at(self.at).1
    }

    // What stands under a key that comes next.
    fn under<K: LineKey>(&self, key: K) -> Option<Field<'a>>
        ensures { FindsUnder self.now.line.now (rest_of self.now) (K.written key) result }
    {
        let rest = key.after(&self.line[self.at..])?;
        Some(field_at(self.line, self.line.len() - rest.len()))
    }

    // Reads the number under a key that comes next.
    pub fn number<K: LineKey>(&mut self, key: K) -> Option<u64>
        ensures read { ReadsNumber (rest_of self.old) (K.written key) result (rest_of self.new) }
        ensures unread { IfNone result (rest_of self.new ≡ rest_of self.old) }
    {
        let Field::Number(text, place) = self.under(key)? else {
            return None;
        };
        let value = number(text)?;
        self.at = place + text.len();
        Some(value)
    }

    // Reads the operator whose word stands under a key that comes next. Beside `number`, and not one with it: a shared function
    // would take the field's case, the reader and the promise of each from its caller, which is more than each has.
    pub fn operator<K: LineKey>(&mut self, key: K) -> Option<Operator>
        ensures read { ReadsOperator (rest_of self.old) (K.written key) result (rest_of self.new) }
        ensures unread { IfNone result (rest_of self.new ≡ rest_of self.old) }
    {
        let Field::Word(text, place) = self.under(key)? else {
            return None;
        };
        let operator = words::named(text)?;
        self.at = place + text.len();
        Some(operator)
    }
}
