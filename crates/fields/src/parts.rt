ghost use Rattle.std.specs.Prelude.{◌≤◌, length};
ghost use Rattle.fields.specs.Fields.{Part, Stands};

use crate::places::place_of;
use keys::SPACE;

// What stands in a line from a place up to the next space or the line's end: a word, or the text of a number, with its
// place; or nothing.
#[derive(Drop, Clone, Copy)]
pub(crate) enum Field<'a> {
    Word(&'a [u8], usize),
    Number(&'a [u8], usize),
    End,
}

// The bytes from a place up to the next space or the line's end.
fn text_at(line: &[u8], from: usize) -> &[u8]
    requires { from ≤ length line.now }
    ensures { Part line.now from result.now from }
{
    let rest = &line[from..];
    place_of(rest, SPACE).map_or(rest, |n| &rest[..n])
}

pub(crate) fn field_at<'a>(line: &'a [u8], from: usize) -> Field<'a>
    requires { from ≤ length line.now }
    ensures { Stands line.now from result }
{
    match text_at(line, from) {
        [] => Field::End,
        text @ [b, ..] if b.is_ascii_digit() => Field::Number(text, from),
        text => Field::Word(text, from),
    }
}
