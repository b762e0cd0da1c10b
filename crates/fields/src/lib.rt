// Spaces, and numbers right-aligned with spaces, behind a text.
#![tactic(auto)]

ghost use Rattle.std.specs.Prelude.{◌+◌, length};
ghost use Rattle.text.specs.Writing.{Room, Appended};
ghost use Rattle.fields.specs.Fields.{spaces, ending, right};

use text::Text;

pub fn put_spaces(text: &mut Text<'_>, n: usize)
    requires { Room text.old n }
    ensures { Appended text.old (spaces n) text.new }
{
    for _ in 0..n {
        text.put_byte(b' ');
    }
}

// The end of a line: so many spaces, and a newline.
pub fn put_end(text: &mut Text<'_>, n: usize)
    requires { Room text.old (n + 1) }
    ensures { Appended text.old (ending n) text.new }
{
    put_spaces(text, n);
    text.put_byte(b'\n');
}

// A number in a field of this width; one with more digits stands whole.
pub fn put_right(text: &mut Text<'_>, width: usize, n: usize)
    requires { Room text.old (length (right width n)) }
    ensures { Appended text.old (right width n) text.new }
{
    let digits = text::digits(n);
    put_spaces(text, width.saturating_sub(digits));
    text.put_decimal(n);
}
