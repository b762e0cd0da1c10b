// What is printed of a stream that is refused, or too long to be read: the same by every program.
ghost use Rattle.text.specs.Writing.{Room, Appended};
ghost use Rattle.report.specs.Lines.{refusal, overlong, most_of_a_refusal};

use packing::{Refusal, StreamReason};
use text::Text;

// A stream may have so many bytes. (4,096 items of 02 have fewer, as many of 06 more: the limit is the program's, and not the stream's.)
pub const MOST_BYTES: usize = 32768;

// The line of a refusal.
pub fn put_refusal(text: &mut Text<'_>, refused: Refusal<StreamReason>)
    requires { Room text.old most_of_a_refusal }
    ensures { Appended text.old (refusal refused.reason refused.place) text.new }
{
    let number = u16::from(refused.reason) as usize;
    text.put_line(b'X', &[number, refused.place]);
}

// The line of a stream with more bytes.
pub fn put_overlong(text: &mut Text<'_>)
    requires { Room text.old most_of_a_refusal }
    ensures { Appended text.old overlong text.new }
{
    text.put_line(b'L', &[MOST_BYTES]);
}
