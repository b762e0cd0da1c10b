// Lines of text, written at the front of a row of bytes.
#![tactic(auto)]

ghost use Rattle.std.specs.Prelude.{◌≡◌, ◌∷◌, [], length};
ghost use Rattle.text.specs.Lines.{decimal, figures, line};
ghost use Rattle.text.specs.Writing.{Room, Begun, Appended};

// The text stands at the front of the row, and ends before this place. (It has no model: that would hide the row, and a caller of `new` learns by it what
// its own row holds once the text is done.)
#[derive(Drop)]
pub struct Text<'a> {
    row: &'a mut [u8],
    end: usize,
}

impl<'a> Text<'a> {
    // An empty text in this row.
    pub fn new(row: &'a mut [u8]) -> Text<'a>
        ensures { Begun row.entry result }
    {
        Text { row, end: 0 }
    }

    pub fn len(&self) -> usize
        ensures { result ≡ self.now.end }
    {
        self.end
    }

    pub fn put_byte(&mut self, byte: u8)
        requires { Room self.old 1 }
        ensures { Appended self.old (byte ∷ []) self.new }
    {
        self.row[self.end] = byte;
        self.end += 1;
    }

    pub fn put_bytes(&mut self, bytes: &[u8])
        requires { Room self.old (length bytes.now) }
        ensures { Appended self.old bytes.now self.new }
    {
        let end = self.end + bytes.len();
        self.row[self.end..end].copy_from_slice(bytes);
        self.end = end;
    }

    // A number in base ten: the digits of its tens, if it has any, and then its last digit.
    #[tactic(auto, using(crate::proofs::Texts::appended_both, crate::proofs::Decimals::by_tens))]
    pub fn put_decimal(&mut self, n: usize)
        requires { Room self.old (length (decimal n)) }
        ensures { Appended self.old (decimal n) self.new }
    {
        if n < 10 {
            self.put_byte(b'0' + n as u8);
        } else {
            self.put_decimal(n / 10);
            self.put_byte(b'0' + (n % 10) as u8);
        }
    }

    // The figures of a line, each behind a space, and a newline.
    fn put_figures(&mut self, numbers: &[usize])
        requires { Room self.old (length (figures numbers.now)) }
        ensures { Appended self.old (figures numbers.now) self.new }
    {
        for &n in numbers {
            self.put_byte(b' ');
            self.put_decimal(n);
        }
        self.put_byte(b'\n');
    }

    // A line: a letter and its figures.
    #[tactic(auto, using(crate::proofs::Texts::appended_both), unfolding(crate::specs::Lines::line))]
    pub fn put_line(&mut self, letter: u8, numbers: &[usize])
        requires { Room self.old (length (line letter numbers.now)) }
        ensures { Appended self.old (line letter numbers.now) self.new }
    {
        self.put_byte(letter);
        self.put_figures(numbers);
    }
}

// How many digits a number has: 0 has one too.
#[tactic(auto, using(crate::proofs::Decimals::by_tens, crate::proofs::Decimals::decimal_length))]
pub fn digits(n: usize) -> usize
    ensures { result ≡ length (decimal n) }
{
    if n == 0 {
        return 1;
    }
    n.ilog10() as usize + 1
}
