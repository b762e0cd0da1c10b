// What is printed of the streams that standard input spells out. The file stdin has the cases, at the edges of the papers, and the file stdout what is
// printed of them, which the gate compares: a case more is some lines there, and costs no proof.
//
// The first byte of a line tells what it is:
//   #  a remark
//   =  the name of a case, which is printed; its stream is empty
//   +  the name of a case that has the stream of the one before it
//   *  a number of four figures: the digits behind it are added to the stream so many times
//   A  the answers to the stream are printed
//   S  its sheet is printed
//   E  a number of four figures: of a long text of answers, its length and so many of its last bytes are printed
// The digits of any other line are added to the stream, two in base sixteen for each byte; what is no digit is passed over.
#![tactic(auto)]

ghost use Rattle.std.specs.Prelude.{◌*◌, ◌≤◌, ◌<◌, IfSome};
ghost use Rattle.stream_cases.specs.declared.TheConstants.{SPACE};

use std::io;

// More than the cases have.
const TEXT: usize = 65536;

// One byte more than the longest stream.
const SPACE: usize = 32769;

// The stream of a case: so many digits of it are spelled out, two for each byte.
#[derive(Drop)]
struct Case {
    stream: [u8; SPACE],
    digits: usize,
    ghost inside: { digits ≤ 2 * SPACE },
}

impl Case {
    // The whole bytes.
    fn bytes(&self) -> &[u8] {
        &self.stream[..self.digits / 2]
    }

    // Adds a digit, where there is space for it. The second digit of a byte moves the first one up.
    fn put_digit(&mut self, digit: u8)
        requires { digit < 16 }
    {
        let place = self.digits / 2;
        if place < SPACE {
            let low = self.stream[place] % 16;
            self.stream[place] = low * 16 + digit;
            self.digits += 1;
        }
    }

    // Adds the digits of a line.
    fn put_digits(&mut self, line: &[u8]) {
        for byte in line {
            if let Some(digit) = digit(*byte) {
                self.put_digit(digit);
            }
        }
    }

    // Adds them so many times.
    fn repeat(&mut self, line: &[u8], times: usize) {
        for _ in 0..times {
            self.put_digits(line);
        }
    }

    // Takes a line. One that is too short for its number is passed over.
    fn take_line(&mut self, rt: &impl Print, line: &[u8]) -> io::Result<()> {
        match line {
            [b'#', ..] => Ok(()),
            [b'=', name @ ..] => {
                self.digits = 0;
                rt.write_all(name)
            }
            [b'+', name @ ..] => rt.write_all(name),
            [b'A', ..] => show(rt, self.bytes()),
            [b'S', ..] => show_sheet(rt, self.bytes()),
            [b'*', a, b, c, d, digits @ ..] => {
                self.repeat(digits, number(*a, *b, *c, *d));
                Ok(())
            }
            [b'E', a, b, c, d, ..] => show_end(rt, self.bytes(), number(*a, *b, *c, *d)),
            [b'*' | b'E', ..] => Ok(()),
            _ => {
                self.put_digits(line);
                Ok(())
            }
        }
    }
}

// What a digit counts in base sixteen.
fn digit(byte: u8) -> Option<u8>
    ensures { IfSome result (λ d. d < 16) }
{
    match byte {
        b'0'..=b'9' => Some(byte - b'0'),
        b'a'..=b'f' => Some(byte - b'a' + 10),
        _ => None,
    }
}

// The answers to a stream. (`show_sheet` is this over another `print`: one function of both would bound it by the length of its row, for which no proof is
// generated.)
fn show(rt: &impl Print, stream: &[u8]) -> io::Result<()> {
    let mut out = [0u8; report::N];
    let end = report::print(stream, &mut out);
    rt.write_all(&out[..end])
}

// The sheet of a stream.
fn show_sheet(rt: &impl Print, stream: &[u8]) -> io::Result<()> {
    let mut out = [0u8; sheet::N];
    let end = sheet::print(stream, &mut out);
    rt.write_all(&out[..end])
}

// Of a long text of answers, its length and its last bytes.
fn show_end(rt: &impl Print, stream: &[u8], last: usize) -> io::Result<()> {
    let mut out = [0u8; report::N];
    let end = report::print(stream, &mut out);
    println!(rt; "{end} bytes, the last of them:")?;
    if last <= end {
        rt.write_all(&out[end - last..end])?;
    }
    Ok(())
}

// A number of four figures in base ten; what is no digit counts as 16.
fn number(thousands: u8, hundreds: u8, tens: u8, ones: u8) -> usize {
    figure(thousands) * 1000 + figure(hundreds) * 100 + figure(tens) * 10 + figure(ones)
}

fn figure(byte: u8) -> usize
    ensures { result ≤ 16 }
{
    digit(byte).map_or(16, |d| d as usize)
}

// It reads the cases until the input ends, and takes their lines, one behind the other.
fn main(rt: HostRuntime) -> io::Result<()> {
    let mut row = [0u8; TEXT];
    let text = input::read_full(&mut rt.stdin(), &mut row)?;
    let mut case = Case {
        stream: [0; SPACE],
        digits: 0,
    };
    for line in text.split_inclusive(|byte| *byte == b'\n') {
        case.take_line(&rt, line)?;
    }
    Ok(())
}
