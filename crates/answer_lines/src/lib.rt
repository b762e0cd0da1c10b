// The lines of the answers to an accepted stream: its commands are walked once more, each beside its words in both rows.
#![tactic(auto)]

ghost use Rattle.std.specs.Prelude.{◌∷◌, [], length};
ghost use Rattle.text.specs.Lines.{line};
ghost use Rattle.text.specs.Writing.{Room, Appended};
ghost use Rattle.answer_lines.specs.Lines.{answer_line};
ghost use Rattle.answer_lines.specs.Writing.{Listable, Listed};

use limits::MOST_COMMANDS;
use packing::{Answer, Outcome};
use text::Text;

// A line of a letter, the command's number and one figure more.
fn put_pair(text: &mut Text<'_>, letter: u8, number: usize, word: u16)
    requires { Room text.old (length (line letter (number ∷ word ∷ []))) }
    ensures { Appended text.old (line letter (number ∷ word ∷ [])) text.new }
{
    text.put_line(letter, &[number, word as usize]);
}

// The line of an answer.
fn put_answer(text: &mut Text<'_>, answer: Answer)
    requires { Room text.old (length (answer_line answer)) }
    ensures { Appended text.old (answer_line answer) text.new }
{
    let number = answer.number;
    match answer.outcome {
        Outcome::Placed { bin, free } => {
            text.put_line(b'P', &[number, bin as usize, free as usize]);
        }
        Outcome::Counted(opened) => put_pair(text, b'C', number, opened),
        Outcome::Withdrawn { bin, free: _ } => put_pair(text, b'O', number, bin),
        Outcome::Switched(production) => put_pair(text, b'S', number, u16::from(production)),
        Outcome::Settled { bin, free: _ } => put_pair(text, b'F', number, bin),
        Outcome::Refused(reason) => put_pair(text, b'R', number, u16::from(reason)),
    }
}

// The lines of all commands, in their order. The words of a command's number tell its answer.
pub fn put_answers(
    text: &mut Text<'_>,
    stream: &[u8],
    words: &[u16; MOST_COMMANDS],
    free: &[u32; MOST_COMMANDS],
)
    requires { Listable stream.now words.now free.now text.old }
    ensures { Listed stream.now text.old text.new }
{
    let mut rest = reader::behind_opening(stream);
    for (done, (word, units)) in words.iter().zip(free).enumerate() {
        if rest.is_empty() {
            break;
        }
        let front = fronts::accepted_front(rest);
        let outcome = words::outcome_of(front.command, *word, *units);
        let number = done + 1;
        put_answer(text, Answer { number, outcome });
        rest = &rest[front.width + 1..];
    }
}
