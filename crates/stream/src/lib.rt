// Command streams: the reader finds the verdict of the whole stream, then the run answers its commands.
#![tactic(auto)]

ghost use Rattle.std.specs.Prelude.{◌≡◌, replicate};
ghost use Rattle.packing.specs.Refusals.{word, free_units};
ghost use Rattle.packing.specs.Streams.{words_lent, verdict};
ghost use Rattle.packing.specs.Run.{result as run_result, row_at_exit};
ghost use Rattle.ledger.specs.Rows.{places, blank};
ghost use Rattle.stream.specs.Recorded.{Recorded};

use ledger::{BINS, BLANK, Row};
use packing::{Refusal, StreamReason, StreamResult, StreamTotals};

// Reads a stream whole, and then answers its commands into the two rows that the caller lends, and records the packing of each production in a ledger of
// its own, which the caller lends blank. A refused stream writes nothing. (Two rows of words, as the interface for C lends them.)
pub fn record(
    stream: &[u8],
    answers: &mut [u16],
    free: &mut [u32],
    first: &mut [Row; BINS],
    second: &mut [Row; BINS],
) -> StreamResult
    requires first { first.old ≡ replicate places blank }
    requires second { second.old ≡ replicate places blank }
    ensures result { result ≡ run_result (verdict stream.now (words_lent answers.old free.old)) }
    ensures answers { answers.new ≡ row_at_exit word (verdict stream.now (words_lent answers.old free.old)) answers.old }
    ensures free { free.new ≡ row_at_exit free_units (verdict stream.now (words_lent answers.old free.old)) free.old }
    ensures recorded { Recorded (verdict stream.now (words_lent answers.old free.old)) first.new second.new }
{
    let accepted = reader::validate(stream)?;
    let words = answers.len().min(free.len());
    if words < accepted.commands {
        return Err(Refusal {
            reason: StreamReason::TooFewWords,
            place: stream.len(),
        });
    }
    let opening = accepted.opening;
    let shape = tournament::shape_of(opening.stock);
    let totals = run::answer_all(stream, opening, shape, first, second, answers, free);
    Ok(StreamTotals {
        items: totals.first.items as usize + totals.second.items as usize,
        opened: totals.first.opened as usize + totals.second.opened as usize,
        looks: totals.looks.count() as usize,
    })
}

// The same where nobody asks for the packings: the ledgers live here.
pub fn shelve(stream: &[u8], answers: &mut [u16], free: &mut [u32]) -> StreamResult
    ensures result { result ≡ run_result (verdict stream.now (words_lent answers.old free.old)) }
    ensures answers { answers.new ≡ row_at_exit word (verdict stream.now (words_lent answers.old free.old)) answers.old }
    ensures free { free.new ≡ row_at_exit free_units (verdict stream.now (words_lent answers.old free.old)) free.old }
{
    let mut first = [BLANK; BINS];
    let mut second = [BLANK; BINS];
    record(stream, answers, free, &mut first, &mut second)
}
