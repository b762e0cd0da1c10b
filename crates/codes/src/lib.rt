// A result as one 64-bit number, for C and Rust.
#![tactic(auto)]

ghost use Rattle.std.specs.Prelude.{◌≡◌, ◌^◌, ◌<◌};
ghost use Rattle.codes.specs.Codes.{refusal_code, stream_code, FiguresFit, plan_code, PlaceFits, repack_code, RepackFits, pair_code, PairFits};

use packing::{PairResult, PlanResult, Refusal, RepackResult, StreamResult};

// A refusal of any call: its number, and its offset or place.
fn refusal_code(number: u16, place: usize) -> u64
    requires { place < 2 ^ 32 }
    ensures { result ≡ refusal_code number place }
{
    let high = 9223372036854775808 + number as u64 * 4294967296;
    let low = place as u64;
    high + low
}

// What the stream call returns.
pub fn stream_code(r: StreamResult) -> u64
    requires { FiguresFit r }
    ensures { result ≡ stream_code r }
{
    match r {
        Ok(totals) => {
            let high = totals.looks as u64 * 4294967296;
            let middle = totals.items as u64 * 65536;
            let low = totals.opened as u64;
            high + middle + low
        }
        Err(refusal) => refusal_code(u16::from(refusal.reason), refusal.place),
    }
}

// What the plan checker returns.
pub fn plan_code(r: PlanResult) -> u64
    requires { PlaceFits r }
    ensures { result ≡ plan_code r }
{
    let Err(Refusal { reason, place }) = r else {
        return 0;
    };
    refusal_code(u16::from(reason), place)
}

// What a repacking returns.
pub fn repack_code(r: RepackResult) -> u64
    requires { RepackFits r }
    ensures { result ≡ repack_code r }
{
    match r {
        Ok(repacked) => {
            let figure = repacked.count as u64;
            if repacked.saves_nothing {
                return 4294967296 + figure;
            }
            figure
        }
        Err(refusal) => refusal_code(u16::from(refusal.reason), refusal.place),
    }
}

// What a pairing returns.
pub fn pair_code(r: PairResult) -> u64
    requires { PairFits r }
    ensures { result ≡ pair_code r }
{
    match r {
        Ok(pairs) => pairs as u64,
        Err(refusal) => refusal_code(u16::from(refusal.reason), refusal.place),
    }
}
