// "What a refusal gives": the number that each reason and each production has, and the way back.
ghost use Rattle.std.specs.Prelude.{◌≡◌};
ghost use Rattle.packing.specs.Productions.{production_number, production_of};
ghost use Rattle.packing.specs.Refusals.{item_number, stream_number, plan_number, row_number, item_reason};

use crate::{ItemReason, PlanReason, Production, RowReason, StreamReason};

impl From<ItemReason> for u16 {
    ghost from_gives = { λ reason number. number ≡ item_number reason };

    fn from(reason: ItemReason) -> u16 {
        reason as u16
    }
}

impl From<StreamReason> for u16 {
    ghost from_gives = { λ reason number. number ≡ stream_number reason };

    fn from(reason: StreamReason) -> u16 {
        reason as u16
    }
}

impl From<PlanReason> for u16 {
    ghost from_gives = { λ reason number. number ≡ plan_number reason };

    fn from(reason: PlanReason) -> u16 {
        reason as u16
    }
}

impl From<RowReason> for u16 {
    ghost from_gives = { λ reason number. number ≡ row_number reason };

    fn from(reason: RowReason) -> u16 {
        reason as u16
    }
}

// The number of a production is the byte of 05.
impl From<Production> for u16 {
    ghost from_gives = { λ production number. number ≡ production_number production };

    fn from(production: Production) -> u16 {
        production as u16
    }
}

// The refusal of a command that has this number.
pub fn item_reason(number: u16) -> ItemReason
    ensures { result ≡ item_reason number }
{
    match number {
        8 => ItemReason::SizeZero,
        9 => ItemReason::AboveCapacity,
        10 => ItemReason::StockSpent,
        17 => ItemReason::NotShelved,
        19 => ItemReason::RangeWrong,
        20 => ItemReason::NotReserved,
        _ => ItemReason::OutsideRange,
    }
}

// The production of a number that has one: 0 or 1.
pub fn production_of(number: u32) -> Production
    ensures { result ≡ production_of number }
{
    if number == 0 {
        Production::First
    } else {
        Production::Second
    }
}
