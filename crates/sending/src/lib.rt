// What a command sends to be shelved, of 02 and 06: the bare size that its item goes by, the fault of its sizes, if they have one; and the least that is
// noted of the item.
#![tactic(auto)]

ghost use Rattle.std.specs.Prelude.{◌≡◌, ◌<◌};
ghost use Rattle.packing.specs.Sending.{size_of, fault};
ghost use Rattle.sending.specs.Sent.{may_fit, least_word};

use packing::{Command, ItemReason, Opening};

// The bare size that a command gives an item: 06 "shelves by the greatest".
pub fn size_of(command: Command) -> u32
    ensures { result ≡ size_of command }
{
    match command {
        Command::Shelve(size)
        | Command::Reserve { greatest: size, .. }
        | Command::Settle { size, .. } => size,
        Command::Count | Command::Withdraw(_) | Command::Switch(_) => 0,
    }
}

// The fault of the bare sizes that a command sends, if they have one: 8, and of 06 "19 … in place of 8".
pub fn fault(command: Command) -> Option<ItemReason>
    ensures { result ≡ fault command }
{
    match command {
        Command::Shelve(0) => Some(ItemReason::SizeZero),
        Command::Reserve { least, greatest } if least == 0 || greatest < least => {
            Some(ItemReason::RangeWrong)
        }
        _ => None,
    }
}

// Whether they have none, and the size that the item goes by is at most so large.
pub fn may_fit(command: Command, most: u32) -> bool
    ensures { result ≡ may_fit command most }
{
    fault(command).is_none() && size_of(command) <= most
}

// The word that is noted for the least stored size: 0 for an item of 02, which is settled from the start.
pub fn least_word(opening: Opening, command: Command) -> u32
    requires { least_word opening command < 4_294_967_296 }
    ensures { result ≡ least_word opening command }
{
    match command {
        Command::Reserve { least, .. } => least + opening.trailer as u32,
        _ => 0,
    }
}
