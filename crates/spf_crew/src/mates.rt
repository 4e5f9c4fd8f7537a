//! The mates of a new crew.
ghost use Rattle.std.specs.Prelude.{◌≡◌, ◌<◌, length, IfOk};
ghost use Rattle.spf_crew.specs.Crews.{AreAllMates, AreDealt, AreNewMates};
ghost use Rattle.spf_crew.specs.Mates.{new_seat};

use crate::crew::Crew;
use crate::mate::Mate;
use crate::seat::ChainSeat;
use crate::view::CrewSetting;
use spf_pool::hand::Hand;
use spf_ticket::ticket::Ticket;
use std::alloc::{AllocError, Global};

// Gives each hand a seat.
pub(crate) fn enlist_all(
    alloc: Global,
    crew: &Crew,
    founder: ChainSeat,
    mut hands: Vec<Hand<Ticket, CrewSetting>>,
    tickets: u64,
) -> Result<Vec<Mate>, AllocError>
    requires new { founder ≡ new_seat crew.now 0 }
    requires hands { AreDealt crew.now.setting tickets 0 hands.items }
    requires count { (length hands.items ≡ crew.now.setting.mates) × (0 < length hands.items) }
    ensures all { IfOk result (λ mates. AreAllMates crew.now mates.items) }
    ensures new { IfOk result (λ mates. AreNewMates tickets mates.items) }
{
    let mut rest = founder;
    let mut mates = Vec::with_capacity(alloc, hands.len())?;
    while hands.len() > 1 {
        let hand = hands.remove(0);
        let seat = rest.enlist(crew);
        mates.push(Mate::new(seat, hand))?;
    }
    let hand = hands.remove(0);
    mates.push(Mate::new(rest, hand))?;
    Ok(mates)
}
