//! Tickets as items of a pool.
use crate::view::CrewSetting;
use spf_pool::rule::Item;
use spf_ticket::ticket::Ticket;

impl Item<CrewSetting> for Ticket {
    ghost use Rattle.spf_crew.specs.Tickets.{IsFreshOf};

    ghost meets = { IsFreshOf };
}
