//! What a mate holds between its turns.
use spf_ticket::ticket::{Report, Ticket};

/// What a mate holds between its turns.
#[derive(Drop)]
pub enum Held {
    Nothing,
    /// A ticket that is to run again.
    Ticket(Ticket),
    /// A report that is to be filed.
    Report(Report),
}
