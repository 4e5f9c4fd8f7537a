//! What a report that is home tells.
ghost use Rattle.std.specs.Prelude.{◌≡◌};
ghost use Rattle.spf_chain.specs.Homes.{result_of, known_at};

use crate::block::Settled;
use spf_ast::row::Row;
use spf_exec::stop::Stop;
use spf_ticket::ticket::Report;

// What a run came to.
fn result_of(stop: &Stop) -> Option<Settled>
    ensures { result ≡ result_of stop.now }
{
    match stop {
        Stop::Ended(row) => Some(Settled::Carried(*row)),
        Stop::Trapped(trap) => Some(Settled::Trapped(*trap)),
        Stop::Cancelled { .. } => None,
    }
}

// What the block came to, where it is home and was run at this row.
pub(crate) fn result_at(home: &Option<Report>, real: Row) -> Option<Settled>
    ensures { result ≡ known_at real home.now }
{
    match home {
        Some(report) => {
            if report.ticket.carried().is_same(&real) {
                result_of(&report.stop)
            } else {
                None
            }
        }
        None => None,
    }
}
