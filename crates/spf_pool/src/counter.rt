//! A hand's counter of a deque: its seat on the ledger.
ghost use Rattle.std.specs.Prelude.{◌≡◌, ◌+◌, ◌<◌, true, false, IfOk};
ghost use Rattle.spf_pool.specs.Ledger.{shared, guest, first};
ghost use Rattle.spf_pool.specs.Counter.{ledger_of, known, IsCounter, LaterView, IsReceipt};

use crate::ledger::{
    Admits, CountsGiven, CountsTaken, Issues, Ledger, LedgerSeat, LooksGiven, LooksTaken, Redeems,
};
use std::alloc::{AllocError, Global};
use std::sync::Arc;

const GIVEN: usize = 0;

const TAKEN: usize = 1;

/// A hand's seat on a ledger.
#[derive(Drop)]
pub struct Counter {
    pub(crate) ledger: Arc<Ledger>,
    pub(crate) seat: LedgerSeat,
}

impl Counter {
    /// The owner's counter of a new ledger.
    pub(crate) fn make(alloc: Global) -> Result<Counter, AllocError>
        ensures { IfOk result (λ c. IsCounter c × (known c ≡ first)) }
    {
        let (ledger, seat) = Ledger::of_words(alloc, &[0, 0], &())?;
        let ledger = Arc::new(alloc, ledger)?;
        Ok(Counter { ledger, seat })
    }

    /// Allows counters of other hands from now on.
    pub(crate) fn open(&mut self)
        requires { IsCounter self.old }
        ensures same { IsCounter self.new × (ledger_of self.new ≡ ledger_of self.old) }
        ensures left { known self.new ≡ shared (known self.old) }
    {
        let _ = self.ledger.shared.split_seat::<Admits>(&mut self.seat);
    }

    /// Another hand's counter.
    pub(crate) fn guest(&mut self) -> Result<Counter, AllocError>
        requires { IsCounter self.old × ((known self.old).solo ≡ false) }
        ensures same { IsCounter self.new × (ledger_of self.new ≡ ledger_of self.old)
            × (known self.new ≡ known self.old) }
        ensures guest { IfOk result (λ c.
            IsCounter c × (ledger_of c ≡ ledger_of self.old) × (known c ≡ guest (known self.old))) }
    {
        let ledger = Arc::try_clone(&self.ledger)?;
        let seat = self.ledger.shared.split_seat::<Admits>(&mut self.seat);
        Ok(Counter { ledger, seat })
    }

    /// Counts one more item as given, and gives its receipt.
    pub(crate) fn issue(&mut self, given: u64) -> LedgerSeat
        requires counter { IsCounter self.old }
        requires owner { (known self.old).owner ≡ true }
        requires given { (given ≡ (known self.old).given) × (given + 1 < 65536) }
        ensures same { IsCounter self.new × (ledger_of self.new ≡ ledger_of self.old) }
        ensures given { known self.new
            ≡ record (known self.old) { given = (known self.old).given + 1 } }
        ensures receipt { IsReceipt (ledger_of self.old) result }
    {
        let shared = &self.ledger.shared;
        shared.store::<CountsGiven>(&mut self.seat, GIVEN, given + 1);
        shared.split_seat::<Issues>(&mut self.seat)
    }

    /// Counts an item as taken, whose receipt is spent.
    pub(crate) fn redeem(&mut self, receipt: LedgerSeat)
        requires counter { IsCounter self.old }
        requires receipt { IsReceipt (ledger_of self.old) receipt }
        ensures same { IsCounter self.new × (ledger_of self.new ≡ ledger_of self.old) }
        ensures later { LaterView (known self.old) (known self.new) }
        ensures more { (known self.old).taken < (known self.new).taken }
        ensures took { (known self.new).took ≡ (known self.old).took + 1 }
        ensures alone { (known self.old).solo ≡ true
            → (known self.new).taken ≡ (known self.old).taken + 1 }
    {
        let shared = &self.ledger.shared;
        shared.join_seat::<Redeems>(&mut self.seat, receipt);
        shared.fetch_add::<CountsTaken>(&mut self.seat, TAKEN, 1);
    }

    /// Returns whether all items given were counted as taken.
    pub(crate) fn look(&mut self) -> bool
        requires { IsCounter self.old }
        ensures same { IsCounter self.new × (ledger_of self.new ≡ ledger_of self.old) }
        ensures later { LaterView (known self.old) (known self.new) }
        ensures looks { (known self.old).looks < (known self.new).looks }
        ensures took { (known self.new).took ≡ (known self.old).took }
        ensures alone { (known self.old).solo ≡ true
            → (known self.new).taken ≡ (known self.old).taken }
        ensures empty { result ≡ true → (known self.new).taken ≡ (known self.new).given }
        ensures busy { result ≡ false → (known self.new).taken < (known self.new).given }
    {
        let shared = &self.ledger.shared;
        let taken = shared.load::<LooksTaken>(&mut self.seat, TAKEN);
        let given = shared.load::<LooksGiven>(&mut self.seat, GIVEN);
        given == taken
    }
}
