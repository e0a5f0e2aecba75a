//! A list of settlements.

ghost use Rattle.std.specs.Prelude.{◌≡◌, []};

use dependency_graph::{Monitor, Settlement};
use sqlite_items::Items as ListOf;
use std::alloc::{AllocError, Global};

/// A monitor that keeps the settlements that it is told of.
#[derive(Drop)]
pub struct Ledger {
    alloc: Global,
    settlements: ListOf<Settlement>,
}

impl Ledger {
    /// It was told of nothing yet.
    pub fn new(alloc: Global) -> Ledger
        ensures { result.settlements ≡ [] }
    {
        Ledger {
            alloc,
            settlements: ListOf::new(alloc),
        }
    }

    /// What it was told of, in order.
    pub fn settlements(&self) -> &[Settlement]
        ensures { result.now ≡ self.now.settlements }
    {
        self.settlements.as_slice()
    }
}

impl Monitor for Ledger {
    ghost told = { λ ledger. ledger.settlements };

    fn settled(&mut self, settlement: &Settlement) -> Result<(), AllocError> {
        let settlement = Settlement {
            path: settlement.path.copy(self.alloc)?,
            status: settlement.status,
            outcome: settlement.outcome.copy(self.alloc)?,
        };
        self.settlements.push(settlement)
    }
}
