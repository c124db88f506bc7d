ghost use Rattle.std.specs.Prelude.{◌≡◌, MatchResult};
ghost use Rattle.tacho_reading.specs.Faults.{fault_of_tables};

use tacho_state::StoreFault;
use tacho_tables::TableFault;

/// Converts a fault of a call on the tables to the fault of a call on the archive.
pub fn store_fault(fault: TableFault) -> StoreFault
    ensures { result ≡ fault_of_tables fault }
{
    match fault {
        TableFault::Memory => StoreFault::Memory,
        TableFault::Store => StoreFault::Store,
    }
}

/// Returns the fault of a command that was taken back: its own, or that of the store, which was asked after it, if the store failed.
pub fn undone(fault: StoreFault, asked: Result<(), TableFault>) -> StoreFault
    ensures { MatchResult asked (λ _. result ≡ fault) (λ failed. result ≡ fault_of_tables failed) }
{
    match asked {
        Ok(()) => fault,
        Err(failed) => store_fault(failed),
    }
}
