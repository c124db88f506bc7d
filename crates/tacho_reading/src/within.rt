//! The transaction of a reading, and that of a command.

/// Reads within a transaction, which is then taken back, and returns what was read. The store is asked last: a store that is shut gives no
/// answer.
#[macro_export]
macro_rules! read_within {
    ($conn:ident, $tx:ident, $reading:expr) => {{
        // For the proof alone: nothing is pending, so what is seen is what was committed.
        let _settled = $conn.is_autocommit();
        let mut $tx = $conn.transaction();
        let found = $reading;
        $tx.rollback();
        match $crate::opening::ask($conn) {
            Ok(()) => found,
            Err(fault) => Err($crate::fault::store_fault(fault)),
        }
    }};
}

/// Acts within a transaction, and returns what was done. It is committed after a success, and taken back after a refusal. The store is
/// asked after a refusal: a store that is shut gives no other answer than that.
#[macro_export]
macro_rules! act_within {
    ($conn:ident, $tx:ident, $command:expr) => {{
        // For the proof alone: nothing is pending, so what is seen is what was committed.
        let _settled = $conn.is_autocommit();
        let mut $tx = $conn.transaction();
        match $command {
            Ok(done) => match $tx.commit() {
                Ok(()) => Ok(done),
                Err(_) => {
                    // For the proof alone: the commit that failed left nothing pending.
                    let _undone = $conn.is_autocommit();
                    Err(tacho_state::StoreFault::Store)
                }
            },
            Err(fault) => {
                $tx.rollback();
                Err($crate::fault::undone(fault, $crate::opening::ask($conn)))
            }
        }
    }};
}
