//! A driver's own row: the registration, and changes of the base, the key and the name.

ghost use Rattle.std.specs.Prelude.{◌≡◌, false};
ghost use Rattle.tacho_state.specs.Acts.{IsOfNoFile};
ghost use Rattle.tacho_state.specs.State.{Driver as Registered};
ghost use Rattle.tacho_state.specs.Steps.{rebase_step, register_step, rekey_step, rename_step};
ghost use Rattle.tacho_reading.specs.Calls.{Steps, Tells};
ghost use Rattle.tacho_reading.specs.Finding.{IsFound};
ghost use Rattle.tacho_reading.specs.Kept.{ActsOn};
ghost use Rattle.tacho_store.specs.Registering.{AreFree};
ghost use Rattle.tacho_store.specs.Rekeying.{CanHaveKey};

use crate::refusals::{ask_monday, ask_owner, ask_taken};
use sqlite::{Alter, Connection, Transaction};
use tacho_reading::act_within;
use tacho_reading::fault::store_fault;
use tacho_reading::finding::{driver_with, number_with_holder, number_with_key, stored_with};
use tacho_state::{Driver, StoreFault};
use tacho_tables::drivers;
use tacho_time::Day;

/// Checks that nobody has a new driver's number, key or holder: S1, S2, S3.
fn ask_free<S: Alter>(tx: &mut Transaction<'_, S>, driver: &Driver) -> Result<(), StoreFault>
    ensures { Tells S.Store tx.old.conn tx.new.conn result
        (λ _ s. IsFound (λ _. AreFree s driver.now.number driver.now.key driver.now.holder)
        (register_step driver.now.number driver.now.holder driver.now.key driver.now.base driver.now.name s).answer result) }
{
    let by_number = stored_with(tx, driver.number())?;
    let by_key = number_with_key(tx, driver.key().as_bytes())?;
    let by_holder = number_with_holder(tx, driver.holder())?;
    ask_taken(by_number.is_some(), by_key.is_some(), by_holder.is_some())
}

/// Adds a driver, within a transaction: S1, S2, S3, S9.
fn register_in<S: Alter>(tx: &mut Transaction<'_, S>, driver: &Driver) -> Result<(), StoreFault>
    ensures { Steps S.Store tx.old.conn tx.new.conn result (λ _. tt)
        (register_step driver.now.number driver.now.holder driver.now.key driver.now.base driver.now.name) }
{
    ask_free(tx, driver)?;
    ask_monday(driver.base())?;
    drivers::insert(
        tx,
        driver.number(),
        driver.holder(),
        driver.key(),
        driver.base().number(),
        driver.name(),
    )
    .map_err(store_fault)
}

/// Adds a driver: S1, S2, S3, S9.
#[tactic(auto, using(crate::proofs::StepsLemmas::undone_keeps))]
pub fn register<S: Alter>(conn: &mut Connection<S>, driver: &Driver) -> Result<(), StoreFault>
    requires { conn.old.in_transaction ≡ false }
    ensures autocommit { conn.new.in_transaction ≡ false }
    ensures of_no_file { IsOfNoFile result }
    ensures acts { ActsOn S.Store (λ _. tt) conn.old conn.new result
        (register_step driver.now.number driver.now.holder driver.now.key driver.now.base driver.now.name) }
{
    act_within!(conn, tx, register_in(&mut tx, driver))
}

/// Sets a driver's base, within a transaction: S4, S9.
fn rebase_in<S: Alter>(
    tx: &mut Transaction<'_, S>,
    driver: u32,
    base: Day,
) -> Result<(), StoreFault>
    ensures { Steps S.Store tx.old.conn tx.new.conn result (λ _. tt) (rebase_step driver base) }
{
    driver_with(tx, driver)?;
    ask_monday(base)?;
    drivers::set_base(tx, driver, base.number()).map_err(store_fault)
}

/// Sets a driver's base: S4, S9.
#[tactic(auto, using(crate::proofs::StepsLemmas::undone_keeps))]
pub fn rebase<S: Alter>(conn: &mut Connection<S>, driver: u32, base: Day) -> Result<(), StoreFault>
    requires { conn.old.in_transaction ≡ false }
    ensures autocommit { conn.new.in_transaction ≡ false }
    ensures of_no_file { IsOfNoFile result }
    ensures acts { ActsOn S.Store (λ _. tt) conn.old conn.new result (rebase_step driver base) }
{
    act_within!(conn, tx, rebase_in(&mut tx, driver, base))
}

/// Checks that no other driver has a key, and that the driver is there: S2, S4.
fn ask_key<S: Alter>(tx: &mut Transaction<'_, S>, driver: u32, key: &str) -> Result<(), StoreFault>
    ensures { Tells S.Store tx.old.conn tx.new.conn result
        (λ _ s. IsFound (λ _. (d : Registered) × CanHaveKey s driver key.now d) (rekey_step driver key.now s).answer result) }
{
    let owner = number_with_key(tx, key.as_bytes())?;
    ask_owner(owner, driver)?;
    driver_with(tx, driver)?;
    Ok(())
}

/// Sets a driver's key, within a transaction: S2, S4.
fn rekey_in<S: Alter>(tx: &mut Transaction<'_, S>, driver: u32, key: &str) -> Result<(), StoreFault>
    ensures { Steps S.Store tx.old.conn tx.new.conn result (λ _. tt) (rekey_step driver key.now) }
{
    ask_key(tx, driver, key)?;
    drivers::set_key(tx, driver, key).map_err(store_fault)
}

/// Sets a driver's key: S2, S4.
#[tactic(auto, using(crate::proofs::StepsLemmas::undone_keeps))]
pub fn rekey<S: Alter>(conn: &mut Connection<S>, driver: u32, key: &str) -> Result<(), StoreFault>
    requires { conn.old.in_transaction ≡ false }
    ensures autocommit { conn.new.in_transaction ≡ false }
    ensures of_no_file { IsOfNoFile result }
    ensures acts { ActsOn S.Store (λ _. tt) conn.old conn.new result (rekey_step driver key.now) }
{
    act_within!(conn, tx, rekey_in(&mut tx, driver, key))
}

/// Sets a driver's name, within a transaction: S4.
fn rename_in<S: Alter>(
    tx: &mut Transaction<'_, S>,
    driver: u32,
    name: &str,
) -> Result<(), StoreFault>
    ensures { Steps S.Store tx.old.conn tx.new.conn result (λ _. tt) (rename_step driver name.now) }
{
    driver_with(tx, driver)?;
    drivers::set_name(tx, driver, name).map_err(store_fault)
}

/// Sets a driver's name: S4.
#[tactic(auto, using(crate::proofs::StepsLemmas::undone_keeps))]
pub fn rename<S: Alter>(conn: &mut Connection<S>, driver: u32, name: &str) -> Result<(), StoreFault>
    requires { conn.old.in_transaction ≡ false }
    ensures autocommit { conn.new.in_transaction ≡ false }
    ensures of_no_file { IsOfNoFile result }
    ensures acts { ActsOn S.Store (λ _. tt) conn.old conn.new result (rename_step driver name.now) }
{
    act_within!(conn, tx, rename_in(&mut tx, driver, name))
}
