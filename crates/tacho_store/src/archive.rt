ghost use Rattle.std.specs.Prelude.{◌≡◌, ◌≢◌, ◌↔◌, [], List, false, Err, IsTrue, IfOk, IfErr, IsErr};
ghost use Rattle.sqlite.specs.State.{HasCleanDisk};
ghost use Rattle.sqlite.specs.Held.{state};
ghost use Rattle.tacho_state.specs.State.{State};
ghost use Rattle.tacho_state.specs.declared.fault.StoreFault.TheVariants.{Store};
ghost use Rattle.tacho_tables.specs.Making.{IsVersioned};
ghost use Rattle.tacho_reading.specs.Kept.{IsBlank, SeesWhileOpen, LeavesOneOf, IsSame, HasGivenUp};
ghost use Rattle.tacho_store.specs.Opening.{Makes, CarriesOver, IsMade, IsUnmade, TellsSchema, FindsArchive, IsCarried, IsEmptyArchive, IsAdopted, IsLeftAlone, IsOld, IsOpeningFault, IsMigrated, IsNotMigrated};

use crate::entering::enter;
use crate::files::files;
use crate::import::import;
use crate::own::{rebase, register, rekey, rename};
use crate::withdrawal::withdraw;
use sqlite::{Alter, Connection, MemStore, Transaction};
use std::alloc::Global;
use tacho_card::Part;
use tacho_line::Line;
use tacho_reading::act_within;
use tacho_reading::fault::store_fault;
use tacho_reading::reading::{
    download, driver, drivers, entries, key, line, line_and_stretches,
    line_and_stretches_from_base, line_within, name, report, stretches, who,
};
use tacho_rules::Report;
use tacho_state::{
    Caller, Driver, DriverSummary, Entered, Entry, EntryLine, FileSummary, Imported, Keeper,
    StoreFault, content_of,
};
use tacho_stretches::Stretch;
use tacho_tables::making::{CURRENT_VERSION, OLD_VERSION};
use tacho_tables::{making, opening};
use tacho_time::{Day, Minute};

/// An archive in a store: drivers, what their cards say, and what they hold. Its calls are those of `Keeper`.
#[derive(Drop)]
pub struct Archive<S: Alter> {
    conn: Connection<S>,
    ghost closed: { conn.in_transaction ≡ false },
}

/// Makes the tables in a store that has none, within a transaction.
fn make_in<S: Alter>(tx: &mut Transaction<'_, S>) -> Result<(), StoreFault>
    ensures refused { IfErr result HasGivenUp }
    ensures makes { Makes S.Store tx.old.conn tx.new.conn result }
{
    making::make_all(tx).map_err(store_fault)
}

/// Makes the tables in a store that has none.
fn make<S: Alter>(conn: &mut Connection<S>) -> Result<(), StoreFault>
    requires { conn.old.in_transaction ≡ false }
    ensures autocommit { conn.new.in_transaction ≡ false }
    ensures refused { IfErr result HasGivenUp }
    ensures made { IsMade (state S.Store conn.old) (state S.Store conn.new) result }
{
    if opening::has_tables(conn) {
        return Err(StoreFault::Store);
    }
    // For the proof alone: nothing is pending, so what is seen is what was committed.
    let _settled = conn.is_autocommit();
    let mut tx = conn.transaction();
    // A failure is returned as it is: there is no table yet by which the store could be asked.
    make_in(&mut tx)?;
    match tx.commit() {
        Ok(()) => Ok(()),
        Err(_) => {
            // For the proof alone: the commit that failed left nothing pending.
            let _undone = conn.is_autocommit();
            Err(StoreFault::Store)
        }
    }
}

/// Reads the version of the schema that the tables have.
fn read_version<S: Alter>(conn: &mut Connection<S>) -> Result<Option<u32>, StoreFault>
    requires { conn.old.in_transaction ≡ false }
    ensures autocommit { conn.new.in_transaction ≡ false }
    ensures refused { IfErr result HasGivenUp }
    ensures version { TellsSchema (state S.Store conn.old) (state S.Store conn.new) result }
{
    // For the proof alone: nothing is pending, so what is seen is what was committed.
    let _settled = conn.is_autocommit();
    let mut tx = conn.transaction();
    making::version(&mut tx).map_err(store_fault)
}

/// Finds out whether a store has schema 2 and its version, and changes nothing. Fails with S13 if it has schema 1 and that version, and with
/// S12 if its schema is another: then no statement runs.
pub fn find_archive<S: Alter>(conn: &mut Connection<S>) -> Result<(), StoreFault>
    requires { conn.old.in_transaction ≡ false }
    ensures autocommit { conn.new.in_transaction ≡ false }
    ensures refused { IfErr result IsOpeningFault }
    ensures found { FindsArchive (state S.Store conn.old) (state S.Store conn.new) result }
    ensures unknown { ¬ IsVersioned (state S.Store conn.old).now → (result ≡ Err Store) × (conn.new ≡ conn.old) }
{
    let is_current = opening::has_archive(conn);
    if !is_current && !opening::has_old_archive(conn) {
        return Err(StoreFault::Store);
    }
    // For the proof alone: nothing is pending, so what is seen is what was committed.
    let _settled = conn.is_autocommit();
    opening::ask(conn).map_err(store_fault)?;
    let version = read_version(conn)?;
    // For the proof alone: nothing is pending, so what is seen is what was committed.
    let _settled = conn.is_autocommit();
    opening::ask(conn).map_err(store_fault)?;
    match version {
        Some(CURRENT_VERSION) if is_current => Ok(()),
        Some(OLD_VERSION) if !is_current => Err(StoreFault::OldSchema),
        _ => Err(StoreFault::Store),
    }
}

/// Migrates tables of schema 1, within a transaction.
fn carry_in<S: Alter>(tx: &mut Transaction<'_, S>) -> Result<(), StoreFault>
    ensures refused { IfErr result HasGivenUp }
    ensures carries { CarriesOver S.Store tx.old.conn tx.new.conn result }
{
    making::carry(tx).map_err(store_fault)
}

/// Migrates tables of schema 1.
fn carry<S: Alter>(conn: &mut Connection<S>) -> Result<(), StoreFault>
    requires { conn.old.in_transaction ≡ false }
    ensures autocommit { conn.new.in_transaction ≡ false }
    ensures refused { IfErr result HasGivenUp }
    ensures carried { IsCarried (state S.Store conn.old) (state S.Store conn.new) result }
{
    act_within!(conn, tx, carry_in(&mut tx))
}

impl<S: Alter> Archive<S> {
    ghost use Rattle.std.specs.Prelude.{◌≡◌, ◌≢◌, ◌↔◌, [], List, false, Err, IsTrue, IfOk, IfErr, IsErr};
    ghost use Rattle.sqlite.specs.State.{HasCleanDisk};
    ghost use Rattle.sqlite.specs.Held.{state};
    ghost use Rattle.tacho_state.specs.State.{State};
    ghost use Rattle.tacho_tables.specs.Making.{IsVersioned};
    ghost use Rattle.tacho_reading.specs.Kept.{IsBlank, SeesWhileOpen, LeavesOneOf, HasGivenUp};
    ghost use Rattle.tacho_state.specs.declared.fault.StoreFault.TheVariants.{OldSchema, Store};
    ghost use Rattle.tacho_store.specs.Opening.{IsUnmade, IsEmptyArchive, IsAdopted, IsLeftAlone, IsOld, IsOpeningFault, IsMigrated, IsNotMigrated};

    /// Makes an archive without drivers in a store without tables, in one transaction. Fails with S12 if the store has tables. On failure
    /// the connection is returned, with the store as it was.
    pub fn create(mut conn: Connection<S>) -> Result<Archive<S>, (StoreFault, Connection<S>)>
        requires { conn.in_transaction ≡ false }
        ensures created { IfOk result (λ archive. ⟦<Archive<S> as Keeper>⟧.is_clean archive
            → IsBlank (state S.Store conn)
            → IsEmptyArchive ⟦<Archive<S> as Keeper>⟧.stands ⟦<Archive<S> as Keeper>⟧.is_live
            ⟦<Archive<S> as Keeper>⟧.leaves archive) }
        ensures taken { (state S.Store conn).now.schema.tables ≢ [] → IsErr result }
        ensures refused { IfErr result (λ e. HasGivenUp e.0 × (e.1.in_transaction ≡ false)
            × IsUnmade (state S.Store conn) (state S.Store e.1)) }
    {
        match make(&mut conn) {
            Ok(()) => Ok(Archive { conn }),
            Err(fault) => Err((fault, conn)),
        }
    }

    /// Opens the archive of a store. Fails with S13 if the store has schema 1, and with S12 if it has another schema than 1 and 2, or none. On
    /// failure the connection is returned, with the store as it was.
    pub fn adopt(mut conn: Connection<S>) -> Result<Archive<S>, (StoreFault, Connection<S>)>
        requires { conn.in_transaction ≡ false }
        ensures adopted { IfOk result (λ archive. ⟦<Archive<S> as Keeper>⟧.is_clean archive
            → IsAdopted ⟦<Archive<S> as Keeper>⟧.stands ⟦<Archive<S> as Keeper>⟧.is_live
            ⟦<Archive<S> as Keeper>⟧.leaves (state S.Store conn) archive) }
        ensures refused { IfErr result (λ e. IsOpeningFault e.0 × (e.1.in_transaction ≡ false)
            × IsLeftAlone (state S.Store conn) (state S.Store e.1)) }
        ensures unknown { ¬ IsVersioned (state S.Store conn).now → result ≡ Err (Store, conn) }
        ensures old { IfErr result (λ e. HasCleanDisk (state S.Store e.1) → e.0 ≡ OldSchema
            → IsTrue (state S.Store e.1).is_open × IsOld (state S.Store conn)) }
    {
        // For the proof alone: the schema that the connection has read is that of the stored tables.
        let _sound = conn.schema();
        match find_archive(&mut conn) {
            Ok(()) => {
                // For the proof alone: nothing is pending, so what is seen is what was committed.
                let _settled = conn.is_autocommit();
                Ok(Archive { conn })
            }
            Err(fault) => Err((fault, conn)),
        }
    }

    /// Opens the archive of a store, as of schema 2. Tables of schema 1 are migrated first, in one transaction: each entry gets the office
    /// as its author, and no note. Fails with S12 if the store has neither schema. On failure the connection is returned, with the store as
    /// it was.
    pub fn migrate(conn: Connection<S>) -> Result<Archive<S>, (StoreFault, Connection<S>)>
        requires { conn.in_transaction ≡ false }
        ensures migrated { IfOk result (λ archive. ⟦<Archive<S> as Keeper>⟧.is_clean archive
            → IsMigrated ⟦<Archive<S> as Keeper>⟧.stands ⟦<Archive<S> as Keeper>⟧.is_live
            ⟦<Archive<S> as Keeper>⟧.leaves (state S.Store conn) archive) }
        ensures refused { IfErr result (λ e. HasGivenUp e.0 × (e.1.in_transaction ≡ false)
            × IsNotMigrated (state S.Store conn) (state S.Store e.1)) }
        ensures unknown { ¬ IsVersioned (state S.Store conn).now → result ≡ Err (Store, conn) }
    {
        match Self::adopt(conn) {
            Ok(archive) => Ok(archive),
            Err((StoreFault::OldSchema, mut conn)) => match carry(&mut conn) {
                Ok(()) => Ok(Archive { conn }),
                Err(fault) => Err((fault, conn)),
            },
            Err(refusal) => Err(refusal),
        }
    }

    /// Returns the connection, outside a transaction.
    pub fn close(self) -> Connection<S>
        ensures autocommit { result.in_transaction ≡ false }
        ensures clean { (⟦<Archive<S> as Keeper>⟧.is_clean self ↔ HasCleanDisk (state S.Store result))
            × (⟦<Archive<S> as Keeper>⟧.is_live self ↔ IsTrue (state S.Store result).is_open) }
        ensures kept { ((s : State) → ⟦<Archive<S> as Keeper>⟧.stands self s → SeesWhileOpen (state S.Store result) s)
            × ((states : List State) → ⟦<Archive<S> as Keeper>⟧.leaves self states
            → LeavesOneOf (state S.Store result) states) }
    {
        let Archive { conn } = self;
        conn
    }
}

impl<S: Alter> Keeper for Archive<S> {
    ghost use Rattle.std.specs.Prelude.{◌≡◌, IsTrue, List, Result};
    ghost use Rattle.std.proofs.Common.{inr, refl, ◌∙◌};
    ghost use Rattle.sqlite.specs.State.{HasCleanDisk};
    ghost use Rattle.sqlite.specs.Held.{state};
    ghost use Rattle.tacho_reading.specs.Kept.{SeesWhileOpen, LeavesOneOf, IsSame, IsSameOf};

    ghost stands = { λ a s. SeesWhileOpen (state S.Store a.conn) s };

    ghost is_clean = { λ a. HasCleanDisk (state S.Store a.conn) };

    ghost is_live = { λ a. IsTrue (state S.Store a.conn).is_open };

    ghost leaves = { λ a states. LeavesOneOf (state S.Store a.conn) states };

    ghost is_same = { λ a b. IsSame (state S.Store a.conn) (state S.Store b.conn) };

    ghost is_same_of = { λ n a b. IsSameOf n (state S.Store a.conn) (state S.Store b.conn) };

    ghost leaves_more = { λ a s states leaves db may. inr (leaves db may) };

    ghost same_self = { λ a live. refl };

    ghost same_then = { λ first second third was_live was is live. is live ∙ was (was_live live) };

    fn register(&mut self, driver: &Driver) -> Result<(), StoreFault> {
        register(&mut self.conn, driver)
    }

    fn import(
        &mut self,
        alloc: Global,
        caller: Caller,
        part: Part,
        file: &[u8],
    ) -> Result<Imported, StoreFault> {
        let content = content_of(alloc, part, file)?;
        import(alloc, &mut self.conn, caller, part, file, &content)
    }

    fn enter(
        &mut self,
        alloc: Global,
        driver: u32,
        lines: &[EntryLine],
    ) -> Result<Entered, StoreFault> {
        enter(alloc, &mut self.conn, driver, lines)
    }

    fn withdraw(
        &mut self,
        alloc: Global,
        driver: u32,
        first: u32,
        last: u32,
    ) -> Result<(), StoreFault> {
        withdraw(alloc, &mut self.conn, driver, first, last)
    }

    fn rebase(&mut self, driver: u32, base: Day) -> Result<(), StoreFault> {
        rebase(&mut self.conn, driver, base)
    }

    fn rekey(&mut self, driver: u32, key: &str) -> Result<(), StoreFault> {
        rekey(&mut self.conn, driver, key)
    }

    fn rename(&mut self, driver: u32, name: &str) -> Result<(), StoreFault> {
        rename(&mut self.conn, driver, name)
    }

    fn who(&mut self, key: &[u8]) -> Result<Option<u32>, StoreFault> {
        who(&mut self.conn, key)
    }

    fn drivers(&mut self, alloc: Global) -> Result<Vec<DriverSummary>, StoreFault> {
        drivers(alloc, &mut self.conn)
    }

    fn driver(&mut self, alloc: Global, number: u32) -> Result<DriverSummary, StoreFault> {
        driver(&mut self.conn, number)
    }

    fn name(&mut self, alloc: Global, driver: u32) -> Result<String, StoreFault> {
        name(&mut self.conn, driver)
    }

    fn key(&mut self, alloc: Global, driver: u32) -> Result<String, StoreFault> {
        key(&mut self.conn, driver)
    }

    fn line(&mut self, alloc: Global, driver: u32) -> Result<Line, StoreFault> {
        line(alloc, &mut self.conn, driver)
    }

    fn line_within(
        &mut self,
        alloc: Global,
        driver: u32,
        start: Minute,
        past: Minute,
    ) -> Result<Line, StoreFault> {
        line_within(alloc, &mut self.conn, driver, start, past)
    }

    fn entries(&mut self, alloc: Global, driver: u32) -> Result<Vec<Entry>, StoreFault> {
        entries(alloc, &mut self.conn, driver)
    }

    fn download(&mut self, alloc: Global, driver: u32, number: u32) -> Result<Vec<u8>, StoreFault> {
        download(&mut self.conn, driver, number)
    }

    fn files(&mut self, alloc: Global, driver: u32) -> Result<Vec<FileSummary>, StoreFault> {
        files(alloc, &mut self.conn, driver)
    }

    fn report(&mut self, alloc: Global, driver: u32) -> Result<Report, StoreFault> {
        report(alloc, &mut self.conn, driver)
    }

    fn stretches(&mut self, alloc: Global, driver: u32) -> Result<Vec<Stretch>, StoreFault> {
        stretches(alloc, &mut self.conn, driver)
    }

    fn line_and_stretches(
        &mut self,
        alloc: Global,
        driver: u32,
        start: Minute,
        past: Minute,
    ) -> Result<(Line, Vec<Stretch>), StoreFault> {
        line_and_stretches(alloc, &mut self.conn, driver, start, past)
    }

    fn line_and_stretches_from_base(
        &mut self,
        alloc: Global,
        driver: u32,
    ) -> Result<(Line, Vec<Stretch>), StoreFault> {
        line_and_stretches_from_base(alloc, &mut self.conn, driver)
    }
}

/// Makes an archive without drivers in memory.
pub fn open_memory(alloc: Global) -> Result<Archive<MemStore>, StoreFault>
    ensures opened { IfOk result (λ archive. ⟦<Archive<MemStore> as Keeper>⟧.is_clean archive
        → IsEmptyArchive ⟦<Archive<MemStore> as Keeper>⟧.stands ⟦<Archive<MemStore> as Keeper>⟧.is_live
        ⟦<Archive<MemStore> as Keeper>⟧.leaves archive) }
    ensures refused { IfErr result HasGivenUp }
{
    let mut conn = Connection::open_in_memory(alloc)?;
    make(&mut conn)?;
    Ok(Archive { conn })
}
