//! Laws about what the archive's tables represent after a command. A law is a function without a body: what it ensures is proved, and holds
//! for everything that it names.

ghost use Rattle.std.specs.Prelude.{◌≡◌, ◌≢◌, ◌⊎◌, ℕ, ◌+◌, ◌==◌, ◌++◌, List, [], ◌∷◌, false, None, Some, Ok, filter, length, map};
ghost use Rattle.std.specs.List.{AllByRecursion};
ghost use Rattle.sqlite.specs.Held.{state};
ghost use Rattle.tacho_time.specs.Spans.{Gives, IsCanonicalOf};
ghost use Rattle.tacho_time.specs.declared.span.Span.{Span};
ghost use Rattle.tacho_line.specs.Line.{AreGains, IsWithin};
ghost use Rattle.tacho_card.specs.declared.file.Part.{Part as PartValue};
ghost use Rattle.tacho_state.specs.Content.{FileTells};
ghost use Rattle.tacho_state.specs.Numbers.{part_number};
ghost use Rattle.tacho_state.specs.Disjoint.{AreInRange, near, outside};
ghost use Rattle.tacho_state.specs.State.{Driver, Entry, State, AreFull, driver_of, driver_with_key, holding, entry_from, entered_spans, put, with_base, with_key, with_name, with_download, with_batch, with_marked};
ghost use Rattle.tacho_state.specs.Runs.{Call, IsRun, AreAnswered, state_after};
ghost use Rattle.tacho_state.specs.Steps.{Content, is_another, owner, rekey_step};
ghost use Rattle.tacho_tables.specs.declared.rows.StoredSpan.{StoredSpan as StoredValue};
ghost use Rattle.tacho_tables.specs.Tables.{Tables, OldTables, carry_over, no_rows, with_withdrawn};
ghost use Rattle.tacho_tables.specs.Rows.{OldEntryRow};
ghost use Rattle.tacho_reading.specs.Kept.{IsOfOne, LeavesOneOf};
ghost use Rattle.tacho_reading.specs.Standing.{Represents, TablesRepresent, spans_of, driver_columns, stored_span, IsReadNear, IsKeptNear};
ghost use Rattle.tacho_state.specs.Within.{AreWithinLimits};
ghost use Rattle.tacho_store.specs.Old.{OldDriver, OldState, IsOldWithinLimits, old_entry_rows, with_office};
ghost use Rattle.tacho_store.specs.Opening.{IsAdopted};
ghost use Rattle.tacho_store.specs.After.{with_driver, with_rebased, with_rekeyed, with_renamed, with_imported, with_entered, with_renewed};

use crate::archive::Archive;
use sqlite::{Alter, Connection};
use tacho_reading::laws;
use tacho_state::Keeper;

/// After a crash the archive is found again: an archive that is adopted from the trees that the crash left has one of the states that the
/// crash may leave.
pub fn a_crash_leaves_one_of_its_states<S: Alter>(
    left: &Connection<S>,
    found: &Connection<S>,
    archive: &Archive<S>,
)
    ensures { (states : List State) → LeavesOneOf (state S.Store left.now) states
        → (state S.Store left.now).may_leave (state S.Store found.now).now.trees
        → IsAdopted ⟦<Archive<S> as Keeper>⟧.stands ⟦<Archive<S> as Keeper>⟧.is_live
        ⟦<Archive<S> as Keeper>⟧.leaves (state S.Store found.now) archive.now
        → IsOfOne (⟦<Archive<S> as Keeper>⟧.stands archive.now) states }
{}

/// Calls of an adopted archive, a crash at any moment of the last call, and the archive that is adopted from the trees that the crash left.
/// This archive has the state to which the calls before the last lead, or the state after the last one's step. None of the calls before the
/// last gave up. So each command that answered Ok is found again, and a command that gave up is found whole or not at all. `left` is the
/// connection of the last archive, as `close` returns it.
pub fn a_crash_is_found_again<S: Alter>(
    first: &Connection<S>,
    opened: &Archive<S>,
    last: &Archive<S>,
    left: &Connection<S>,
    found: &Connection<S>,
    archive: &Archive<S>,
)
    ensures { (s : State) (calls : List Call) (call : Call)
        → Represents (state S.Store first.now).now.trees s
        → IsAdopted ⟦<Archive<S> as Keeper>⟧.stands ⟦<Archive<S> as Keeper>⟧.is_live
        ⟦<Archive<S> as Keeper>⟧.leaves (state S.Store first.now) opened.now
        → IsRun ⟦<Archive<S> as Keeper>⟧.stands ⟦<Archive<S> as Keeper>⟧.is_clean ⟦<Archive<S> as Keeper>⟧.leaves
        (calls ++ call ∷ []) opened.now last.now
        → ⟦<Archive<S> as Keeper>⟧.is_clean last.now → AreAnswered calls
        → ((states : List State) → ⟦<Archive<S> as Keeper>⟧.leaves last.now states → LeavesOneOf (state S.Store left.now) states)
        → (state S.Store left.now).may_leave (state S.Store found.now).now.trees
        → IsAdopted ⟦<Archive<S> as Keeper>⟧.stands ⟦<Archive<S> as Keeper>⟧.is_live
        ⟦<Archive<S> as Keeper>⟧.leaves (state S.Store found.now) archive.now
        → ⟦<Archive<S> as Keeper>⟧.stands archive.now (call.after (state_after calls s))
        ⊎ ⟦<Archive<S> as Keeper>⟧.stands archive.now (state_after calls s) }
{}

/// Empty tables represent the state without drivers.
pub fn empty_tables_stand()
    ensures { TablesRepresent no_rows [] }
{}

/// A registration, on the tables.
pub fn registered_tables_stand()
    ensures { (t : Tables) (s : State) (d : Driver) → TablesRepresent t s
        → driver_of d.number s ≡ None → driver_with_key d.key s ≡ None → holding d.holder s ≡ None
        → d.downloads ≡ [] → d.entries ≡ []
        → TablesRepresent (with_driver (driver_columns d) t) (s ++ d ∷ []) }
{}

/// A change of a driver's base, on the tables.
pub fn rebased_tables_stand()
    ensures { (t : Tables) (s : State) (n base : ℕ) (d : Driver) → TablesRepresent t s → driver_of n s ≡ Some d
        → TablesRepresent (with_rebased n base t) (put (with_base base d) s) }
{}

/// A change of a driver's key to one that no other driver has, on the tables.
pub fn rekeyed_tables_stand()
    ensures { (t : Tables) (s : State) (n : ℕ) (key : List ℕ) (d : Driver) → TablesRepresent t s → driver_of n s ≡ Some d
        → is_another n (driver_with_key key s) ≡ false
        → TablesRepresent (with_rekeyed n key t) (put (with_key key d) s) }
{}

/// A change of a driver's name, on the tables.
pub fn renamed_tables_stand()
    ensures { (t : Tables) (s : State) (n : ℕ) (name : List ℕ) (d : Driver) → TablesRepresent t s → driver_of n s ≡ Some d
        → TablesRepresent (with_renamed n name t) (put (with_name name d) s) }
{}

/// A key that was set is its driver's. The one before it is nobody's then, unless it is the same.
pub fn a_changed_key()
    ensures theirs { (s : State) (n : ℕ) (key : List ℕ) → (rekey_step n key s).answer ≡ Ok tt
        → owner key (rekey_step n key s).after ≡ Ok (Some n) }
    ensures before { (t : Tables) (s : State) (n : ℕ) (key : List ℕ) (d : Driver) → TablesRepresent t s → driver_of n s ≡ Some d
        → key ≢ d.key → (rekey_step n key s).answer ≡ Ok tt → owner d.key (rekey_step n key s).after ≡ Ok None }
{
    laws::a_changed_key();
}

/// An import, on the tables: it adds the gains against card spans near the file's spans, and the gains against held rows near them.
pub fn imported_tables_stand()
    ensures { (t : Tables) (s : State) (n : ℕ) (d : Driver) (part : PartValue) (file : List ℕ) (content : Content)
        (card_line line card_gains gains : List Span) (start past : ℕ)
        → TablesRepresent t s → driver_of n s ≡ Some d
        → FileTells part file (Ok content) → AreInRange start past content.spans
        → IsCanonicalOf (Gives (near start past (spans_of n t.card_spans))) card_line
        → AreGains card_line content.spans card_gains
        → IsCanonicalOf (Gives (near start past (spans_of n t.held))) line → AreGains line content.spans gains
        → TablesRepresent (with_imported n (1 + length d.downloads) (part_number part) file card_gains gains t)
        (put (with_download (part_number part) file content.spans d) s) }
{}

/// The state of a migrated archive is within its limits if that of the old one was: the office is the author of its entries, and they have no
/// note.
pub fn a_migrated_state_is_within_limits()
    ensures { (s : OldState) → AllByRecursion IsOldWithinLimits s → AreWithinLimits (with_office s) }
{}

/// If tables of schema 1 represent a state, the rows of a driver's entries are those of the driver's entries in the state, by number.
pub fn old_entries_are_rows()
    ensures { (t : OldTables) (s : OldState) → TablesRepresent (carry_over t) (with_office s)
        → AllByRecursion (λ (d : OldDriver). filter (λ (r : OldEntryRow). r.driver == d.number) t.entries
        ≡ old_entry_rows d.number 1 d.entries) s }
{}

/// A batch of entries, on the tables: it adds the batch's rows, and its gains against held rows near it.
pub fn entered_tables_stand()
    ensures { (t : Tables) (s : State) (n : ℕ) (d : Driver) (batch : List Entry) (line gains : List Span)
        (start past : ℕ)
        → TablesRepresent t s → driver_of n s ≡ Some d → AreFull batch → AreInRange start past (entered_spans batch)
        → IsCanonicalOf (Gives (near start past (spans_of n t.held))) line → AreGains line (entered_spans batch) gains
        → TablesRepresent (with_entered n (1 + length d.entries) (length d.entries + length batch) batch gains t)
        (put (with_batch batch d) s) }
{}

/// A withdrawal, on the tables: the entry's row is marked. The driver's held rows near the entry are replaced by their parts outside it,
/// and by what card spans and the other entries near it give inside it.
pub fn withdrawn_tables_stand()
    ensures { (t : Tables) (s : State) (n : ℕ) (d : Driver) (number : ℕ) (e : Entry)
        (cards others helds : List StoredValue) (inside : List Span)
        → TablesRepresent t s → driver_of n s ≡ Some d → entry_from 1 number d.entries ≡ Some e
        → IsReadNear t.card_spans n e.start e.past cards
        → IsKeptNear (map (with_withdrawn n number) t.entries) n e.start e.past others
        → IsReadNear t.held n e.start e.past helds
        → IsCanonicalOf (λ m k. IsWithin e.start e.past m
        × Gives (map stored_span cards ++ map stored_span others) m k) inside
        → TablesRepresent (with_renewed n number e.start e.past (outside e.start e.past (map stored_span helds)
        ++ inside) t) (put (with_marked number d) s) }
{}
