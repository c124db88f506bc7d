//! Laws about what the archive's tables represent. A law is a function without a body: what it ensures is proved for all values of its
//! variables.

ghost use Rattle.std.specs.Prelude.{◌≡◌, ◌≢◌, ◌↔◌, ℕ, List, [], None, Some, Ok, map, filter, Contains};
ghost use Rattle.std.specs.List.{AllByRecursion};
ghost use Rattle.sqlite.specs.Tree.{Trees};
ghost use Rattle.tacho_time.specs.Spans.{Gives, IsCanonicalOf};
ghost use Rattle.tacho_time.specs.declared.span.Span.{Span};
ghost use Rattle.tacho_state.specs.Content.{AreRead};
ghost use Rattle.tacho_state.specs.Distinct.{AreDistinct};
ghost use Rattle.tacho_state.specs.Disjoint.{GiveExactly, near};
ghost use Rattle.tacho_state.specs.State.{Driver, Entry, State, IsDownloaded, Held, driver_of, driver_with_key, holding, download_from, entry_from};
ghost use Rattle.tacho_state.specs.Steps.{file_of, owner, rekey_step};
ghost use Rattle.tacho_tables.specs.declared.rows.StoredSpan.{StoredSpan as StoredValue};
ghost use Rattle.tacho_tables.specs.Rows.{DriverRow, DownloadRow, EntryRow, SpanRow};
ghost use Rattle.tacho_tables.specs.Tables.{Tables, HasTables, has_number, has_secret, has_holder, is_download, is_entry, is_entry_of};
ghost use Rattle.tacho_reading.specs.Standing.{TablesRepresent, SameRows, spans_of, driver_columns, entry_row, rows_of_entries, stored_span, IsReadNear};

/// Stored rows represent lists of rows in any order.
pub fn any_order()
    ensures { (db : Trees) (t u : Tables) → SameRows t u → HasTables db t → HasTables db u }
{}

/// A driver is found by number in the tables exactly as in the state.
pub fn drivers_are_found()
    ensures none { (t : Tables) (s : State) (n : ℕ) → TablesRepresent t s
        → (filter (has_number n) t.drivers ≡ []) ↔ (driver_of n s ≡ None) }
    ensures some { (t : Tables) (s : State) (n : ℕ) (row : DriverRow) → TablesRepresent t s
        → Contains (filter (has_number n) t.drivers) row
        → (d : Driver) × (driver_of n s ≡ Some d) × (row ≡ driver_columns d) }
{}

/// A driver is found by key in the tables exactly as in the state.
pub fn keys_are_found()
    ensures none { (t : Tables) (s : State) (key : List ℕ) → TablesRepresent t s
        → (filter (has_secret key) t.drivers ≡ []) ↔ (driver_with_key key s ≡ None) }
    ensures some { (t : Tables) (s : State) (key : List ℕ) (row : DriverRow) → TablesRepresent t s
        → Contains (filter (has_secret key) t.drivers) row
        → (d : Driver) × (driver_with_key key s ≡ Some d) × (row ≡ driver_columns d) }
{}

/// A driver is found by their card's holder in the tables exactly as in the state.
pub fn holders_are_found()
    ensures none { (t : Tables) (s : State) (holder : List ℕ) → TablesRepresent t s
        → (filter (has_holder holder) t.drivers ≡ []) ↔ (holding holder s ≡ None) }
    ensures some { (t : Tables) (s : State) (holder : List ℕ) (row : DriverRow) → TablesRepresent t s
        → Contains (filter (has_holder holder) t.drivers) row
        → (d : Driver) × (holding holder s ≡ Some d) × (driver_of d.number s ≡ Some d) × (row ≡ driver_columns d) }
{}

/// In the state that tables represent no two drivers are alike, and the spans of each card file are what the file gives.
pub fn states_are_read()
    ensures distinct { (t : Tables) (s : State) → TablesRepresent t s → AreDistinct s }
    ensures files { (t : Tables) (s : State) → TablesRepresent t s → AllByRecursion (λ (d : Driver). AreRead d.downloads) s }
{}

/// A driver's rows keep what the driver's downloads give, and what the driver holds.
pub fn rows_are_kept()
    ensures card { (t : Tables) (s : State) (n : ℕ) (d : Driver) → TablesRepresent t s → driver_of n s ≡ Some d
        → GiveExactly (spans_of n t.card_spans) (IsDownloaded d) }
    ensures held { (t : Tables) (s : State) (n : ℕ) (d : Driver) → TablesRepresent t s → driver_of n s ≡ Some d
        → GiveExactly (spans_of n t.held) (Held d) }
{}

/// The line of the rows read near a range is the line of the driver's spans near it.
pub fn rows_are_near()
    ensures { (rows : List SpanRow) (n start past : ℕ) (found : List StoredValue) (line : List Span)
        → IsReadNear rows n start past found → IsCanonicalOf (Gives (map stored_span found)) line
        → IsCanonicalOf (Gives (near start past (spans_of n rows))) line }
{}

/// Downloads are found by number in the tables exactly as in the state.
pub fn downloads_are_found()
    ensures none { (t : Tables) (s : State) (n number : ℕ) (d : Driver) → TablesRepresent t s → driver_of n s ≡ Some d
        → (filter (is_download n number) t.downloads ≡ []) ↔ (download_from 1 number d.downloads ≡ None) }
    ensures some { (t : Tables) (s : State) (n number : ℕ) (d : Driver) (row : DownloadRow) → TablesRepresent t s
        → driver_of n s ≡ Some d
        → Contains (filter (is_download n number) t.downloads) row
        → file_of (download_from 1 number d.downloads) ≡ Ok row.file }
{}

/// Entries are found by number in the tables exactly as in the state.
pub fn entries_are_found()
    ensures none { (t : Tables) (s : State) (n number : ℕ) (d : Driver) → TablesRepresent t s → driver_of n s ≡ Some d
        → (filter (is_entry n number) t.entries ≡ []) ↔ (entry_from 1 number d.entries ≡ None) }
    ensures some { (t : Tables) (s : State) (n number : ℕ) (d : Driver) (row : EntryRow) → TablesRepresent t s
        → driver_of n s ≡ Some d
        → Contains (filter (is_entry n number) t.entries) row
        → (e : Entry) × (entry_from 1 number d.entries ≡ Some e) × (row ≡ entry_row n number e) }
    ensures all { (t : Tables) (s : State) (n : ℕ) (d : Driver) → TablesRepresent t s → driver_of n s ≡ Some d
        → filter (is_entry_of n) t.entries ≡ rows_of_entries n 1 d.entries }
{}

/// A key that was set is its driver's. The one before it is nobody's, unless it is the same.
pub fn a_changed_key()
    ensures theirs { (s : State) (n : ℕ) (key : List ℕ) → (rekey_step n key s).answer ≡ Ok tt
        → owner key (rekey_step n key s).after ≡ Ok (Some n) }
    ensures before { (s : State) (n : ℕ) (key : List ℕ) (d : Driver) → AreDistinct s → driver_of n s ≡ Some d → key ≢ d.key
        → (rekey_step n key s).answer ≡ Ok tt → owner d.key (rekey_step n key s).after ≡ Ok None }
{}
