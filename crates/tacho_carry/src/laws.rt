//! Laws about archives that are carried over. A law is a function without a body: its `ensures` clauses are proved, and hold for all values
//! that they name.

ghost use Rattle.std.specs.Prelude.{◌≡◌, ◌≤◌, ◌*◌, ◌+◌, ◌++◌, ◌∷◌, ◌↔◌, [], ℕ, IsPermutation, IsUtf8, List, Option, Result, Ok, length, max, true};
ghost use Rattle.std.specs.List.{AllByRecursion};
ghost use Rattle.tacho_time.specs.Limits.{last_day};
ghost use Rattle.tacho_time.specs.declared.span.Span.{Span};
ghost use Rattle.tacho_time.specs.declared.span.Mark.{Mark};
ghost use Rattle.tacho_time.specs.Spans.{Gives};
ghost use Rattle.tacho_card.specs.declared.fault.CardFault.{CardFault};
ghost use Rattle.tacho_card.specs.declared.file.Part.{Part};
ghost use Rattle.tacho_state.specs.Content.{FileTells};
ghost use Rattle.tacho_state.specs.Limits.{IsKey, IsName};
ghost use Rattle.tacho_state.specs.Numbers.{part_number};
ghost use Rattle.tacho_state.specs.Registration.{Registration, IsReadDay, IsRegistration};
ghost use Rattle.tacho_state.specs.State.{Download, Driver, Entry, Held, State, with_batch, with_download};
ghost use Rattle.tacho_state.specs.Steps.{Content, enter_own, enter_step, import_own, import_step, rebase_step, register_step};
ghost use Rattle.tacho_state.specs.Steps.{rekey_step, rename_step, withdraw_range_step};
ghost use Rattle.tacho_state.specs.Within.{AreWithinLimits, IsEntry};
ghost use Rattle.tacho_state.specs.declared.imported.Imported.TheVariants.{Added};
ghost use Rattle.tacho_carry.specs.Carried.{carried, carried_driver, carried_entries, carried_files, is_left_out, monday_of, reaches};
ghost use Rattle.tacho_carry.specs.Sound.{IsSound, IsSoundDriver};

/// A card file is carried exactly if it gives a minute at or after the first minute of the day.
pub fn files_that_reach_the_day()
    ensures { (start : ℕ) (spans : List Span)
        → (reaches start spans ≡ true) ↔ ((m : ℕ) × (mark : Mark) × (start ≤ m) × Gives spans m mark) }
{}

/// From the day on, a driver who is carried holds just what they held. A driver who is left out held nothing there.
pub fn what_is_held_stays()
    ensures carried { (day m : ℕ) (d : Driver) (mark : Mark) → 1440 * day ≤ m → Held (carried_driver day d) m mark ↔ Held d m mark }
    ensures left_out { (day m : ℕ) (d : Driver) (mark : Mark) → is_left_out day d ≡ true → 1440 * day ≤ m → ¬ Held d m mark }
{}

/// Of a sound state nothing that is carried is refused, and no card file is repeated: not the registration of a driver, after those of the
/// drivers before them; not a card file, which has no fault and is of the driver's card, after those before it; and not a batch of entries,
/// after the card files and the entries before it.
pub fn nothing_is_refused()
    ensures registered { (day : ℕ) (before later : State) (d : Driver) → IsSound (before ++ d ∷ later)
        → register_step d.number d.holder d.key (max d.base (monday_of day)) d.name (carried day before) ≡ record {
          answer = Ok tt;
          after = carried day before ++ record (carried_driver day d) { downloads = []; entries = [] } ∷ [];
        } }
    ensures readable { (day : ℕ) (d : Driver) (before later : List Download) (f : Download) (part : Part) (told : Result Content CardFault)
        → IsSoundDriver d → carried_files (1440 * day) d.downloads ≡ before ++ f ∷ later → part_number part ≡ f.part
        → FileTells part f.file told
        → told ≡ Ok (record { holder = d.holder; spans = f.spans }) }
    ensures imported { (day : ℕ) (d : Driver) (before later : List Download) (f : Download) → IsSoundDriver d
        → carried_files (1440 * day) d.downloads ≡ before ++ f ∷ later
        → let now = record (carried_driver day d) { downloads = before; entries = [] } in
        import_own f.part f.file f.spans now ≡ Ok (Added d.number (1 + length before), with_download f.part f.file f.spans now) }
    ensures entered { (day : ℕ) (d : Driver) (before batch later : List Entry) → IsSoundDriver d
        → carried_entries (1440 * day) d.entries ≡ before ++ (batch ++ later)
        → let now = record (carried_driver day d) { entries = before } in
        enter_own batch now ≡ Ok (1 + length before, with_batch batch now) }
{}

/// An archive is sound after any list of commands, since a new archive is, and each step leaves a sound state of a sound one. So is an
/// archive that was carried over, and the same drivers in another order.
pub fn states_are_sound()
    ensures created { IsSound [] }
    ensures registered { (n : ℕ) (holder key name : List ℕ) (base : ℕ) (s : State) → IsSound s
        → IsSound (register_step n holder key base name s).after }
    ensures imported { (caller : Option ℕ) (part : Part) (file : List ℕ) (content : Result Content CardFault) (s : State)
        → FileTells part file content
        → IsSound s → IsSound (import_step caller (part_number part) file content s).after }
    ensures entered { (n : ℕ) (batch : List Entry) (s : State) → IsSound s → IsSound (enter_step n batch s).after }
    ensures withdrawn { (n first last : ℕ) (s : State) → IsSound s → IsSound (withdraw_range_step n first last s).after }
    ensures rebased { (n base : ℕ) (s : State) → IsSound s → IsSound (rebase_step n base s).after }
    ensures rekeyed { (n : ℕ) (key : List ℕ) (s : State) → IsSound s → IsSound (rekey_step n key s).after }
    ensures renamed { (n : ℕ) (name : List ℕ) (s : State) → IsSound s → IsSound (rename_step n name s).after }
    ensures carried { (day : ℕ) (s : State) → IsSound s → IsSound (carried day s) }
    ensures ordered { (s t : State) → IsPermutation s t → IsSound s → IsSound t }
{}

/// A state within its limits stays so after any list of commands within theirs: a registration, a batch of entries, a base, a key and a
/// name that have their form. So does a state that is carried over, and the same drivers in another order.
pub fn states_stay_within_limits()
    ensures created { AreWithinLimits [] }
    ensures registered { (r : Registration) (s : State) → IsRegistration r → length r.holder ≡ 15 → IsUtf8 r.key → IsUtf8 r.name
        → AreWithinLimits s → AreWithinLimits (register_step r.number r.holder r.key r.base r.name s).after }
    ensures imported { (caller : Option ℕ) (part : Part) (file : List ℕ) (content : Result Content CardFault) (s : State)
        → FileTells part file content → AreWithinLimits s
        → AreWithinLimits (import_step caller (part_number part) file content s).after }
    ensures entered { (n : ℕ) (batch : List Entry) (s : State) → AllByRecursion IsEntry batch
        → AreWithinLimits s → AreWithinLimits (enter_step n batch s).after }
    ensures withdrawn { (n first last : ℕ) (s : State) → AreWithinLimits s → AreWithinLimits (withdraw_range_step n first last s).after }
    ensures rebased { (n base : ℕ) (s : State) → IsReadDay base → AreWithinLimits s → AreWithinLimits (rebase_step n base s).after }
    ensures rekeyed { (n : ℕ) (key : List ℕ) (s : State) → IsKey key → IsUtf8 key
        → AreWithinLimits s → AreWithinLimits (rekey_step n key s).after }
    ensures renamed { (n : ℕ) (name : List ℕ) (s : State) → IsName name → IsUtf8 name
        → AreWithinLimits s → AreWithinLimits (rename_step n name s).after }
    ensures carried { (day : ℕ) (s : State) → day ≤ last_day → AreWithinLimits s → AreWithinLimits (carried day s) }
    ensures ordered { (s t : State) → IsPermutation s t → AreWithinLimits s → AreWithinLimits t }
{}
