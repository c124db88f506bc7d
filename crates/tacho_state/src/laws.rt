//! Laws about what a driver holds. A law is a function without a body: what it ensures is proved for all values of its variables. A range
//! contains the minutes of a command: only rows that overlap it are read, and they aren't cut to it.

ghost use Rattle.std.specs.Prelude.{◌≡◌, ◌≢◌, ℕ, ◌+◌, ◌<◌, ◌≤◌, ◌⊎◌, ◌++◌, List, [], ◌∷◌, Some, None, Result, Ok, Err, length, ◌↔◌, true, false};
ghost use Rattle.tacho_time.specs.Spans.{Gives, IsCanonicalOf, Conflicts, IsFirstConflict};
ghost use Rattle.tacho_time.specs.declared.span.Mark.{Mark};
ghost use Rattle.tacho_time.specs.declared.span.Span.{Span};
ghost use Rattle.tacho_line.specs.Line.{IsWithin, Together, AreGains};
ghost use Rattle.tacho_state.specs.declared.fault.StoreFault.{StoreFault as StoreFaultValue};
ghost use Rattle.tacho_state.specs.declared.fault.StoreFault.TheVariants.{Card, Contradiction, Full};
ghost use Rattle.tacho_state.specs.Disjoint.{GiveExactly, near, with_range_replaced, AreInRange, AllWithin, With, HasNews};
ghost use Rattle.tacho_state.specs.Least.{least_conflict, is_within};
ghost use Rattle.tacho_state.specs.State.{Driver, Entry, State, IsDownloaded, Held, held_mark, driver_of, entered_spans, entry_from, marked_from, put, with_marked, with_marked_between, with_download, with_batch};
ghost use Rattle.tacho_card.specs.declared.fault.CardFault.{CardFault};
ghost use Rattle.tacho_card.specs.declared.file.Part.{Part as PartValue};
ghost use Rattle.tacho_state.specs.Content.{FileTells};
ghost use Rattle.tacho_state.specs.Steps.{Content, Turn, most_records, import_own, enter_own, line_reading, name_reading, owner, rename_step, withdraw_range_step, withdraw_step};
ghost use Rattle.tacho_state.specs.Acts.{Acts, Reads, IsOfNoFile};
ghost use Rattle.tacho_state.specs.declared.imported.Imported.TheVariants.{Added, Repeated};
ghost use Rattle.tacho_state.specs.Runs.{Call, IsCall, IsRun, AreAnswered, state_after, without_value};

use crate::keeper::Keeper;

/// A withdrawal by range. The new spans are those that don't overlap the entry, the parts of the others outside it, and, inside it, what
/// card spans and other entries near it give. They keep what the driver holds after the withdrawal.
pub fn withdrawal_by_range()
    ensures { (d : Driver) (number : ℕ) (e : Entry) (cards helds inside : List Span) → GiveExactly cards (IsDownloaded d) → GiveExactly helds (Held d)
        → entry_from 1 number d.entries ≡ Some e → e.start ≤ e.past
        → IsCanonicalOf (λ m k. IsWithin e.start e.past m × Gives (near e.start e.past cards ++ near e.start e.past (entered_spans (marked_from 1 number d.entries))) m k) inside
        → GiveExactly (with_range_replaced e.start e.past helds inside) (Held (with_marked number d)) }
{}

/// An import by range. Once the gains against what is near the file's spans are added, the spans keep what the driver is given and holds
/// after the import.
pub fn import_by_range()
    ensures { (d : Driver) (cards helds card_line line spans card_gains gains : List Span) (part : ℕ) (file : List ℕ) (start past : ℕ) → GiveExactly cards (IsDownloaded d) → GiveExactly helds (Held d) → AreInRange start past spans
        → IsCanonicalOf (Gives (near start past cards)) card_line → IsCanonicalOf (Gives (near start past helds)) line → AreGains card_line spans card_gains → AreGains line spans gains
        → GiveExactly (cards ++ card_gains) (IsDownloaded (with_download part file spans d)) × GiveExactly (helds ++ gains) (Held (with_download part file spans d)) }
{}

/// A batch by range. Once the gains against what is near its entries are added, the spans keep what the driver holds after it.
pub fn batch_by_range()
    ensures { (d : Driver) (helds line gains : List Span) (batch : List Entry) (start past : ℕ) → GiveExactly helds (Held d) → AreInRange start past (entered_spans batch)
        → IsCanonicalOf (Gives (near start past helds)) line → AreGains line (entered_spans batch) gains → GiveExactly (helds ++ gains) (Held (with_batch batch d)) }
{}

/// The first contradiction between spans and what is held near them is the first one with all that is held. If they have gains, there is no
/// contradiction.
pub fn contradiction_by_range()
    ensures first { (d : Driver) (helds line spans : List Span) (start past m : ℕ) → GiveExactly helds (Held d) → AreInRange start past spans
        → IsCanonicalOf (Gives (near start past helds)) line → IsFirstConflict (Together line spans) m → IsFirstConflict (With (Held d) spans) m }
    ensures none { (d : Driver) (helds line spans gains : List Span) (start past m : ℕ) → GiveExactly helds (Held d) → AreInRange start past spans
        → IsCanonicalOf (Gives (near start past helds)) line → AreGains line spans gains → Conflicts (With (Held d) spans) m → ⊥ }
{}

/// Spans have no gains against the card spans near them exactly if downloads give all their pairs.
pub fn repeated_by_range()
    ensures within { (d : Driver) (cards line spans : List Span) (start past : ℕ) → GiveExactly cards (IsDownloaded d)
        → IsCanonicalOf (Gives (near start past cards)) line → AreGains line spans [] → AllWithin (Gives spans) (IsDownloaded d) }
    ensures new { (d : Driver) (cards line spans gains : List Span) (x : Span) (start past : ℕ) → GiveExactly cards (IsDownloaded d) → AreInRange start past spans
        → IsCanonicalOf (Gives (near start past cards)) line → AreGains line spans (x ∷ gains) → AllWithin (Gives spans) (IsDownloaded d) → ⊥ }
    ensures conflict { (d : Driver) (cards line spans : List Span) (start past m : ℕ) → GiveExactly cards (IsDownloaded d)
        → IsCanonicalOf (Gives (near start past cards)) line → IsFirstConflict (Together line spans) m → AllWithin (Gives spans) (IsDownloaded d) → ⊥ }
{}

/// The searches in the steps agree with the relations: the least minute with two marks, and whether others give all pairs of some spans.
pub fn searches()
    ensures least { (spans : List Span) (m : ℕ) → IsFirstConflict (Gives spans) m → least_conflict spans ≡ Some m }
    ensures none { (spans : List Span) → ((m : ℕ) → ¬ (Conflicts (Gives spans) m)) → least_conflict spans ≡ None }
    ensures within { (spans others : List Span) → AllWithin (Gives spans) (Gives others) → is_within spans others ≡ true }
    ensures new { (spans others : List Span) → ¬ (AllWithin (Gives spans) (Gives others)) → is_within spans others ≡ false }
{}

/// The answer of an import, from what is near its spans: `card_line` is what the driver's downloads give there, and `line` is what the
/// driver holds there.
pub fn import_answers()
    ensures repeated { (d : Driver) (part : ℕ) (file : List ℕ) (cards card_line spans : List Span) (start past : ℕ) → GiveExactly cards (IsDownloaded d)
        → IsCanonicalOf (Gives (near start past cards)) card_line → AreGains card_line spans [] → import_own part file spans d ≡ Ok (Repeated d.number, d) }
    ensures contradicted { (d : Driver) (part : ℕ) (file : List ℕ) (cards helds card_line line spans : List Span) (start past m : ℕ) → GiveExactly cards (IsDownloaded d) → GiveExactly helds (Held d)
        → AreInRange start past spans → IsCanonicalOf (Gives (near start past cards)) card_line → IsCanonicalOf (Gives (near start past helds)) line
        → HasNews card_line spans → IsFirstConflict (Together line spans) m → import_own part file spans d ≡ Err (Contradiction m) }
    ensures added { (d : Driver) (part : ℕ) (file : List ℕ) (cards helds card_line line spans gains : List Span) (start past : ℕ) → GiveExactly cards (IsDownloaded d) → GiveExactly helds (Held d)
        → AreInRange start past spans → IsCanonicalOf (Gives (near start past cards)) card_line → IsCanonicalOf (Gives (near start past helds)) line
        → HasNews card_line spans → AreGains line spans gains → length d.downloads < most_records
        → import_own part file spans d ≡ Ok (Added d.number (1 + length d.downloads), with_download part file spans d) }
    ensures full { (d : Driver) (part : ℕ) (file : List ℕ) (cards helds card_line line spans gains : List Span) (start past : ℕ) → GiveExactly cards (IsDownloaded d) → GiveExactly helds (Held d)
        → AreInRange start past spans → IsCanonicalOf (Gives (near start past cards)) card_line → IsCanonicalOf (Gives (near start past helds)) line
        → HasNews card_line spans → AreGains line spans gains → most_records ≤ length d.downloads → import_own part file spans d ≡ Err Full }
{}

/// The answer of an `enter`, from what the driver holds near the batch.
pub fn enter_answers()
    ensures contradicted { (d : Driver) (batch : List Entry) (helds line : List Span) (start past m : ℕ) → GiveExactly helds (Held d)
        → AreInRange start past (entered_spans batch) → IsCanonicalOf (Gives (near start past helds)) line
        → IsFirstConflict (Together line (entered_spans batch)) m → enter_own batch d ≡ Err (Contradiction m) }
    ensures entered { (d : Driver) (batch : List Entry) (helds line gains : List Span) (start past : ℕ) → GiveExactly helds (Held d)
        → AreInRange start past (entered_spans batch) → IsCanonicalOf (Gives (near start past helds)) line
        → AreGains line (entered_spans batch) gains → length d.entries + length batch ≤ most_records → enter_own batch d ≡ Ok (1 + length d.entries, with_batch batch d) }
    ensures full { (d : Driver) (batch : List Entry) (helds line gains : List Span) (start past : ℕ) → GiveExactly helds (Held d)
        → AreInRange start past (entered_spans batch) → IsCanonicalOf (Gives (near start past helds)) line
        → AreGains line (entered_spans batch) gains → most_records < length d.entries + length batch → enter_own batch d ≡ Err Full }
{}

/// The answer of a withdrawal.
pub fn withdrawal_answers()
    ensures { (n number : ℕ) (s : State) (d : Driver) (e : Entry) → driver_of n s ≡ Some d → entry_from 1 number d.entries ≡ Some e → e.withdrawn ≡ false
        → withdraw_step n number s ≡ record { answer = Ok tt; after = put (with_marked number d) s } }
{}

/// A withdrawal of a range is the withdrawals of its numbers, one after the other. If a number can't be withdrawn, the least one says why, and
/// the driver is as before. Otherwise the entries of the range are withdrawn, and no other entry changes.
pub fn withdrawals_of_a_range()
    ensures one { (n number : ℕ) (s : State) → withdraw_range_step n number number s ≡ withdraw_step n number s }
    ensures least { (n first number last : ℕ) (s : State) (fault : StoreFaultValue) → first ≤ number → number ≤ last
        → ((i : ℕ) → first ≤ i → i < number → (withdraw_step n i s).answer ≡ Ok tt) → (withdraw_step n number s).answer ≡ Err fault
        → withdraw_range_step n first last s ≡ record { answer = Err fault; after = s } }
    ensures done { (n first last : ℕ) (s : State) (d : Driver) → driver_of n s ≡ Some d → first ≤ last
        → ((i : ℕ) → first ≤ i → i ≤ last → (withdraw_step n i s).answer ≡ Ok tt)
        → withdraw_range_step n first last s ≡ record { answer = Ok tt; after = put (with_marked_between first last d) s } }
{}

/// A changed name is the driver's. What they hold, their key and all other drivers stay as they were.
pub fn a_changed_name()
    ensures name { (n : ℕ) (name : List ℕ) (s : State) → (rename_step n name s).answer ≡ Ok tt
        → name_reading n (rename_step n name s).after ≡ Ok name }
    ensures line { (n i : ℕ) (name : List ℕ) (s : State) → line_reading i (rename_step n name s).after ≡ line_reading i s }
    ensures key { (n : ℕ) (name key : List ℕ) (s : State) → owner key (rename_step n name s).after ≡ owner key s }
    ensures others { (n i : ℕ) (name : List ℕ) (s : State) → i ≢ n → driver_of i (rename_step n name s).after ≡ driver_of i s }
{}

/// If spans keep what a driver holds, each held minute has one mark: that of `held_mark`.
pub fn held_is_a_map()
    ensures { (d : Driver) (helds : List Span) (m : ℕ) (mark : Mark) → GiveExactly helds (Held d) → Held d m mark ↔ (held_mark d m ≡ Some mark) }
{}

/// A card file has one content for each part, or one first fault.
pub fn one_content()
    ensures some { (part : PartValue) (bytes : List ℕ) → (content : Result Content CardFault) × FileTells part bytes content }
    ensures one { (part : PartValue) (bytes : List ℕ) (a b : Result Content CardFault) → FileTells part bytes a → FileTells part bytes b → a ≡ b }
{}

/// A command, with its step, is a call of a run, unless its card file has a fault.
pub fn commands_are_calls<K: Keeper, A, B>()
    ensures { (view : A → B) (old new : K) (result : Result A StoreFaultValue) (step : State → Turn B)
        → Acts K.stands K.is_clean K.is_live K.leaves K.is_same K.is_same_of view old new result step → IsOfNoFile result
        → IsCall K.stands K.is_clean K.leaves old new (record { answer = without_value result; after = λ s. (step s).after }) }
{}

/// A reading is a call of a run, and doesn't change the state.
pub fn readings_are_calls<K: Keeper, A, B>()
    ensures { (view : A → B) (old new : K) (result : Result A StoreFaultValue) (told : State → Result B StoreFaultValue)
        → Reads K.stands K.is_clean K.is_live K.leaves K.is_same view old new result told
        → IsCall K.stands K.is_clean K.leaves old new (record { answer = without_value result; after = λ s. s }) }
{}

/// An import of a file with a fault is a call of a run, and doesn't change the state.
pub fn refused_files_are_calls<K: Keeper>()
    ensures { (old new : K) (fault : CardFault) → new ≡ old
        → IsCall K.stands K.is_clean K.leaves old new (record { answer = Err (Card fault); after = λ s. s }) }
{}

/// Consecutive calls on an archive: commands, readings, and imports of files with a fault. If none of them gave up (refusals don't count as
/// giving up), the archive has the state that they lead to, and a crash leaves that state. If one more call gave up, a crash leaves that
/// state or the state after that call's step. So the effect of every call that returned Ok survives.
pub fn a_run_of_calls<K: Keeper>()
    ensures stands { (calls : List Call) (old new : K) (s : State) → IsRun K.stands K.is_clean K.leaves calls old new → K.is_clean new
        → K.stands old s → K.stands new (state_after calls s) }
    ensures leaves { (calls : List Call) (old new : K) (s : State) → IsRun K.stands K.is_clean K.leaves calls old new → K.is_clean new
        → AreAnswered calls → K.stands old s → K.leaves old (s ∷ []) → K.leaves new (state_after calls s ∷ []) }
    ensures stopped { (calls : List Call) (last : Call) (old new : K) (s : State)
        → IsRun K.stands K.is_clean K.leaves (calls ++ last ∷ []) old new → K.is_clean new
        → AreAnswered calls → K.stands old s → K.leaves old (s ∷ [])
        → K.leaves new (last.after (state_after calls s) ∷ state_after calls s ∷ []) }
{}
