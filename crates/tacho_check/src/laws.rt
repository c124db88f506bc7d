//! Laws about the soundness of an archive's tables. A law is a function without a body: what it ensures is proved for all values of its
//! variables.

ghost use Rattle.std.specs.Prelude.{ℤ, None, Some};
ghost use Rattle.sqlite.specs.Tree.{Trees};
ghost use Rattle.tacho_state.specs.State.{State};
ghost use Rattle.tacho_state.specs.Within.{AreWithinLimits};
ghost use Rattle.tacho_tables.specs.Schema.{Layout};
ghost use Rattle.tacho_tables.specs.Readable.{IsReadable};
ghost use Rattle.tacho_tables.specs.Ask.{own_in};
ghost use Rattle.tacho_tables.specs.declared.table.TableName.{TableName as Name};
ghost use Rattle.tacho_tables.specs.declared.table.TableName.TheVariants.{Held as Last};
ghost use Rattle.tacho_reading.specs.Standing.{Represents};
ghost use Rattle.tacho_check.specs.Check.{IsSoundAt, IsUnsoundAt, IsFirstUnsound};
ghost use Rattle.tacho_check.specs.Judged.{IsJudged};
ghost use Rattle.tacho_check.specs.declared.table.Unsound.{Unsound as Named};

/// Tables of which some rows are unsound represent no state within its limits.
pub fn unsound_is_no_state()
    ensures { (db : Trees) (u : Named) (s : State) → IsFirstUnsound db u → AreWithinLimits s → ¬ (Represents db s) }
{}

/// If the rows of each driver are sound, all of them together represent a state within its limits.
pub fn sound_is_a_state()
    ensures { (layout : Layout) (db : Trees) → IsReadable layout db → ((n : ℤ) → IsSoundAt layout db n Last)
        → (s : State) × Represents db s × AreWithinLimits s }
{}

/// A judgement of a driver's stored rows says at which table they are unsound first, if at any.
pub fn judged_rows()
    ensures sound { (layout : Layout) (db : Trees) (n : ℤ) → IsJudged (own_in layout db n) n None → IsSoundAt layout db n Last }
    ensures unsound { (layout : Layout) (db : Trees) (n : ℤ) (k : Name) → IsJudged (own_in layout db n) n (Some k)
        → IsUnsoundAt layout db n k }
{}
