//! Laws about driver cards. A law is a function without a body: its `ensures` clause is proved, and holds for all values that it names.

ghost use Rattle.std.specs.Prelude.{◌≡◌, ◌↔◌, ℕ, ◌<◌, List, Result, Ok, Err, slice_index};
ghost use Rattle.tacho_time.specs.declared.span.Span.{Span};
ghost use Rattle.tacho_card.specs.declared.fault.CardFault.{CardFault};
ghost use Rattle.tacho_card.specs.declared.fault.CardFault.TheVariants.{Truncated};
ghost use Rattle.tacho_card.specs.DriverActivity.{DriverActivity};
ghost use Rattle.tacho_card.specs.DailyRecord.{DailyRecord};
ghost use Rattle.tacho_card.specs.declared.file.Part.{Part as PartValue};
ghost use Rattle.tacho_card.specs.Chain.{IsChain, chain, read_after};
ghost use Rattle.tacho_card.specs.Reading.{IsReading};
ghost use Rattle.tacho_card.specs.CardFile.{FileBlock, IsLaidEndToEnd, IsTruncatedAt, blocks_of, card_file, file_holder, ReadsFile};
ghost use Rattle.tacho_card.specs.Faults.{IsFileFault, HaveNoRepetition, IsHolder, IsRecordReading};

/// The records that are read are those of the chain: the places from the oldest to the newest, each at the end of the one before, or up to
/// the first fault.
pub fn chain_is_by_places()
    ensures { (activity : DriverActivity) (items : List (Result DailyRecord CardFault)) → IsChain activity items ↔ (items ≡ chain activity) }
{}

/// Activity data have at most one reading.
pub fn one_reading()
    ensures { (activities : List DriverActivity) (a b : Result (List Span) CardFault) → IsReading activities a → IsReading activities b → a ≡ b }
{}

/// Blocks are read from bytes iff they are laid end to end in them.
pub fn blocks_are_laid()
    ensures { (bytes : List ℕ) (blocks : List FileBlock) → ((i : ℕ) → slice_index bytes i < 256) → IsLaidEndToEnd bytes blocks ↔ (blocks_of bytes ≡ Ok blocks) }
{}

/// At most one list of blocks is laid end to end in some bytes.
pub fn one_block_list()
    ensures { (bytes : List ℕ) (a b : List FileBlock) → IsLaidEndToEnd bytes a → IsLaidEndToEnd bytes b → a ≡ b }
{}

/// Blocks are refused with C1 iff a block extends past the end; its offset is named.
pub fn truncated_at()
    ensures { (bytes : List ℕ) (offset : ℕ) → ((i : ℕ) → slice_index bytes i < 256) → IsTruncatedAt bytes offset ↔ (blocks_of bytes ≡ Err (Truncated offset)) }
{}

/// Blocks that are laid end to end are refused with the first of C2 to C5: the first repetition by places; no identification; a short
/// identification; two identifications that name different holders. They are accepted iff none repeats another and all identifications name
/// the same holder.
pub fn file_faults()
    ensures refused { (bytes : List ℕ) (blocks : List FileBlock) (fault : CardFault) → IsLaidEndToEnd bytes blocks → IsFileFault blocks fault ↔ (card_file bytes ≡ Err fault) }
    ensures accepted { (bytes : List ℕ) (blocks : List FileBlock) → IsLaidEndToEnd bytes blocks → (HaveNoRepetition blocks × ((holder : List ℕ) × IsHolder blocks holder)) ↔ (card_file bytes ≡ Ok blocks) }
{}

/// The holder of blocks without a repetition is the one that each identification names.
pub fn holder_is_named()
    ensures { (blocks : List FileBlock) (holder : List ℕ) → HaveNoRepetition blocks → IsHolder blocks holder ↔ (file_holder blocks ≡ Ok holder) }
{}

/// A record after those of a front is read, or refused with the first of C9 to C13. Of its words, the first one counts whose minute isn't
/// one of a day (C12) or is below that of the word before (C13).
pub fn record_faults()
    ensures { (activity : DriverActivity) (front : List ℕ) (place : ℕ) (reading : Result DailyRecord CardFault) → IsRecordReading activity front place reading ↔ (read_after activity front place ≡ reading) }
{}

/// A file has exactly one reading by each part.
pub fn file_reading()
    ensures some { (part : PartValue) (blocks : List FileBlock) → (reading : Result (List Span) CardFault) × ReadsFile part blocks reading }
    ensures one { (part : PartValue) (blocks : List FileBlock) (a b : Result (List Span) CardFault) → ReadsFile part blocks a → ReadsFile part blocks b → a ≡ b }
{}
