ghost use Rattle.std.specs.Prelude.{◌≡◌};
ghost use Rattle.tacho_tables.specs.Readable.{table_name};

/// A table whose rows are those of drivers.
#[derive(Clone, Copy, Debug, PartialEq, Eq)]
pub enum TableName {
    Drivers,
    Downloads,
    CardSpans,
    EntryRows,
    Held,
}

impl TableName {
    /// The table's name in SQL.
    pub fn name(self) -> &'static str
        ensures { result.now ≡ table_name self }
    {
        match self {
            TableName::Drivers => "drivers",
            TableName::Downloads => "downloads",
            TableName::CardSpans => "card_spans",
            TableName::EntryRows => "entry_rows",
            TableName::Held => "held",
        }
    }
}
