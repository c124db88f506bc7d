use tacho_tables::TableName;

/// The first rows that no state within its limits has: the driver's number, as it is stored, and the table.
#[derive(Clone, Copy, Debug, PartialEq, Eq)]
pub struct Unsound {
    pub driver: i64,
    pub table: TableName,
}
