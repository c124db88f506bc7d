//! The schemas of an archive, as plain values, and whether a store has one of them.

ghost use Rattle.std.specs.Prelude.{◌≡◌, ◌↔◌, IsTrue};
ghost use Rattle.tacho_tables.specs.Schema.{Made, Carried, archive_schema, old_schema};

use crate::shape::ColumnShape::{self, Key, Need};
use crate::shape::{IndexShape, TableShape, is_schema};
use sqlite_schema::schema::Kind::{Blob, Integer, Text};
use sqlite_schema::schema::Schema;
use sqlite_value::keys::Order;

/// The order of an index whose columns ascend by their bytes.
const PLAIN: Order = Order { digits: 0 };

const DRIVER: ColumnShape = Need("driver", Integer);

const NUMBER: ColumnShape = Need("number", Integer);

const START: ColumnShape = Need("start", Integer);

const PAST: ColumnShape = Need("past", Integer);

const MARK: ColumnShape = Need("mark", Integer);

const WITHDRAWN: ColumnShape = Need("withdrawn", Integer);

const META: TableShape = TableShape {
    name: "meta",
    tree: 0,
    columns: &[Key("id"), Need("version", Integer)],
    key: Some(0),
    primary: &[0],
    uniques: &[],
    orders: &[],
    is_checked: false,
    is_of_driver: false,
};

const DRIVERS: TableShape = TableShape {
    name: "drivers",
    tree: 1,
    columns: &[
        Key("driver"),
        Need("holder", Blob),
        Need("secret", Text),
        Need("base", Integer),
        Need("name", Text),
        Need("downloads", Integer),
        Need("entries", Integer),
    ],
    key: Some(0),
    primary: &[0],
    uniques: &[&[2], &[3]],
    orders: &[PLAIN, PLAIN],
    is_checked: false,
    is_of_driver: false,
};

const DOWNLOADS: TableShape = TableShape {
    name: "downloads",
    tree: 4,
    columns: &[DRIVER, NUMBER, Need("part", Integer), Need("file", Blob)],
    key: None,
    primary: &[1, 2],
    uniques: &[&[1, 2]],
    orders: &[PLAIN],
    is_checked: false,
    is_of_driver: true,
};

const CARD_SPANS: TableShape = TableShape {
    name: "card_spans",
    tree: 6,
    columns: &[DRIVER, START, PAST, MARK],
    key: None,
    primary: &[1, 2],
    uniques: &[&[1, 2]],
    orders: &[PLAIN],
    is_checked: false,
    is_of_driver: true,
};

const ENTRY_ROWS: TableShape = TableShape {
    name: "entry_rows",
    tree: 8,
    columns: &[
        DRIVER,
        NUMBER,
        START,
        PAST,
        MARK,
        WITHDRAWN,
        Need("author", Text),
        Need("note", Text),
    ],
    key: None,
    primary: &[1, 2],
    uniques: &[&[1, 2]],
    orders: &[PLAIN],
    is_checked: true,
    is_of_driver: true,
};

/// `entries` of schema 1, which an archive keeps that was carried over.
const OLD_ENTRIES: TableShape = TableShape {
    name: "entries",
    tree: 8,
    columns: &[DRIVER, NUMBER, START, PAST, MARK, WITHDRAWN],
    key: None,
    primary: &[1, 2],
    uniques: &[&[1, 2]],
    orders: &[PLAIN],
    is_checked: true,
    is_of_driver: true,
};

const HELD: TableShape = TableShape {
    name: "held",
    tree: 10,
    columns: &[DRIVER, START, PAST, MARK],
    key: None,
    primary: &[1, 2],
    uniques: &[&[1, 2]],
    orders: &[PLAIN],
    is_checked: false,
    is_of_driver: true,
};

/// `entry_rows` of an archive that was carried over, where it is the last table.
const LAST_ENTRY_ROWS: TableShape = TableShape {
    name: "entry_rows",
    tree: 12,
    columns: &[
        DRIVER,
        NUMBER,
        START,
        PAST,
        MARK,
        WITHDRAWN,
        Need("author", Text),
        Need("note", Text),
    ],
    key: None,
    primary: &[1, 2],
    uniques: &[&[1, 2]],
    orders: &[PLAIN],
    is_checked: true,
    is_of_driver: true,
};

const HOLDERS: IndexShape = IndexShape {
    name: "sqlite_autoindex_drivers_1",
    tree: 2,
    table: 1,
    columns: &[2],
};

const SECRETS: IndexShape = IndexShape {
    name: "sqlite_autoindex_drivers_2",
    tree: 3,
    table: 1,
    columns: &[3],
};

const OF_DOWNLOADS: IndexShape = IndexShape {
    name: "sqlite_autoindex_downloads_1",
    tree: 5,
    table: 4,
    columns: &[1, 2],
};

const OF_CARD_SPANS: IndexShape = IndexShape {
    name: "sqlite_autoindex_card_spans_1",
    tree: 7,
    table: 6,
    columns: &[1, 2],
};

const OF_ENTRY_ROWS: IndexShape = IndexShape {
    name: "sqlite_autoindex_entry_rows_1",
    tree: 9,
    table: 8,
    columns: &[1, 2],
};

const OF_OLD_ENTRIES: IndexShape = IndexShape {
    name: "sqlite_autoindex_entries_1",
    tree: 9,
    table: 8,
    columns: &[1, 2],
};

const OF_HELD: IndexShape = IndexShape {
    name: "sqlite_autoindex_held_1",
    tree: 11,
    table: 10,
    columns: &[1, 2],
};

const OF_LAST_ENTRY_ROWS: IndexShape = IndexShape {
    name: "sqlite_autoindex_entry_rows_1",
    tree: 13,
    table: 12,
    columns: &[1, 2],
};

/// True if the schema is that of an archive that was made as of schema 2.
pub(crate) fn is_made(schema: &Schema) -> bool
    ensures { IsTrue result ↔ (schema.now ≡ archive_schema Made) }
{
    is_schema(
        schema,
        &[META, DRIVERS, DOWNLOADS, CARD_SPANS, ENTRY_ROWS, HELD],
        &[
            HOLDERS,
            SECRETS,
            OF_DOWNLOADS,
            OF_CARD_SPANS,
            OF_ENTRY_ROWS,
            OF_HELD,
        ],
    )
}

/// True if the schema is that of an archive that was carried over from schema 1.
pub(crate) fn is_carried(schema: &Schema) -> bool
    ensures { IsTrue result ↔ (schema.now ≡ archive_schema Carried) }
{
    is_schema(
        schema,
        &[
            META,
            DRIVERS,
            DOWNLOADS,
            CARD_SPANS,
            OLD_ENTRIES,
            HELD,
            LAST_ENTRY_ROWS,
        ],
        &[
            HOLDERS,
            SECRETS,
            OF_DOWNLOADS,
            OF_CARD_SPANS,
            OF_OLD_ENTRIES,
            OF_HELD,
            OF_LAST_ENTRY_ROWS,
        ],
    )
}

/// True if the schema is schema 1.
pub(crate) fn is_old(schema: &Schema) -> bool
    ensures { IsTrue result ↔ (schema.now ≡ old_schema) }
{
    is_schema(
        schema,
        &[META, DRIVERS, DOWNLOADS, CARD_SPANS, OLD_ENTRIES, HELD],
        &[
            HOLDERS,
            SECRETS,
            OF_DOWNLOADS,
            OF_CARD_SPANS,
            OF_OLD_ENTRIES,
            OF_HELD,
        ],
    )
}
