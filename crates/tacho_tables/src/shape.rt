//! Whether a store's schema is one that is asked for: its tables with their columns and rules, and the indexes of their keys.

ghost use Rattle.std.specs.Prelude.{◌≡◌, ◌≢◌, ◌↔◌, ℕ, pos, suc, [], true, false, map, IsTrue, MatchOption};
ghost use Rattle.sqlite_sql.specs.Term.{Term, col, lit, op2};
ghost use Rattle.sqlite_value.specs.declared.value.Value.TheVariants.{Null, Int};
ghost use Rattle.sqlite_value.specs.declared.keys.Collation.TheVariants.{Binary};
ghost use Rattle.sqlite_schema.specs.Code.{term_to, term_in};
ghost use Rattle.tacho_tables.specs.Schema.{to_driver, withdrawn_is, is_0_or_1};
ghost use Rattle.tacho_tables.specs.Shapes.{column_of, checks_of, references_of, table_of, index_of, schema_of};

use sqlite_items::Items;
use sqlite_schema::code::{Op, Terms};
use sqlite_schema::schema::{Action, Column, Index, Kind, Reference, Schema, Table};
use sqlite_sql::ops::{BinaryOp, CompareOp};
use sqlite_value::keys::{Collation, Order};
use sqlite_value::value::{Bytes, Value};

/// A column that is asked for. Its type is strict, it has no default, and its values are compared byte by byte.
#[derive(Clone, Copy)]
pub(crate) enum ColumnShape {
    /// It is NOT NULL.
    Need(&'static str, Kind),
    /// It is the row's number.
    Key(&'static str),
}

/// A table that is asked for.
#[derive(Clone, Copy)]
pub(crate) struct TableShape {
    pub name: &'static str,
    pub tree: u32,
    pub columns: &'static [ColumnShape],
    /// The column whose value is the row's number.
    pub key: Option<usize>,
    pub primary: &'static [usize],
    pub uniques: &'static [&'static [usize]],
    pub orders: &'static [Order],
    /// Column 6 is 0 or 1.
    pub is_checked: bool,
    /// Column 1 references a driver.
    pub is_of_driver: bool,
}

/// An index that the store makes for a key.
#[derive(Clone, Copy)]
pub(crate) struct IndexShape {
    pub name: &'static str,
    pub tree: u32,
    pub table: u32,
    pub columns: &'static [usize],
}

fn is_name(name: &Bytes, wanted: &str) -> bool
    ensures { IsTrue result ↔ (name.now ≡ wanted.now) }
{
    name.as_slice() == wanted.as_bytes()
}

fn is_null(value: &Value) -> bool
    ensures { IsTrue result ↔ (value.now ≡ Null) }
{
    match value {
        Value::Null => true,
        _ => false,
    }
}

fn is_of_kind(column: &Column, name: &str, kind: Kind, not_null: bool) -> bool
    ensures { IsTrue result ↔ (column.now ≡ record {
      name = name.now;
      kind = kind;
      is_strict = true;
      not_null = not_null;
      default = Null;
      collation = Binary;
    }) }
{
    is_name(&column.name, name)
        && column.kind == kind
        && column.is_strict
        && column.not_null == not_null
        && is_null(&column.default)
        && column.collation == Collation::Binary
}

fn is_column(column: &Column, shape: &ColumnShape) -> bool
    ensures { IsTrue result ↔ (column.now ≡ column_of shape.now) }
{
    match shape {
        ColumnShape::Need(name, kind) => is_of_kind(column, name, *kind, true),
        ColumnShape::Key(name) => is_of_kind(column, name, Kind::Integer, false),
    }
}

fn are_columns(mut columns: &[Column], mut shapes: &[ColumnShape]) -> bool
    ensures { IsTrue result ↔ (columns.entry.now ≡ map column_of shapes.entry.now) }
{
    while let [column, more @ ..] = columns {
        let [shape, others @ ..] = shapes else {
            return false;
        };
        if !is_column(column, shape) {
            return false;
        }
        columns = more;
        shapes = others;
    }
    shapes.is_empty()
}

fn are_places(places: &Items<usize>, wanted: &[usize]) -> bool
    ensures { IsTrue result ↔ (places.now ≡ wanted.now) }
{
    places.as_slice() == wanted
}

fn are_keys(mut keys: &[Items<usize>], mut wanted: &[&[usize]]) -> bool
    ensures { IsTrue result ↔ (keys.entry.now ≡ map (λ places. places.now) wanted.entry.now) }
{
    while let [key, more @ ..] = keys {
        let [places, others @ ..] = wanted else {
            return false;
        };
        if !are_places(key, places) {
            return false;
        }
        keys = more;
        wanted = others;
    }
    wanted.is_empty()
}

/// True if the term at this place is the column `withdrawn`.
fn is_withdrawn(nodes: &[Op], place: usize) -> bool
    ensures { (depth : ℕ) → IsTrue result ↔ (term_to nodes.now (suc depth) place ≡ col 1 6) }
{
    match nodes.get(place) {
        Some(Op::Column(slot, at)) => *slot == 1 && *at == 6,
        _ => false,
    }
}

/// True if the term at this place is this number.
fn is_number(nodes: &[Op], place: usize, number: u8) -> bool
    ensures { (depth : ℕ) → IsTrue result ↔ (term_to nodes.now (suc depth) place ≡ lit (Int (pos number))) }
{
    match nodes.get(place) {
        Some(Op::Literal(Value::Int(value))) => *value == i64::from(number),
        _ => false,
    }
}

/// Returns the places of the operands of the term at this place, if its operator is this one.
fn operands(nodes: &[Op], place: usize, wanted: BinaryOp) -> Option<(usize, usize)>
    ensures { (depth : ℕ) → MatchOption result
        ((a : Term) → (b : Term) → term_to nodes.now (suc depth) place ≢ op2 wanted a b)
        (λ sides. term_to nodes.now (suc depth) place ≡ op2 wanted (term_to nodes.now depth sides.0) (term_to nodes.now depth sides.1)) }
{
    match nodes.get(place) {
        Some(Op::Binary(op, left, right)) if *op == wanted => Some((*left, *right)),
        _ => None,
    }
}

/// True if the term at this place compares the column `withdrawn` with this number.
fn is_comparison(nodes: &[Op], place: usize, number: u8) -> bool
    ensures { (depth : ℕ) → IsTrue result ↔ (term_to nodes.now (suc (suc depth)) place ≡ withdrawn_is number) }
{
    let equal = BinaryOp::Compare(CompareOp::Eq, Collation::Binary);
    match operands(nodes, place, equal) {
        Some((left, right)) => is_withdrawn(nodes, left) && is_number(nodes, right, number),
        None => false,
    }
}

/// True if the term at this place says that `withdrawn` is 0 or 1.
fn is_choice(nodes: &[Op], place: usize) -> bool
    ensures { (depth : ℕ) → IsTrue result ↔ (term_to nodes.now (suc (suc (suc depth))) place ≡ is_0_or_1) }
{
    match operands(nodes, place, BinaryOp::Or) {
        Some((left, right)) => is_comparison(nodes, left, 0) && is_comparison(nodes, right, 1),
        None => false,
    }
}

/// Likewise, as deep as the term is read: it is as deep as there are nodes.
fn is_check(nodes: &[Op], root: usize) -> bool
    ensures { IsTrue result ↔ (term_in nodes.now root ≡ is_0_or_1) }
{
    if nodes.len() < 3 {
        return false;
    }
    is_choice(nodes, root)
}

fn are_checks(terms: &Terms, is_checked: bool) -> bool
    ensures { IsTrue result ↔ (terms.now ≡ checks_of is_checked) }
{
    match terms.roots.as_slice() {
        [] => !is_checked,
        [root] => is_checked && is_check(terms.nodes.as_slice(), *root),
        _ => false,
    }
}

fn is_to_driver(reference: &Reference) -> bool
    ensures { IsTrue result ↔ (reference.now ≡ to_driver) }
{
    let [parent] = reference.parent_columns.as_slice() else {
        return false;
    };
    are_places(&reference.columns, &[1])
        && is_name(&reference.parent, "drivers")
        && is_name(parent, "driver")
        && reference.on_delete == Action::NoAction
        && reference.on_update == Action::NoAction
        && !reference.is_deferred
}

fn are_references(references: &[Reference], is_of_driver: bool) -> bool
    ensures { IsTrue result ↔ (references.now ≡ references_of is_of_driver) }
{
    match references {
        [] => !is_of_driver,
        [reference] => is_of_driver && is_to_driver(reference),
        _ => false,
    }
}

fn has_columns(table: &Table, shape: &TableShape) -> bool
    ensures { IsTrue result ↔ (table.now.name ≡ shape.now.name.now) × (table.now.tree ≡ shape.now.tree)
        × (table.now.columns ≡ map column_of shape.now.columns.now) }
{
    is_name(&table.name, shape.name)
        && table.tree == shape.tree
        && are_columns(table.columns.as_slice(), shape.columns)
}

fn has_key(table: &Table, shape: &TableShape) -> bool
    ensures { IsTrue result ↔ (table.now.key ≡ shape.now.key) × (table.now.primary ≡ shape.now.primary.now) }
{
    table.key == shape.key && are_places(&table.primary, shape.primary)
}

fn are_orders(orders: &[Order], wanted: &[Order]) -> bool
    ensures { IsTrue result ↔ (orders.now ≡ wanted.now) }
{
    orders == wanted
}

fn has_uniques(table: &Table, shape: &TableShape) -> bool
    ensures { IsTrue result ↔ (table.now.uniques ≡ map (λ places. places.now) shape.now.uniques.now)
        × (table.now.orders ≡ shape.now.orders.now) }
{
    are_keys(table.uniques.as_slice(), shape.uniques)
        && are_orders(table.orders.as_slice(), shape.orders)
}

fn has_rules(table: &Table, shape: &TableShape) -> bool
    ensures { IsTrue result ↔ (table.now.checks ≡ checks_of shape.now.is_checked)
        × (table.now.references ≡ references_of shape.now.is_of_driver) }
{
    are_checks(&table.checks, shape.is_checked)
        && are_references(table.references.as_slice(), shape.is_of_driver)
}

/// True if no value of a table's row is made by the store.
fn is_plain(table: &Table) -> bool
    ensures { IsTrue result ↔ (table.now.computed ≡ []) × (table.now.stamps.places ≡ []) × (table.now.stamps.terms ≡ [])
        × (table.now.stamps.formats ≡ []) × (table.now.is_counted ≡ false) }
{
    table.computed.is_empty()
        && table.stamps.places.is_empty()
        && table.stamps.terms.roots.is_empty()
        && table.stamps.formats.is_empty()
        && !table.is_counted
}

fn is_table(table: &Table, shape: &TableShape) -> bool
    ensures { IsTrue result ↔ (table.now ≡ table_of shape.now) }
{
    has_columns(table, shape)
        && has_key(table, shape)
        && has_uniques(table, shape)
        && has_rules(table, shape)
        && is_plain(table)
}

fn are_tables(mut tables: &[Table], mut shapes: &[TableShape]) -> bool
    ensures { IsTrue result ↔ (tables.entry.now ≡ map table_of shapes.entry.now) }
{
    while let [table, more @ ..] = tables {
        let [shape, others @ ..] = shapes else {
            return false;
        };
        if !is_table(table, shape) {
            return false;
        }
        tables = more;
        shapes = others;
    }
    shapes.is_empty()
}

fn is_index(index: &Index, shape: &IndexShape) -> bool
    ensures { IsTrue result ↔ (index.now ≡ index_of shape.now) }
{
    is_name(&index.name, shape.name)
        && index.tree == shape.tree
        && index.table == shape.table
        && are_places(&index.columns, shape.columns)
        && index.order.digits == 0
        && index.is_unique
}

fn are_indexes(mut indexes: &[Index], mut shapes: &[IndexShape]) -> bool
    ensures { IsTrue result ↔ (indexes.entry.now ≡ map index_of shapes.entry.now) }
{
    while let [index, more @ ..] = indexes {
        let [shape, others @ ..] = shapes else {
            return false;
        };
        if !is_index(index, shape) {
            return false;
        }
        indexes = more;
        shapes = others;
    }
    shapes.is_empty()
}

/// True if the schema has these tables and these indexes, in this order, and nothing else.
pub(crate) fn is_schema(schema: &Schema, tables: &[TableShape], indexes: &[IndexShape]) -> bool
    ensures { IsTrue result ↔ (schema.now ≡ schema_of tables.now indexes.now) }
{
    are_tables(schema.tables.as_slice(), tables)
        && are_indexes(schema.indexes.as_slice(), indexes)
        && schema.views.is_empty()
}
