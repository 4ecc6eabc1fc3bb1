//! What stands in TOML values.

ghost use Rattle.std.specs.{Prelude.{◌≡◌, length, map, option_map, string_bytes, is_some}, List.list_all, BTreeMap.keys};
ghost use Rattle.toml.specs.{Data.{as_integer, as_str, as_table, get, get_member}, View.{table_view, view}};
ghost use Rattle.plan_reader.specs.PlanTables.{elements_at, elements_of, passes_test, is_array, is_array_of, is_boolean, is_integer, is_key, is_link_key, is_node_key, is_table, is_text, is_top_key, flag_in, flag_of, has_strange, has_strange_member, integer_in, lacks, number_for_key, number_of, number_or, text_at, text_of};

use toml::{Table, Value};

/// The tables of a plan, by the keys that they may have.
#[derive(Clone, Copy)]
pub enum Shape {
    OfTop,
    OfNode,
    OfLink,
}

fn member<'a>(table: &'a Table, key: &str) -> Option<&'a Value>
    ensures { option_map (λ v. view v.now) result ≡ get_member key.now (table_view table.now) }
{
    table.get(key)
}

/// What stands at a key.
pub fn find<'a>(value: &'a Value, key: &str) -> Option<&'a Value>
    ensures { option_map (λ v. view v.now) result ≡ get key.now (view value.now) }
{
    match value {
        Value::Table(table) => member(table, key),
        _ => None,
    }
}

/// Whether nothing stands at a key.
pub fn lacks(value: &Value, key: &str) -> bool
    ensures { result ≡ lacks key.now (view value.now) }
{
    find(value, key).is_none()
}

/// The elements of an array; none of anything else.
fn elements_of(value: &Value) -> &[Value]
    ensures { map (λ v. view v) result.now ≡ elements_of (view value.now) }
{
    match value {
        Value::Array(values) => values.as_slice(),
        _ => &[],
    }
}

/// The elements of the array at a key; none where no array stands there.
pub fn elements<'a>(value: &'a Value, key: &str) -> &'a [Value]
    ensures { map (λ v. view v) result.now ≡ elements_at key.now (view value.now) }
{
    match find(value, key) {
        None => &[],
        Some(value) => elements_of(value),
    }
}

/// How many elements the array at a key has; none where no array stands there.
pub fn count(value: &Value, key: &str) -> usize
    ensures { result ≡ length (elements_at key.now (view value.now)) }
{
    elements(value, key).len()
}

/// The text of a string; empty of anything else.
pub fn text_of(value: &Value) -> &[u8]
    ensures { result.now ≡ text_of (view value.now) }
{
    match value {
        Value::String(text) => text.as_str().as_bytes(),
        _ => &[],
    }
}

/// The text at a key; empty where no string stands there.
pub fn text<'a>(value: &'a Value, key: &str) -> &'a [u8]
    ensures { result.now ≡ text_at key.now (view value.now) }
{
    match find(value, key) {
        None => &[],
        Some(value) => text_of(value),
    }
}

fn integer_in(n: i64, low: u32, high: u32) -> Option<u32>
    ensures { result ≡ integer_in low high n }
{
    match u32::try_from(n) {
        Ok(n) if low <= n && n <= high => Some(n),
        _ => None,
    }
}

/// The integer from `low` to `high`, where the value is one.
pub fn number_of(value: &Value, low: u32, high: u32) -> Option<u32>
    ensures { result ≡ number_of low high (view value.now) }
{
    match value {
        Value::Integer(n) => integer_in(*n, low, high),
        _ => None,
    }
}

/// The integer from `low` to `high` at a key, where one stands there.
pub fn number(value: &Value, key: &str, low: u32, high: u32) -> Option<u32>
    ensures { result ≡ number_for_key key.now low high (view value.now) }
{
    match find(value, key) {
        None => None,
        Some(value) => number_of(value, low, high),
    }
}

/// The same, where something stands there, else the default.
pub fn number_or(value: &Value, key: &str, default: u32, low: u32, high: u32) -> Option<u32>
    ensures { result ≡ number_or default low high (get key.now (view value.now)) }
{
    match find(value, key) {
        None => Some(default),
        Some(value) => number_of(value, low, high),
    }
}

fn flag_of(value: &Value) -> bool
    ensures { result ≡ flag_of (view value.now) }
{
    match value {
        Value::Boolean(flag) => *flag,
        _ => false,
    }
}

/// The boolean at a key; false where none stands there.
pub fn flag(value: &Value, key: &str) -> bool
    ensures { result ≡ flag_in (get key.now (view value.now)) }
{
    match find(value, key) {
        None => false,
        Some(value) => flag_of(value),
    }
}

// Types

/// Whether what stands at a key is a string.
pub fn is_text_at(value: &Value, key: &str) -> bool
    ensures { result ≡ passes_test is_text (get key.now (view value.now)) }
{
    match find(value, key) {
        None => true,
        Some(value) => value.is_str(),
    }
}

/// Whether what stands at a key is an integer.
pub fn is_integer_at(value: &Value, key: &str) -> bool
    ensures { result ≡ passes_test is_integer (get key.now (view value.now)) }
{
    match find(value, key) {
        None => true,
        Some(value) => value.is_integer(),
    }
}

/// Whether what stands at a key is a boolean.
pub fn is_boolean_at(value: &Value, key: &str) -> bool
    ensures { result ≡ passes_test is_boolean (get key.now (view value.now)) }
{
    match find(value, key) {
        None => true,
        Some(value) => value.is_bool(),
    }
}

fn is_array(value: &Value) -> bool
    ensures { result ≡ is_array (view value.now) }
{
    match value {
        Value::Array(_) => true,
        _ => false,
    }
}

fn is_array_at(value: &Value, key: &str) -> bool
    ensures { result ≡ passes_test is_array (get key.now (view value.now)) }
{
    match find(value, key) {
        None => true,
        Some(value) => is_array(value),
    }
}

fn are_texts(values: &[Value]) -> bool
    ensures { result ≡ list_all (λ v. is_some (as_str (view v))) values.now }
{
    values.iter().all(|value| value.is_str())
}

fn are_integers(values: &[Value]) -> bool
    ensures { result ≡ list_all (λ v. is_some (as_integer (view v))) values.now }
{
    values.iter().all(|value| value.is_integer())
}

fn are_tables(values: &[Value]) -> bool
    ensures { result ≡ list_all (λ v. is_some (as_table (view v))) values.now }
{
    values.iter().all(|value| value.is_table())
}

/// Whether what stands at a key is an array of strings.
pub fn are_texts_at(value: &Value, key: &str) -> bool
    ensures { result ≡ is_array_of is_text (get key.now (view value.now)) }
{
    is_array_at(value, key) && are_texts(elements(value, key))
}

/// Whether what stands at a key is an array of integers.
pub fn are_integers_at(value: &Value, key: &str) -> bool
    ensures { result ≡ is_array_of is_integer (get key.now (view value.now)) }
{
    is_array_at(value, key) && are_integers(elements(value, key))
}

/// Whether what stands at a key is an array of tables.
pub fn are_tables_at(value: &Value, key: &str) -> bool
    ensures { result ≡ is_array_of is_table (get key.now (view value.now)) }
{
    is_array_at(value, key) && are_tables(elements(value, key))
}

// Keys

#[tactic(auto, unfolding(crate::specs::PlanTables::is_top_key))]
fn is_top_key(key: &str) -> bool
    ensures { result ≡ is_top_key key.now }
{
    key == "wait" || key == "script" || key == "node" || key == "link"
}

#[tactic(auto, unfolding(crate::specs::PlanTables::is_node_key))]
fn is_node_key(key: &str) -> bool
    ensures { result ≡ is_node_key key.now }
{
    key == "name" || key == "id" || key == "convert"
}

#[tactic(auto, unfolding(crate::specs::PlanTables::is_link_key))]
fn is_link_key(key: &str) -> bool
    ensures { result ≡ is_link_key key.now }
{
    key == "id" || key == "ends" || key == "labels" || key == "metric" || key == "srlg"
}

#[tactic(auto, unfolding(crate::specs::PlanTables::is_key))]
fn is_key(shape: Shape, key: &str) -> bool
    ensures { result ≡ is_key shape key.now }
{
    match shape {
        Shape::OfTop => is_top_key(key),
        Shape::OfNode => is_node_key(key),
        Shape::OfLink => is_link_key(key),
    }
}

fn knows_all(shape: Shape, table: &Table) -> bool
    ensures { result ≡ list_all (λ k. is_key shape (string_bytes k)) (keys table.now) }
{
    table.keys().all(|key| is_key(shape, key.as_str()))
}

fn has_strange_member(shape: Shape, table: &Table) -> bool
    ensures { result ≡ has_strange_member shape (table_view table.now) }
{
    !knows_all(shape, table)
}

/// Whether the table has a key that a table of this shape doesn't have.
pub fn has_strange(shape: Shape, value: &Value) -> bool
    ensures { result ≡ has_strange shape (view value.now) }
{
    match value {
        Value::Table(table) => has_strange_member(shape, table),
        _ => false,
    }
}
