// What stands in a table of a document, read with a default.
ghost use Rattle.std.specs.Prelude.{◌≡◌, IfOk, map, option_map, codes};
ghost use Rattle.toml.specs.Data.{get_member};
ghost use Rattle.toml.specs.View.{view, table_view};
ghost use Rattle.stx_draft.specs.Parts.{text_at as text_of, number_at as number_of, flag_at as flag_of, table_at as table_of, array_at as array_of, texts_at as texts_of, numbers_at as numbers_of, tables_at as tables_of};

use std::alloc::Global;
use stx_scenario::NoMemory;
use toml::{Table, Value};

/// The value under a key.
pub fn at<'a>(table: &'a Table, key: &str) -> Option<&'a Value>
    ensures { option_map (λ value. view value.now) result ≡ get_member key.now (table_view table.now) }
{
    table.get(key)
}

/// The text under a key, or the empty one.
pub fn text_at<'a>(table: &'a Table, key: &str) -> &'a str
    ensures { result.now ≡ text_of key.now (table_view table.now) }
{
    let Some(value) = at(table, key) else {
        return "";
    };
    match value.as_str() {
        Some(text) => text,
        None => "",
    }
}

pub fn number_at(table: &Table, key: &str, default: i64) -> i64
    ensures { result ≡ number_of key.now default (table_view table.now) }
{
    let Some(value) = at(table, key) else {
        return default;
    };
    value.as_integer().unwrap_or(default)
}

pub fn flag_at(table: &Table, key: &str, default: bool) -> bool
    ensures { result ≡ flag_of key.now default (table_view table.now) }
{
    let Some(value) = at(table, key) else {
        return default;
    };
    value.as_bool().unwrap_or(default)
}

pub fn table_at<'a>(table: &'a Table, key: &str) -> Option<&'a Table>
    ensures { option_map (λ inner. table_view inner.now) result ≡ table_of key.now (table_view table.now) }
{
    match at(table, key) {
        Some(value) => value.as_table(),
        None => None,
    }
}

/// The entries of the array under a key, or none.
#[tactic(auto, using(crate::proofs::PartLaws::entries_of_values))]
pub fn array_at<'a>(table: &'a Table, key: &str) -> &'a [Value]
    ensures { map view result.now ≡ array_of key.now (table_view table.now) }
{
    let Some(value) = at(table, key) else {
        return &[];
    };
    match value.as_array() {
        Some(array) => array.as_slice(),
        None => &[],
    }
}

/// The texts in the array under a key.
pub fn texts_at<'a>(alloc: Global, table: &'a Table, key: &str) -> Result<Vec<&'a str>, NoMemory>
    ensures { IfOk result (λ texts. map (λ text. text.now) texts.items ≡ texts_of key.now (table_view table.now)) }
{
    let mut texts = Vec::new(alloc);
    for value in array_at(table, key) {
        if let Some(text) = value.as_str() {
            texts.push(text)?;
        }
    }
    Ok(texts)
}

/// The numbers in the array under a key.
pub fn numbers_at(alloc: Global, table: &Table, key: &str) -> Result<Vec<i64>, NoMemory>
    ensures { IfOk result (λ numbers. numbers.items ≡ numbers_of key.now (table_view table.now)) }
{
    let mut numbers = Vec::new(alloc);
    for value in array_at(table, key) {
        if let Some(number) = value.as_integer() {
            numbers.push(number)?;
        }
    }
    Ok(numbers)
}

/// The tables in the array under a key.
pub fn tables_at<'a>(alloc: Global, table: &'a Table, key: &str) -> Result<Vec<&'a Table>, NoMemory>
    ensures { IfOk result (λ tables. map (λ inner. table_view inner.now) tables.items ≡ tables_of key.now (table_view table.now)) }
{
    let mut tables = Vec::new(alloc);
    for value in array_at(table, key) {
        if let Some(inner) = value.as_table() {
            tables.push(inner)?;
        }
    }
    Ok(tables)
}
