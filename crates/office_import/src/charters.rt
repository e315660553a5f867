//! Reads a charter.

ghost use Rattle.std.specs.Prelude.{◌≡◌, Some, codes, option_and_then, option_map};
ghost use Rattle.toml.specs.Data.{as_integer, as_str, get_member};
ghost use Rattle.toml.specs.View.{table_view, view};
ghost use Rattle.define_imports.specs.Charters.{charter_of as charter_in, judged as is_judged, read_charter as charter_read, size_of as size_in, volunteers_of};
ghost use Rattle.office_import.specs.Answers.{Reads};

use crate::names::is_text_name;
use crate::stops::{ImportStop, fault_at};
use office_tables::Charter;
use pool_model::Name;
use std::alloc::Global;
use std::str;
use toml::{Table, Value};

/// The place of a fault in a charter, which has no records.
const WHOLE_FILE: usize = 0;
/// How many rows a register takes if the charter doesn't say.
const USUAL_ROWS: usize = 400;

/// Reads the bytes as a charter, in TOML with a `title`, a `size` and maybe a number `volunteers` of rows. If the bytes have a fault, fails
/// with the lowest kind that applies. Fails with `OutOfMemory` if memory runs out.
pub fn read_charter(alloc: Global, bytes: &[u8]) -> Result<Charter, ImportStop>
    ensures { Reads (λ said. charter_read bytes.now ≡ said) result }
{
    let Ok(text) = str::from_utf8(bytes) else {
        return Err(fault_at(WHOLE_FILE, 1));
    };
    match toml::table_from_str(alloc, text) {
        Ok(table) => charter_of(alloc, &table),
        Err(error) if error.is_memory() => Err(ImportStop::OutOfMemory),
        Err(_) => Err(fault_at(WHOLE_FILE, 1)),
    }
}

fn charter_of(alloc: Global, table: &Table) -> Result<Charter, ImportStop>
    ensures { Reads (λ said. charter_in (Some (table_view table.now)) ≡ said) result }
{
    let Some(title) = string_at(table, "title") else {
        return Err(fault_at(WHOLE_FILE, 2));
    };
    let Some(size) = integer_at(table, "size") else {
        return Err(fault_at(WHOLE_FILE, 3));
    };
    judged(alloc, title, size_of(size), volunteers_in(table))
}

/// Returns how many rows the register takes: 400 without the key, and 0, which is no number of rows, if the value is no whole number.
fn volunteers_in(table: &Table) -> usize
    ensures { result ≡ volunteers_of (get_member (codes "volunteers") (table_view table.now)) }
{
    match table.get("volunteers") {
        Some(value) => rows_of(value),
        None => USUAL_ROWS,
    }
}

/// Returns the value as a number of rows, or 0, which is no number of rows, if it is no whole number.
fn rows_of(value: &Value) -> usize
    ensures { result ≡ volunteers_of (Some (view value.now)) }
{
    match value.as_integer() {
        Some(number) => size_of(number),
        None => 0,
    }
}

/// Returns the number as a size, or 0, which is no size, if it is below 0.
fn size_of(number: i64) -> usize
    ensures { result ≡ size_in number }
{
    if number < 0 { 0 } else { number as usize }
}

/// Returns the charter with this title, size and number of rows, or the fault if one of them isn't allowed.
fn judged(alloc: Global, title: &str, size: usize, volunteers: usize) -> Result<Charter, ImportStop>
    ensures { Reads (λ said. is_judged title.now size volunteers ≡ said) result }
{
    if !is_text_name(title) {
        return Err(fault_at(WHOLE_FILE, 4));
    }
    match Charter::new(Name::new(alloc, title)?, size, volunteers) {
        Some(charter) => Ok(charter),
        None => Err(fault_at(WHOLE_FILE, 6)),
    }
}

fn string_at<'a>(table: &'a Table, key: &str) -> Option<&'a str>
    ensures { option_map (λ s. s.now) result ≡ option_and_then as_str (get_member key.now (table_view table.now)) }
{
    match table.get(key) {
        Some(value) => value.as_str(),
        None => None,
    }
}

fn integer_at(table: &Table, key: &str) -> Option<i64>
    ensures { result ≡ option_and_then as_integer (get_member key.now (table_view table.now)) }
{
    match table.get(key) {
        Some(value) => value.as_integer(),
        None => None,
    }
}
