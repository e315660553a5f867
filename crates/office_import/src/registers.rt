//! Reads a register.

ghost use Rattle.std.specs.Prelude.{◌≡◌, ◌==◌, nat_le, not, [], ◌∷◌, ◌++◌, length, map, if◌then◌else◌, Some, None, IfErr, IfOk, IfSome, IsTrue, Ok, Err};
ghost use Rattle.std.specs.List.{list_all};
ghost use Rattle.std.specs.Str.{is_utf8 as is_text_in_utf8};
ghost use Rattle.csv.specs.Records.{fields_of};
ghost use Rattle.define_pools.specs.Building.{category_names};
ghost use Rattle.define_offices.specs.Facts.{is_given};
ghost use Rattle.define_imports.specs.Cells.{cell_named as named_cell, has_once as is_there_once, read_from};
ghost use Rattle.define_imports.specs.Registers.{ReadsRows, after_row, filled as filled_name, household_cell as household_in, is_household_taken as is_taken, is_row_header as is_right_header, is_text as has_texts, row_columns, row_kind as kind_in, row_of as row_in, rows_of as rows_in};
ghost use Rattle.office_import.specs.Answers.{IsFault, Reads, Tells};

use crate::records::{cell_named, has_once, is_utf8, name_of, records_of, times};
use crate::stops::{ImportStop, header_fault, stop_at};
use csv::ByteRecord;
use office_tables::{Given, Rows, Rules};
use pool_model::{BuildStop, Category, Name, are_named};
use std::alloc::{AllocError, Global};

const ID: &[u8] = b"id";

const KEY: &[u8] = b"key";

const HOUSEHOLD: &[u8] = b"household";

/// Reads the bytes as rows of a register, in CSV with the columns `id` and `key` and one for each category of the rules; if no category is
/// named `household`, a column of that name may be there too. If the bytes have a fault, fails with the first faulty record and its lowest
/// kind of fault. Fails with `OutOfMemory` if memory runs out. Rows may have the same id.
pub fn read_register(alloc: Global, bytes: &[u8], rules: &Rules) -> Result<Rows, ImportStop>
    ensures { Reads (ReadsRows rules.now bytes.now) result }
{
    match records_of(alloc, bytes) {
        Ok(records) => rows_of(alloc, rules.categories(), &records),
        Err(_) => Err(ImportStop::OutOfMemory),
    }
}

fn rows_of(
    alloc: Global,
    categories: &[Category],
    records: &[ByteRecord],
) -> Result<Rows, ImportStop>
    ensures { Reads (λ said. rows_in categories.now (map fields_of records.now) ≡ said) result }
{
    let Some((header, rows)) = records.split_first() else {
        return Err(header_fault());
    };
    if !is_row_header(categories, header) {
        return Err(header_fault());
    }
    rows_after(alloc, categories, header, rows)
}

/// True if the header has each column that is needed exactly once, and the column for households at most once.
fn is_row_header(categories: &[Category], header: &ByteRecord) -> bool
    ensures { result ≡ is_right_header categories.now (fields_of header.now) }
{
    has_once(header, ID)
        && has_once(header, KEY)
        && have_columns(categories, header)
        && (is_household_taken(categories) || times(header, HOUSEHOLD) <= 1)
}

/// True if for each category exactly one column has its name.
fn have_columns(categories: &[Category], header: &ByteRecord) -> bool
    ensures { result ≡ list_all (is_there_once (fields_of header.now)) (category_names categories.now) }
{
    categories
        .iter()
        .all(|category| has_once(header, category.name().as_bytes()))
}

/// True if the column `household` is that of a category.
fn is_household_taken(categories: &[Category]) -> bool
    ensures { result ≡ is_taken categories.now }
{
    categories
        .iter()
        .any(|category| HOUSEHOLD == category.name().as_bytes())
}

/// Returns the rows of the records after the header, or the first fault.
fn rows_after(
    alloc: Global,
    categories: &[Category],
    header: &ByteRecord,
    records: &[ByteRecord],
) -> Result<Rows, ImportStop>
    ensures { Reads (λ said. read_from (kind_in categories.now (fields_of header.now)) (after_row categories.now (fields_of header.now)) 2 [] (map fields_of records.now) ≡ said) result }
{
    let mut rows = Rows::new(alloc);
    for (index, row) in records.iter().enumerate() {
        match row_of(alloc, categories, header, row) {
            Ok(given) => rows.push(given)?,
            Err(stop) => return Err(stop_at(index + 2, stop)),
        }
    }
    Ok(rows)
}

/// Returns the row of a record. Stops with the lowest kind of fault of the record.
fn row_of(
    alloc: Global,
    categories: &[Category],
    header: &ByteRecord,
    row: &ByteRecord,
) -> Result<Given, BuildStop>
    ensures kind { Tells (kind_in categories.now (fields_of header.now) [] (fields_of row.now)) result }
    ensures ok { IfOk result (λ given. given ≡ row_in categories.now (fields_of header.now) (fields_of row.now)) }
{
    if !is_text(categories, header, row) {
        return Err(BuildStop::Kind(1));
    }
    if row.len() != header.len() {
        return Err(BuildStop::Kind(3));
    }
    match given_of(alloc, categories, header, row)? {
        None => Err(BuildStop::Kind(4)),
        Some(given) if !are_named(categories, given.values()) => Err(BuildStop::Kind(5)),
        Some(given) => Ok(given),
    }
}

/// True if the fields that are used are UTF-8.
fn is_text(categories: &[Category], header: &ByteRecord, row: &ByteRecord) -> bool
    ensures { result ≡ has_texts categories.now (fields_of header.now) (fields_of row.now) }
{
    is_utf8(cell_named(header, row, ID))
        && is_utf8(cell_named(header, row, KEY))
        && are_texts(categories, header, row)
        && is_utf8(household_cell(categories, header, row))
}

/// True if the fields of the categories are UTF-8.
fn are_texts(categories: &[Category], header: &ByteRecord, row: &ByteRecord) -> bool
    ensures { result ≡ list_all (λ name. is_text_in_utf8 (named_cell (fields_of header.now) (fields_of row.now) name)) (category_names categories.now) }
{
    categories.iter().all(|category| is_utf8(cell_named(header, row, category.name().as_bytes())))
}

/// Returns the field for the household, which is empty if there is no column for it.
fn household_cell<'a>(categories: &[Category], header: &ByteRecord, row: &'a ByteRecord) -> &'a [u8]
    ensures { result.now ≡ household_in categories.now (fields_of header.now) (fields_of row.now) }
{
    if is_household_taken(categories) {
        &[]
    } else {
        cell_named(header, row, HOUSEHOLD)
    }
}

/// Returns the row of a record, or None if the id, the key or the household isn't allowed.
fn given_of(
    alloc: Global,
    categories: &[Category],
    header: &ByteRecord,
    row: &ByteRecord,
) -> Result<Option<Given>, AllocError>
    requires { IsTrue (has_texts categories.now (fields_of header.now) (fields_of row.now)) }
    ensures { IfOk result (λ given. given ≡ (if is_given (row_in categories.now (fields_of header.now) (fields_of row.now))
        then Some (row_in categories.now (fields_of header.now) (fields_of row.now)) else None)) }
{
    let id = name_of(alloc, cell_named(header, row, ID))?;
    let key = name_of(alloc, cell_named(header, row, KEY))?;
    let values = values_of(alloc, categories, header, row)?;
    let household = filled(alloc, household_cell(categories, header, row))?;
    Ok(Given::new(id, key, values, household))
}

/// Returns copies of the record's fields in the columns of the categories, in the order of the categories.
fn values_of(
    alloc: Global,
    categories: &[Category],
    header: &ByteRecord,
    row: &ByteRecord,
) -> Result<Vec<Name>, AllocError>
    requires { IsTrue (list_all (λ name. is_text_in_utf8 (named_cell (fields_of header.now) (fields_of row.now) name)) (category_names categories.now)) }
    ensures { IfOk result (λ values. values.items ≡ map (named_cell (fields_of header.now) (fields_of row.now)) (category_names categories.now)) }
{
    let mut values = Vec::new(alloc);
    for category in categories {
        let value = cell_named(header, row, category.name().as_bytes());
        values.push(name_of(alloc, value)?)?;
    }
    Ok(values)
}

/// Returns a copy of a field that is UTF-8, or None if it is empty.
fn filled(alloc: Global, field: &[u8]) -> Result<Option<Name>, AllocError>
    requires { IsTrue (is_text_in_utf8 field.now) }
    ensures { IfOk result (λ name. name ≡ filled_name field.now) }
{
    if field.is_empty() {
        return Ok(None);
    }
    Ok(Some(name_of(alloc, field)?))
}
