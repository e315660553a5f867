//! The records of a file of CSV, and their fields by the names of the columns. A column is looked up again for each record: a header has
//! few columns, and a register few records.

ghost use Rattle.std.specs.Prelude.{◌≡◌, [], map, slice_index_or, IfOk, IsTrue};
ghost use Rattle.std.specs.Str.{is_utf8 as is_text_in_utf8};
ghost use Rattle.csv.specs.Records.{fields_of};
ghost use Rattle.define_imports.specs.Cells.{AreRecordsOf, cell_named as named_cell, column as column_named, has_once as is_there_once, is_blank as is_blank_byte, is_named as is_name_of, times as times_named, trim_back as without_last, trim_front as without_first, trimmed as without_blanks};

use csv::{ByteRecord, Error, ReaderBuilder};
use pool_model::Name;
use std::alloc::{AllocError, Global};
use std::str;

/// Returns all records of a file, the header first. Records may be of any length. The bytes are in memory, so an error means that memory
/// ran out.
pub(crate) fn records_of(alloc: Global, bytes: &[u8]) -> Result<Vec<ByteRecord>, Error>
    ensures { IfOk result (λ records. AreRecordsOf bytes.now (map fields_of records.items)) }
{
    let reader = ReaderBuilder::new()
        .has_headers(false)
        .flexible(true)
        .from_reader(alloc, bytes);
    let mut records = Vec::new(alloc);
    for record in reader.into_byte_records() {
        if records.push(record?).is_err() {
            return Err(Error::out_of_memory());
        }
    }
    Ok(records)
}

/// Returns the field without the spaces and tabs at both ends.
fn trimmed(field: &[u8]) -> &[u8]
    ensures { result.now ≡ without_blanks field.now }
{
    trim_back(trim_front(field))
}

fn is_blank(byte: u8) -> bool
    ensures { result ≡ is_blank_byte byte }
{
    byte == b' ' || byte == b'\t'
}

fn trim_front(field: &[u8]) -> &[u8]
    ensures { result.now ≡ without_first field.now }
{
    let mut rest = field;
    while let Some((first, others)) = rest.split_first() {
        if !is_blank(*first) {
            return rest;
        }
        rest = others;
    }
    rest
}

fn trim_back(field: &[u8]) -> &[u8]
    ensures { result.now ≡ without_last field.now }
{
    let mut rest = field;
    while let Some((last, others)) = rest.split_last() {
        if !is_blank(*last) {
            return rest;
        }
        rest = others;
    }
    rest
}

/// Returns the trimmed field of a record at `place`; empty if the record is too short.
fn field(row: &ByteRecord, place: usize) -> &[u8]
    ensures { result.now ≡ without_blanks (slice_index_or (fields_of row.now) place []) }
{
    match row.get(place) {
        Some(field) => trimmed(field),
        None => &[],
    }
}

/// True if the column at `place` has the name.
fn is_named(header: &ByteRecord, place: usize, name: &[u8]) -> bool
    ensures { result ≡ is_name_of name.now (slice_index_or (fields_of header.now) place []) }
{
    field(header, place) == name
}

/// Returns how many columns have the name.
pub(crate) fn times(header: &ByteRecord, name: &[u8]) -> usize
    ensures { result ≡ times_named (fields_of header.now) name.now }
{
    let mut number = 0;
    for place in 0..header.len() {
        if is_named(header, place, name) {
            number += 1;
        }
    }
    number
}

/// True if exactly one column has the name.
pub(crate) fn has_once(header: &ByteRecord, name: &[u8]) -> bool
    ensures { result ≡ is_there_once (fields_of header.now) name.now }
{
    times(header, name) == 1
}

/// Returns the place of the first column with the name, if there is one.
fn column(header: &ByteRecord, name: &[u8]) -> Option<usize>
    ensures { result ≡ column_named (fields_of header.now) name.now }
{
    for place in 0..header.len() {
        if is_named(header, place, name) {
            return Some(place);
        }
    }
    None
}

/// Returns the trimmed field of a record in the first column with the name. It is empty if no column has the name, or if the record is too
/// short.
pub(crate) fn cell_named<'a>(header: &ByteRecord, row: &'a ByteRecord, name: &[u8]) -> &'a [u8]
    ensures { result.now ≡ named_cell (fields_of header.now) (fields_of row.now) name.now }
{
    match column(header, name) {
        Some(place) => field(row, place),
        None => &[],
    }
}

/// True if the field is UTF-8.
pub(crate) fn is_utf8(field: &[u8]) -> bool
    ensures { result ≡ is_text_in_utf8 field.now }
{
    str::from_utf8(field).is_ok()
}

/// Returns a copy of a field that is UTF-8.
pub(crate) fn name_of(alloc: Global, field: &[u8]) -> Result<Name, AllocError>
    requires { IsTrue (is_text_in_utf8 field.now) }
    ensures { IfOk result (λ name. name ≡ field.now) }
{
    match str::from_utf8(field) {
        Ok(text) => Name::new(alloc, text),
        Err(_) => unreachable!(),
    }
}
