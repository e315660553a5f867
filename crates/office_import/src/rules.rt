//! Reads rules.

ghost use Rattle.std.specs.Prelude.{◌≡◌, ◌≤◌, [], length, map, None, IfErr, IfOk, IsTrue, Ok, Err};
ghost use Rattle.std.specs.List.{list_all};
ghost use Rattle.std.specs.Str.Parse.{digits_value};
ghost use Rattle.csv.specs.Records.{fields_of};
ghost use Rattle.define_pools.specs.Pool.{are_bounds as are_right_bounds};
ghost use Rattle.define_offices.specs.Facts.{is_reserved as is_taken};
ghost use Rattle.define_imports.specs.Cells.{has_once as is_there_once, read_from};
ghost use Rattle.define_imports.specs.Rules.{ReadsRules, after_rule, bound_of as bound_in, is_digit as is_decimal_digit, is_misnamed as has_wrong_name, is_number as is_short_number, is_text as has_texts, rule_columns, rule_kind as kind_in, rule_of as rule_in, rules_of as rules_in};
ghost use Rattle.office_import.specs.Answers.{IsFault, Reads, Tells};
ghost use Rattle.office_import.specs.Seen.{rule_seen};

use crate::drafts::{Draft, add_rule, has_value, is_full, rules_from};
use crate::names::is_name;
use crate::records::{cell_named, has_once, is_utf8, records_of};
use crate::stops::{ImportStop, header_fault, stop_at};
use csv::ByteRecord;
use office_tables::Rules;
use pool_model::{BuildStop, MAX_BOUND};
use std::alloc::Global;

const CATEGORY: &[u8] = b"category";

const NAME: &[u8] = b"name";

const MIN: &[u8] = b"min";

const MAX: &[u8] = b"max";

/// The most digits of a bound.
const MAX_DIGITS: usize = 9;

/// The number that is read from a field that isn't 1 to 9 digits. It is above the greatest bound.
const NO_BOUND: usize = 1000;

/// What a record says: a value of a category, with its bounds.
#[derive(Clone, Copy, Debug)]
pub(crate) struct Rule<'a> {
    pub(crate) category: &'a [u8],
    pub(crate) name: &'a [u8],
    pub(crate) lower: usize,
    pub(crate) upper: usize,
}

/// Reads the bytes as rules, in CSV with the columns `category`, `name`, `min` and `max`. If the bytes have a fault, fails with the first
/// faulty record and its lowest kind of fault. Fails with `OutOfMemory` if memory runs out.
pub fn read_rules(alloc: Global, bytes: &[u8]) -> Result<Rules, ImportStop>
    ensures { Reads (ReadsRules bytes.now) result }
{
    match records_of(alloc, bytes) {
        Ok(records) => rules_of(alloc, &records),
        Err(_) => Err(ImportStop::OutOfMemory),
    }
}

fn rules_of(alloc: Global, records: &[ByteRecord]) -> Result<Rules, ImportStop>
    ensures { Reads (λ said. rules_in (map fields_of records.now) ≡ said) result }
{
    let Some((header, rows)) = records.split_first() else {
        return Err(header_fault());
    };
    if rows.is_empty() || !is_rule_header(header) {
        return Err(header_fault());
    }
    let drafts = drafts_of(alloc, header, rows)?;
    Ok(rules_from(alloc, &drafts)?)
}

/// True if the header has each column that rules need exactly once.
fn is_rule_header(header: &ByteRecord) -> bool
    ensures { result ≡ list_all (is_there_once (fields_of header.now)) rule_columns }
{
    has_once(header, CATEGORY)
        && has_once(header, NAME)
        && has_once(header, MIN)
        && has_once(header, MAX)
}

/// Returns the categories of the records after the header, or the first fault.
fn drafts_of(
    alloc: Global,
    header: &ByteRecord,
    rows: &[ByteRecord],
) -> Result<Vec<Draft>, ImportStop>
    ensures ok { IfOk result (λ drafts. read_from (kind_in (fields_of header.now)) (after_rule (fields_of header.now)) 2 [] (map fields_of rows.now) ≡ Ok drafts.items) }
    ensures fault { IfErr result (IsFault (λ fault. read_from (kind_in (fields_of header.now)) (after_rule (fields_of header.now)) 2 [] (map fields_of rows.now) ≡ Err fault)) }
{
    let mut drafts = Vec::new(alloc);
    for (index, row) in rows.iter().enumerate() {
        if let Err(stop) = add_row(alloc, &mut drafts, header, row) {
            return Err(stop_at(index + 2, stop));
        }
    }
    Ok(drafts)
}

/// Adds what a record says to the categories of the records before it. Stops with the lowest kind of fault of the record.
fn add_row(
    alloc: Global,
    drafts: &mut Vec<Draft>,
    header: &ByteRecord,
    row: &ByteRecord,
) -> Result<(), BuildStop>
    ensures kind { Tells (kind_in (fields_of header.now) drafts.old.items (fields_of row.now)) result }
    ensures ok { IfOk result (λ _. drafts.new.items ≡ after_rule (fields_of header.now) drafts.old.items (fields_of row.now)) }
{
    if let Some(kind) = rule_kind(header, drafts, row) {
        return Err(BuildStop::Kind(kind));
    }
    add_rule(alloc, drafts, &rule_of(header, row))?;
    Ok(())
}

/// Returns the lowest kind of fault of a record, if it has one, given the categories of the records before it.
fn rule_kind(header: &ByteRecord, drafts: &[Draft], row: &ByteRecord) -> Option<u8>
    ensures { result ≡ kind_in (fields_of header.now) drafts.now (fields_of row.now) }
{
    let rule = rule_of(header, row);
    if !is_text(header, row) {
        Some(1)
    } else if row.len() != header.len() {
        Some(3)
    } else if is_misnamed(&rule) {
        Some(4)
    } else if !are_bounds(rule.lower, rule.upper) {
        Some(6)
    } else if has_value(drafts, rule.category, rule.name) {
        Some(7)
    } else if is_full(drafts, rule.category) {
        Some(8)
    } else {
        None
    }
}

/// Returns what a record says.
fn rule_of<'a>(header: &ByteRecord, row: &'a ByteRecord) -> Rule<'a>
    ensures { rule_seen result ≡ rule_in (fields_of header.now) (fields_of row.now) }
{
    Rule {
        category: cell_named(header, row, CATEGORY),
        name: cell_named(header, row, NAME),
        lower: bound_of(cell_named(header, row, MIN)),
        upper: bound_of(cell_named(header, row, MAX)),
    }
}

/// True if the fields that are used are UTF-8.
fn is_text(header: &ByteRecord, row: &ByteRecord) -> bool
    ensures { result ≡ has_texts (fields_of header.now) (fields_of row.now) }
{
    is_utf8(cell_named(header, row, CATEGORY))
        && is_utf8(cell_named(header, row, NAME))
        && is_utf8(cell_named(header, row, MIN))
        && is_utf8(cell_named(header, row, MAX))
}

/// True if the name of the category or of the value isn't allowed, or the category is named `id` or `key`, as columns of each register are.
fn is_misnamed(rule: &Rule<'_>) -> bool
    ensures { result ≡ has_wrong_name (rule_seen rule.now) }
{
    !is_name(rule.category) || !is_name(rule.name) || is_reserved(rule.category)
}

fn is_reserved(name: &[u8]) -> bool
    ensures { result ≡ is_taken name.now }
{
    name == b"id".as_slice() || name == b"key".as_slice()
}

fn are_bounds(lower: usize, upper: usize) -> bool
    ensures { result ≡ are_right_bounds lower upper }
{
    lower <= upper && upper <= MAX_BOUND
}

/// Returns the number that a field of 1 to 9 digits gives, else 1000. A number above 999 is no bound.
fn bound_of(field: &[u8]) -> usize
    ensures { result ≡ bound_in field.now }
{
    if is_number(field) {
        number_of(field)
    } else {
        NO_BOUND
    }
}

/// True if the field is 1 to 9 digits.
fn is_number(field: &[u8]) -> bool
    ensures { result ≡ is_short_number field.now }
{
    1 <= field.len() && field.len() <= MAX_DIGITS && are_digits(field)
}

fn are_digits(field: &[u8]) -> bool
    ensures { result ≡ list_all is_decimal_digit field.now }
{
    field.iter().all(|byte| b'0' <= *byte && *byte <= b'9')
}

/// Returns the number that 1 to 9 digits spell.
fn number_of(digits: &[u8]) -> usize
    requires { IsTrue (is_short_number digits.now) }
    ensures { result ≡ digits_value 10 digits.now }
{
    let mut number = 0;
    for digit in digits {
        number = number * 10 + (*digit - b'0') as usize;
    }
    number
}
