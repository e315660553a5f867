//! The pool of the first round, of a charter, rules and a register as the files that an office imports. `selection` has the call.

ghost use Rattle.std.specs.Prelude.{◌≡◌, IfOk, option_map};
ghost use Rattle.define_offices.specs.Commands.{Register, SetCharter, SetRules};
ghost use Rattle.define_offices.specs.Facts.{IsTables};
ghost use Rattle.define_offices.specs.Steps.{applied};
ghost use Rattle.office_tables.specs.Changes.{seen_change};
ghost use Rattle.command_browser.specs.FirstPools.{DoesOrStops, ImportsOrStops, ReadsFiles, TellsFirstPool, TellsImports, TellsRound, refused_line};

use command_shell::input_line;
use define_offices::laws::steps_keep_tables;
use office_import::{ImportStop, read_charter, read_register, read_rules};
use office_steps::pools::{PoolStop, pool_of};
use office_steps::{OfficeStop, register, set_charter, set_rules};
use office_tables::{Change, Charter, Rows, Rules, Tables, apply};
use pool_text::write_pool;
use std::alloc::{AllocError, Global};

const REFUSED_LINE: &[u8] = b"rule\timports\n";

/// What the files say.
#[derive(Debug, Drop)]
struct Files {
    charter: Charter,
    rules: Rules,
    rows: Rows,
}

/// Returns the text of the pool of round 1 after these files were imported into an empty office; or the line of the first file that is
/// faulty, or the line that an import is refused.
pub(crate) fn text_of_first_pool(
    alloc: Global,
    charter: &[u8],
    rules: &[u8],
    register: &[u8],
) -> Result<Vec<u8>, AllocError>
    ensures { IfOk result (λ text. TellsFirstPool charter.now rules.now register.now text.items) }
{
    match read_files(alloc, charter, rules, register) {
        Ok(files) => text_of_imports(alloc, &files.charter, &files.rules, &files.rows),
        Err(ImportStop::Fault(fault)) => input_line(alloc, fault.place, fault.kind),
        Err(ImportStop::OutOfMemory) => Err(AllocError),
    }
}

/// Reads the files.
fn read_files(
    alloc: Global,
    charter: &[u8],
    rules: &[u8],
    register: &[u8],
) -> Result<Files, ImportStop>
    ensures { ReadsFiles charter.now rules.now register.now result }
{
    let its = read_charter(alloc, charter)?;
    let categories = read_rules(alloc, rules)?;
    let rows = read_register(alloc, register, &categories)?;
    Ok(Files {
        charter: its,
        rules: categories,
        rows,
    })
}

/// Returns the text of the pool of round 1 after the imports, or the line that one is refused.
fn text_of_imports(
    alloc: Global,
    charter: &Charter,
    rules: &Rules,
    rows: &Rows,
) -> Result<Vec<u8>, AllocError>
    ensures { IfOk result (λ text. TellsImports charter.now rules.now rows.now text.items) }
{
    match imported(alloc, charter, rules, rows) {
        Ok(tables) => text_of_round(alloc, &tables),
        Err(OfficeStop::Refused(_)) => refused(alloc),
        Err(OfficeStop::OutOfMemory) => Err(AllocError),
    }
}

/// Returns the text of the pool of round 1, or the line that there is none.
fn text_of_round(alloc: Global, tables: &Tables) -> Result<Vec<u8>, AllocError>
    ensures { IfOk result (λ text. TellsRound tables.now text.items) }
{
    match pool_of(alloc, tables, 1) {
        Ok(pool) => write_pool(alloc, &pool),
        Err(PoolStop::NoRound { last: _ }) => refused(alloc),
        Err(PoolStop::Incomplete { what: _ }) => refused(alloc),
        Err(PoolStop::OutOfMemory) => Err(AllocError),
    }
}

/// Returns the line that there is no pool.
fn refused(alloc: Global) -> Result<Vec<u8>, AllocError>
    ensures { IfOk result (λ text. text.items ≡ refused_line) }
{
    Vec::from_slice(alloc, REFUSED_LINE)
}

/// Returns the tables after the imports into an empty office.
fn imported(
    alloc: Global,
    charter: &Charter,
    rules: &Rules,
    rows: &Rows,
) -> Result<Tables, OfficeStop>
    ensures { ImportsOrStops charter.now rules.now rows.now result }
{
    let first = Tables::first(alloc)?;
    let chartered = with_charter(alloc, &first, charter)?;
    let ruled = with_rules(alloc, &chartered, rules)?;
    with_rows(alloc, &ruled, rows)
}

/// Returns the tables after the import of a charter.
fn with_charter(alloc: Global, tables: &Tables, charter: &Charter) -> Result<Tables, OfficeStop>
    ensures { DoesOrStops tables.now (SetCharter charter.now) result }
{
    steps_keep_tables();
    tables.facts();
    charter.facts();
    let decided = set_charter(alloc, tables, charter)?;
    let after = changed(alloc, tables, &decided.0)?;
    Ok(after)
}

/// Returns the tables after the import of rules.
fn with_rules(alloc: Global, tables: &Tables, rules: &Rules) -> Result<Tables, OfficeStop>
    ensures { DoesOrStops tables.now (SetRules rules.now) result }
{
    steps_keep_tables();
    tables.facts();
    let _categories = rules.categories();
    let decided = set_rules(alloc, tables, rules)?;
    let after = changed(alloc, tables, &decided.0)?;
    Ok(after)
}

/// Returns the tables after the import of rows.
fn with_rows(alloc: Global, tables: &Tables, rows: &Rows) -> Result<Tables, OfficeStop>
    ensures { DoesOrStops tables.now (Register rows.now) result }
{
    steps_keep_tables();
    tables.facts();
    let _rows = rows.rows();
    let decided = register(alloc, tables, rows)?;
    let after = changed(alloc, tables, &decided.0)?;
    Ok(after)
}

/// Returns the tables after a change, or equal ones if there is none.
fn changed(alloc: Global, tables: &Tables, change: &Option<Change>) -> Result<Tables, AllocError>
    requires { IsTables (applied tables.now (option_map seen_change change.now)) }
    ensures { IfOk result (λ after. after ≡ applied tables.now (option_map seen_change change.now)) }
{
    match change {
        Some(change) => apply(alloc, tables, change),
        None => tables.copy(),
    }
}
