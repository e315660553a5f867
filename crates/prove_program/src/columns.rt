//! The columns of a program.

ghost use Rattle.std.specs.Prelude.{◌≡◌, IfOk, map};
ghost use Rattle.define_pools.specs.Pool.{everybody as everybody_of};
ghost use Rattle.define_searches.specs.Classes.{class_number, classes_of, least_taken, most_taken};
ghost use Rattle.prove_program.specs.Programs.{class_column as column_of_class, class_columns as columns_of_classes, own_columns as columns_alone};

use alike::{Class, Classes, class_numbers};
use define_pools::Standing;
use pool_model::Pool;
use std::alloc::{AllocError, Global};

/// A column: its first member, how many members it has, and the least and greatest number of them that a panel may have.
#[derive(Clone, Copy, Debug)]
pub(crate) struct Column {
    pub(crate) first: usize,
    pub(crate) size: usize,
    pub(crate) least: usize,
    pub(crate) greatest: usize,
}

/// Returns the column of each class of a pool.
pub(crate) fn class_columns(
    alloc: Global,
    pool: &Pool,
    found: &Classes,
) -> Result<Vec<Column>, AllocError>
    requires { found.now ≡ classes_of pool.now }
    ensures { IfOk result (λ columns. columns.items ≡ columns_of_classes pool.now) }
{
    let _ = pool;
    found
        .classes()
        .iter()
        .map(|class| class_column(class))
        .collect(alloc)
}

/// Returns the number of each volunteer's class.
pub(crate) fn numbers_of_classes(
    alloc: Global,
    pool: &Pool,
    found: &Classes,
) -> Result<Vec<usize>, AllocError>
    requires { found.now ≡ classes_of pool.now }
    ensures { IfOk result (λ numbers. numbers.items ≡ map (class_number (classes_of pool.now).classes) (everybody_of pool.now)) }
{
    let _ = pool;
    let numbers = class_numbers(alloc, found)?;
    Ok(numbers)
}

/// Returns the column of a class.
fn class_column(class: &Class) -> Column
    ensures { result ≡ column_of_class class.now }
{
    Column {
        first: class.members().first().copied().unwrap_or(0),
        size: class.size(),
        least: class.least(),
        greatest: class.most(),
    }
}

/// Returns a column for each single volunteer.
pub(crate) fn own_columns(alloc: Global, pool: &Pool) -> Result<Vec<Column>, AllocError>
    ensures { IfOk result (λ columns. columns.items ≡ columns_alone pool.now) }
{
    let mut columns = Vec::new(alloc);
    for (number, volunteer) in pool.volunteers().iter().enumerate() {
        columns.push(own_column(number, volunteer.standing()))?;
    }
    Ok(columns)
}

/// Returns the numbers of all volunteers.
pub(crate) fn everybody(alloc: Global, pool: &Pool) -> Result<Vec<usize>, AllocError>
    ensures { IfOk result (λ numbers. numbers.items ≡ everybody_of pool.now) }
{
    let mut numbers = Vec::new(alloc);
    for number in 0..pool.volunteers().len() {
        numbers.push(number)?;
    }
    Ok(numbers)
}

/// Returns the column of a single volunteer.
fn own_column(number: usize, standing: Standing) -> Column
    ensures { result ≡ record { first = number; size = 1; least = least_taken standing 1; greatest = most_taken standing 1 } }
{
    let (least, greatest) = match standing {
        Standing::Open => (0, 1),
        Standing::Seated => (1, 1),
        Standing::Gone => (0, 0),
    };
    Column {
        first: number,
        size: 1,
        least,
        greatest,
    }
}
