//! Small programs over spans, each with its point or its refutation tested; tables that grow and shrink; and calls that stop because the
//! pivots are spent or a number is too wide.

ghost use Rattle.std.specs.Prelude.{◌≡◌, IfOk};

use prove_limits::{Budget, Limit, Narrow, Op, ProveStop, Span};
use prove_table::Table;
use std::alloc::Global;
use std::test::Fail;

// 2^63
const DOUBLE: i128 = 9223372036854775808;

fn narrow(number: i64) -> Narrow {
    Narrow::new(number).unwrap_or(Narrow::ZERO)
}

fn span(ends: (i64, i64)) -> Span {
    Span::reaching(narrow(ends.0), narrow(ends.1))
}

// Two rows over three columns; the rows' spans; the greatest number of each column's span, which begins at 0; and whether there is a point.
#[derive(Drop)]
struct SmallProgram {
    rows: [[i64; 3]; 2],
    spans: [(i64, i64); 2],
    most: i64,
    has_point: bool,
}

// Returns a table of a program's rows.
fn table_of(alloc: Global, program: &SmallProgram) -> Result<Table, ProveStop> {
    let mut table = Table::new(alloc, 3)?;
    for [x, y, z] in &program.rows {
        let row = [narrow(*x), narrow(*y), narrow(*z)];
        if table.columns() == 3 {
            table.add_row(&row)?;
        }
    }
    table.aim(&[], 1)?;
    Ok(table)
}

// Returns a row's sum at a point.
fn sum(row: &[i64; 3], point: &[i128]) -> i128 {
    let mut sum = 0i128;
    for (coefficient, value) in row.iter().zip(point.iter()) {
        sum = sum.wrapping_add(i128::from(*coefficient).wrapping_mul(*value));
    }
    sum
}

// True if a value is within a span times a denominator.
fn is_within(value: i128, ends: (i64, i64), denominator: i128) -> bool {
    i128::from(ends.0).wrapping_mul(denominator) <= value
        && value <= i128::from(ends.1).wrapping_mul(denominator)
}

// True if the point keeps all spans.
fn keeps(program: &SmallProgram, point: &[i128], denominator: i128) -> bool {
    let [first, second] = &program.rows;
    point
        .iter()
        .all(|value| is_within(*value, (0, program.most), denominator))
        && is_within(sum(first, point), program.spans[0], denominator)
        && is_within(sum(second, point), program.spans[1], denominator)
}

// Returns the greatest product of a multiplier and a number in a span.
fn greatest(multiplier: i128, ends: (i64, i64)) -> i128 {
    let end = if multiplier > 0 { ends.1 } else { ends.0 };
    multiplier.wrapping_mul(i128::from(end))
}

// True if no point can keep all spans: the greatest sum of the multiplied rows by the rows' spans is below the least by the columns' spans.
fn refutes(program: &SmallProgram, multipliers: &[Narrow]) -> bool {
    let mut total = 0i128;
    let mut columns = [0i128; 3];
    for ((row, ends), multiplier) in program
        .rows
        .iter()
        .zip(program.spans.iter())
        .zip(multipliers.iter())
    {
        total = total.wrapping_add(greatest(multiplier.wide(), *ends));
        for (column, coefficient) in columns.iter_mut().zip(row.iter()) {
            *column = column.wrapping_sub(multiplier.wide().wrapping_mul(i128::from(*coefficient)));
        }
    }
    for column in &columns {
        total = total.wrapping_add(greatest(*column, (0, program.most)));
    }
    total < 0
}

// True if a run finds a point exactly if the program has one, and the point keeps the spans, or the multipliers refute the program.
fn is_right(alloc: Global, program: &SmallProgram, budget: &mut Budget) -> Result<bool, ProveStop> {
    let mut table = table_of(alloc, program)?;
    let columns = [
        span((0, program.most)),
        span((0, program.most)),
        span((0, program.most)),
    ];
    let rows = [span(program.spans[0]), span(program.spans[1])];
    if table.columns() != 3 || table.rows() != 2 {
        return Ok(false);
    }
    let found = table.run(&columns, &rows, budget)?;
    let is_shown = if found {
        keeps(program, &table.point(alloc)?, table.denominator().wide())
    } else {
        refutes(program, &table.refutation(alloc)?)
    };
    Ok(found == program.has_point && is_shown)
}

#[test]
fn small_programs(rt: HostRuntime) -> Result<(), Fail> {
    let rows: [SmallProgram; 5] = [
        SmallProgram {
            rows: [[1, 1, 0], [0, 1, 1]],
            spans: [(1, 1), (1, 2)],
            most: 1,
            has_point: true,
        },
        SmallProgram {
            rows: [[1, 1, 0], [0, 1, 1]],
            spans: [(3, 3), (0, 2)],
            most: 1,
            has_point: false,
        },
        SmallProgram {
            rows: [[2, -3, 0], [0, 1, -1]],
            spans: [(1, 1), (0, 0)],
            most: 5,
            has_point: true,
        },
        SmallProgram {
            rows: [[1, 1, 1], [1, -1, 0]],
            spans: [(1, 1), (2, 3)],
            most: 1,
            has_point: false,
        },
        // the only point is 1, 1/2, 0
        SmallProgram {
            rows: [[2, 2, 2], [4, 2, -2]],
            spans: [(3, 3), (5, 5)],
            most: 1,
            has_point: true,
        },
    ];
    let mut budget = Budget::new(20, 0);
    for program in &rows {
        assert!(rt; is_right(rt.alloc(), program, &mut budget)?);
    }
    assert!(rt; budget.pivots() < 20);
    Ok(())
}

// Returns a table with the rows 3 x and 5 x, to which a column y is added, so that they are 3 x + 5 y and 5 x - 7 y.
fn grown(alloc: Global) -> Result<Table, ProveStop>
    ensures rows { IfOk result (λ table. table.rows ≡ 2) }
    ensures columns { IfOk result (λ table. table.columns ≡ 2) }
{
    let mut table = Table::new(alloc, 1)?;
    table.add_row(&[narrow(3)])?;
    table.add_row(&[narrow(5)])?;
    table.add_column(&[narrow(5), narrow(-7)], 0)?;
    Ok(table)
}

#[test]
fn sizes_and_stops(rt: HostRuntime) -> Result<(), Fail> {
    let alloc = rt.alloc();
    let unit = span((0, 1));
    let rows = [span((5, 5)), span((-9, 9))];
    // a pivot on y makes an entry of -7
    for (width, pivots) in &[(6, 9), (7, 0), (7, 9)] {
        let mut table = grown(alloc)?;
        let mut budget = Budget::new(*pivots, 0);
        table.set_width(narrow(*width));
        assert!(rt; table.columns() == 2 && table.rows() == 2);
        match table.run(&[unit, unit], &rows, &mut budget) {
            Ok(found) => assert!(rt; found && *width == 7 && budget.pivots() == 8),
            Err(ProveStop::BeyondWidth) => assert!(rt; *width == 6),
            Err(stop) => assert!(rt;
                *pivots == 0 && matches!(stop, ProveStop::Spent(Limit::Pivots))
            ),
        }
    }
    let mut table = grown(alloc)?;
    let mut budget = Budget::new(9, 0);
    assert!(rt; table.columns() == 2 && table.rows() == 2);
    let found = table.run(&[unit, unit], &[span((9, 9)), span((0, 9))], &mut budget)?;
    assert!(rt; !found);
    table.drop_last_row(&mut budget)?;
    assert!(rt; table.columns() == 2 && table.rows() == 1);
    assert!(rt; table.run(&[unit, unit], &[span((8, 8))], &mut budget)?);
    Ok(())
}

// Returns a table with the rows 2^62 x and x, after a run that made x basic.
fn wide_table(alloc: Global) -> Result<Table, ProveStop> {
    let mut table = Table::new(alloc, 1)?;
    table.add_row(&[Narrow::GREATEST])?;
    table.add_row(&[Narrow::ONE])?;
    table.run(
        &[span((0, 1))],
        &[span((1, 1)), span((0, 1))],
        &mut Budget::new(1, 0),
    )?;
    Ok(table)
}

// Returns the operation that passes 2^62 and its two numbers, if it stopped a run.
fn passed(made: &Result<bool, ProveStop>) -> Option<(Op, i128, i128)> {
    match made {
        Err(ProveStop::Wide(pass)) => Some((pass.op(), pass.x(), pass.y())),
        _ => None,
    }
}

#[test]
fn wide_stops(rt: HostRuntime) -> Result<(), Fail> {
    let mut table = wide_table(rt.alloc())?;
    assert!(rt;
        table.columns() == 1 && table.rows() == 2 && table.denominator() == Narrow::GREATEST
    );
    // the second row becomes x + 2 y, and its entry at y is 2^63
    table.add_column(&[Narrow::ZERO, narrow(2)], 0)?;
    let unit = span((0, 1));
    let one = span((1, 1));
    let made = table.run(&[unit, unit], &[one, one], &mut Budget::new(9, 0));
    assert!(rt; passed(&made) == Some((Op::Add, DOUBLE, 0)));
    Ok(())
}
