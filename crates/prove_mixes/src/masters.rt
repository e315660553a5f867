//! The program of a mix in fixed point: weights of columns, none below 0, that make up a point. A simplex method keeps the inverse of its
//! basis. What it finds is advice. `exact` reads its basis; `prove_stages` and `prove_peeling` call it. All values, weights and duals are
//! fixed-point numbers.

ghost use Rattle.prove_limits.specs.Budgets.{SpendsOn};

use crate::columns::{Column, Columns};
use crate::fixed::{DIGITS, UNIT, dot, fit, fraction, product, quotient, weighed};
use crate::inverses::{divide, inverse_of, subtract};
use prove_limits::{Budget, ProveStop};
use prove_table::PseudoRandom;
use std::alloc::{AllocError, Global};
use std::mem;

/// How many rounds a solution may have, each of which changes the basis or tests the values.
const MOST_CHANGES: u32 = 20_000;

/// After this many changes the values are computed anew, and the inverse is tested.
const FRESH: u32 = 50;

/// After this many changes the inverse is computed anew.
const STALE: u32 = 400;

/// How far a value may be below 0, 2^-29.
const SLACK: i64 = 131_072;

/// How much may be missing in all, 2^-27.
const MOST_MISSING: i128 = 524_288;

/// The least gain for which a variable enters the basis, and the least entry of a change of basis, 2^-28.
const LEAST_GAIN: i64 = 262_144;

/// How far the basis times the values may be from the point, 2^-26; further means that the inverse is bad.
const MOST_ERROR: u64 = 1_048_576;

/// After this many changes that gain nothing, pseudo-random numbers disturb the choice of the entering variable.
const PATIENCE: u32 = 30;

/// A variable of the program.
#[derive(Clone, Copy, PartialEq, Eq)]
pub(crate) enum Variable {
    /// How much the mix exceeds the point in a row. It should be 0 if the row isn't open.
    Missing(usize),
    /// The variable that is made as great as possible. After `set_least` it is the least weight times the number of columns; after
    /// `set_entries` it is what the caller gave entries for.
    Least,
    /// The weight of a column; after `set_least`, what it exceeds the least weight by.
    Weight(usize),
}

/// How a solution ended.
#[derive(Clone, Copy, Debug, PartialEq, Eq)]
pub enum Solved {
    /// The weights make up the point, up to 2^-27 in all, and the least weight is as great as possible, if it takes part.
    Done,
    /// No weights of the columns make up the point. The duals show it.
    Short,
    /// The solution came to no end, or to a basis for which fixed-point numbers are too coarse. The weights and duals mean nothing.
    Trouble,
}

/// The program and its present basis. Each row has an amount, which is its number in the point.
#[derive(Drop)]
pub struct Master {
    pub(crate) alloc: Global,
    point: Vec<i64>,
    inverse: Vec<Vec<i64>>,
    pub(crate) basis: Vec<Variable>,
    values: Vec<i64>,
    is_used: Vec<bool>,
    // for each row whether the mix may exceed the point, and whether the variable of what exceeds is basic
    is_open: Vec<bool>,
    pub(crate) is_missing: Vec<bool>,
    // of `Variable::Least`: its entries in fixed point, by what its value is divided to get the least weight, and whether it takes part
    pub(crate) sums: Vec<i64>,
    count: i64,
    has_least: bool,
    is_least_used: bool,
    /// The dual of each row after the last `solve`, in units of 2^-46. After `Short` they show that no weights make up the point: each
    /// column's entries times the duals sum to 0 or more, as far as fixed-point numbers show, and the amounts times the duals to less than
    /// 0. After `Done` they are those of the least weight, unless up to 2^-27 is still missing. After `Trouble` they mean nothing.
    pub duals: Vec<i64>,
    // changes of basis since the values, and since the inverse, were computed anew
    changes: u32,
    age: u32,
    random: PseudoRandom,
}

impl Master {
    /// Returns the program of a point before its first solution. `point` has the amount of each row in units of 2^-46, last that of the
    /// total. A mix must have exactly these amounts, until `set_row` says otherwise. Fails only if memory runs out.
    pub fn new(alloc: Global, point: &[i64]) -> Result<Master, AllocError> {
        let mut master = Master {
            alloc,
            point: Vec::from_slice(alloc, point)?,
            inverse: Vec::new(alloc),
            basis: Vec::new(alloc),
            values: Vec::new(alloc),
            is_used: Vec::new(alloc),
            is_open: vec![in alloc; false; point.len()]?,
            is_missing: vec![in alloc; true; point.len()]?,
            sums: vec![in alloc; 0; point.len()]?,
            count: 1,
            has_least: false,
            is_least_used: false,
            duals: vec![in alloc; 0; point.len()]?,
            changes: 0,
            age: 0,
            random: PseudoRandom::new(12345),
        };
        master.begin()?;
        Ok(master)
    }

    /// Begins anew, at the basis where all is missing. Fails only if memory runs out; then the program must not be used further.
    fn begin(&mut self) -> Result<(), AllocError> {
        let size = self.point.len();
        self.inverse.clear();
        self.basis.clear();
        self.values.clear();
        for row in 0..size {
            let mut entries = vec![in self.alloc; 0; size]?;
            if let Some(entry) = entries.get_mut(row) {
                *entry = -UNIT;
            }
            self.inverse.push(entries)?;
            self.basis.push(Variable::Missing(row))?;
            self.values.push(0)?;
        }
        self.is_used.fill(false);
        self.is_missing.fill(true);
        self.is_least_used = false;
        self.age = 0;
        self.compute_values();
        Ok(())
    }

    /// Lets the least weight of all columns that are not off take part: from now on `solve` makes it as great as possible. Call it again
    /// after columns joined or were put aside.
    pub fn set_least(&mut self, columns: &Columns) {
        self.sums.fill(0);
        let mut count: i64 = 0;
        for column in &columns.list {
            if !column.is_off {
                count = count.saturating_add(1);
                for (row, entry) in &column.entries {
                    if let Some(sum) = self.sums.get_mut(*row) {
                        *sum = sum.saturating_add(*entry);
                    }
                }
            }
        }
        for sum in self.sums.iter_mut() {
            *sum = fraction(i128::from(*sum), i128::from(count));
        }
        self.count = count.max(1);
        self.has_least = true;
        self.age = STALE;
    }

    /// Sets a row's amount in units of 2^-46, and whether a mix may have more. Does nothing if there is no such row.
    pub fn set_row(&mut self, row: usize, amount: i64, is_open: bool) {
        if let Some(own) = self.point.get_mut(row) {
            *own = amount;
        }
        if let Some(own) = self.is_open.get_mut(row) {
            *own = is_open;
        }
    }

    /// Puts a variable of the caller in the place of the least weight: from now on `solve` makes it as great as possible, and `least`
    /// returns it. `entries` has its entry in each row, whole numbers below 2^17 by absolute value.
    pub fn set_entries(&mut self, entries: &[i64]) {
        self.has_least = true;
        self.count = 1;
        for (row, entry) in entries.iter().enumerate() {
            if let Some(sum) = self.sums.get_mut(row) {
                *sum = fraction(i128::from(*entry), 1);
            }
        }
        self.age = STALE;
    }

    /// Returns the least weight, or the variable of `set_entries`, of the last `solve`: at least 0, in units of 2^-46. It is 0 if neither
    /// takes part.
    pub fn least(&self) -> i64 {
        for place in 0..self.basis.len().min(self.values.len()) {
            if self.basis[place] == Variable::Least {
                let value = self.values[place];
                return value.max(0).checked_div(self.count).unwrap_or(0);
            }
        }
        0
    }

    /// Returns the weight of each column of the last `solve`, which must have returned `Done`: at least 0, in units of 2^-46. A column that
    /// is off has at most 2^-27. After `set_entries` the weights mean nothing. Fails only if memory runs out.
    pub fn shares(&self, alloc: Global, columns: &Columns) -> Result<Vec<i64>, AllocError> {
        let least = self.least();
        let mut shares = Vec::new(alloc);
        for column in &columns.list {
            shares.push(if column.is_off { 0 } else { least })?;
        }
        for place in 0..self.basis.len().min(self.values.len()) {
            if let Variable::Weight(number) = self.basis[place] {
                if let Some(share) = shares.get_mut(number) {
                    *share = share.saturating_add(self.values[place].max(0));
                }
            }
        }
        Ok(shares)
    }

    /// Looks for weights that make up the point, and then, if the least weight takes part, for those with the greatest least weight.
    /// `columns` must be the list of the earlier calls, to which columns may have been added. Each change of basis takes a pivot. Stops if
    /// no pivot is left or memory runs out.
    pub fn solve(&mut self, columns: &Columns, budget: &mut Budget) -> Result<Solved, ProveStop>
        ensures { SpendsOn budget.old budget.new }
    {
        for _ in self.is_used.len()..columns.list.len() {
            self.is_used.push(false)?;
        }
        let mut best: i128 = -i128::MAX;
        let mut waits: u32 = 0;
        self.changes = 0;
        if !self.refresh(columns)? {
            return Ok(Solved::Trouble);
        }
        'changes: for _ in 0..MOST_CHANGES {
            if self.changes >= FRESH && !self.refresh(columns)? {
                return Ok(Solved::Trouble);
            }
            let missing = self.price(columns);
            let worth = if missing > 0 {
                missing.wrapping_neg()
            } else {
                i128::from(self.least())
            };
            if worth > best {
                best = worth;
                waits = 0;
            } else {
                waits = waits.saturating_add(1);
            }
            let Some(entering) = self.entering(columns, missing == 0, waits > PATIENCE) else {
                if self.changes == 0 {
                    let is_short = missing > MOST_MISSING;
                    return Ok(if is_short {
                        Solved::Short
                    } else {
                        Solved::Done
                    });
                }
                if !self.refresh(columns)? {
                    return Ok(Solved::Trouble);
                }
                continue;
            };
            budget.take_pivot()?;
            let image = self.image(entering, columns)?;
            let Some((place, step)) = self.leaving(&image, columns) else {
                return Ok(Solved::Trouble);
            };
            self.change(place, entering, &image, step);
        }
        Ok(Solved::Trouble)
    }

    /// Puts columns aside, that is, marks them as off: those that have the weight 0 in every mix of the point, as the duals show if the
    /// greatest least weight is 0. Call it only after `set_least` and a `solve` that returned `Done`. True if some were put aside.
    pub fn put_aside(&self, columns: &mut Columns) -> bool {
        let mut greatest: u64 = 0;
        for dual in &self.duals {
            greatest = greatest.max(dual.unsigned_abs());
        }
        let bound = i128::from(greatest >> 22);
        let mut are_some = false;
        for column in columns.list.iter_mut() {
            if !column.is_off && weighed(&column.entries, &self.duals) > bound {
                column.is_off = true;
                are_some = true;
            }
        }
        are_some
    }

    /// Computes the duals, and returns how much is wrong in all: what is missing, what is below 0, and the weights of columns that are
    /// off. If nothing is wrong, the duals are those of the least weight.
    fn price(&mut self, columns: &Columns) -> i128 {
        let mut duals = mem::replace(&mut self.duals, Vec::new(self.alloc));
        duals.fill(0);
        let mut missing: i128 = 0;
        let rows = self.basis.len().min(self.inverse.len());
        for place in 0..rows.min(self.values.len()) {
            let value = self.values[place];
            if value < -SLACK {
                add(&mut duals, &self.inverse[place]);
                missing = missing.wrapping_sub(i128::from(value));
            } else if value > SLACK && is_bound(&self.is_open, self.basis[place], columns) {
                take(&mut duals, &self.inverse[place]);
                missing = missing.wrapping_add(i128::from(value));
            }
        }
        if missing == 0 {
            for place in 0..rows {
                if self.basis[place] == Variable::Least {
                    add(&mut duals, &self.inverse[place]);
                }
            }
        }
        self.duals = duals;
        missing
    }

    /// Returns the variable with the greatest gain, if one gains enough. If `is_whole`, nothing is missing, and the gain is one of the
    /// least weight; else it is how much less is missing. If `is_disturbed`, pseudo-random numbers change the gains of columns.
    fn entering(
        &mut self,
        columns: &Columns,
        is_whole: bool,
        is_disturbed: bool,
    ) -> Option<Variable> {
        let mut greatest = LEAST_GAIN;
        let mut found = None;
        if self.has_least && !self.is_least_used {
            let own = if is_whole { i128::from(UNIT) } else { 0 };
            let gain = fit(own.wrapping_sub(dot(&self.sums, &self.duals) >> DIGITS));
            if gain > greatest {
                greatest = gain;
                found = Some(Variable::Least);
            }
        }
        let rows = self.is_open.len().min(self.is_missing.len());
        for row in 0..rows.min(self.duals.len()) {
            let dual = self.duals[row];
            if self.is_open[row] && !self.is_missing[row] && dual > greatest {
                greatest = dual;
                found = Some(Variable::Missing(row));
            }
        }
        for (number, column) in columns.list.iter().enumerate() {
            if column.is_off || self.is_used.get(number).copied().unwrap_or(true) {
                continue;
            }
            let mut gain = fit(weighed(&column.entries, &self.duals).wrapping_neg());
            if gain <= LEAST_GAIN {
                continue;
            }
            if is_disturbed {
                let part = self.random.next_up_to(1024) as i64;
                gain = (gain / 1024).saturating_mul(part).max(LEAST_GAIN);
            }
            if gain > greatest {
                greatest = gain;
                found = Some(Variable::Weight(number));
            }
        }
        found
    }

    /// Returns how fast each basic variable falls while a variable grows.
    fn image(&self, variable: Variable, columns: &Columns) -> Result<Vec<i64>, AllocError> {
        let mut image = Vec::new(self.alloc);
        for row in &self.inverse {
            let fall = match variable {
                Variable::Missing(number) => {
                    i128::from(row.get(number).copied().unwrap_or(0)).wrapping_neg()
                }
                Variable::Least => dot(row, &self.sums) >> DIGITS,
                Variable::Weight(number) => match columns.list.get(number) {
                    Some(column) => weighed(&column.entries, row),
                    None => 0,
                },
            };
            image.push(fit(fall))?;
        }
        Ok(image)
    }

    /// Returns the place in the basis of the variable that leaves, and how far the entering one grows, or None if nothing stops it.
    fn leaving(&self, image: &[i64], columns: &Columns) -> Option<(usize, i64)> {
        let mut most = i128::MAX;
        let places = self.basis.len().min(self.values.len()).min(image.len());
        for place in 0..places {
            let (value, fall) = (self.values[place], image[place]);
            if self.stops(self.basis[place], value, fall, columns) {
                let slack = if fall > 0 { SLACK } else { -SLACK };
                most = most.min(step(value.saturating_add(slack), fall));
            }
        }
        let mut greatest = 0;
        let mut found = None;
        for place in 0..places {
            let (value, fall) = (self.values[place], image[place]);
            let own = step(value, fall);
            if self.stops(self.basis[place], value, fall, columns)
                && own <= most
                && fall.unsigned_abs() > greatest
            {
                greatest = fall.unsigned_abs();
                found = Some((place, fit(own.max(0))));
            }
        }
        found
    }

    /// Lets a variable enter the basis at a place.
    fn change(&mut self, place: usize, entering: Variable, image: &[i64], step: i64) {
        let pivot = image.get(place).copied().unwrap_or(0);
        subtract(&mut self.values, step, image);
        if let Some(value) = self.values.get_mut(place) {
            *value = step;
        }
        let mut own = match self.inverse.get_mut(place) {
            Some(row) => mem::replace(row, Vec::new(self.alloc)),
            None => return,
        };
        divide(&mut own, pivot);
        subtract_from_each(&mut self.inverse, image, &own);
        if let Some(row) = self.inverse.get_mut(place) {
            *row = own;
        }
        let left = match self.basis.get_mut(place) {
            Some(variable) => mem::replace(variable, entering),
            None => return,
        };
        self.mark(left, false);
        self.mark(entering, true);
        self.changes = self.changes.saturating_add(1);
        self.age = self.age.saturating_add(1);
    }

    /// Notes whether a variable is basic.
    fn mark(&mut self, variable: Variable, is_basic: bool) {
        match variable {
            Variable::Missing(row) => {
                if let Some(missing) = self.is_missing.get_mut(row) {
                    *missing = is_basic;
                }
            }
            Variable::Least => self.is_least_used = is_basic,
            Variable::Weight(number) => {
                if let Some(used) = self.is_used.get_mut(number) {
                    *used = is_basic;
                }
            }
        }
    }

    /// Computes the values anew, and the inverse if it is old or bad. If the basis has no inverse, begins anew. False if the values are too
    /// far from the point even with a new inverse.
    fn refresh(&mut self, columns: &Columns) -> Result<bool, AllocError> {
        self.changes = 0;
        if self.age < STALE {
            self.compute_values();
            if self.correct_values(columns)? <= MOST_ERROR {
                return Ok(true);
            }
        }
        if !self.invert(columns)? {
            self.begin()?;
            return Ok(true);
        }
        self.compute_values();
        Ok(self.correct_values(columns)? <= MOST_ERROR)
    }

    /// Computes the values from the point and the inverse.
    fn compute_values(&mut self) {
        write_products(&mut self.values, &self.inverse, &self.point);
    }

    /// Corrects the values once by what they miss of the point, and returns the most that they missed in a row.
    fn correct_values(&mut self, columns: &Columns) -> Result<u64, AllocError> {
        let mut rest = Vec::new(self.alloc);
        for own in &self.point {
            rest.push(i128::from(*own))?;
        }
        for place in 0..self.basis.len().min(self.values.len()) {
            let value = self.values[place];
            match self.basis[place] {
                Variable::Missing(row) => put(&mut rest, row, value, 1),
                Variable::Least => take_products(&mut rest, value, &self.sums),
                Variable::Weight(number) => {
                    if let Some(column) = columns.list.get(number) {
                        for (row, entry) in &column.entries {
                            put(&mut rest, *row, value, entry.saturating_neg());
                        }
                    }
                }
            }
        }
        let mut error = 0;
        let mut short = Vec::new(self.alloc);
        for own in &rest {
            let own = fit(*own);
            error = own.unsigned_abs().max(error);
            short.push(own)?;
        }
        add_products(&mut self.values, &self.inverse, &short);
        Ok(error)
    }

    /// Computes the inverse of the basis. False if there is none, as far as fixed-point numbers show.
    fn invert(&mut self, columns: &Columns) -> Result<bool, AllocError> {
        let mut own = Vec::new(self.alloc);
        let mut order = Vec::new(self.alloc);
        for (place, variable) in self.basis.iter().enumerate() {
            if let Variable::Missing(_) = variable {
                order.push(place)?;
            }
            own.push(self.entries_of(*variable, columns)?)?;
        }
        for (place, variable) in self.basis.iter().enumerate() {
            match variable {
                Variable::Missing(_) => {}
                _ => order.push(place)?,
            }
        }
        match inverse_of(self.alloc, &own, &order)? {
            Some(inverse) => {
                self.inverse = inverse;
                self.age = 0;
                Ok(true)
            }
            None => Ok(false),
        }
    }

    /// Returns the entries of a variable's column that are not 0, in fixed point.
    fn entries_of(
        &self,
        variable: Variable,
        columns: &Columns,
    ) -> Result<Vec<(usize, i64)>, AllocError> {
        let mut entries = Vec::new(self.alloc);
        match variable {
            Variable::Missing(row) => entries.push((row, -UNIT))?,
            Variable::Least => {
                for (row, sum) in self.sums.iter().enumerate() {
                    if *sum != 0 {
                        entries.push((row, *sum))?;
                    }
                }
            }
            Variable::Weight(number) => {
                if let Some(column) = columns.list.get(number) {
                    for (row, entry) in &column.entries {
                        entries.push((*row, fraction(i128::from(*entry), 1)))?;
                    }
                }
            }
        }
        Ok(entries)
    }

    /// True if a basic variable may keep the entering one from growing. `fall` is how fast it falls.
    fn stops(&self, variable: Variable, value: i64, fall: i64, columns: &Columns) -> bool {
        if fall > LEAST_GAIN {
            value >= -SLACK
        } else if fall < -LEAST_GAIN {
            value < -SLACK || (value <= SLACK && is_bound(&self.is_open, variable, columns))
        } else {
            false
        }
    }
}

/// True if a variable should be 0. `is_open` says which rows may have more.
fn is_bound(is_open: &[bool], variable: Variable, columns: &Columns) -> bool {
    match variable {
        Variable::Missing(row) => !is_open.get(row).copied().unwrap_or(false),
        Variable::Least => false,
        Variable::Weight(number) => is_off(columns.list.get(number)),
    }
}

/// True if a column is off.
fn is_off(column: Option<&Column>) -> bool {
    match column {
        Some(column) => column.is_off,
        None => true,
    }
}

/// Returns how far the entering variable grows until a basic one is 0.
fn step(value: i64, fall: i64) -> i128 {
    i128::from(quotient(value, fall))
}

/// Adds a row to the duals.
fn add(duals: &mut [i64], row: &[i64]) {
    for place in 0..duals.len().min(row.len()) {
        duals[place] = duals[place].saturating_add(row[place]);
    }
}

/// Subtracts a row from the duals.
fn take(duals: &mut [i64], row: &[i64]) {
    for place in 0..duals.len().min(row.len()) {
        duals[place] = duals[place].saturating_sub(row[place]);
    }
}

/// Makes each value the sum of the products of its row and a list, rounded down.
fn write_products(values: &mut [i64], rows: &[Vec<i64>], list: &[i64]) {
    for place in 0..values.len().min(rows.len()) {
        values[place] = fit(dot(&rows[place], list) >> DIGITS);
    }
}

/// Adds to each value the sum of the products of its row and a list, rounded down.
fn add_products(values: &mut [i64], rows: &[Vec<i64>], list: &[i64]) {
    for place in 0..values.len().min(rows.len()) {
        let own = fit(dot(&rows[place], list) >> DIGITS);
        values[place] = values[place].saturating_add(own);
    }
}

/// Subtracts a number times each of the sums.
fn take_products(rest: &mut [i128], number: i64, sums: &[i64]) {
    for place in 0..rest.len().min(sums.len()) {
        rest[place] = rest[place].wrapping_sub(i128::from(product(number, sums[place])));
    }
}

/// Subtracts from each row a number of its own times a list.
fn subtract_from_each(rows: &mut [Vec<i64>], numbers: &[i64], list: &[i64]) {
    for place in 0..rows.len().min(numbers.len()) {
        let number = numbers[place];
        if number != 0 {
            subtract(&mut rows[place], number, list);
        }
    }
}

/// Adds a value, times a factor, to the number of a row.
fn put(rest: &mut [i128], row: usize, value: i64, factor: i64) {
    if let Some(own) = rest.get_mut(row) {
        *own = own.wrapping_add(i128::from(value).wrapping_mul(i128::from(factor)));
    }
}
