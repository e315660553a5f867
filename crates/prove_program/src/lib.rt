//! The quotas of a pool as a program of whole numbers: a column for each class of alike volunteers, or for each volunteer, with the span of
//! how many of its members a panel may have; and a row for each constraint that a point of these spans can break. Promises: `by_class` and
//! `by_volunteer` return exactly the program that `specs/Programs.antt` defines, and `number_after` the number of the same constraint in a
//! proof. The calls that return parts of a program say which part.
#![tactic(auto)]

mod columns;
mod demands;
mod programs;
mod rows;

pub use programs::Program;
pub use rows::QuotaRow;
