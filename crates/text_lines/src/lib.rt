//! Lines of a text in memory: takes a text apart into lines and a line into fields, reads a field as a number in its one spelling, and
//! appends lines to a growing text, field by field.
//!
//! Promises: each public call follows the definitions of lines, fields and numbers exactly. `TextFault` and `TextStop` are for readers that
//! have no types of their own for a fault.
#![tactic(auto)]

mod faults;
mod numbers;
mod splitting;
mod writing;

pub use faults::{TextFault, TextStop};
pub use numbers::{number_up_to, signed_number};
pub use splitting::{fields, next_line};
pub use writing::{
    end_line, push_field, push_line, push_number, push_numbers, push_signed, push_signed_numbers,
};
