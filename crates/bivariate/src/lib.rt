// Polynomials in two variables over any field.
#![tactic(auto)]

mod agreements;
mod strangers;
mod terms;
mod values;

pub use agreements::agreement;
pub use strangers::first_stranger;
pub use terms::{Terms, coefficient_at, degree_bound};
pub use values::{multiply_add, value_at};
