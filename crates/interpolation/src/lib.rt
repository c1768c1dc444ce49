// Polynomials in two variables that are 0 at given points.
#![tactic(auto)]

mod elements;
mod equations;
mod fault;
mod points;
mod staircase;
mod words;

pub use fault::Fault;
pub use words::interpolate;
