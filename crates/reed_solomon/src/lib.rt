// Reed-Solomon codes over any field: plain and doubly extended.
#![tactic(auto)]

mod doubly_extended;
mod plain;
mod polynomials;

pub use doubly_extended::DoublyExtended;
pub use plain::Plain;
