// List decoding: all polynomials that agree with a word in many positions.
#![tactic(auto)]

mod explore;
mod last;
mod roots;
mod shift;
mod stage;
mod subject;
mod words;

pub use bivariate::{agreement, coefficient_at, degree_bound, value_at};
pub use interpolation::{Fault, interpolate};
pub use roots::{Room, find_roots, search_room};
pub use words::{Listing, decode, root_bytes};
