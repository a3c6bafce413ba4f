//! The keys that the format has, with what stands under each, and the walk over a document that tells what is refused at single
//! places.
#![tactic(auto)]

mod leaf;
mod place;
mod schema;
mod walk;

pub use schema::{Field, Kind, Leaf, Shape};
pub use walk::document_faults;
