//! The document that the bytes of a file are, the first stage that refuses anything in it, and the scenario that it states, with
//! numbers for names.
#![tactic(auto)]

mod declared_names;
mod document;
mod draft;
mod parts;

pub use document::{document_of, refused_in};
pub use draft::drafted;
