//! A scenario for load, generated from a seed: payments between accounts that many clients make at once.
#![tactic(auto)]

mod clients;
mod draws;
mod generator;
mod laws;
mod methods;
mod payments;
mod rows;
#[cfg(test)]
mod tests;

pub use generator::generated;
pub use laws::draws_are_worked_out;
pub use payments::Payment;
