// What bodies cost.

/// What a method, a body or a statement costs.
#[derive(Clone, Copy, Debug, PartialEq, Eq)]
pub struct Cost {
    /// How many statements and methods it comes to, with all that it calls and registers.
    pub size: u64,
    /// How many registrations it comes to at most.
    pub registrations: u64,
}
