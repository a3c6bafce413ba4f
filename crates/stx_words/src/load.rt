// What a scenario is generated from.

/// What a scenario is generated from: a seed, and how many clients it has.
#[derive(Clone, Copy, Debug, PartialEq, Eq)]
pub struct Load {
    pub seed: u64,
    pub clients: u32,
}
