// The limits of a scenario and of the input that states it, each in one place for code and definitions.

/// How many classes every scenario begins with: the built-in ones.
pub const BUILT_IN_CLASSES: usize = 17;

/// The most bytes of a scenario's text.
pub const MOST_INPUT_BYTES: usize = 1_048_576;

/// The most connections of the pool.
pub const MOST_CONNECTIONS: u32 = 64;

/// The most clients.
pub const MOST_CLIENTS: usize = 64;

/// The most top-level calls of one client.
pub const MOST_CALLS: usize = 64;

/// The most turns of the schedule.
pub const MOST_TURNS: usize = 100_000;

/// The most rows that have a first value.
pub const MOST_ROWS: usize = 10_000;

/// The most classes that a scenario's text declares; the built-in ones don't count.
pub const MOST_CLASSES: usize = 1_000;

/// The most steps from a class up to `Throwable`.
pub const DEEPEST_CLASS: u32 = 64;

/// The most beans.
pub const MOST_BEANS: usize = 256;

/// The most methods.
pub const MOST_METHODS: usize = 1_000;

/// The most rules of one attribute.
pub const MOST_RULES: usize = 64;

/// The most statements of one body.
pub const MOST_STATEMENTS: usize = 256;

/// The most synchronisations.
pub const MOST_SYNCS: usize = 256;

/// The most listeners.
pub const MOST_LISTENERS: usize = 256;

/// The most events.
pub const MOST_EVENTS: usize = 256;

/// The greatest rank of a method: so deep do calls go at most.
pub const GREATEST_RANK: u32 = 64;

/// The greatest weight of a scenario.
pub const GREATEST_WEIGHT: u64 = 200_000;
