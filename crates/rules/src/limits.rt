// How much is read (this project's own).

/// The greatest length of a text in bytes.
pub const TEXT_BYTES: usize = 268435456;

/// The greatest number of indices.
pub const INDICES: usize = 1000;

/// The greatest number of packages in all indices.
pub const PACKAGES: usize = 4000000;

/// The greatest number of admitted pairs.
pub const PAIRS: usize = 1000000;

/// The greatest number of goals of a request.
pub const GOALS: usize = 100000;

/// The greatest number of steps of a plan.
pub const STEPS: usize = 1000000;
