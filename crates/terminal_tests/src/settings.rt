//! Settings of runs.

/// Workers and targets: one and seven, each at target 1 and at the default.
pub static SETTINGS: [(u32, u64); 4] = [(1, 1), (7, 1), (1, 0), (7, 0)];
