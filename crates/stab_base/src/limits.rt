/// The greatest version, and the greatest number of a write or a plan.
pub const NUMBER_MAX: u64 = 1 << 62;
