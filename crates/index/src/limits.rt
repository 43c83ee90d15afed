// How large a graph may be. The definitions that contracts cite stand in specs/Limits of the crate `theory`.
pub const NODE_LIMIT: u32 = 4096;

pub const EDGE_LIMIT: u32 = 16_384;

pub const WEAK_LIMIT: u32 = 1024;
