use crate::numbers::Version;

/// The name of a chunk at a Store: the version of the write that brought it, and its number among the chunks of
/// that write, from 0. Names are ordered by version, then by number.
#[derive(Debug, Clone, Copy, PartialEq, Eq, PartialOrd, Ord)]
pub struct ChunkName {
    pub version: Version,
    pub ordinal: u32,
}
