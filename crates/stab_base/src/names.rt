use crate::{ChunkName, Sequence};

/// A list of names of chunks.
pub type Names = Sequence<ChunkName>;
