//! What is kept in memory of the payloads.
ghost use Rattle.std.specs.Prelude.{◌≡◌};

use crate::payload::{Change, change_in, chunk_len};
use spare_map::SpareMap;
use stab_base::ChunkName;
use std::alloc::{AllocError, Global};
use vault::Fold;

/// Where a chunk stands: the index of its payload, and how many bytes the chunk has.
#[derive(Clone, Copy)]
pub struct Place {
    pub(crate) index: u64,
    pub(crate) len: u64,
}

/// For each name the place of its chunk.
#[derive(Drop)]
pub struct ChunkIndex {
    pub(crate) places: SpareMap<ChunkName, Place>,
}

impl Fold for ChunkIndex {
    type Change = Option<Change>;

    ghost use Rattle.chunk_store.specs.Index.{IsIndex, HasSpare, Says};

    ghost fits = { IsIndex };

    ghost has_spare = { HasSpare };

    ghost says = { Says };

    #[tactic(auto, unfolding(crate::specs::Payload::chunks_of))]
    fn start(alloc: Global) -> Self {
        ChunkIndex {
            places: SpareMap::new(alloc),
        }
    }

    fn reserve(&mut self, payloads: u64, _bytes: u64) -> Result<(), AllocError> {
        self.places.reserve(payloads as usize)
    }

    fn read(_alloc: Global, payload: &[u8]) -> Result<Option<Change>, AllocError> {
        Ok(change_in(payload))
    }

    fn note(
        &mut self,
        change: Option<Change>,
        payload: &[u8],
        index: u64,
    ) -> Result<(), AllocError> {
        match change {
            None => Ok(()),
            Some(Change::Put(name)) => {
                let len = chunk_len(payload);
                self.places.insert(name, Place { index, len })
            }
            Some(Change::Gone(name)) => self.places.remove(name),
        }
    }
}
