ghost use Rattle.std.specs.Prelude.{◌≡◌, [], length, IfOk, IsTrue, ◌↔◌};

use crate::bytes::Bytes;
use std::alloc::{AllocError, Global};
use std::marker::Model;
use std::sync::ArcSlice;

/// A string of bytes that its copies share. Contracts see it as the list of its bytes.
#[derive(Debug, Drop)]
pub struct SharedBytes {
    items: ArcSlice<u8>,
}

impl Model for SharedBytes {
    ghost use Rattle.std.specs.Arc.{arc_slice_items};
    ghost use Rattle.std.specs.Prelude.{List, ℕ};

    ghost Value = { List ℕ };

    ghost view = { λ a. arc_slice_items a.items };
}

impl Clone for SharedBytes {
    ghost use Rattle.std.specs.Prelude.{◌≡◌};

    ghost is_clone = { λ bytes copy. copy ≡ bytes };

    fn clone(&self) -> Result<Self, AllocError> {
        Ok(SharedBytes {
            items: self.items.clone()?,
        })
    }
}

impl SharedBytes {
    /// The bytes of a string, which aren't copied.
    pub fn new(bytes: Bytes) -> Result<Self, AllocError>
        ensures { IfOk result (λ made. made ≡ bytes) }
    {
        Ok(SharedBytes {
            items: ArcSlice::from_vec(bytes.into_vec())?,
        })
    }

    /// A copy of these bytes.
    pub fn from_slice(alloc: Global, bytes: &[u8]) -> Result<Self, AllocError>
        ensures { IfOk result (λ made. made ≡ bytes.now) }
    {
        SharedBytes::new(Bytes::from_slice(alloc, bytes)?)
    }

    /// The bytes.
    pub fn as_slice(&self) -> &[u8]
        ensures { result.now ≡ self.now }
    {
        self.items.as_slice()
    }

    /// How many bytes there are.
    pub fn len(&self) -> usize
        ensures { result ≡ length self.now }
    {
        self.items.as_slice().len()
    }

    /// Whether there is no byte.
    pub fn is_empty(&self) -> bool
        ensures { IsTrue result ↔ (self.now ≡ []) }
    {
        self.items.as_slice().is_empty()
    }
}
