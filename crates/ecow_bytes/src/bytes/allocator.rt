//! The allocator of the bytes.
use crate::bytes::SmallBytes;
use std::alloc::Global;

impl<const N: usize> SmallBytes<N> {
    /// The allocator that gives the bytes their memory.
    pub fn allocator(&self) -> Global {
        self.alloc
    }
}
