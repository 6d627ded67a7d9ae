//! Marks before and after a call: requests for a number of bytes that nothing else asks for. A
//! library that sees all requests counts those between two marks.
use std::alloc::Global;

/// The allocator, and whether calls are marked.
#[derive(Clone, Copy)]
pub(crate) struct Meter {
    pub(crate) alloc: Global,
    marked: bool,
}

impl Meter {
    pub(crate) fn new(alloc: Global, marked: bool) -> Self {
        Meter { alloc, marked }
    }

    /// Makes the request at which counting begins.
    pub(crate) fn begin(self) -> Option<Vec<u8>> {
        self.mark(5555551)
    }

    /// Makes the request at which the count is written.
    pub(crate) fn end(self) -> Option<Vec<u8>> {
        self.mark(5555553)
    }

    #[inline(never)]
    fn mark(self, bytes: usize) -> Option<Vec<u8>> {
        if !self.marked {
            return None;
        }
        Vec::with_capacity(self.alloc, bytes).ok()
    }
}
