// The room for the items of one kind.
use crate::empty::Empty;
use std::alloc::{AllocError, Global};

impl<T, const N: usize> Empty<T, N> {
    // Asks for the room, and gives the want of memory where there is none.
    pub(crate) fn new(heap: Global) -> Result<Empty<T, N>, AllocError> {
        let room = Vec::with_capacity(heap, N)?;
        Ok(Empty { room })
    }
}
