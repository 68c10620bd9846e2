// The memory that a job is read into.
use crate::Move;
use crate::empty::Empty;
use setups::Clamp;
use std::alloc::{AllocError, Global};

// Room for the largest job: 4,096 heights, 16 clamps, and the moves of 28 bytes each that 65,536 bytes hold.
#[derive(Drop)]
pub struct Store {
    pub heights: Empty<i32, 4096>,
    pub clamps: Empty<Clamp, 16>,
    pub moves: Empty<Move, 2340>,
}

impl Store {
    // Asks once for the memory of a job, before its bytes are looked at, so that reading never wants for memory.
    pub fn new(heap: Global) -> Result<Store, AllocError> {
        Ok(Store {
            heights: Empty::new(heap)?,
            clamps: Empty::new(heap)?,
            moves: Empty::new(heap)?,
        })
    }
}
