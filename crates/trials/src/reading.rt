// Byte strings at the limits of what a job may be.
pub(crate) mod amounts;
pub(crate) mod changes;
pub(crate) mod lengths;

use crate::answer::{Outcome, Taken, index};
use jobs::{Bad, Store, read};
use std::alloc::{AllocError, Global};

// The words of three columns and two rows at pitch 100, a flat cutter of radius 150, six heights, two clamps and two poses.
const SMALL: [i32; 44] = [
    1, 3, 2, 100, 1, 1, 150, -1, -1, 6, 0, 10, 20, 30, 40, 50, 0, 0, 2, 0, 0, 1, 0, 60, 2, 1, 2, 1,
    -70, 2, 1, 1, 1, 80, 7, 8, 9, 1, -1, 0, 90, 0, 0, 0,
];

// What is read of so many bytes of the small job and two words more.
pub(crate) fn shortened(heap: Global, [long]: [i32; 1]) -> Result<Reading, AllocError> {
    let mut bytes = Vec::new(heap);
    spell(&mut bytes, &SMALL)?;
    spell(&mut bytes, &[1, 1])?;
    bytes.truncate(index(long));
    outcome(heap, bytes.as_slice())
}

// What is read of the small job with words changed, each a place and the new word; of two changes of one word the first counts.
pub(crate) fn changed<const N: usize>(
    heap: Global,
    changes: [[i32; 2]; N],
) -> Result<Reading, AllocError> {
    let mut bytes = Vec::new(heap);
    for (i, word) in SMALL.iter().enumerate() {
        let change = changes.iter().find(|change| index(change[0]) == i);
        spell(&mut bytes, &[change.map_or(*word, |change| change[1])])?;
    }
    outcome(heap, bytes.as_slice())
}

// What is read of a job of such amounts, with a cutter of radius 0, and of the bytes over.
pub(crate) fn built(heap: Global, amounts: [i32; 7]) -> Result<Reading, AllocError> {
    let [pitch, columns, rows, heights, clamps, moves, over] = amounts;
    let mut bytes = Vec::new(heap);
    spell(&mut bytes, &[1, columns, rows, pitch, 1, 1, 0, 0, 0])?;
    repeat(&mut bytes, heights, &[0])?;
    spell(&mut bytes, &[0, 0])?;
    repeat(&mut bytes, clamps, &[0, 0, 0, 0, 0])?;
    repeat(&mut bytes, moves, &[1, 0, 0, 0, 0, 0, 0])?;
    for _ in 0..over {
        bytes.push(0)?;
    }
    outcome(heap, bytes.as_slice())
}

// That bytes are a job, or why not.
pub(crate) type Reading = Outcome<Taken, Bad>;

fn outcome(heap: Global, bytes: &[u8]) -> Result<Reading, AllocError> {
    Ok(Outcome(read(Store::new(heap)?, bytes).map(|_| Taken)))
}

// Adds the bytes of the words.
fn spell(bytes: &mut Vec<u8>, words: &[i32]) -> Result<(), AllocError> {
    for word in words {
        bytes.extend_from_slice(&word.to_le_bytes())?;
    }
    Ok(())
}

// Adds a count and so many times the words.
fn repeat(bytes: &mut Vec<u8>, count: i32, words: &[i32]) -> Result<(), AllocError> {
    spell(bytes, &[count])?;
    for _ in 0..count {
        spell(bytes, words)?;
    }
    Ok(())
}
