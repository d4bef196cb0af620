//! The blocks of large lists, which the C library keeps for later lists.

use std::alloc::Global;

/// A block that is a little below 32 MiB, the most that the C library keeps for another list, also with the page that
/// it adds.
const LARGEST: usize = (1 << 25) - (1 << 13);

/// Lets the C library keep blocks for later lists once they are let go. At first it gives a large one back to the
/// system, so that the next list takes fresh memory, page by page; once a block below 32 MiB was let go, it keeps all
/// that are not larger. The block takes addresses and no memory. That there is none changes nothing.
pub fn keep_large_blocks(alloc: Global) {
    let block = Vec::<u8>::with_capacity(alloc, LARGEST);
    drop(block);
}
