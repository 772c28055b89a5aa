// Memory that the programs lend to the library.
ghost use Rattle.std.specs.Prelude.{◌≡◌, min, replicate, IfOk};
ghost use Rattle.grade.specs.Ranks.{ranked_all};
ghost use Rattle.console.specs.Lending.{lowest_cell};

use frame::layout::MOST_SAMPLES;
use grade::{Cell, Grade};
use std::alloc::{AllocError, Global};

// What memory for bytes holds before a call.
const BEFORE: u8 = 0xa5;

// Memory of so many cells, each of rank 0. No path has more than 4096 samples and no cell past the samples is ever
// touched or shown, so no more than that are there.
pub fn cells<G: Grade>(heap: Global, count: u64) -> Result<Vec<Cell<G>>, AllocError>
    ensures { IfOk result (λ cells. ranked_all G.Grade.rank cells.items ≡ replicate (min count 4096) lowest_cell) }
{
    let lowest = G::of_rank(0);
    let cell = Cell {
        value: lowest,
        cap: lowest,
        floor: lowest,
    };
    // Pushed one by one, and no `vec![in heap; cell; n]`, of which it is not proved that a clone of a grade is that grade.
    let mut cells = Vec::new(heap);
    for _ in 0..count.min(MOST_SAMPLES as u64) {
        cells.push(cell)?;
    }
    Ok(cells)
}

// Memory of so many bytes.
pub fn bytes(heap: Global, length: usize) -> Result<Vec<u8>, AllocError>
    ensures { IfOk result (λ memory. memory.items ≡ replicate length 165) }
{
    vec![in heap; BEFORE; length]
}
