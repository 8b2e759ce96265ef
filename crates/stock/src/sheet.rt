// What was counted of a material, against the book's store.
ghost use Rattle.std.specs.Prelude.{◌≡◌};
ghost use Rattle.stock.specs.Sheet.{stock_of};

use amounts::decline::{Decline, check};
use book::site::Book;

// The grams that no count may exceed, and no store does.
const MOST: u64 = 8_000_000_000_000;

// How many grams more were counted of the material at a place, from 0, than are in store, below 0 where fewer were.
#[tactic(auto, unfolding(crate::specs::Sheet::stock_of, crate::specs::Sheet::stock_from, amounts::specs::Decline::checked))]
pub fn difference_of(b: &Book, material: usize, grams: u64) -> Result<i64, Decline>
    ensures { result ≡ stock_of b.now material grams }
{
    let materials = usize::from(b.setup().outline.materials);
    check(grams <= MOST && material < materials, Decline::StockCount)?;
    // Both are below 2^43, so that neither changes its value.
    Ok(grams as i64 - b.year().store[material] as i64)
}
