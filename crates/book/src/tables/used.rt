// The rows that are in use, lent out: a function for each table, since the tables are of different types.
ghost use Rattle.std.specs.Prelude.{◌≡◌, take};

use crate::tables::Book;
use text::line::{LinkLine, WatchLine};

impl Book {
    // The phases of the open lines.
    pub fn opens_in_use(&self) -> &[u64]
        ensures { result.now ≡ take self.now.opening self.now.opens }
    {
        &self.opens[..self.opening]
    }

    // The watch lines.
    pub fn watches_in_use(&self) -> &[WatchLine]
        ensures { result.now ≡ take self.now.watching self.now.watches }
    {
        &self.watches[..self.watching]
    }

    // The link lines.
    pub fn links_in_use(&self) -> &[LinkLine]
        ensures { result.now ≡ take self.now.linking self.now.links }
    {
        &self.links[..self.linking]
    }
}
