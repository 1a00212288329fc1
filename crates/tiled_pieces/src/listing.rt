// Tilings that a walk has found so far.
use crate::listed::ListedTiling;
use crate::path::Path;
use crate::row_order::RowOrder;
use std::alloc::Global;

/// The tilings that a walk has found so far, and the pieces that it has laid.
#[derive(Drop)]
pub(crate) struct Listing {
    pub(crate) path: Path,
    /// Which rows have to go before which.
    pub(crate) order: RowOrder,
    pub(crate) tilings: Vec<ListedTiling>,
    /// How many tilings there may be.
    pub(crate) most: usize,
    /// Whether there was no room for one.
    pub(crate) is_full: bool,
}

impl Listing {
    ghost use Rattle.std.specs.Prelude.{◌≡◌, IsTrue, [], false};
    ghost use Rattle.tiled_pieces.specs.Listings.{Adds, path_of};

    /// No tiling yet. If it is ordered, pieces have to keep to an order of rows.
    pub(crate) fn new(alloc: Global, most: usize, is_ordered: bool) -> Listing
        ensures path { path_of result.path ≡ [] }
        ensures none { result.tilings.items ≡ [] }
        ensures kept { result.order.is_kept ≡ is_ordered }
        ensures free { result.order.before ≡ 0 }
    {
        Listing {
            path: Path::new(),
            order: RowOrder::new(is_ordered),
            tilings: Vec::new(alloc),
            most,
            is_full: false,
        }
    }

    /// Adds the laid pieces as a tiling.
    #[inline(always)]
    pub(crate) fn add(&mut self)
        ensures { Adds self.old self.new (λ path found. found ≡ path) (λ path found. found ≡ path) }
    {
        if self.is_full {
            return;
        }
        if self.most <= self.tilings.len() {
            self.is_full = true;
            return;
        }
        match self.tilings.push(self.path.tiling) {
            Ok(()) => {}
            Err(_) => self.is_full = true,
        }
    }

    /// Whether no tiling came and none was left out since there were so many.
    #[inline(always)]
    pub(crate) fn is_none_since(&self, before: usize) -> bool
        ensures same { IsTrue result → self.now.tilings.len ≡ before }
        ensures room { IsTrue result → self.now.is_full ≡ false }
    {
        self.tilings.len() == before && !self.is_full
    }
}
