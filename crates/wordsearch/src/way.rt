// The way back from a place of a search: the labels of the edges along the parents from the place to a root, the last edge's first.
ghost use Rattle.std.specs.Prelude.{◌≡◌};
ghost use Rattle.std.specs.Iterator.{YieldsFirst, item_count};
ghost use Rattle.worklist.specs.Links.{way_from};
ghost use Rattle.wordsearch.specs.Way.{Back};

use std::marker::Model;
use worklist::Search;

// Clauses see it as the list of the labels that are left.
#[derive(Drop)]
pub struct WayBack<'a, const N: usize> {
    found: &'a Search<N>,
    // The place at which it stands.
    at: u32,
}

impl<'a, const N: usize> Model for WayBack<'a, N> {
    ghost use Rattle.std.specs.Prelude.{List, ℕ};
    ghost use Rattle.worklist.specs.Links.{way_from};
    ghost use Rattle.wordsearch.specs.Way.{Back};

    ghost Value = { List ℕ };

    ghost view = { λ w. way_from w.found.now.parent w.found.now.via w.at };

    ghost invariant = { λ w. Back N w.found.now w.at };
}

impl<'a, const N: usize> WayBack<'a, N> {
    // The way back from a place of the search.
    pub fn new(found: &'a Search<N>, place: u32) -> Self
        requires { Back N found.now place }
        ensures { result ≡ way_from found.now.parent found.now.via place }
    {
        WayBack { found, at: place }
    }
}

impl<'a, const N: usize> Iterator for WayBack<'a, N> {
    type Item = u32;

    ghost next_gives = { YieldsFirst (λ w. w) };

    ghost remaining = { item_count (λ w. w) };

    fn next(&mut self) -> Option<u32> {
        let link = self.found.parent(self.at);
        if link == 0 {
            return None;
        }
        let label = self.found.via(self.at);
        self.at = link - 1;
        Some(label)
    }
}
