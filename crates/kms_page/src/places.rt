// Places of rows, and a page of them.
ghost use Rattle.std.specs.Prelude.{◌≡◌};

use std::marker::Model;

/// Places of rows in a list. Contracts see the list of places.
#[derive(Drop, Debug)]
pub struct Places {
    items: Vec<usize>,
}

impl Model for Places {
    ghost use Rattle.std.specs.Prelude.{List, ℕ};

    ghost Value = { List ℕ };

    ghost view = { λ p. p.items.items };
}

impl Places {
    /// The places of a `Vec`, whose memory they keep.
    pub fn from_vec(items: Vec<usize>) -> Places
        ensures { result ≡ items.items }
    {
        Places { items }
    }

    /// The places in their order.
    pub fn as_slice(&self) -> &[usize]
        ensures { result.now ≡ self.now }
    {
        &self.items
    }
}

/// A page of a list.
#[derive(Drop, Debug)]
pub struct Page {
    /// the places of the rows on the page, in the page's order
    pub at: Places,
    /// how many rows pass the filters, on this page or not
    pub total: u64,
}
