// The rows of a line, by their links.
#![tactic(auto)]

ghost use Rattle.std.specs.Prelude.{◌≡◌, ◌≤◌, length};
ghost use Rattle.std.specs.Iterator.{YieldsFirstRef, item_count};
ghost use Rattle.sums.specs.Chain.{Chained, Links, rows_in, rows_from};

use crate::{first_of, next_of};
use layout::Span;
use rows::Row;

// The rows of a line from one of them on: left is how many rows of the pass there are from that on, 0 if there is none.
#[derive(Clone, Copy)]
pub(crate) struct Chain<'a> {
    rows: &'a [Row],
    out: &'a [Span],
    left: usize,
    ghost linked: { Links rows.now out.now },
    ghost within: { left ≤ length rows.now },
}

impl<'a> Chain<'a> {
    // Those of a line number.
    #[tactic(auto, using(crate::proofs::Chain::links_of, crate::proofs::Chain::chain_in, crate::proofs::Chain::chain_of))]
    pub(crate) fn new(rows: &'a [Row], out: &'a [Span], heads: &[u16; 256], line: u8) -> Chain<'a>
        requires { Chained rows.now out.now heads.now }
        ensures { rows_from result.rows.now result.left ≡ rows_in rows.now line (length rows.now) }
    {
        Chain {
            rows,
            out,
            left: first_of(heads, line),
        }
    }
}

impl<'a> Iterator for Chain<'a> {
    type Item = &'a Row;

    ghost next_gives = { YieldsFirstRef (λ s. rows_from s.rows.now s.left) };

    ghost remaining = { item_count (λ s. rows_from s.rows.now s.left) };

    #[tactic(auto, using(crate::proofs::Chain::next_in, crate::proofs::Chain::next_first))]
    fn next(&mut self) -> Option<&'a Row> {
        if self.left == 0 {
            return None;
        }
        let j = self.rows.len() - self.left;
        self.left = next_of(self.out, j);
        Some(&self.rows[j])
    }
}
