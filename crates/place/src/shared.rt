// What the steps of placing a pass read.
#![tactic(auto)]

ghost use Rattle.std.specs.Prelude.{◌+◌, ◌≤◌, length};

use layout::Rect;
use records::Config;
use rows::Row;

// The rows of a pass, a rectangle of the sign, and how many rows there are from the first one of each line on.
#[derive(Clone, Copy)]
pub(crate) struct Pass<'a> {
    pub(crate) config: Config,
    pub(crate) rect: Rect,
    pub(crate) rows: &'a [Row],
    pub(crate) heads: &'a [u16; 256],
    ghost few: { length rows.now ≤ 2048 },
    ghost across: { rect.left + rect.width ≤ 4096 },
    ghost down: { rect.top + rect.height ≤ 4096 },
}
