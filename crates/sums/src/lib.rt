// Offsets across of the spans of a group. The rows of each line are chained, so that a group is walked without those of other lines; one walk
// makes a table by span number, which tells what stands before each span of the group.
#![tactic(auto)]

ghost use Rattle.std.specs.Prelude.{◌≡◌, ◌^◌, ◌≤◌, ◌<◌, length, get_or, replicate, sum};
ghost use Rattle.rows.specs.Rows.{link_at};
ghost use Rattle.sums.specs.Sums.{same_row, gap_of, joined, advanced, none_yet, Addable, GrownTo, SumsOf};
ghost use Rattle.sums.specs.Chain.{RowsAsked, Chained, ChainedTo};
ghost use Rattle.sums.specs.Table.{upto, Small, AddedRow, Room, Entered, TableOf};

mod walk;

use layout::{Fault, Span};
use rows::Row;
use walk::Chain;

// Of the rows so far: what stands before the span and what from there on, how many of them are of the group, the spacing of its last row, and
// its first fault. It is an Option beside the numbers and no Result, since the sums go on past a fault, as the definition's do. The spacing is no
// Option: the count, which placing reads too, says whether there is a last row.
#[derive(Clone, Copy, Default)]
pub struct Sums {
    pub before: u64,
    pub after: u64,
    pub count: u16,
    pub spacing: u16,
    pub fault: Option<Fault>,
}

// Whether two rows are of one group.
pub fn matches_span(r: &Row, e: &Row) -> bool
    ensures { result ≡ same_row r.now e.now }
{
    (r.just_page, r.line, r.just_line) == (e.just_page, e.line, e.just_line)
}

impl Sums {
    // The spacing due before a row.
    fn gap(self, e: &Row) -> u64
        ensures { (result ≡ gap_of self e.now) × (result < 65536) }
    {
        if self.count == 0 {
            return 0;
        }
        if e.fixed {
            return u64::from(e.spacing);
        }
        u64::from(rows::half_up(self.spacing, e.spacing))
    }

    // With a row more of the group, for span number n.
    fn join(self, n: u8, e: &Row) -> Sums
        requires { Addable self }
        ensures { GrownTo self (joined n self e.now) result }
    {
        let g = self.gap(e);
        let w = u64::from(e.width);
        let (gap_before, gap_after) = if e.span <= n { (g, 0) } else { (0, g) };
        let (width_before, width_after) = if e.span < n { (w, 0) } else { (0, w) };
        Sums {
            before: self.before + gap_before + width_before,
            after: self.after + gap_after + width_after,
            count: self.count + 1,
            spacing: e.spacing,
            fault: self.fault.or(e.fault),
        }
    }

    // With a row more of the pass, for the span with the row r.
    #[tactic(auto, unfolding(crate::specs::Sums::advanced))]
    fn advance(self, r: &Row, e: &Row) -> Sums
        requires { Addable self }
        ensures { GrownTo self (advanced r.now self e.now) result }
    {
        if matches_span(r, e) {
            return self.join(r.span, e);
        }
        self
    }
}

// The rows of a line are chained by their links, each in its record until that is written; the answer has, for each line number, how many rows
// there are from its first on. 0 is for none: a link has a record's own field, of 16 bits, and no memory besides. No row is marked. The cast is
// proved; try_from would add an error that no call gives.
pub fn link_rows(rows: &[Row], out: &mut [Span]) -> [u16; 256]
    requires { RowsAsked rows.now out.old }
    ensures { ChainedTo rows.now result out.new }
{
    let mut heads = [0u16; 256];
    for j in (0..rows.len()).rev() {
        let line = usize::from(rows[j].line);
        rows::put_link(out, j, heads[line]);
        rows::put_mark(out, j, 0);
        heads[line] = (rows.len() - j) as u16;
    }
    heads
}

// How many rows there are from the first one of a line on.
pub fn first_of(heads: &[u16; 256], line: u8) -> usize
    ensures { (result ≡ get_or heads.now line 0) × (line < 256) }
{
    usize::from(heads[usize::from(line)])
}

// How many from the next one of its line on, of row j.
pub fn next_of(out: &[Span], j: usize) -> usize
    requires { j < length out.now }
    ensures { result ≡ link_at out.now j }
{
    usize::from(rows::link_at(out, j))
}

// The sums of a pass, for the span with the row r: its line is walked. That rows, out and heads are chained is asked here and below: out is lent
// and changes between the calls, and a struct that held it would be made anew for each.
#[tactic(auto, using(crate::proofs::Chain::sums_on, crate::proofs::Chain::sums_done))]
pub fn offset_horiz(rows: &[Row], out: &[Span], heads: &[u16; 256], r: &Row) -> Sums
    requires { Chained rows.now out.now heads.now }
    ensures { SumsOf rows.now r.now result }
{
    let mut o = Sums::default();
    for e in Chain::new(rows, out, heads, r.line) {
        o = o.advance(r, e);
    }
    o
}

// A row of the group, with the gap before it: the gap at its number, its width at the next.
fn add_row(table: &mut [u64; 257], e: &Row, g: u64)
    requires { (g < 65536) × Small 17592186044416 table.old }
    ensures { AddedRow table.old table.new e.now g }
{
    let k = usize::from(e.span);
    table[k] += g;
    table[k + 1] += u64::from(e.width);
}

// One row more of the pass, for the table and for the sums of r.
fn enter(table: &mut [u64; 257], r: &Row, o: Sums, e: &Row) -> Sums
    requires { Room table.old o }
    ensures { Entered r.now e.now table.old o table.new result }
{
    if matches_span(r, e) {
        add_row(table, e, o.gap(e));
        return o.join(r.span, e);
    }
    o
}

// The table of the group of r, made in a table of zeros.
#[tactic(auto, using(crate::proofs::Table::gather_start, crate::proofs::Table::gather_room, crate::proofs::Table::gather_on))]
pub fn gather(rows: &[Row], out: &[Span], heads: &[u16; 256], r: &Row, table: &mut [u64; 257])
    requires { Chained rows.now out.now heads.now × (table.old ≡ replicate 257 0) }
    ensures { TableOf rows.now r.now table.new }
{
    let mut o = Sums::default();
    for e in Chain::new(rows, out, heads, r.line) {
        o = enter(table, r, o, e);
    }
}

// The sum of some places.
fn total(places: &[u64]) -> u64
    requires { sum places.now < 2 ^ 64 }
    ensures { result ≡ sum places.now }
{
    places.iter().sum()
}

// What stands before number k: on from the sum up to p, or from the first place.
pub fn reach(table: &[u64; 257], p: usize, sum: u64, k: usize) -> u64
    requires within { k < 256 }
    requires reached { sum ≡ upto table.now p }
    requires small { upto table.now k ≤ 17592186044416 }
    ensures { result ≡ upto table.now k }
{
    if p <= k {
        return sum + total(&table[p + 1..k + 1]);
    }
    total(&table[..k + 1])
}
