// Placing the spans of one pass: each measured row becomes a record, or the first refusal is answered.
#![tactic(auto)]

ghost use Rattle.std.specs.Prelude.{◌≡◌, ◌+◌, ◌≤◌, ◌<◌, length};
ghost use Rattle.std.specs.Result.{result_err};
ghost use Rattle.layout.specs.Placing.{trunc as trunc_of};
ghost use Rattle.rows.specs.Rows.{row_at, MarkPut};
ghost use Rattle.lines.specs.Lines.{PageHeights};
ghost use Rattle.place.specs.Placed.{goes_back_from, back_rows, stands_at, across_at, across_fault, refusal_of, fault_end, record_by};
ghost use Rattle.place.specs.Placed.{SpanAsked, SpanPlaced, LinesMade, Placeable, RowByRow, PassPlaced};
ghost use Rattle.place.specs.Groups.{MarkAsked, Ready, CrossedTo, GroupAsked, OthersAsked, GroupPlaced, PlacedAcross, DownAsked, PlacedDown};

mod shared;

use layout::{Rect, Span};
use lines::{Heights, PageLines};
use records::Config;
use refusal::Refusal;
use rows::Row;
use shared::Pass;
use sums::Sums;

// Whether a row's justification goes back from that of the row before. The three have no order that could be derived: lines are compared for
// equality alone.
fn goes_back(before: &Row, e: &Row) -> bool
    ensures { result ≡ goes_back_from before.now.just_page before.now.line before.now.just_line e.now }
{
    e.just_page < before.just_page
        || e.just_page == before.just_page
            && e.line == before.line
            && e.just_line < before.just_line
}

// A refusal of the span of a row.
fn refused(r: &Row, number: u8, detail: u16) -> Refusal
    ensures { result ≡ refusal_of r.now number detail }
{
    Refusal {
        number,
        start: r.start,
        length: r.len,
        detail,
    }
}

// Refusal 9, of the first row whose justification goes back.
fn check_justification(rows: &[Row]) -> Result<(), Refusal>
    ensures { result_err result ≡ back_rows 0 0 0 rows.now }
{
    let mut before = Row::default();
    for e in rows {
        if goes_back(&before, e) {
            return Err(refused(e, 9, 0));
        }
        before = *e;
    }
    Ok(())
}

// Truncated to the character grid.
fn trunc(n: u8, x: u16) -> u16
    ensures { (result ≡ trunc_of n x) × (result ≤ x) }
{
    let k = layout::unit(n);
    x / k * k
}

// Where a span with a before it and b from there on stands in a rectangle: at its start, in the middle, or at its end. The six numbers are
// of one axis, across or down, and no other function has them together. The casts are proved; try_from would add an error that no call gives.
fn stand(just: u16, grid: u8, from: u16, size: u16, a: u64, b: u64) -> u16
    requires { (a + b ≤ size) × (from + size ≤ 4096) }
    ensures { (result ≡ stands_at just grid from size a b) × (result ≤ 4096) }
{
    let before = a as u16;
    let after = b as u16;
    match just {
        2 => from + before,
        3 => trunc(grid, from + (size - before - after) / 2 + before),
        _ => from + size - after,
    }
}

// How many rows of a pass, from the first on, are placed across; the refusal of the next, if there is one.
#[derive(Clone, Copy)]
struct Across {
    count: usize,
    end: Result<(), Refusal>,
}

impl<'a> Pass<'a> {
    // The record of a row at its place. The cast is proved: a span that fits is no wider than its rectangle.
    fn record_of(&self, r: &Row, x: u16, y: u16) -> Span
        requires { r.now.width ≤ self.now.rect.width }
        ensures { result ≡ record_by self.now.rect r.now x y }
    {
        Span {
            kind: r.kind,
            start: r.start,
            length: r.len,
            code: r.code,
            x,
            y,
            width: r.width as u16,
            height: r.height,
            font: r.font,
            line: u16::from(r.line),
            span: u16::from(r.span),
            rect_x: self.rect.left + 1,
            rect_y: self.rect.top + 1,
            rect_width: self.rect.width,
            rect_height: self.rect.height,
        }
    }

    // The refusal of a row's group by its sums: its first fault, or 13.
    fn fits_across(&self, r: &Row, o: Sums) -> Result<(), Refusal>
        requires { o.before + o.after ≤ 17592186044416 }
        ensures { result ≡ fault_end r.now (across_fault self.now.rect o) }
    {
        if let Some(f) = o.fault {
            return Err(refused(r, f.number, f.detail));
        }
        if u64::from(self.rect.width) < o.before + o.after {
            return Err(refused(r, 13, 0));
        }
        Ok(())
    }

    // Row i is placed across, with a before it in its group and b from there on: it is marked with its x and 1.
    fn mark(&self, out: &mut [Span], i: usize, a: u64, b: u64)
        requires { MarkAsked self.now out.old i a b }
        ensures { MarkPut out.old i (across_at self.now.config self.now.rect (row_at self.now.rows.now i) a b + 1) out.new }
    {
        let just = self.rows[i].just_line;
        let x = stand(
            just,
            self.config.char_width,
            self.rect.left,
            self.rect.width,
            a,
            b,
        );
        rows::put_mark(out, i, x + 1);
    }

    // All rows of the group of r are marked: the table tells what stands before each, and together they take total. The line's chain is walked by
    // hand: its links are read from out, which each turn marks, so that no iterator can hold it.
    fn mark_group(&self, out: &mut [Span], r: &Row, total: u64, table: &[u64; 257])
        requires { GroupAsked self.now out.old r.now total table.now }
        ensures { CrossedTo self.now out.old out.new }
    {
        let mut p: usize = 0;
        let mut sum = table[0];
        let mut k = sums::first_of(self.heads, r.line);
        while 0 < k {
            let i = self.rows.len() - k;
            let e = &self.rows[i];
            k = sums::next_of(out, i);
            if !sums::matches_span(r, e) {
                continue;
            }
            let s = usize::from(e.span);
            sum = sums::reach(table, p, sum, s);
            p = s;
            self.mark(out, i, sum, total - sum);
        }
    }

    // The other rows of the group of r, whose sums are o. Of up to three each comes by itself: the table takes as many walks.
    fn mark_others(&self, out: &mut [Span], r: &Row, o: Sums)
        requires { OthersAsked self.now out.old r.now o }
        ensures { CrossedTo self.now out.old out.new }
    {
        if o.count < 4 {
            return;
        }
        let mut table = [0u64; 257];
        sums::gather(self.rows, out, self.heads, r, &mut table);
        self.mark_group(out, r, o.before + o.after, &table);
    }

    // Row i is placed across with its whole group, if it is not yet; or the refusal of its group is answered. That out is chained (Ready) is asked
    // at each step: out is lent and changes, and a struct that held it would be made anew for each row.
    fn place_group(&self, out: &mut [Span], i: usize) -> Result<(), Refusal>
        requires { Ready self.now out.old × (i < length self.now.rows.now) }
        ensures { GroupPlaced self.now out.old i out.new result }
    {
        if rows::mark_at(out, i) != 0 {
            return Ok(());
        }
        let r = &self.rows[i];
        let o = sums::offset_horiz(self.rows, out, self.heads, r);
        self.fits_across(r, o)?;
        self.mark(out, i, o.before, o.after);
        self.mark_others(out, r, o);
        Ok(())
    }

    // The rows are placed across, group by group, up to the first that is refused.
    fn place_across(&self, out: &mut [Span]) -> Across
        requires { Ready self.now out.old }
        ensures { PlacedAcross self.now out.new result }
    {
        for i in 0..self.rows.len() {
            if let Err(f) = self.place_group(out, i) {
                return Across {
                    count: i,
                    end: Err(f),
                };
            }
        }
        Across {
            count: self.rows.len(),
            end: Ok(()),
        }
    }

    // The span of a row that is placed across, with the heights of its line.
    fn place_span(&self, r: &Row, x: u16, v: Heights) -> Result<Span, Refusal>
        requires { SpanAsked self.now r.now v }
        ensures { SpanPlaced self.now r.now x v result }
    {
        if let Some(f) = v.fault {
            return Err(refused(r, f.number, f.detail));
        }
        if u64::from(self.rect.height) < v.above + v.below {
            return Err(refused(r, 13, 0));
        }
        let grid = self.config.char_height;
        let foot = stand(
            r.just_page,
            grid,
            self.rect.top,
            self.rect.height,
            v.above,
            v.below,
        );
        if foot < r.height {
            return Err(refused(r, 14, 0));
        }
        Ok(self.record_of(r, x, foot - r.height))
    }

    // The lines of a page justification: those there, or made anew if these are of another.
    fn lines_for(&self, page: &mut PageLines, want: u16)
        requires { LinesMade self.now page.old }
        ensures { PageHeights self.now.config.char_height self.now.rows.now want page.new }
    {
        if page.just == want {
            return;
        }
        *page = PageLines::new(self.config.char_height, self.rows, want);
    }

    // The first m rows, which are placed across: a refusal, or their records.
    fn place_down(&self, out: &mut [Span], m: usize) -> Result<(), Refusal>
        requires { DownAsked self.now out.old m }
        ensures { PlacedDown self.now m out.new result }
    {
        let mut page = PageLines::new(self.config.char_height, self.rows, 2);
        for (i, r) in self.rows[..m].iter().enumerate() {
            self.lines_for(&mut page, r.just_page);
            let v = page.offset_vert(r.line);
            let x = rows::mark_at(out, i) - 1;
            out[i] = self.place_span(r, x, v)?;
        }
        Ok(())
    }

    // Row by row: a refusal, or all records.
    fn place_rows(&self, out: &mut [Span]) -> Result<(), Refusal>
        requires { Ready self.now out.old }
        ensures { RowByRow self.now out.new result }
    {
        let across = self.place_across(out);
        self.place_down(out, across.count)?;
        across.end
    }
}

// The records of a pass are stored first in the slice, or its first refusal is answered; what is behind them stays.
pub fn place_pass(config: Config, rect: Rect, rows: &[Row], out: &mut [Span]) -> Result<(), Refusal>
    requires { Placeable rect rows.now out.old }
    ensures { PassPlaced config rect rows.now out.old out.new result }
{
    if rows.is_empty() {
        return Ok(());
    }
    check_justification(rows)?;
    let out = &mut out[..rows.len()];
    let heads = sums::link_rows(rows, out);
    let pass = Pass {
        config,
        rect,
        rows,
        heads: &heads,
    };
    pass.place_rows(out)
}
