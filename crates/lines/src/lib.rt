// The lines of a page justification, and what stands above and below a line's foot.
#![tactic(auto)]

ghost use Rattle.std.specs.Prelude.{◌≡◌, ◌≤◌, ◌<◌};
ghost use Rattle.layout.specs.Placing.{combine as combine_of, gap_above};
ghost use Rattle.rows.specs.Measured.{font_only};
ghost use Rattle.lines.specs.Lines.{line_is, line_above, row_line, RowAdded, LinesOf, PageHeights, foot_in, heights_in};

use layout::Fault;
use rows::Row;

// A line, and a span as a line of its own.
#[derive(Clone, Copy, Default)]
struct TextLine {
    height: u16,
    font_spacing: u16,
    line_spacing: Option<u16>,
}

impl TextLine {
    fn new(row: &Row) -> TextLine
        ensures { line_is result ≡ row_line row.now }
    {
        TextLine {
            height: row.height,
            font_spacing: row.font_spacing,
            line_spacing: row.lead,
        }
    }

    // Two spans of one line: the larger of each, and the first spacing of its own.
    fn combine(self, other: TextLine) -> TextLine
        ensures { line_is result ≡ combine_of (line_is self) (line_is other) }
    {
        TextLine {
            height: self.height.max(other.height),
            font_spacing: self.font_spacing.max(other.font_spacing),
            line_spacing: self.line_spacing.or(other.line_spacing),
        }
    }
}

// A font's fault: 12 is not one.
fn font_only(fault: Option<Fault>) -> Option<Fault>
    ensures { result ≡ font_only fault }
{
    fault.filter(|f| f.number != 12)
}

// The lines so far: the first count, each at its number; and the first font fault met while they were collected: an Option beside them and no
// Result, since lines are collected past a fault. An array with its count, since an ArrayVec is not Copy, and this is.
#[derive(Clone, Copy)]
pub struct LineList {
    lines: [TextLine; 256],
    count: usize,
    fault: Option<Fault>,
}

impl LineList {
    // A row more: it joins the line of its number, or is the next line.
    fn add(&mut self, row: &Row)
        requires { self.old.count ≤ 256 }
        ensures { RowAdded self.old row.now self.new }
    {
        self.fault = self.fault.or(font_only(row.fault));
        let own = TextLine::new(row);
        let at = usize::from(row.line);
        if at < self.count {
            self.lines[at] = self.lines[at].combine(own);
        } else {
            self.lines[self.count] = own;
            self.count += 1;
        }
    }
}

// The lines of the rows with a page justification.
fn line_list(rows: &[Row], just: u16) -> LineList
    ensures { LinesOf rows.now just result }
{
    let mut list = LineList {
        lines: [TextLine::default(); 256],
        count: 0,
        fault: None,
    };
    for row in rows {
        if row.just_page == just {
            list.add(row);
        }
    }
    list
}

// The spacing above a line.
#[tactic(auto, unfolding(layout::specs::Placing::line_gap))]
fn gap(char_height: u8, above: Option<TextLine>, line: TextLine) -> u32
    ensures is { result ≡ gap_above char_height (line_above above) (line_is line) }
    ensures small { result < 65536 }
{
    let Some(above) = above else {
        return 0;
    };
    if char_height != 0 {
        return 0;
    }
    match line.line_spacing {
        Some(n) => u32::from(n),
        None => rows::half_up(above.font_spacing, line.font_spacing),
    }
}

// What stands above the foot of a line, and below it, and the first font fault of its page justification (beside them, as in the definition).
#[derive(Clone, Copy)]
pub struct Heights {
    pub above: u64,
    pub below: u64,
    pub fault: Option<Fault>,
}

// The lines of page justification just, summed up: how many they are, what they take in all (that is also above the foot of a line that is not
// there), their first font fault, and what stands above the foot of each by its number. just is a number, as in `Row`: an enum would be its
// number again. The feet are an array with its count, as in `LineList`.
#[derive(Clone, Copy)]
pub struct PageLines {
    pub just: u16,
    pub count: usize,
    pub total: u32,
    pub fault: Option<Fault>,
    feet: [u32; 256],
}

impl PageLines {
    pub fn new(char_height: u8, rows: &[Row], just: u16) -> PageLines
        ensures { PageHeights char_height rows.now just result }
    {
        let list = line_list(rows, just);
        let mut feet = [0; 256];
        let mut total: u32 = 0;
        let mut above: Option<TextLine> = None;
        for (i, line) in list.lines[..list.count].iter().enumerate() {
            total += gap(char_height, above, *line) + u32::from(line.height);
            feet[i] = total;
            above = Some(*line);
        }
        PageLines {
            just,
            count: list.count,
            total,
            fault: list.fault,
            feet,
        }
    }

    // What stands above the foot of a line, and below it.
    pub fn offset_vert(&self, line: u8) -> Heights
        requires { foot_in self.now line ≤ self.now.total }
        ensures { result ≡ heights_in self.now line }
    {
        let at = usize::from(line);
        let foot = if at < self.count {
            self.feet[at]
        } else {
            self.total
        };
        Heights {
            above: u64::from(foot),
            below: u64::from(self.total - foot),
            fault: self.fault,
        }
    }
}
