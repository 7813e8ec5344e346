// Page states, and the scan of a page: its times and its first failing slice, before any placing.
#![tactic(auto)]

ghost use Rattle.std.specs.Prelude.{◌≡◌, ◌+◌, ◌≤◌, length};
ghost use Rattle.layout.specs.Read.{tagged as tagged_of, mark_of, mark_item, scan as scan_of};
ghost use Rattle.page.specs.State.{new_page, done_after, next_state};
ghost use Rattle.page.specs.Scan.{end_of, look_by, look_at, items_from};

use layout::{Mark, Scan};
use records::Config;
use refusal::Refusal;
use std::ops::ControlFlow;
use token::Slices;
use value::{Place, SyntaxError, Value};

// A tag needs its name's bit in the sign's tags.
fn tagged(tags: u32, v: Value, m: Mark) -> Result<Mark, SyntaxError>
    ensures { result ≡ tagged_of tags v m }
{
    if value::has_tag(tags, v.tag()) {
        Ok(m)
    } else {
        Err(SyntaxError::UnsupportedTag)
    }
}

fn mark_of(tags: u32, v: Value) -> Result<Mark, SyntaxError>
    ensures { result ≡ mark_of tags v }
{
    match v {
        Value::NewPage => tagged(tags, v, Mark::Ends),
        Value::PageTime(on, off) => tagged(tags, v, Mark::Timed(on, off)),
        Value::Text(_) => Ok(Mark::Plain),
        _ => tagged(tags, v, Mark::Plain),
    }
}

fn mark_item(tags: u32, item: Result<Value, SyntaxError>) -> Result<Mark, SyntaxError>
    ensures { result ≡ mark_item tags item }
{
    mark_of(tags, item?)
}

// The times of a page, on and off. layout's `Scan`, which the definitions share, has them as fields of its own.
#[derive(Clone, Copy)]
pub struct Times {
    pub on: u16,
    pub off: u16,
}

impl Times {
    // The scan that ends with them.
    fn end(self, fault: Option<Refusal>) -> Scan
        ensures { result ≡ end_of self fault }
    {
        Scan {
            on: self.on,
            off: self.off,
            fault,
        }
    }
}

// The times after an item at a place, or the scan's end.
fn look_by(
    c: Config,
    times: Times,
    p: Place,
    m: Result<Mark, SyntaxError>,
) -> ControlFlow<Scan, Times>
    ensures { result ≡ look_by c times p m }
{
    match m {
        Ok(Mark::Plain) => ControlFlow::Continue(times),
        Ok(Mark::Ends) => ControlFlow::Break(times.end(None)),
        Ok(Mark::Timed(a, b)) => ControlFlow::Continue(Times {
            on: a.unwrap_or(u16::from(c.on_time)),
            off: b.unwrap_or(u16::from(c.off_time)),
        }),
        Err(e) => ControlFlow::Break(times.end(Some(layout::refusal_at(p, e.number())))),
    }
}

// What the slice s, which starts at a place, makes of the times. The casts are proved; try_from would add an error that no call gives.
fn look_at(s: &[u8], at: usize, c: Config, times: Times) -> ControlFlow<Scan, Times>
    requires { at + length s.now ≤ 2048 }
    ensures { result ≡ look_at c times at s.now }
{
    let m = mark_item(c.tags, reading::item_of(at, s, c.long_times));
    let p = Place {
        start: at as u16,
        len: s.len() as u16,
    };
    look_by(c, times, p, m)
}

// The scan of a page from a place of the message on, up to and including [np].
#[tactic(auto, using(crate::proofs::Laws::scan_ways))]
pub fn scan(msg: &[u8], from: usize, c: Config, mut times: Times) -> Scan
    requires { length msg.now ≤ 2048 }
    ensures { result ≡ scan_of c times.on times.off (items_from c from msg.now) }
{
    for (at, s) in Slices::new(msg, from) {
        match look_at(s, at, c, times) {
            ControlFlow::Continue(next) => times = next,
            ControlFlow::Break(end) => return end,
        }
    }
    times.end(None)
}

// A page that is on or off, with whether more pages follow, or all pages done.
#[derive(Clone, Copy)]
pub enum PageState {
    On(bool),
    Off(bool),
    Done,
}

impl PageState {
    // The state for a new page.
    pub fn new_page(page_off: bool) -> PageState
        ensures { result ≡ new_page page_off }
    {
        if page_off {
            PageState::Off(true)
        } else {
            PageState::On(true)
        }
    }

    // The state for the end of the message.
    pub fn done(page_off: bool) -> PageState
        ensures { result ≡ done_after page_off }
    {
        if page_off {
            PageState::Off(false)
        } else {
            PageState::Done
        }
    }

    // The next page state.
    pub fn next_state(self) -> PageState
        ensures { result ≡ next_state self }
    {
        match self {
            PageState::On(true) => PageState::Off(true),
            PageState::Off(true) => PageState::On(false),
            PageState::On(false) | PageState::Off(false) | PageState::Done => PageState::Done,
        }
    }
}
