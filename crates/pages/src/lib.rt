// The pages of a message, one answer after the other, as the Rust's iterator `Pages` gives them. rows and out stand beside call: they are lent, and
// change, and each answer has another part of out, so that a struct of both would be made anew for each.
#![tactic(auto)]

ghost use Rattle.std.specs.Prelude.{◌≡◌};
ghost use Rattle.refusal.specs.Refusals.{refusal as refusal_of};
ghost use Rattle.pass.specs.Pass.{start_at};
ghost use Rattle.pages.specs.Pages.{RenderAsked, PassRendered, page_done, PageRendered, state_after, off_shown, off_left, first_of};
ghost use Rattle.pages.specs.Pages.{NextAsked, OnRead, NextRead};

use layout::{RenderState, Span};
use meter::Call;
use page::{PageState, Times};
use pass::{How, PassDone, Reached};
use records::Config;
use refusal::Refusal;
use rows::Row;

// As many passes as a page can have.
const MAX_TEXT_RECTANGLES: usize = 50;

// A page that is done: whether [np] ended it, and how far it came: the place past that, its counts, and the state of a page after it.
#[derive(Clone, Copy)]
pub struct PageDone {
    pub more: bool,
    pub reached: Reached,
}

// Where the next answer comes from: the place in the message, the state and the times there, and whether a page is on or off.
#[derive(Clone, Copy)]
pub struct Pages {
    pub at: usize,
    pub render_state: RenderState,
    pub times: Times,
    pub page_state: PageState,
}

// An answer: an on page with its duration, the count of its records and that of the characters looked up; or an off page with its duration.
#[derive(Clone, Copy)]
pub enum PageShown {
    On {
        duration: u16,
        count: usize,
        looked: usize,
    },
    Off(u16),
}

// The pass behind what was reached of its page, read and placed as records behind those of the page so far: how it ends, with the page's
// counts.
fn render_pass(
    call: &Call,
    p: Reached,
    rows: &mut [Row],
    out: &mut [Span],
) -> Result<PassDone, Refusal>
    requires { RenderAsked call.now rows.old out.old p }
    ensures { PassRendered call.now p rows.old out.old rows.new out.new result }
{
    let d = pass::read_pass(call, p.at, p.state, rows)?;
    let q = d.reached;
    place::place_pass(
        call.table.config,
        d.rect,
        &rows[..q.count],
        &mut out[p.count..],
    )?;
    let reached = Reached {
        count: p.count + q.count,
        looked: p.looked + q.looked,
        ..q
    };
    Ok(PassDone { reached, ..d })
}

// 15: the page's 51st pass has been placed.
fn too_many() -> Refusal
    ensures { result ≡ refusal_of 15 0 0 0 }
{
    Refusal::of(15)
}

// The page whose last pass is done.
fn end_page(c: Config, more: bool, p: Reached) -> PageDone
    ensures { result ≡ page_done c more p }
{
    let state = p.state.new_page(c);
    PageDone {
        more,
        reached: Reached { state, ..p },
    }
}

// The page from a place on: its records stand first in the slice.
fn render_page(
    call: &Call,
    from: usize,
    start: RenderState,
    rows: &mut [Row],
    out: &mut [Span],
) -> Result<PageDone, Refusal>
    requires { RenderAsked call.now rows.old out.old (start_at from start) }
    ensures { PageRendered call.now from start rows.old out.old rows.new out.new result }
{
    let c = call.table.config;
    let mut p = Reached::start(from, start);
    for _ in 0..MAX_TEXT_RECTANGLES {
        let d = render_pass(call, p, rows, out)?;
        match d.how {
            How::Cut => p = d.reached,
            How::Turn => return Ok(end_page(c, true, d.reached)),
            How::End => return Ok(end_page(c, false, d.reached)),
        }
    }
    render_pass(call, p, rows, out)?;
    Err(too_many())
}

// Whether a page is on or off after an on page with the off time off.
fn state_after(more: bool, off: u16) -> PageState
    ensures { result ≡ state_after more off }
{
    if more {
        return PageState::new_page(0 < off);
    }
    PageState::done(0 < off)
}

impl Pages {
    // Before the first answer.
    pub fn new(c: Config) -> Pages
        ensures { result ≡ first_of c }
    {
        let render_state = RenderState::start(c);
        Pages {
            at: 0,
            render_state,
            times: Times {
                on: u16::from(c.on_time),
                off: u16::from(c.off_time),
            },
            page_state: PageState::On(true),
        }
    }

    // An on page.
    fn render_on_page(
        &mut self,
        call: &Call,
        rows: &mut [Row],
        out: &mut [Span],
    ) -> Result<PageShown, Refusal>
        requires { NextAsked call.now self.old rows.old out.old }
        ensures { OnRead call.now self.old rows.old out.old self.new rows.new out.new result }
    {
        let s = page::scan(call.msg, self.at, call.table.config, self.times);
        if let Some(r) = s.fault {
            return Err(r);
        }
        let d = render_page(call, self.at, self.render_state, rows, out)?;
        let p = d.reached;
        *self = Pages {
            at: p.at,
            render_state: p.state,
            times: Times {
                on: s.on,
                off: s.off,
            },
            page_state: state_after(d.more, s.off),
        };
        Ok(PageShown::On {
            duration: s.on,
            count: p.count,
            looked: p.looked,
        })
    }

    // An off page.
    fn render_off_page(&mut self) -> PageShown
        ensures after { self.new ≡ off_left self.old }
        ensures shown { result ≡ off_shown self.old }
    {
        self.page_state = self.page_state.next_state();
        PageShown::Off(self.times.off)
    }

    // The next answer, if there is one; the records of an on page stand first in the slice.
    pub fn next(
        &mut self,
        call: &Call,
        rows: &mut [Row],
        out: &mut [Span],
    ) -> Result<Option<PageShown>, Refusal>
        requires { NextAsked call.now self.old rows.old out.old }
        ensures { NextRead call.now self.old rows.old out.old self.new rows.new out.new result }
    {
        match self.page_state {
            PageState::On(_) => self.render_on_page(call, rows, out).map(Some),
            PageState::Off(_) => Ok(Some(self.render_off_page())),
            PageState::Done => Ok(None),
        }
    }
}
