// Reading a pass: the values of a message up to [tr], [np] or the end, into rows of measured spans.
#![tactic(auto)]

ghost use Rattle.std.specs.Prelude.{◌≡◌, ◌+◌, ◌≤◌, ◌<◌, ◌⊎◌, [], length};
ghost use Rattle.layout.specs.Types.{JustsOf};
ghost use Rattle.meter.specs.Gauges.{WidthsOf};
ghost use Rattle.pass.specs.Groups.{group_count, slot_of, Slotted, renumbered_by, numbers_with, Numbered};
ghost use Rattle.pass.specs.Pass.{step_at, start_at, Holds, Storable, Stored, PassAsked, PassRead};

use font::FontWidths;
use layout::{Entry, Rect, RenderState, Step};
use meter::Call;
use refusal::Refusal;
use rows::Row;
use token::Slices;
use value::Place;

// As many groups as a pass can have: 256 lines, with 3 page justifications and 3 line justifications each.
const GROUPS: usize = 2304;

// What ends a pass: [tr], [np] or the message's end. No Option: none of the three is missing, and the page goes on otherwise at each.
#[derive(Clone, Copy)]
pub enum How {
    Cut,
    Turn,
    End,
}

// How far the reading of a page has come: the place in the message, the counts of spans and of the characters looked up for them, and the
// state.
#[derive(Clone, Copy)]
pub struct Reached {
    pub at: usize,
    pub count: usize,
    pub looked: usize,
    pub state: RenderState,
}

impl Reached {
    // Before the first span.
    pub fn start(at: usize, state: RenderState) -> Reached
        ensures { result ≡ start_at at state }
    {
        Reached {
            at,
            count: 0,
            looked: 0,
            state,
        }
    }
}

// A pass that is done: what ended it, its rectangle, and how far it came: the place past what ended it, and the state after [tr], before
// [np] or at the message's end.
#[derive(Clone, Copy)]
pub struct PassDone {
    pub how: How,
    pub rect: Rect,
    pub reached: Reached,
}

// The place of a state's group in the table of the groups' numbers.
fn slot(st: RenderState) -> usize
    requires { JustsOf st }
    ensures { (result ≡ slot_of st) × (result < group_count) }
{
    let page = usize::from(st.just_page - 2);
    let line = usize::from(st.just_line - 2);
    (usize::from(st.line) * 3 + page) * 3 + line
}

// The state gets the number that comes next in its group, where there is a table of them.
fn renumber(numbers: &[u8], st: &mut RenderState)
    requires { Slotted numbers.now st.old }
    ensures { st.new ≡ renumbered_by numbers.now st.old }
{
    if !numbers.is_empty() {
        st.span = numbers[slot(*st)];
    }
}

// A span was read in the state: the next of its group has the number above.
fn take_number(numbers: &mut [u8], st: RenderState)
    requires slotted { Slotted numbers.old st }
    requires few { numbers.old ≡ [] ⊎ st.span < 255 }
    ensures { numbers.new ≡ numbers_with numbers.old st }
{
    if !numbers.is_empty() {
        numbers[slot(st)] = st.span + 1;
    }
}

// What the slice s, which starts at a place, does. The casts are proved; try_from would add an error that no call gives.
#[tactic(auto, unfolding(crate::specs::Pass::step_at, layout::specs::Read::step))]
fn step_at(call: &Call, at: usize, s: &[u8], st: RenderState, blank: bool) -> Result<Step, Refusal>
    requires { at + length s.now ≤ length call.now.msg.now }
    ensures { result ≡ step_at call.now.table.config st blank at s.now }
{
    let p = Place {
        start: at as u16,
        len: s.len() as u16,
    };
    match reading::item_of(at, s, call.table.config.long_times) {
        Ok(v) => render::step(call.table.config, st, blank, p, v),
        Err(e) => Err(layout::refusal_at(p, e.number())),
    }
}

// Takes the widths of the font with a number, if they are not held. Held is the font that was measured in last, if the sign file has it.
// Holds is asked of callers: FontWidths knows its font, but not whose table that font is of.
fn hold<'a>(call: &Call<'a>, number: u8, held: &mut Option<FontWidths<'a, 256>>)
    requires { Holds call.now held.old }
    ensures { WidthsOf call.now number held.new }
{
    if !matches!(held, Some(widths) if widths.font.entry.number == number) {
        *held = meter::widths_of(call.file, &call.table, number);
    }
}

// Stores a span's row behind the n before it, and answers how many characters its measure looked up. n stands beside the slice: the pass
// answers it, and an iterator over the rows would add a None that no call gives. No ArrayVec: there are rows for 256 bytes or for 2,048, and
// all that reads a page would be compiled for both.
fn store<'a>(
    call: &Call<'a>,
    e: Entry,
    held: &mut Option<FontWidths<'a, 256>>,
    rows: &mut [Row],
    n: usize,
) -> usize
    requires { Storable call.now e held.old rows.old n }
    ensures { Stored call.now e rows.old n held.new rows.new result }
{
    hold(call, e.state.font, held);
    let (row, looked) = meter::row_of(call, held, e);
    rows[n] = row;
    looked
}

// The slices of a pass from a place on, with a table of its groups' numbers, or an empty one where they do not count. No const parameter:
// with two copies of the loop what it calls is no longer part of it, and a span takes a tenth longer.
fn read_slices(
    call: &Call,
    from: usize,
    start: RenderState,
    rows: &mut [Row],
    numbers: &mut [u8],
) -> Result<PassDone, Refusal>
    requires asked { PassAsked call.now from start rows.old }
    requires none_yet { Numbered call.now.table.config [] numbers.old }
    ensures { PassRead call.now from start rows.old rows.new result }
{
    let mut p = Reached::start(from, start);
    let mut blank = true;
    let mut held: Option<FontWidths<256>> = None;
    let mut how = How::End;
    for (at, s) in Slices::new(call.msg, from) {
        renumber(numbers, &mut p.state);
        let step = step_at(call, at, s, p.state, blank)?;
        p.at = at + s.len();
        match step {
            Step::Go(next, b) => {
                p.state = next;
                blank = b;
            }
            Step::Emit(e, next, b) => {
                take_number(numbers, e.state);
                p.looked += store(call, e, &mut held, rows, p.count);
                p.count += 1;
                p.state = next;
                blank = b;
            }
            Step::Cut(next) => {
                p.state = next;
                how = How::Cut;
                break;
            }
            Step::Turn => {
                how = How::Turn;
                break;
            }
        }
    }
    Ok(PassDone {
        how,
        rect: start.rect,
        reached: p,
    })
}

// The pass from a place on. Its spans' rows stand first in the slice. A table is cleared only where the groups' numbers count.
#[tactic(auto, using(crate::proofs::Groups::numbers_none))]
pub fn read_pass(
    call: &Call,
    from: usize,
    start: RenderState,
    rows: &mut [Row],
) -> Result<PassDone, Refusal>
    requires { PassAsked call.now from start rows.old }
    ensures { PassRead call.now from start rows.old rows.new result }
{
    if !call.table.config.groups {
        return read_slices(call, from, start, rows, &mut []);
    }
    let mut numbers = [0; GROUPS];
    read_slices(call, from, start, rows, &mut numbers)
}
