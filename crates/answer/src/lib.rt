// The computation of an answer: sign file, message, answer number and room give the answer with its counts, and its records.
#![tactic(auto)]

ghost use Rattle.std.specs.Prelude.{◌≡◌, ◌≤◌, ◌<◌, length};
ghost use Rattle.pages.specs.Pages.{Ready};
ghost use Rattle.answer.specs.Answer.{bare, placed_by, Answerable, RecordRoom, Numbered, Computed, PlacedAs};

use counts::Placed;
use layout::{Answer, Span};
use meter::Call;
use pages::{PageShown, Pages};
use refusal::Refusal;
use rows::{ROOM, Row, SHORT_ROOM};

// An answer without records: both counts are 0.
fn unplaced(answer: Answer) -> Placed
    ensures { result ≡ bare answer }
{
    Placed {
        answer,
        looked: 0,
        spans: 0,
    }
}

// The answer that comes next, after so many before. The casts are proved to lose nothing; try_from would add an error that no call gives.
fn answer_of(next: Result<Option<PageShown>, Refusal>, before: usize) -> Placed
    requires { Answerable next before }
    ensures { result ≡ placed_by next before }
{
    match next {
        Ok(
            Some(
                PageShown::On {
                    duration,
                    count,
                    looked,
                },
            ),
        ) => {
            let spans = count as u16;
            Placed {
                answer: Answer::On(duration, spans),
                looked: looked as u16,
                spans,
            }
        }
        Ok(Some(PageShown::Off(duration))) => unplaced(Answer::Off(duration)),
        Ok(None) => unplaced(Answer::End(before as u16)),
        Err(r) => unplaced(Answer::Refused(r)),
    }
}

// Answer number n of a message: it goes through the answers before it and stops at the first refusal. The cast is proved, as those above.
fn numbered(call: &Call, number: usize, rows: &mut [Row], out: &mut [Span]) -> Placed
    requires { Ready call.now rows.old out.old }
    ensures { Numbered call.now number out.old out.new result }
{
    let mut pages = Pages::new(call.table.config);
    for i in 0..number {
        match pages.next(call, rows, out) {
            Ok(Some(_)) => {}
            Ok(None) => return unplaced(Answer::End(i as u16)),
            Err(r) => return unplaced(Answer::Refused(r)),
        }
    }
    answer_of(pages.next(call, rows, out), number)
}

// The same, with rows for as many spans as the message can have: one for each of its bytes. fits: the bytes of the array have to fit usize.
// In a frame of its own, so that the stack does not hold them beside the tables with which a sign file is checked.
#[inline(never)]
fn paged<const N: usize>(call: &Call, number: usize, out: &mut [Span]) -> Placed
    requires rowed { length call.now.msg.now ≤ N }
    requires fits { N < 65536 }
    requires room { length call.now.msg.now ≤ length out.old }
    ensures { Numbered call.now number out.old out.new result }
{
    let mut rows = [Row::default(); N];
    numbered(call, number, &mut rows, out)
}

// The answer with its counts, and its records first in the slice, which has room for as many as the message has bytes. Behind the refusals of
// every call comes 4, the listing's own. For a short message fewer rows are cleared.
pub fn placed(file: &[u8], msg: &[u8], number: usize, room: usize, out: &mut [Span]) -> Placed
    requires { RecordRoom msg.now out.old }
    ensures { PlacedAs file.now msg.now number room out.old out.new result }
{
    let table = match admit::admit(file, msg) {
        Ok(table) => table,
        Err(denied) => return unplaced(Answer::Refused(denied.refusal)),
    };
    if room < 1400 {
        return unplaced(Answer::Refused(Refusal::of(4)));
    }
    let call = Call { file, table, msg };
    if msg.len() <= SHORT_ROOM {
        return paged::<SHORT_ROOM>(&call, number, out);
    }
    paged::<ROOM>(&call, number, out)
}

// The answer alone.
pub fn compute(file: &[u8], msg: &[u8], number: usize, room: usize, out: &mut [Span]) -> Answer
    requires { RecordRoom msg.now out.old }
    ensures { Computed file.now msg.now number room out.old out.new result }
{
    placed(file, msg, number, room, out).answer
}
