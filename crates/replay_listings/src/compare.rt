// Comparing what is computed of a message with its listing, line by line.
use layout::{Answer, Span};
use replay::{Line, Phase};
use rows::ROOM;

// The case whose answers are read: the next answer, and its next record. refused: the last answer's refusal, by its number.
// other: the first line that does not agree.
#[derive(Clone, Copy, Default)]
pub struct Check {
    answer: usize,
    row: usize,
    pub refused: Option<u8>,
    pub other: Option<u32>,
}

// Whether a line is an answer.
fn is_answer(line: &[u8], a: Answer) -> bool {
    match a {
        Answer::On(d, k) => replay::is_line(line, &[1, u64::from(d), u64::from(k)]),
        Answer::Off(d) => replay::is_line(line, &[2, u64::from(d)]),
        Answer::End(n) => replay::is_line(line, &[3, u64::from(n)]),
        Answer::Refused(r) => {
            let number = u64::from(r.number);
            let numbers = [r.start, r.length, r.detail].map(u64::from);
            replay::is_line(line, &[4, number, numbers[0], numbers[1], numbers[2]])
        }
    }
}

// Whether a line is a record.
fn is_record(line: &[u8], s: &Span) -> bool {
    let numbers = [
        s.kind,
        s.start,
        s.length,
        s.code,
        s.x,
        s.y,
        s.width,
        s.height,
        s.font,
        s.line,
        s.span,
        s.rect_x,
        s.rect_y,
        s.rect_width,
        s.rect_height,
    ];
    replay::is_line(line, &numbers.map(u64::from))
}

impl Check {
    // An answer's first line.
    fn answered(&mut self, line: &[u8], file: &[u8], msg: &[u8], out: &mut [Span; ROOM]) -> bool {
        let a = answer::compute(file, msg, self.answer, 1400, out);
        self.answer = self.answer.saturating_add(1);
        self.row = 0;
        self.refused = match a {
            Answer::Refused(r) => Some(r.number),
            _ => None,
        };
        is_answer(line, a)
    }

    // A record.
    fn recorded(&mut self, line: &[u8], out: &[Span]) -> bool {
        let row = self.row;
        self.row = row.saturating_add(1);
        out.get(row).is_some_and(|s| is_record(line, s))
    }

    // After a line of a listing.
    pub fn listed(&mut self, line: &Line, file: &[u8], msg: &[u8], out: &mut [Span; ROOM]) {
        let agrees = if line.was.phase == Phase::Listing {
            self.answered(line.text, file, msg, out)
        } else {
            self.recorded(line.text, out)
        };
        if !agrees {
            self.other = self.other.or(Some(line.number));
        }
    }
}
