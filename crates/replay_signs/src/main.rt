// Replays the I cases of an answer stream on standard input, and prints how many agree.
#![tactic(auto)]

use arrayvec::ArrayVec;
use replay::{BadStream, Kind, Line, Lines, Phase, Score};
use sign::{RefusedAt, SignFile};

// The case whose answer is read: the number of its line, the next font of its answer, and whether it agrees so far.
#[derive(Clone, Copy)]
struct Check {
    line: u32,
    row: usize,
    agrees: bool,
}

// The sign file that came last, once one came, what was read of it, once an I case came, the I case whose answer is read, and how many agree. The
// file's bytes have one place for all: an array of their own for each would take longer than most files do.
#[derive(Drop)]
struct Replay {
    file: ArrayVec<u8, 131072>,
    came: bool,
    sign: Option<Result<SignFile, RefusedAt>>,
    check: Option<Check>,
    score: Score,
}

// Whether a line is the count of fonts, or refusal 1. By `as`: a usize has no From.
fn is_count(line: &[u8], sign: &Result<SignFile, RefusedAt>) -> bool {
    match sign {
        Ok(sign) => replay::is_line(line, &[sign.count as u64]),
        Err(refused) => replay::is_line(line, &[4, 1, refused.at as u64, 0, 0]),
    }
}

// Whether a line is the number and the version id of a font of the file.
fn is_font(line: &[u8], row: usize, sign: &Result<SignFile, RefusedAt>) -> bool {
    let Ok(sign) = sign else {
        return false;
    };
    let font = sign.fonts.iter().take(sign.count).nth(row);
    font.is_some_and(|e| replay::begins(line, &[u64::from(e.number), u64::from(e.version_id)]))
}

impl Check {
    // After a line of the answer.
    fn answer(&mut self, line: &Line, sign: &Result<SignFile, RefusedAt>) {
        if let Phase::Rows(..) = line.was.phase {
            self.agrees = self.agrees && is_font(line.text, self.row, sign);
            self.row = self.row.saturating_add(1);
        } else {
            self.agrees = is_count(line.text, sign);
        }
    }
}

impl Replay {
    // At a case line, or the end. None where its words are not of the format, or no file came before an I line.
    fn open(&mut self, line: &Line) -> Option<()> {
        match Kind::of(line.text) {
            Some(Kind::S) => {
                replay::bytes(replay::word(line.text, 1), &mut self.file)?;
                self.came = true;
                self.sign = None;
            }
            Some(Kind::I) if !self.came => return None,
            Some(Kind::I) => {
                if self.sign.is_none() {
                    self.sign = Some(sign::read_sign(self.file.as_slice()));
                }
                self.check = Some(Check {
                    line: line.number,
                    row: 0,
                    agrees: true,
                });
            }
            _ => {}
        }
        Some(())
    }

    // After the last line of an answer: the case is counted, and told if it does not agree.
    fn settle(&mut self, rt: &impl Print, check: Check) {
        self.check = None;
        self.score.count(check.agrees);
        if !check.agrees {
            replay::print_other(rt, check.line, b"I");
        }
    }

    // After a line.
    fn turn(&mut self, rt: &impl Print, line: &Line) -> Result<(), BadStream> {
        if line.was.answering().is_none() {
            return self.open(line).ok_or(BadStream { line: line.number });
        }
        let (Some(check), Some(sign)) = (&mut self.check, &self.sign) else {
            return Ok(());
        };
        check.answer(line, sign);
        if line.then.answering().is_none() {
            let check = *check;
            self.settle(rt, check);
        }
        Ok(())
    }
}

fn main(rt: HostRuntime) {
    let mut buf = [0u8; 524288];
    let mut replay = Replay {
        file: ArrayVec::new(),
        came: false,
        sign: None,
        check: None,
        score: Score::default(),
    };
    let mut lines = Lines::new(rt.stdin(), &mut buf, false);
    match lines.each(|line| replay.turn(&rt, line)) {
        Ok(()) => replay.score.print(&rt, Kind::I),
        Err(bad) => {
            let _ = println!(rt; "{bad}");
        }
    }
}
