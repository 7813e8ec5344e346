// Replays the L cases of an answer stream on standard input, and prints how many agree and how these end.
#![tactic(auto)]

mod compare;

use arrayvec::ArrayVec;
use compare::Check;
use layout::Span;
use replay::{BadStream, Kind, Line, Lines, Score};

// The sign file that came last, once one came, the case whose answers are read with its message, and how many cases agree and how these end. The
// bytes of file and message have one place for all: an array of their own for each would take longer than most of them do.
#[derive(Drop)]
struct Replay {
    file: ArrayVec<u8, 131072>,
    came: bool,
    check: Option<Check>,
    msg: ArrayVec<u8, 8192>,
    out: [Span; rows::ROOM],
    score: Score,
    ends: u32,
    refusals: [u32; 16],
}

impl Replay {
    // At a case line, or the end. None where its words are not of the format, or no file came before an L line.
    fn open(&mut self, text: &[u8]) -> Option<()> {
        match Kind::of(text) {
            Some(Kind::S) => {
                replay::bytes(replay::word(text, 1), &mut self.file)?;
                self.came = true;
            }
            Some(Kind::L) if !self.came => return None,
            Some(Kind::L) => {
                replay::bytes(replay::word(text, 1), &mut self.msg)?;
                self.check = Some(Check::default());
            }
            _ => {}
        }
        Some(())
    }

    // A case that agrees is counted by how it ended.
    fn agreed(&mut self, refused: Option<u8>) {
        let Some(number) = refused else {
            self.ends = self.ends.saturating_add(1);
            return;
        };
        if let Some(n) = self.refusals.get_mut(usize::from(number)) {
            *n = n.saturating_add(1);
        }
    }

    // After the last line of an answer: the case is counted, and told if it does not agree.
    fn settle(&mut self, rt: &impl Print, check: Check) {
        self.score.count(check.other.is_none());
        match check.other {
            None => self.agreed(check.refused),
            Some(line) => replay::print_other(rt, line, b"L"),
        }
    }

    // After a line.
    fn turn(&mut self, rt: &impl Print, line: &Line) -> Result<(), BadStream> {
        if !line.was.is_listing() {
            if line.was.answering().is_some() {
                return Ok(());
            }
            return self.open(line.text).ok_or(BadStream { line: line.number });
        }
        let Some(check) = &mut self.check else {
            return Ok(());
        };
        check.listed(
            line,
            self.file.as_slice(),
            self.msg.as_slice(),
            &mut self.out,
        );
        if !line.then.is_listing() {
            let check = *check;
            self.settle(rt, check);
        }
        Ok(())
    }

    // How many agree, and the endings that came.
    fn print(&self, rt: &impl Print) {
        self.score.print(rt, Kind::L);
        if 0 < self.ends {
            let _ = println!(rt; "end {}", self.ends);
        }
        for (number, count) in self.refusals.iter().enumerate() {
            if 0 < *count {
                let _ = println!(rt; "refused {number} {count}");
            }
        }
    }
}

fn main(rt: HostRuntime) {
    let mut buf = [0u8; 524288];
    let mut replay = Replay {
        file: ArrayVec::new(),
        came: false,
        check: None,
        msg: ArrayVec::new(),
        out: [Span::default(); rows::ROOM],
        score: Score::default(),
        ends: 0,
        refusals: [0; 16],
    };
    let mut lines = Lines::new(rt.stdin(), &mut buf, false);
    match lines.each(|line| replay.turn(&rt, line)) {
        Ok(()) => replay.print(&rt),
        Err(bad) => {
            let _ = println!(rt; "{bad}");
        }
    }
}
