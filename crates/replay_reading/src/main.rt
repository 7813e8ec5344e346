// Replays the D, X, Q and V cases of an answer stream on standard input, and prints how many agree.
#![tactic(auto)]

mod compare;

use compare::{Bytes, Check, KINDS};
use replay::{BadStream, Kind, Line, Lines, Score};

// The case whose answer is read, if it is compared, and how many of each kind agree.
#[derive(Drop)]
struct Replay {
    check: Option<Check>,
    msg: Bytes,
    scores: [(Kind, Score); 4],
}

impl Replay {
    // Counts a case, and prints the first of its kind that does not agree.
    fn settle(&mut self, rt: &impl Print, check: Check, line: &Line) {
        for (kind, score) in &mut self.scores {
            if *kind == check.kind && score.count(check.agrees) {
                replay::print_other(rt, check.line, line.case());
            }
        }
    }

    // After a line.
    fn turn(&mut self, rt: &impl Print, line: &Line) -> Result<(), BadStream> {
        let (was, then) = (line.was.answering(), line.then.answering());
        if was.is_none() {
            let bad = BadStream { line: line.number };
            let kind = then.filter(|k| KINDS.contains(k));
            let opened = kind.map(|kind| Check::open(line, kind, &mut self.msg).ok_or(bad));
            self.check = opened.transpose()?;
            return Ok(());
        }
        let Some(check) = &mut self.check else {
            return Ok(());
        };
        check.answer(line, self.msg.as_slice());
        if then.is_none() {
            let check = *check;
            self.settle(rt, check, line);
        }
        Ok(())
    }
}

fn main(rt: HostRuntime) {
    let mut buf = [0u8; 524288];
    let mut replay = Replay {
        check: None,
        msg: Bytes::new(),
        scores: KINDS.map(|kind| (kind, Score::default())),
    };
    let mut lines = Lines::new(rt.stdin(), &mut buf, true);
    match lines.each(|line| replay.turn(&rt, line)) {
        Ok(()) => {
            for (kind, score) in &replay.scores {
                score.print(&rt, *kind);
            }
        }
        Err(bad) => {
            let _ = println!(rt; "{bad}");
        }
    }
}
