// Lists a message: sign.bin in the current folder is the sign file, standard input the message. Prints how many bytes of the message were
// read, then each answer: on and its duration, with a line for each span (start, length, x, y, width, height, font); off and its duration;
// the end with the count of answers; or a refusal with number, start, length and detail, which ends the listing.
// A write that fails is passed over.
#![tactic(auto)]

use every::{ANSWERS, Shown};
use layout::Span;
use refusal::Refusal;
use rows::ROOM;

// No Display: a record is another crate's, and the line has some of its numbers.
fn print_span(rt: &impl Print, s: &Span) {
    let _ = println!(rt;
        "{} {} {} {} {} {} {}",
        s.start, s.length, s.x, s.y, s.width, s.height, s.font
    );
}

// An answer, and its records of all. Its kind is C's number: 1 on, 2 off.
fn print_answer(rt: &impl Print, s: &Shown, all: &[Span]) {
    if s.kind != 1 {
        let _ = println!(rt; "off {}", s.duration);
        return;
    }
    let _ = println!(rt; "on {}", s.duration);
    let records = all.iter().skip(usize::from(s.first));
    for r in records.take(usize::from(s.count)) {
        print_span(rt, r);
    }
}

// Prints answer after answer, from one walk over the pages, and what comes after them: the end with their count, or a refusal.
fn print_all(rt: &impl Print, file: &[u8], msg: &[u8]) {
    let mut answers = [Shown::default(); ANSWERS];
    let mut records = [Span::default(); 2 * ROOM];
    let walked = every::gather(file, msg, ANSWERS, ROOM, &mut answers, &mut records);
    for s in answers.iter().take(walked.answers) {
        print_answer(rt, s, &records);
    }
    match walked.refused {
        Some(r) => signbin::print_refusal(rt, r),
        None => {
            let _ = println!(rt; "end {}", walked.answers);
        }
    }
}

fn main(rt: HostRuntime) {
    let mut sign = [0; 65536];
    let file = signbin::load(&rt, &mut sign);
    let mut message = [0; 2049];
    let msg = signbin::read_full(&mut rt.stdin(), &mut message);
    let _ = println!(rt; "message {}", msg.len());
    print_all(&rt, file, msg);
}
