// Tells whether a message is accepted on a sign: sign.bin in the current folder is the sign file, standard input the message. Prints how many
// answers its listing has, or the sentence of its first refusal; below it the message around the refusal's place, with the place marked.
// A write that fails is passed over.
#![tactic(auto)]

use layout::{Answer, Span};
use refusal::Refusal;

// How many bytes of the message are shown.
const WIDTH: usize = 72;

// A byte as it is shown: one column each.
fn shown(b: u8) -> u8 {
    match b {
        b' '..=b'~' => b,
        _ => b'.',
    }
}

// A line of bytes.
fn print_bytes(rt: &impl Print, bytes: &[u8]) {
    let mut line = [b' '; WIDTH];
    for (to, b) in line.iter_mut().zip(bytes) {
        *to = shown(*b);
    }
    let _ = rt.write_all(&line[..bytes.len().min(WIDTH)]);
    let _ = println!(rt);
}

// The message around a place, and below it the place marked: one mark at least.
fn print_place(rt: &impl Print, msg: &[u8], start: usize, len: usize) {
    if msg.len() < start {
        return;
    }
    let lead = start.min(30);
    let rest = &msg[start - lead..];
    let around = &rest[..rest.len().min(WIDTH)];
    let marks = len.min(around.len() - lead).max(1);
    print_bytes(rt, around);
    let _ = println!(rt; "{:lead$}{:^<marks$}", "", "");
}

// The sentence; and the place, where the refusal has one in the message.
fn print_refusal(rt: &impl Print, msg: &[u8], r: Refusal) {
    let mut line = [0; 96];
    if let Ok(n) = sentence::sentence(r, &mut line)
        && let Some(text) = line.get(..usize::from(n))
    {
        let _ = rt.write_all(text);
        let _ = println!(rt);
    }
    if matches!(r.number, 5..=14) {
        print_place(rt, msg, usize::from(r.start), usize::from(r.length));
    }
}

fn print_answer(rt: &impl Print, msg: &[u8], a: Answer) {
    match a {
        Answer::End(n) => {
            let _ = println!(rt; "accepted, {n} answers");
        }
        Answer::Refused(r) => print_refusal(rt, msg, r),
        Answer::On(..) | Answer::Off(_) => {}
    }
}

// A message has at most 1,026 answers: the answer of that number is the end, or the first refusal.
fn main(rt: HostRuntime) {
    let mut sign = [0; 65536];
    let file = signbin::load(&rt, &mut sign);
    let mut message = [0; 2049];
    let msg = signbin::read_full(&mut rt.stdin(), &mut message);
    let mut out = [Span::default(); rows::ROOM];
    let a = answer::compute(file, msg, 1026, 1400, &mut out);
    print_answer(&rt, msg, a);
}
