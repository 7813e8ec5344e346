// Prints what a message on standard input says, slice by slice: start, length, the value's code and its eight numbers (tests/FORMAT.md).
// A slice that is refused prints "refused", number, start, length and detail. The last line is "end" with the message's length.
// Long times hold if sign.bin in the current folder is a sign file that has them. A write that fails is passed over.
#![tactic(auto)]

use readings::SliceRead;
use std::rt::Files;

// A slice with its value, or its refusal, which has no detail.
fn print_slice(rt: &impl Print, r: &SliceRead) {
    if 0 < r.number {
        let _ = println!(rt; "refused {} {} {} 0", r.number, r.start, r.length);
        return;
    }
    let _ = print!(rt; "{} {} {}", r.start, r.length, r.code);
    for n in &r.n {
        let _ = print!(rt; " {n}");
    }
    let _ = println!(rt);
}

// Prints every slice of a message, or why it is refused as a whole.
fn print_all(rt: &impl Print, msg: &[u8], long: bool) {
    let mut recs = [SliceRead::default(); readings::ROOM];
    match readings::read_all(msg, long, &mut recs) {
        Ok(count) => {
            for r in recs.iter().take(usize::from(count)) {
                print_slice(rt, r);
            }
        }
        Err(r) => signbin::print_refusal(rt, r),
    }
    let _ = println!(rt; "end {}", msg.len());
}

// Whether the sign file has long times; one that is refused has none.
fn long_times(rt: &impl Files) -> bool {
    let mut buf = [0u8; 65536];
    sign::read_sign(signbin::load(rt, &mut buf)).is_ok_and(|sign| sign.config.long_times)
}

fn main(rt: HostRuntime) {
    let mut buf = [0u8; 2049];
    let msg = signbin::read_full(&mut rt.stdin(), &mut buf);
    print_all(&rt, msg, long_times(&rt));
}
