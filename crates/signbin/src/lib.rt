// What the programs that take a sign file share: sign.bin in the current folder, and the line of a refusal.
#![tactic(auto)]

ghost use Rattle.std.specs.Prelude.{◌≤◌, length};

use refusal::Refusal;
use std::fs;
use std::io::Read;
use std::rt::Files;

// Reads until the buffer is full, the input ends or a read fails: the bytes that came. No `read_exact`, which does not tell how many came
// where there are fewer, nor `read_to_end`, which wants a Vec.
pub fn read_full<'a>(input: &mut impl Read, buf: &'a mut [u8]) -> &'a [u8]
    ensures { length result.now ≤ length buf.old }
{
    let mut done = 0;
    while let Ok(n @ 1..) = input.read(&mut buf[done..]) {
        done += n;
    }
    &buf[..done]
}

// Its bytes, as many as there is room for. One that can't be opened counts as empty.
pub fn load<'a>(rt: &impl Files, buf: &'a mut [u8]) -> &'a [u8]
    ensures { length result.now ≤ length buf.old }
{
    match fs::open(rt, "sign.bin") {
        Ok(mut file) => read_full(&mut file, buf),
        Err(_) => &[],
    }
}

// The line of a refusal: number, start, length and detail. A write that fails is passed over, so that nothing is promised. No Display: Refusal
// is another crate's, and its text is the sentence.
pub fn print_refusal(rt: &impl Print, r: Refusal) {
    let _ = println!(rt;
        "refused {} {} {} {}",
        r.number, r.start, r.length, r.detail
    );
}
