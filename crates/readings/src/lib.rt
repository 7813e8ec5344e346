// All slices of a message in one call: each as the reading call has it at its start, in numbers.
#![tactic(auto)]

ghost use Rattle.std.specs.Prelude.{◌≡◌, ◌+◌, ◌≤◌, length};
ghost use Rattle.std.specs.Result.{result_err};
ghost use Rattle.readings.specs.Readings.{said_read, slice_read, fault, all_read, read_after};

use numbers::Numbers;
use refusal::Refusal;
use token::Slices;
use value::{SyntaxError, Value};

// A slice of the message: its place, and its value's code and eight numbers; or the number of its refusal, which is 0 for one that reads: C reads it.
#[repr(C)]
#[derive(Clone, Copy, Default)]
pub struct SliceRead {
    pub start: u32,
    pub length: u32,
    pub number: u32,
    pub code: u32,
    pub n: [u32; 8],
}

// No message has more slices.
pub const ROOM: usize = 2048;

// What a slice at a place says, as numbers.
fn said_read(start: u32, length: u32, said: Result<Value, SyntaxError>) -> SliceRead
    ensures { result ≡ said_read start length said }
{
    match said {
        Ok(v) => {
            let m = Numbers::from(v);
            let n = m.n;
            SliceRead {
                start,
                length,
                number: 0,
                code: m.code,
                n,
            }
        }
        Err(e) => SliceRead {
            start,
            length,
            number: u32::from(e.number()),
            ..SliceRead::default()
        },
    }
}

// The slice s, which starts at a place of the message; long times may hold. The casts lose nothing.
fn slice_read(at: usize, s: &[u8], long: bool) -> SliceRead
    requires { at + length s.now ≤ 65535 }
    ensures { result ≡ slice_read long (record { start = at; bytes = s.now }) }
{
    said_read(at as u32, s.len() as u32, reading::item_of(at, s, long))
}

// The first refusal of the call, if any; room is how many readings are lent.
#[tactic(auto, unfolding(crate::specs::Readings::fault))]
fn check(msg: &[u8], room: usize) -> Result<(), Refusal>
    ensures { result_err result ≡ fault msg.now room }
{
    if 2048 < msg.len() {
        return Err(Refusal::of(2));
    }
    if !utf8::well_formed(msg) {
        return Err(Refusal::of(3));
    }
    if room < ROOM {
        return Err(Refusal::of(4));
    }
    Ok(())
}

// Reads every slice of a message, one after the other, also after one that fails: message, whether long times hold, and the lent slice. The count of
// slices, which is at most 2,048 (the cast loses nothing), or why the whole is refused.
#[tactic(auto, unfolding(crate::specs::Readings::all_read, crate::specs::Readings::read_after))]
pub fn read_all(msg: &[u8], long: bool, recs: &mut [SliceRead]) -> Result<u16, Refusal>
    ensures { (result ≡ all_read long msg.now recs.old)
        × (recs.new ≡ read_after long msg.now recs.old) }
{
    check(msg, recs.len())?;
    let mut count = 0;
    for (at, s) in Slices::new(msg, 0) {
        recs[count] = slice_read(at, s, long);
        count += 1;
    }
    Ok(count as u16)
}
