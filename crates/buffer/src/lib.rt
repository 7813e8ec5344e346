// Bytes written to a lent buffer.
#![tactic(auto)]

ghost use Rattle.std.specs.Prelude.{◌≡◌, ◌+◌, ◌≤◌, length};
ghost use Rattle.buffer.specs.Put.{Put};

// Writes a text at a place of the buffer: the place past it.
pub fn put(buffer: &mut [u8], at: usize, text: &[u8]) -> usize
    requires { at + length text.now ≤ length buffer.old }
    ensures { Put at text.now buffer.old buffer.new result }
{
    // By an index: copy_from_slice asks memmove of C here, and the library needs memcpy and memset alone (include/kambelohi.h).
    let n = text.len();
    for i in 0..n {
        buffer[at + i] = text[i];
    }
    at + n
}
