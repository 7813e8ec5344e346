// What a call is about.

ghost use Rattle.std.specs.Prelude.{◌≤◌, length};
ghost use Rattle.sign.specs.Accepted.{Bytes};
ghost use Rattle.meter.specs.Opened.{AcceptedTable};

use sign::SignFile;

// A sign file that is accepted, what was read of it, and a message that is not too long.
#[derive(Clone, Copy)]
pub struct Call<'a> {
    pub file: &'a [u8],
    pub table: SignFile,
    pub msg: &'a [u8],
    pub ghost bytes: { Bytes file.now },
    pub ghost opened: { AcceptedTable file.now table },
    pub ghost small: { length msg.now ≤ 2048 },
}
