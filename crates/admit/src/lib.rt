// The checks that every call begins with: refusals 1 to 3. A call's own numbers come behind them.
#![tactic(auto)]

ghost use Rattle.std.specs.Prelude.{◌≡◌};
ghost use Rattle.sign.specs.Sign.{sign_file};
ghost use Rattle.admit.specs.Admission.{admission};
ghost use Rattle.admit.specs.Handed.{handed};

use refusal::Refusal;
use sign::{RefusedAt, SignFile};

// A call that is denied: by which refusal, and what was read of its sign file.
#[derive(Clone, Copy)]
pub struct Denied {
    pub refusal: Refusal,
    pub sign: Result<SignFile, RefusedAt>,
}

// The sign of a call, by its file; or what denies the call: 1, what was found of the sign file; 2, the message's length; 3, its UTF-8.
pub fn admit(file: &[u8], msg: &[u8]) -> Result<SignFile, Denied>
    ensures { result ≡ handed (admission file.now msg.now) (sign_file file.now) }
{
    let sign = sign::read_sign(file);
    let table = match sign {
        Ok(table) => table,
        Err(refused) => {
            // The start by `as`: a file has at most 65,535 bytes, so that nothing is lost.
            let refusal = Refusal {
                start: refused.at as u16,
                ..Refusal::of(1)
            };
            return Err(Denied { refusal, sign });
        }
    };
    if 2048 < msg.len() {
        let refusal = Refusal::of(2);
        return Err(Denied { refusal, sign });
    }
    if !utf8::well_formed(msg) {
        let refusal = Refusal::of(3);
        return Err(Denied { refusal, sign });
    }
    Ok(table)
}
