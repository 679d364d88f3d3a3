ghost use Rattle.std.specs.Prelude.{◌≡◌, ◌++◌, OnErr, OnOk, decimal, string_bytes};
ghost use Rattle.meta_base.specs.Appending.{Gains};

use crate::NoMemory;
use itoa::Buffer;

/// Appends a number in base ten, with no leading zero. After a refusal nothing was appended.
#[tactic(auto, using(crate::proofs::Decimals::one_digit, crate::proofs::Decimals::two_after))]
pub fn push_number(out: &mut String, n: u128) -> Result<(), NoMemory>
    ensures number { OnOk result (Gains out.old (decimal n) out.new) }
    ensures err { OnErr result (string_bytes out.new ≡ string_bytes out.old) }
{
    // Most numbers are one digit or two.
    if n < 10 {
        out.push(char::from(b'0' + n as u8))?;
        return Ok(());
    }
    if n < 100 {
        let n = n as u8;
        out.reserve(2)?;
        out.push(char::from(b'0' + n / 10)).unwrap();
        out.push(char::from(b'0' + n % 10)).unwrap();
        return Ok(());
    }
    out.push_str(Buffer::new().format(n))?;
    Ok(())
}
