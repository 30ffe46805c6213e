// Decimal text written at a place of a lent slice, every other byte kept.
ghost use Rattle.std.specs.Prelude.{◌+◌, ◌≤◌, length};
ghost use Rattle.fields.specs.Decimal.{decimal_text};
ghost use Rattle.fields.specs.promises.Writing.{Wrote};

use crate::write::put_bytes;
use itoa::Buffer;

// The decimal digits of n, as std prints them. Of a `write!` into a slice no clause of std says what it puts there, or that it succeeds.
#[tactic(auto, using(crate::proofs::DecimalLaws::decimal_same))]
pub fn put_decimal(out: &mut [u8], at: usize, n: usize) -> usize
    requires { at + length (decimal_text n) ≤ length out.old }
    ensures { Wrote out.old at (decimal_text n) out.new result }
{
    let mut digits = Buffer::new();
    put_bytes(out, at, digits.format(n).as_bytes())
}
