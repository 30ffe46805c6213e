// The marks of the pairs as bytes of scratch.
ghost use Rattle.std.specs.Prelude.{◌≡◌, ◌++◌, ◌≤◌, length, drop};
ghost use Rattle.limits.specs.Limits.{scratch_size};
ghost use Rattle.conversion.specs.promises.Passes.{row_bytes};

use limits::PAIR_NUMBERS;
use masks::Row;
use mining::Pair;

// Byte 32a + b is 1 where bit b of mask a is set, and otherwise 0; bytes past 1,024 are kept.
#[tactic(auto, using(crate::proofs::TableLaws::table_laws))]
pub fn put_table(scratch: &mut [u8], marks: &Row)
    requires { scratch_size ≤ length scratch.old }
    ensures { scratch.new ≡ row_bytes marks.now ++ drop scratch_size scratch.old }
{
    for k in 0..PAIR_NUMBERS {
        scratch[k] = u8::from(Pair::at(k).is_in(marks));
    }
}
