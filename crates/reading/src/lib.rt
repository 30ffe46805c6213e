// Reading until a slice is full, or the input ends, for the programs.
#![tactic(auto)]

ghost use Rattle.std.specs.Prelude.{IfOk, take};
ghost use Rattle.std.specs.Io.{ReadsAtMost};
ghost use Rattle.std.specs.Io.KnownBytes.{Consumes};
ghost use Rattle.reading.specs.promises.Filling.{EndsIfShort};

use std::io;
use std::io::Read;

// Reads until the slice is full or the input ends, and returns how many bytes it put at the slice's start. The first read that fails
// ends it, also one that a signal interrupts.
pub fn read_full<R: Read>(input: &mut R, space: &mut [u8]) -> io::Result<usize>
    ensures bound { ReadsAtMost result space.new }
    ensures bytes { IfOk result (λ n.
        Consumes (R.remaining input.old) (R.remaining input.new) (take n space.new)) }
    ensures end { IfOk result (EndsIfShort (R.remaining input.new) space.new) }
{
    let mut done: usize = 0;
    while done < space.len() {
        let got = input.read(&mut space[done..])?;
        if got == 0 {
            return Ok(done);
        }
        done += got;
    }
    Ok(done)
}
