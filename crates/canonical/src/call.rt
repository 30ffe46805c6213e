// The writer's call (02, Tickets 1, 2 and 5): any bytes and a lent output in.
ghost use Rattle.std.specs.Prelude.{◌≡◌, length};
ghost use Rattle.canonical.specs.Calls.{file_reply, file_output, write_call};

use crate::write::write_matter;
use house_layout::Refusal;

// Writes an accepted file's matter again, in the canonical order and in edition 2, and returns the length of the file written.
// `said_file` gives 01's number and values of each reply; equal ones mean equal replies (`file_said`).
pub fn write_call(file: &[u8], out: &mut [u8]) -> Result<usize, Refusal>
    ensures { (result ≡ file_reply (write_call file.now (length out.old)))
        × (out.new ≡ file_output (write_call file.now (length out.old)) out.old) }
{
    let house = house_file::read(file)?;
    write_matter(house.header, house.kinds, out)
}
