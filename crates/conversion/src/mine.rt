// Mining: the list into the lent output, the pairs that it permits into scratch.
ghost use Rattle.std.specs.Prelude.{length};
ghost use Rattle.rebac.specs.Matter.{Matter};
ghost use Rattle.graph.specs.promises.Archive.{Shows};
ghost use Rattle.conversion.specs.Calls.{mining_in, mining_call, Mined};
ghost use Rattle.conversion.specs.promises.Passes.{ListRoom, ListWritten};

use crate::table::put_table;
use crate::verdict::{Judged, LONGEST_TERM, judge_into};
use fields::put_bytes;
use graph::Archive;
use house_layout::Refusal;
use limits::SCRATCH_SIZE;
use masks::Row;

// The longest list that is kept while the verdict is found. A longer one is built again.
const KEPT_LIST: usize = 65536;

// The list of a convertible archive, and the pairs that it permits: `list` and `judged` have them where the list is not too long to keep.
#[tactic(auto, using(crate::proofs::AnswerLaws::list_laws))]
fn write_list(a: &Archive, list: &[u8], judged: Judged, out: &mut [u8]) -> Row
    requires { ListRoom a.now list.now judged (length out.old) }
    ensures { ListWritten a.now out.old out.new result }
{
    if judged.size <= KEPT_LIST {
        put_bytes(out, 0, &list[..judged.size]);
        return judged.marks;
    }
    judge_into(a, out, judged.size).unwrap().marks
}

// The answer for an accepted file: the verdict first, since a refusal leaves the output as it was.
fn mine_in(a: &Archive, scratch: &mut [u8], out: &mut [u8]) -> Result<usize, Refusal>
    ensures { (M : Matter) → Shows M a.now
        → Mined (mining_in M) result scratch.old scratch.new out.old out.new }
{
    if scratch.len() < SCRATCH_SIZE {
        return Err(Refusal::Scratch);
    }
    let mut list = [0u8; KEPT_LIST + LONGEST_TERM];
    let j = judge_into(a, &mut list, KEPT_LIST).map_err(|_| Refusal::Inconvertible)?;
    if out.len() < j.size {
        put_table(scratch, &Row::empty());
        return Err(Refusal::Output);
    }
    let marks = write_list(a, &list, j, out);
    put_table(scratch, &marks);
    Ok(j.size)
}

// 01's mining, for any bytes, scratch and output: the length of the list written. `said_mining` gives 01's number and values of each reply;
// equal ones mean equal replies (`mining_said`).
#[tactic(auto, using(crate::proofs::AnswerLaws::file_laws), unfolding(crate::specs::Calls::mining_call))]
pub fn mining_call(file: &[u8], scratch: &mut [u8], out: &mut [u8]) -> Result<usize, Refusal>
    ensures { Mined (mining_call file.now) result
        scratch.old scratch.new out.old out.new }
{
    let a = graph::load(file)?;
    mine_in(&a, scratch, out)
}
