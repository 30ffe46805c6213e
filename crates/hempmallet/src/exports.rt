// The calls that the console's host, a C program, makes: a slice is a pointer and then a length, a reply one number.
ghost use Rattle.std.specs.Prelude.{◌≡◌, length};
ghost use Rattle.rules.specs.Permit.{permit_call};
ghost use Rattle.conversion.specs.Calls.{verdict_call, mining_call, mining_reply, mining_scratch, mining_output};
ghost use Rattle.hempmallet.specs.Packing.{pack_verdict, pack_mining, pack_permit};

use crate::pack::{pack_mining, pack_permit, pack_verdict};

#[unsafe(no_mangle)]
#[tactic(auto, using(crate::proofs::PackingLaws::verdict_in_range))]
pub extern "C" fn hempmallet_verdict(file: &[u8]) -> u64
    ensures { result ≡ pack_verdict (verdict_call file.now) }
{
    let v = conversion::verdict_call(file);
    pack_verdict(v)
}

#[unsafe(no_mangle)]
#[tactic(auto, using(crate::proofs::PackingLaws::mining_in_range))]
pub extern "C" fn hempmallet_mining(file: &[u8], scratch: &mut [u8], output: &mut [u8]) -> u64
    ensures { (result ≡ pack_mining
        (mining_reply (mining_call file.now (length scratch.old) (length output.old))))
        × ((scratch.new ≡ mining_scratch
        (mining_call file.now (length scratch.old) (length output.old)) scratch.old)
        × (output.new ≡ mining_output
        (mining_call file.now (length scratch.old) (length output.old)) output.old)) }
{
    let m = conversion::mining_call(file, scratch, output);
    pack_mining(m)
}

#[unsafe(no_mangle)]
pub extern "C" fn hempmallet_permit(file: &[u8], list: &[u8], first: usize, second: usize) -> u64
    ensures { result ≡ pack_permit (permit_call file.now list.now first second) }
{
    let p = rules::permit_call(file, list, first, second);
    pack_permit(p)
}
