// One unsigned 64-bit number for each reply of a call.
// Kept: C takes a reply as one number, and no `From` can stand here, since both types are of other crates.
ghost use Rattle.std.specs.Prelude.{◌≡◌};
ghost use Rattle.hempmallet.specs.Packing.{pack_verdict, pack_mining, pack_permit, VerdictInRange, MiningInRange};

use conversion::Verdict;
use house_layout::Refusal;

pub fn pack_verdict(v: Result<Verdict, Refusal>) -> u64
    requires { VerdictInRange v }
    ensures { result ≡ pack_verdict v }
{
    match v {
        Err(x) => u64::from(u8::from(x)),
        Ok(Verdict::Convertible(k)) => 128 + 256 * (k as u64),
        Ok(Verdict::NoWord(p)) => 129 + 256 * (p.first as u64) + 65536 * (p.second as u64),
        Ok(Verdict::Rival(p, q)) => {
            130 + 256 * (p.first as u64)
                + 65536 * (p.second as u64)
                + 16777216 * (q.first as u64)
                + 4294967296 * (q.second as u64)
        }
    }
}

pub fn pack_mining(m: Result<usize, Refusal>) -> u64
    requires { MiningInRange m }
    ensures { result ≡ pack_mining m }
{
    match m {
        Err(x) => u64::from(u8::from(x)),
        Ok(k) => 128 + 256 * (k as u64),
    }
}

pub fn pack_permit(p: Result<bool, Refusal>) -> u64
    ensures { result ≡ pack_permit p }
{
    match p {
        Err(x) => u64::from(u8::from(x)),
        Ok(false) => 128,
        Ok(true) => 129,
    }
}
