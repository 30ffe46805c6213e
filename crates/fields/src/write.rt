// A two-byte field and bytes written at a place of a lent slice, every other byte kept.
ghost use Rattle.std.specs.Prelude.{◌≡◌, ◌+◌, ◌≤◌, ◌<◌, length};
ghost use Rattle.fields.specs.Numbers.{u16_bytes};
ghost use Rattle.fields.specs.promises.Writing.{put, Wrote};

// Two bytes, the low one first.
// Kept: no cursor for (out, at): a count is written after its words, a record where the layout says; a text's contract names both places.
#[tactic(auto, unfolding(crate::specs::promises::Writing::put, crate::specs::Numbers::u16_bytes))]
pub fn put_u16(out: &mut [u8], at: usize, x: usize)
    requires { (x < 65536) × (at + 2 ≤ length out.old) }
    ensures { out.new ≡ put out.old at (u16_bytes x) }
{
    out[at..at + 2].copy_from_slice(&(x as u16).to_le_bytes());
}

// The bytes of a slice, and the place after them.
#[tactic(auto, unfolding(crate::specs::promises::Writing::put))]
pub fn put_bytes(out: &mut [u8], at: usize, s: &[u8]) -> usize
    requires { at + length s.now ≤ length out.old }
    ensures { Wrote out.old at s.now out.new result }
{
    let end = at + s.len();
    out[at..end].copy_from_slice(s);
    end
}
