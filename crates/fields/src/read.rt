// Numbers read at a place of a slice.
ghost use Rattle.std.specs.Prelude.{◌≡◌, ◌+◌, ◌<◌, length};
ghost use Rattle.fields.specs.Numbers.{u16_at};

// The two-byte field at a place, low byte first.
#[tactic(auto, unfolding(crate::specs::Numbers::u16_at))]
pub fn u16_at(s: &[u8], at: usize) -> usize
    requires { at + 1 < length s.now }
    ensures { (result ≡ u16_at s.now at) × (result < 65536) }
{
    u16::from_le_bytes([s[at], s[at + 1]]) as usize
}
