// Words written at a place of a lent slice, every other byte kept.
ghost use Rattle.std.specs.Prelude.{◌≡◌, ◌+◌, ◌≤◌, length};
ghost use Rattle.limits.specs.Limits.{word_capacity};
ghost use Rattle.search.specs.Word.{symbols_in};
ghost use Rattle.rule_bytes.specs.ListBytes.{encode_word};
ghost use Rattle.fields.specs.promises.Writing.{put};

use search::Word;

pub fn put_word(out: &mut [u8], at: usize, w: Word)
    requires { (w.len ≤ word_capacity) × (at + 1 + w.len ≤ length out.old) }
    ensures { out.new ≡ put out.old at (encode_word (symbols_in w)) }
{
    out[at] = w.len as u8;
    let from = at + 1;
    out[from..from + w.len].copy_from_slice(&w.symbols[..w.len]);
}
