// A term as it grows in a lent slice.
ghost use Rattle.std.specs.Prelude.{◌≡◌, List, [], ◌∷◌, ◌++◌, ℕ, ◌+◌, length};
ghost use Rattle.search.specs.Word.{symbols_in};
ghost use Rattle.rule_bytes.specs.ListBytes.{encode_term};
ghost use Rattle.fields.specs.promises.Writing.{put};
ghost use Rattle.mining.specs.promises.Building.{WordRoom};

use search::Word;

// One word more at the end of the term that stands from `at` to `end` and has `number` words.
pub fn add_word(out: &mut [u8], at: usize, end: usize, number: usize, w: Word)
    requires { WordRoom w at end number (length out.old) }
    ensures { (b : List ℕ) (t : List (List ℕ)) → length t ≡ number → end ≡ at + length (encode_term t)
        → out.old ≡ put b at (encode_term t) → length b ≡ length out.old
        → out.new ≡ put b at (encode_term (t ++ (symbols_in w ∷ []))) }
{
    rule_bytes::put_word(out, end, w);
    fields::put_u16(out, at, number + 1);
}
