// A word of a rule list, read in place as a word value.
ghost use Rattle.std.specs.Prelude.{◌≡◌};
ghost use Rattle.rule_bytes.specs.promises.Reading.{WordFits, word_at};

use limits::WORD_CAPACITY;
use search::Word;

// A word, and the place after it.
// Kept: no `Read<T>` for this, `rules::TermMet` and `rule_text::TermText`: its `value` would not say what stands beside the place.
#[derive(Clone, Copy)]
pub struct WordRead {
    pub word: Word,
    pub next: usize,
}

// The word whose length byte stands at a place.
pub fn read_word(list: &[u8], at: usize) -> WordRead
    requires { WordFits list.now at }
    ensures { result ≡ word_at list.now at }
{
    let len = usize::from(list[at]);
    let from = at + 1;
    let mut symbols = [0u8; WORD_CAPACITY];
    symbols[..len].copy_from_slice(&list[from..from + len]);
    WordRead {
        word: Word { len, symbols },
        next: from + len,
    }
}
