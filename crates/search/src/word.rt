// Words as values, and the forms along which a search goes.
ghost use Rattle.search.specs.promises.WordValues.{Short};

use crate::symbol::Symbol;
use limits::WORD_CAPACITY;

// A word as one value, carried between calls: its length and 31 symbols, of which those past the length mean nothing.
// Kept: 01 gives a word this form, a length and an array.
#[derive(Clone, Copy)]
pub struct Word {
    pub len: usize,
    pub symbols: [u8; WORD_CAPACITY],
}

// A word that a search can take: it fits its array, and each of its symbols is a place of a mask.
#[derive(Clone, Copy)]
pub struct ShortWord {
    pub word: Word,
    ghost short: { Short word },
}

// Kept: `at` is held to the word beside it, as an index to its slice's length; a type for it would carry the word along.
impl ShortWord {
    ghost use Rattle.std.specs.Prelude.{◌≡◌, ◌<◌, ◌≤◌, replicate, set, slice_index};
    ghost use Rattle.limits.specs.Limits.{word_capacity};
    ghost use Rattle.search.specs.Word.{symbols_in};

    // A word of zeros.
    pub fn zeros(len: usize) -> Self
        requires { len ≤ word_capacity }
        ensures len { result.word.len ≡ len }
        ensures symbols { symbols_in result.word ≡ replicate len 0 }
    {
        ShortWord {
            word: Word {
                len,
                symbols: [0u8; WORD_CAPACITY],
            },
        }
    }

    // The symbol at a place.
    pub fn symbol(&self, at: usize) -> Symbol
        requires { at < self.now.word.len }
        ensures { result.number ≡ slice_index self.now.word.symbols at }
    {
        Symbol {
            number: self.word.symbols[at],
        }
    }

    // The word with another symbol at a place.
    pub fn put(self, at: usize, s: Symbol) -> Self
        requires { at < word_capacity }
        ensures len { result.word.len ≡ self.word.len }
        ensures symbols { result.word.symbols ≡ set self.word.symbols at s.number }
    {
        let mut word = self.word;
        word.symbols[at] = s.number;
        ShortWord { word }
    }
}

// A word along which a search goes: the first `fixed` symbols are fixed, and each later one is a floor.
#[derive(Clone, Copy)]
pub struct Form {
    pub word: ShortWord,
    pub fixed: usize,
}

// Kept: `at` is held to the word beside it, as an index to its slice's length; a type for it would carry the word along.
impl Form {
    ghost use Rattle.std.specs.Prelude.{◌≡◌, ◌<◌};
    ghost use Rattle.search.specs.promises.Search.{place_on, place_at};

    // Whether some symbol of the mask may stand at place `at`.
    pub fn allows(&self, at: usize, mask: u32) -> bool
        requires { at < self.now.word.word.len }
        ensures { result ≡ place_on (place_at self.now.word.word self.now.fixed at) mask }
    {
        let s = self.word.symbol(at);
        if at < self.fixed {
            return s.is_in(mask);
        }
        mask >> s.number != 0
    }
}
