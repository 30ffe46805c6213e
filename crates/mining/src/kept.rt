// The first words of a pair, kept while its term is built: they are not sought again for each pair that meets the term.
ghost use Rattle.std.specs.Prelude.{List, [], ◌∷◌, ◌++◌};
ghost use Rattle.rebac.specs.Matter.{Pair as Parties};
ghost use Rattle.rebac.specs.Words.{Word as Symbols};
ghost use Rattle.graph.specs.declared.Archive.{Archive as Shown};
ghost use Rattle.search.specs.Word.{symbols_in};
ghost use Rattle.mining.specs.promises.Kept.{KeptAs, SomeKept, KeepQuery, NextKept, AmongKept, OnwardQuery, LackedAs};
ghost use Rattle.mining.specs.Values.{pair_in};

use crate::lacked::lacked_after;
use crate::pairs::TwoPairs;
use crate::term::add_word;
use rule_bytes::Words;
use search::ShortWord;
use words::next_word;

// So many words are kept at most: few enough to be written down fast, and most pairs lack one of them.
const MOST_KEPT: usize = 64;

// The bytes for them: a count, and a length byte and 31 symbols for each word.
const KEPT_SIZE: usize = 2050;

// The words kept, as a term from place 0 of the list on: how many they are, and where they end.
// Kept: their number and end beside an array, since there is no heap and they are written as a term is in a slice.
#[derive(Clone, Copy)]
pub struct Kept {
    list: [u8; KEPT_SIZE],
    number: usize,
    end: usize,
}

impl Kept {
    // No word is kept yet.
    pub fn new() -> Kept
        ensures { (a : Shown) (p : Parties) → KeptAs a p [] result }
    {
        Kept {
            list: [0u8; KEPT_SIZE],
            number: 0,
            end: 2,
        }
    }

    // One word more, the pair's next after the last.
    fn keep(&mut self, w: ShortWord)
        requires { KeepQuery self.old }
        ensures { (a : Shown) (p : Parties) (words : List Symbols) → KeptAs a p words self.old
            → NextKept a p words w.word → KeptAs a p (words ++ (symbols_in w.word ∷ [])) self.new }
    {
        add_word(&mut self.list, 0, self.end, self.number, w.word);
        self.end = self.end + 1 + w.word.len;
        self.number += 1;
    }

    // The first of the kept words that the other pair lacks; where it has all of them, no such word but the last one, or the empty word.
    fn lacked_among(&self, t: &TwoPairs) -> Result<ShortWord, ShortWord>
        requires { SomeKept t.now.own.archive.now (pair_in t.now.own.pair) self.now }
        ensures { (words : List Symbols) → KeptAs t.now.own.archive.now (pair_in t.now.own.pair) words self.now
            → AmongKept t.now words result }
    {
        let other = t.other();
        let mut w = ShortWord::zeros(0);
        for word in Words::of_term(&self.list, 0) {
            if !word_test::has_word(&other, word) {
                return Ok(word);
            }
            w = word;
        }
        Err(w)
    }

    // On from the last kept word, which the other pair has as all before it: each new word is kept while there is room.
    fn lacked_onward(&mut self, t: &TwoPairs, last: ShortWord) -> Option<ShortWord>
        requires { OnwardQuery t.now self.old last.word }
        ensures { LackedAs t.now result self.new }
    {
        let own = t.own.in_graph();
        let other = t.other();
        let mut w = last;
        for _ in self.number..MOST_KEPT {
            w = next_word(&own, t.own.archive.words.longest, w)?;
            self.keep(w);
            if !word_test::has_word(&other, w) {
                return Some(w);
            }
        }
        lacked_after(t, w)
    }

    // The own pair's words in order, up to the first that the other lacks: first those kept.
    pub fn first_lacked(&mut self, t: &TwoPairs) -> Option<ShortWord>
        requires { SomeKept t.now.own.archive.now (pair_in t.now.own.pair) self.old }
        ensures { LackedAs t.now result self.new }
    {
        match self.lacked_among(t) {
            Ok(w) => Some(w),
            Err(last) => self.lacked_onward(t, last),
        }
    }
}
