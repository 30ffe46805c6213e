// Telling words by prefixes: the first pair has them and the second lacks them.
use crate::pairs::PairsInLetters;
use masks::with;
use search::{Form, ShortWord, Symbol};
use word_test::has_word;

impl PairsInLetters {
    ghost use Rattle.std.specs.Prelude.{◌≡◌, ◌≤◌, ◌<◌};
    ghost use Rattle.lists.specs.Lists.{range};
    ghost use Rattle.limits.specs.Limits.{longest_word, symbol_count};
    ghost use Rattle.rebac.specs.promises.Telling.{tells, first_telling};
    ghost use Rattle.search.specs.Word.{symbols_in};
    ghost use Rattle.search.specs.promises.PairSearch.{graph_of};
    ghost use Rattle.words.specs.promises.Next.{WordAs};
    ghost use Rattle.letters.specs.promises.Letters.{Classed};
    ghost use Rattle.classes.specs.promises.Prefixes.{own_pair, other_pair, SeekQuery, After, Opens, Sought};

    // Whether the first pair has the word and the second lacks it.
    #[tactic(auto, unfolding(rebac::specs::promises::Telling::tells))]
    fn tells(&self, w: ShortWord) -> bool
        ensures { result ≡ tells (graph_of self.now.pairs.graph) (own_pair self.now.pairs) (other_pair self.now.pairs) (symbols_in w.word) }
    {
        has_word(&self.pairs.own(), w) && !has_word(&self.pairs.other(), w)
    }

    // Kept: `at` is held to the word, as an index to its slice's length; the place of a `search::Form` may be the word's end. So below too.
    // The letters that may stand at place `at` after the one before it; at the first place all.
    fn letters_after(&self, w: ShortWord, at: usize) -> u32
        requires { at < w.word.len }
        ensures { After self.now w.word at result }
    {
        if at == 0 {
            return u32::MAX;
        }
        self.follow.masks[w.symbol(at - 1).number as usize]
    }

    // The letters from `low` to below `high` that may stand at place `at` of a path, any letters after it. At the last place no path is
    // sought, since the whole word will be.
    fn letters_open(&self, w: ShortWord, at: usize, low: usize, high: usize) -> u32
        requires place { at < w.word.len }
        requires few { high ≤ symbol_count }
        ensures { Opens self.now.pairs w.word at low high result }
    {
        let after = self.letters_after(w, at);
        if at + 1 == w.word.len {
            return after;
        }
        let own = self.pairs.own();
        let mut leads: u32 = 0;
        for c in low..high {
            let letter = Symbol { number: c as u8 };
            if letter.is_in(after) {
                let form = Form {
                    word: w.put(at, letter),
                    fixed: at + 1,
                };
                if own.search(form).is_ok() {
                    leads = with(leads, c as u32);
                }
            }
        }
        leads
    }

    // The first telling word with the places before `at` as they stand and letters from `low` to below `high` after.
    // Where there are classes for these letters, from `high` on, and no word with classes in their place tells, there is none.
    // The pairs are lent, and their graph copied only where a search needs it: by value it would take 4 KB a level of this recursion.
    fn seek(&self, w: ShortWord, at: usize, low: usize, high: usize) -> Option<ShortWord>
        requires { SeekQuery self.now w.word at high }
        ensures { Sought self.now.pairs w.word at low high result }
    {
        if w.word.len <= at {
            if self.tells(w) {
                return Some(w);
            }
            return None;
        }
        let next = at + 1;
        if high < self.span.end && self.seek(w, at, high, self.span.end).is_none() {
            return None;
        }
        let leads = self.letters_open(w, at, low, high);
        for c in low..high {
            let letter = Symbol { number: c as u8 };
            if letter.is_in(leads) {
                let word = self.seek(w.put(at, letter), next, low, high);
                if word.is_some() {
                    return word;
                }
            }
        }
        None
    }

    // The first telling word of `len` letters below the base; the others are their classes, if there are any.
    pub fn first_telling(&self, len: usize) -> Option<ShortWord>
        requires long { len ≤ longest_word }
        requires classed { let s = self.now.span in s.base < s.end → Classed (graph_of self.now.pairs.graph) s.base s.end }
        ensures { WordAs (first_telling (graph_of self.now.pairs.graph) (own_pair self.now.pairs) (other_pair self.now.pairs)
            (range self.now.span.base) len) result }
    {
        self.seek(ShortWord::zeros(len), 0, 0, self.span.base)
    }
}
