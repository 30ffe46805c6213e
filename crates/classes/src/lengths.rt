// The first telling word of the lengths one after another, in letters and then in symbols.
ghost use Rattle.std.specs.Prelude.{◌≡◌, ◌+◌, ◌-◌, ◌≤◌, ◌<◌, List, ℕ};
ghost use Rattle.lists.specs.Lists.{range};
ghost use Rattle.limits.specs.Limits.{longest_word};
ghost use Rattle.rebac.specs.promises.Telling.{first_telling_longer};
ghost use Rattle.search.specs.Word.{symbols_in};
ghost use Rattle.search.specs.promises.PairSearch.{graph_of, table_graph};
ghost use Rattle.words.specs.promises.Next.{Alphabet, WordAs};
ghost use Rattle.letters.specs.promises.Letters.{numbers, in_symbols, Classed};
ghost use Rattle.classes.specs.promises.Prefixes.{own_pair, other_pair, TellingQuery, FirstLength};

use crate::by_words::telling_of_length;
use crate::pairs::PairsInLetters;
use letters::{Letters, MOST_LETTERS, class_letters, letters_of};
use search::{ShortWord, Symbol, TwoPairsIn};

// Kept: lengths are above `from` and at most d, here and below, as in `first_telling_longer`; a `Range` would be one off at both ends.
// The word that `telling` finds for the first length above `from` and up to d with one. A word with as many symbols as there are parties,
// or more, is on no path.
fn by_lengths<F: Fn(usize) -> Option<ShortWord>>(
    q: &TwoPairsIn,
    from: usize,
    d: usize,
    telling: F,
) -> Option<ShortWord>
    requires { (len : ℕ) → from ≤ len → len < d → F.pre telling (len + 1) }
    ensures { FirstLength (λ len r. F.post telling len r) q.now.graph.parties from d result }
{
    (from..d.min(q.graph.parties - 1)).find_map(|len| telling(len + 1))
}

// Kept: `d` is a bound from the caller, any number up to 31, and is only compared, so a type would have nothing to do but say so.
// The first telling word of more than `from` letters below the base and at most d.
fn telling_longer(q: &TwoPairsIn, l: &Letters, from: usize, d: usize) -> Option<ShortWord>
    requires long { d ≤ longest_word }
    requires classed { let s = l.now.span in s.base < s.end → Classed (table_graph q.now.graph.parties l.now.graph) s.base s.end }
    ensures { WordAs (first_telling_longer (table_graph q.now.graph.parties l.now.graph) (own_pair q.now) (other_pair q.now)
        (range l.now.span.base) from (d - from)) result }
{
    let pairs = PairsInLetters::new(q, l);
    by_lengths(q, from, d, |len| pairs.first_telling(len))
}

// The word of the symbols for which the letters of w stand.
fn in_symbols(symbols: &[Symbol; MOST_LETTERS], w: ShortWord) -> ShortWord
    ensures { symbols_in result.word ≡ in_symbols (numbers symbols.now) (symbols_in w.word) }
{
    let mut read = w;
    for i in 0..w.word.len {
        read = read.put(i, symbols[w.symbol(i).number as usize]);
    }
    read
}

// The first telling word of more than `from` symbols and at most d: in letters if they are few enough, and else length by length.
pub fn first_telling_word(q: &TwoPairsIn, from: usize, d: usize) -> Option<ShortWord>
    requires { TellingQuery q.now d }
    ensures { (al : List ℕ) → Alphabet al q.now.graph.parties q.now.graph.table
        → WordAs (first_telling_longer (graph_of q.now.graph) (own_pair q.now) (other_pair q.now) al from (d - from)) result }
{
    let Some(l) = letters_of(&q.graph.table) else {
        let l = class_letters(&q.graph.table);
        return by_lengths(q, from, d, |len| telling_of_length(q, l.as_ref(), len));
    };
    let word = telling_longer(q, &l, from, d)?;
    Some(in_symbols(&l.symbols, word))
}
