// The next word of a pair, by searches: never by trying words one after another.
ghost use Rattle.std.specs.Prelude.{[], suc, ◌-◌, ◌≤◌, ◌<◌};
ghost use Rattle.limits.specs.Limits.{longest_word, symbol_count};
ghost use Rattle.rebac.specs.promises.Forms.{complete, next_same_length, first_longer, search_next};
ghost use Rattle.search.specs.Word.{symbols_in};
ghost use Rattle.words.specs.promises.Next.{SymbolTried, LeastPut, ZerosFilled, CompletedTo, WordBy};

use limits::LAST_SYMBOL;
use search::{Form, PairIn, ShortWord, Symbol};

// Kept: `at` is below its word's length, here and below. `Form`, a word with a place, says no such thing: its place may be the word's end.
// The word with the symbol at place `at`, if a path still exists with it.
// Kept: s is a byte, as the range below gives it; a closure that makes a Symbol of it needs clauses of its own, and is no plainer.
fn with_symbol(q: &PairIn, w: ShortWord, at: usize, s: u8) -> Option<ShortWord>
    requires place { at < w.word.len }
    requires symbol { s < symbol_count }
    ensures { SymbolTried q.now w.word at s result }
{
    let word = w.put(at, Symbol { number: s });
    let form = Form {
        word,
        fixed: at + 1,
    };
    if q.search(form).is_ok() {
        Some(word)
    } else {
        None
    }
}

// The word with its least symbol at place `at`, from the floor that stands there on, with which a path still exists. Its callers have a
// path, so there is such a symbol; without one the word would stay as it is.
fn least_symbol(q: &PairIn, w: ShortWord, at: usize) -> ShortWord
    requires { at < w.word.len }
    ensures { LeastPut q.now w.word at result.word }
{
    (w.word.symbols[at]..=LAST_SYMBOL)
        .find_map(|s| with_symbol(q, w, at, s))
        .unwrap_or(w)
}

// The word with each place from `from` on, all of them zeros, at its least symbol with which a path still exists.
fn fill_from(q: &PairIn, w: ShortWord, from: usize) -> ShortWord
    ensures { ZerosFilled q.now w.word from result.word }
{
    let mut t = w;
    for i in from..w.word.len {
        t = least_symbol(q, t, i);
    }
    t
}

// The least word that has the places before `at` as they stand, a symbol at `at` that is no less, and any symbols after.
pub fn complete_from(q: &PairIn, w: ShortWord, at: usize) -> Option<ShortWord>
    requires { at < w.word.len }
    ensures { CompletedTo q.now w.word at (λ s. s) result }
{
    if q.search(Form { word: w, fixed: at }).is_err() {
        return None;
    }
    let t = least_symbol(q, w, at);
    Some(fill_from(q, t, at + 1))
}

// The least word that has the places before `at` as they stand, a greater symbol at `at`, and any symbols after.
fn raise_at(q: &PairIn, w: ShortWord, at: usize) -> Option<ShortWord>
    requires { at < w.word.len }
    ensures { CompletedTo q.now w.word at suc result }
{
    let s = w.word.symbols[at];
    if s < LAST_SYMBOL {
        return complete_from(q, w.put(at, Symbol { number: s + 1 }), at);
    }
    None
}

// The least word after w of its own length, from the last place down.
pub fn next_same_length(q: &PairIn, w: ShortWord) -> Option<ShortWord>
    ensures { WordBy q.now (λ al G p. next_same_length al G p [] (symbols_in w.word)) result }
{
    let mut t = w;
    for i in (0..w.word.len).rev() {
        let raised = raise_at(q, t, i);
        if raised.is_some() {
            return raised;
        }
        t = t.put(i, Symbol { number: 0 });
    }
    None
}

// The pair's least word of `len` symbols.
fn least_of_length(q: &PairIn, len: usize) -> Option<ShortWord>
    requires some { 0 < len }
    requires longest { len ≤ longest_word }
    ensures { WordBy q.now (λ al G p. complete al G p [] 0 (len - 1)) result }
{
    complete_from(q, ShortWord::zeros(len), 0)
}

// Kept: `d ≤ longest_word`, here and in `next_word`: any bound up to 31 will do; a type for d would be made by each caller and opened here.
// The first word of more than k symbols and at most d.
fn first_longer(q: &PairIn, k: usize, d: usize) -> Option<ShortWord>
    requires shorter { k ≤ d }
    requires longest { d ≤ longest_word }
    ensures { WordBy q.now (λ al G p. first_longer al G p k (d - k)) result }
{
    (k..d).find_map(|len| least_of_length(q, len + 1))
}

// The pair's first word after w in word order, of at most d symbols.
pub fn next_word(q: &PairIn, d: usize, w: ShortWord) -> Option<ShortWord>
    requires within { w.word.len ≤ d }
    requires longest { d ≤ longest_word }
    ensures { WordBy q.now (λ al G p. search_next al G p d (symbols_in w.word)) result }
{
    next_same_length(q, w).or_else(|| first_longer(q, w.word.len, d))
}
