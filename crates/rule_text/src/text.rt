// The text of a rule list, as permitconv prints it.
ghost use Rattle.std.specs.Prelude.{◌≡◌, List, ◌++◌, [], ℕ, ◌+◌, ◌*◌, ◌-◌, ◌≤◌, ◌<◌, length, drop};
ghost use Rattle.lists.specs.Lists.{pick};
ghost use Rattle.rule_bytes.specs.promises.Reading.{TermAt, SomeTerm, IsList, SomeList};
ghost use Rattle.fields.specs.promises.Writing.{put};
ghost use Rattle.rule_text.specs.Text.{hex_digit, symbol_text, word_text, term_text, list_text, dot, ampersand, line_end};

use fields::u16_at;
use rule_bytes::Words;

// The upper-case hexadecimal digit of a number below 16.
// Kept: tried `write!` of {:02X} into the slice: no clause of std says what it puts there or that it succeeds; the kit's hex is lower-case.
#[tactic(auto, unfolding(crate::specs::Text::hex_digit))]
pub fn hex_digit(d: u8) -> u8
    requires { d < 16 }
    ensures { result ≡ hex_digit d }
{
    if d < 10 {
        return b'0' + d;
    }
    b'A' - 10 + d
}

// A symbol, and a dot unless it is the last.
#[tactic(auto, using(fields::proofs::PutLaws::put_two, fields::proofs::PutLaws::put_three), unfolding(crate::specs::Text::symbol_text))]
fn put_symbol_text(out: &mut [u8], at: usize, s: u8, last: bool) -> usize
    requires { at + 3 ≤ length out.old }
    ensures bytes { out.new ≡ put out.old at (symbol_text s ++ pick last [] dot) }
    ensures place { result ≡ at + length (symbol_text s ++ pick last [] dot) }
{
    out[at] = hex_digit(s / 16);
    out[at + 1] = hex_digit(s % 16);
    if last {
        return at + 2;
    }
    out[at + 2] = b'.';
    at + 3
}

// A word's symbols, one after another.
fn put_word_text(out: &mut [u8], at: usize, word: &[u8]) -> usize
    requires { at + 3 * length word.now ≤ length out.old }
    ensures bytes { out.new ≡ put out.old at (word_text word.now) }
    ensures place { result ≡ at + length (word_text word.now) }
{
    let mut end = at;
    for (i, &s) in word.iter().enumerate() {
        end = put_symbol_text(out, end, s, i + 1 == word.len());
    }
    end
}

// A word of a term, and what follows it.
#[tactic(auto, using(crate::proofs::TextLaws::entry_laws))]
fn put_entry_text(out: &mut [u8], at: usize, word: &[u8], last: bool) -> usize
    requires { at + 3 * length word.now + 3 ≤ length out.old }
    ensures bytes { out.new ≡ put out.old at (word_text word.now ++ pick last line_end ampersand) }
    ensures place { result ≡ at + length (word_text word.now ++ pick last line_end ampersand) }
{
    let end = put_word_text(out, at, word);
    if last {
        out[end] = b'\n';
        return end + 1;
    }
    out[end..end + 3].copy_from_slice(b" & ");
    end + 3
}

// The place after a term, and the place after its text.
// Kept: apart from `rule_bytes::WordRead` as said there.
#[derive(Clone, Copy)]
pub struct TermText {
    pub next: usize,
    pub end: usize,
}

// The line of the term at a place of a checked list, written from place `to` on. Three bytes for each byte of the list are enough.
// Kept: list and place stand apart, as at `rules::meets_term`.
pub fn put_term_text(list: &[u8], at: usize, out: &mut [u8], to: usize) -> TermText
    requires { SomeTerm list.now at × (to + 3 * (length list.now - at) ≤ length out.old) }
    ensures { (t : List (List ℕ)) (s : List ℕ) → TermAt list.now at t s
        → (out.new ≡ put out.old to (term_text t))
        × ((result.end ≡ to + length (term_text t)) × (drop result.next list.now ≡ s)) }
{
    let mut words = Words::of_term(list, at);
    let mut end = to;
    // Kept: no `for`, as in `rules::meets_term`.
    while let Some(w) = words.next() {
        let word = &w.word.symbols[..w.word.len];
        end = put_entry_text(out, end, word, words.left == 0);
    }
    TermText {
        next: words.place,
        end,
    }
}

// The text of a checked list, from the first byte of `out` on, and its length.
// Kept: a checked list is no type, as at `rules::meets_list`.
#[tactic(auto, using(crate::proofs::TextLaws::list_laws))]
pub fn list_text(list: &[u8], out: &mut [u8]) -> usize
    requires { SomeList list.now × (3 * length list.now ≤ length out.old) }
    ensures { (l : List (List (List ℕ))) → IsList list.now l
        → (out.new ≡ put out.old 0 (list_text l)) × (result ≡ length (list_text l)) }
{
    let number = u16_at(list, 0);
    let mut place = 2;
    let mut end = 0;
    // Kept: the place goes on by hand, as in `rules::meets_list`.
    for _ in 0..number {
        let r = put_term_text(list, place, out, end);
        place = r.next;
        end = r.end;
    }
    end
}
