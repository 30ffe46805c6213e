// The first telling word of a length: where no classes tell there is none, else it is sought word by word.
ghost use Rattle.std.specs.Prelude.{List, ℕ, IfSome};
ghost use Rattle.rebac.specs.promises.Telling.{first_telling};
ghost use Rattle.search.specs.promises.PairSearch.{graph_of};
ghost use Rattle.words.specs.promises.Next.{Alphabet, WordAs};
ghost use Rattle.letters.specs.promises.Writing.{ClassesMade};
ghost use Rattle.classes.specs.promises.Prefixes.{own_pair, other_pair, WordsQuery};

use crate::pairs::PairsInLetters;
use letters::Letters;
use search::{ShortWord, TwoPairsIn};
use word_test::has_word;
use words::{complete_from, next_same_length};

// The words of `len` symbols of the first pair in order, up to the first that the second lacks.
fn telling_by_words(q: &TwoPairsIn, len: usize) -> Option<ShortWord>
    requires { WordsQuery q.now len }
    ensures { (al : List ℕ) → Alphabet al q.now.graph.parties q.now.graph.table
        → WordAs (first_telling (graph_of q.now.graph) (own_pair q.now) (other_pair q.now) al len) result }
{
    let own = q.own();
    let other = q.other();
    let mut next = complete_from(&own, ShortWord::zeros(len), 0);
    while let Some(w) = next {
        if !has_word(&other, w) {
            return Some(w);
        }
        next = next_same_length(&own, w);
    }
    None
}

// The first telling word of `len` symbols. There is none if no word of as many classes tells.
pub fn telling_of_length(q: &TwoPairsIn, l: Option<&Letters>, len: usize) -> Option<ShortWord>
    requires query { WordsQuery q.now len }
    requires classes { IfSome l (λ x. ClassesMade q.now.graph.table x.now) }
    ensures { (al : List ℕ) → Alphabet al q.now.graph.parties q.now.graph.table
        → WordAs (first_telling (graph_of q.now.graph) (own_pair q.now) (other_pair q.now) al len) result }
{
    if let Some(l) = l {
        let classes = PairsInLetters::new(q, l);
        if classes.first_telling(len).is_none() {
            return None;
        }
    }
    telling_by_words(q, len)
}
