// The words of a term, one after another from its bytes.
use crate::read::read_word;
use fields::u16_at;
use search::ShortWord;

// The bytes, the place of the next word, and how many words are left.
#[derive(Drop)]
pub struct Words<'a> {
    pub list: &'a [u8],
    pub place: usize,
    pub left: usize,
}

impl<'a> Words<'a> {
    ghost use Rattle.std.specs.Prelude.{◌≡◌, List, ℕ, ◌+◌};
    ghost use Rattle.fields.specs.Numbers.{u16_at};
    ghost use Rattle.rule_bytes.specs.promises.Reading.{SomeTerm, TermAt};
    ghost use Rattle.rule_bytes.specs.promises.Words.{AreAhead, WordsAhead};

    // The words of the term at a place of a checked list.
    #[tactic(auto, using(crate::proofs::PlaceLaws::term_room))]
    pub fn of_term(list: &'a [u8], at: usize) -> Words<'a>
        requires { SomeTerm list.now at }
        ensures place { result.place ≡ at + 2 }
        ensures list { result.list.now ≡ list.now }
        ensures ahead { (t : List (List ℕ)) (s : List ℕ) → TermAt list.now at t s → AreAhead result t s }
        ensures can { WordsAhead result }
    {
        Words {
            list,
            place: at + 2,
            left: u16_at(list, at),
        }
    }
}

impl<'a> Iterator for Words<'a> {
    ghost use Rattle.std.specs.Iterator.{at_most};
    ghost use Rattle.rule_bytes.specs.promises.Words.{WordsAhead, GivesWord};

    type Item = ShortWord;

    ghost can_next = { WordsAhead };

    ghost next_gives = { GivesWord };

    ghost remaining = { λ s. at_most s.left };

    fn next(&mut self) -> Option<ShortWord> {
        if self.left == 0 {
            return None;
        }
        let r = read_word(self.list, self.place);
        self.place = r.next;
        self.left -= 1;
        Some(ShortWord { word: r.word })
    }
}
