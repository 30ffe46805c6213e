// The check of a rule list: one pass over any bytes.
ghost use Rattle.std.specs.Prelude.{◌≡◌, ℕ, ◌≤◌, length, Some};
ghost use Rattle.rebac.specs.promises.Options.{is_some};
ghost use Rattle.rule_bytes.specs.ListBytes.{decode_word, decode_term, decode_list};
ghost use Rattle.rule_bytes.specs.promises.Reading.{Passes, PassesMany};

use fields::u16_at;
use graph::WordRule;

// A list under the check by the rule for a file's words.
#[derive(Clone, Copy)]
struct Checked<'a> {
    rule: WordRule,
    list: &'a [u8],
}

impl Checked<'_> {
    // The word at a place: the place after it, or none where it breaks the layout.
    #[tactic(auto, using(crate::proofs::ReadingLaws::word_breaks))]
    fn word(&self, at: usize) -> Option<usize>
        requires { at ≤ length self.now.list.now }
        ensures { Passes (decode_word self.now.rule.labels self.now.rule.language self.now.rule.longest) self.now.list.now at result }
    {
        let size = usize::from(*self.list.get(at)?);
        if size == 0 {
            return None;
        }
        if self.rule.longest < size {
            return None;
        }
        let end = at + 1 + size;
        let symbols = self.list.get(at + 1..end)?;
        if self.rule.legal_symbols(symbols) {
            return Some(end);
        }
        None
    }

    // The term at a place, in the same way.
    #[tactic(auto, using(crate::proofs::ReadingLaws::term_cut, crate::proofs::ReadingLaws::term_empty))]
    fn term(&self, at: usize) -> Option<usize>
        requires { at ≤ length self.now.list.now }
        ensures { Passes (decode_term self.now.rule.labels self.now.rule.language self.now.rule.longest) self.now.list.now at result }
    {
        if self.list.len() - at < 2 {
            return None;
        }
        let number = u16_at(self.list, at);
        if number == 0 {
            return None;
        }
        check_parts(at + 2, number, |place| self.word(place))
    }
}

// A number of parts from a place on, one after another.
fn check_parts<F: Fn(usize) -> Option<usize>>(at: usize, number: usize, check: F) -> Option<usize>
    requires first { F.pre check at }
    requires onward { (x y : ℕ) → F.post check x (Some y) → F.pre check y }
    ensures { PassesMany (F.post check) number at result }
{
    let mut place = at;
    for _ in 0..number {
        place = check(place)?;
    }
    Some(place)
}

// Whether any bytes are a legal rule list; not is refusal 9.
pub fn check_list(list: &[u8], rule: WordRule) -> bool
    ensures { result ≡ is_some (decode_list rule.labels rule.language rule.longest list.now) }
{
    if list.len() < 2 {
        return false;
    }
    let number = u16_at(list, 0);
    let checked = Checked { rule, list };
    let end = check_parts(2, number, |place| checked.term(place));
    end == Some(list.len())
}
