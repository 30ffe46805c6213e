// The first word after a word that another pair lacks.
ghost use Rattle.std.specs.Prelude.{◌≤◌};
ghost use Rattle.mining.specs.promises.Kept.{FirstLackedAs, HadQuery};

use crate::pairs::TwoPairs;
use search::ShortWord;
use words::next_word;

// So many words are passed one by one before classes are tried: for most pairs that is quicker.
const WORDS_BEFORE_CLASSES: u32 = 512;

// The first word of the own pair's that the other lacks, by classes. It has the words up to `had`.
fn lacked_by_classes(t: &TwoPairs, had: ShortWord) -> Option<ShortWord>
    requires { HadQuery t.now had.word × (1 ≤ had.word.len) }
    ensures { FirstLackedAs t.now result }
{
    classes::first_telling_word(&t.both(), had.word.len - 1, t.own.archive.words.longest)
}

// The own pair's words in order after `had`, up to the first that the other lacks. It has those up to `had`.
// Before them a map is tried that shows that it has all, and after some of them, if it has one word more, classes.
pub fn lacked_after(t: &TwoPairs, had: ShortWord) -> Option<ShortWord>
    requires { HadQuery t.now had.word }
    ensures { FirstLackedAs t.now result }
{
    if maps::carried(&t.both()) {
        return None;
    }
    let own = t.own.in_graph();
    let other = t.other();
    let mut w = had;
    for _ in 0..=WORDS_BEFORE_CLASSES {
        w = next_word(&own, t.own.archive.words.longest, w)?;
        if !word_test::has_word(&other, w) {
            return Some(w);
        }
    }
    lacked_by_classes(t, w)
}
