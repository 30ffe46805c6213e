// 01's path and next-word calls: file, pair, word and lent output in, any of them wrong or right.
ghost use Rattle.std.specs.Prelude.{◌≡◌, ◌&&◌, ◌≤◌, length, leb};
ghost use Rattle.lists.specs.Lists.{all_of};
ghost use Rattle.limits.specs.Limits.{longest_word};
ghost use Rattle.rebac.specs.Matter.{Matter};
ghost use Rattle.graph.specs.promises.Archive.{Shows};
ghost use Rattle.graph.specs.Legal.{legal_symbol};
ghost use Rattle.search.specs.Word.{symbols_in};
ghost use Rattle.paths.specs.Calls.{GivenAs, word_reply, word_output, path_in, next_in, path_call, next_call};

use graph::{Archive, WordRule};
use house_layout::Refusal;
use limits::WORD_CAPACITY;
use search::{Form, ShortWord, Word};
use words::next_word;

// Whether the word has at most D symbols, each of the language and with a label below L.
pub fn legal_given_word(rule: WordRule, w: &Word) -> bool
    requires { rule.longest ≤ longest_word }
    ensures { result ≡ (leb w.now.len rule.longest && all_of (legal_symbol rule.labels rule.language) (symbols_in w.now)) }
{
    w.len <= rule.longest && rule.legal_symbols(&w.symbols[..w.len])
}

// The given word as one that a search can take, where it is legal in the archive; otherwise refusal 11.
pub fn given_word(a: &Archive, w: Word) -> Result<ShortWord, Refusal>
    ensures { (M : Matter) → Shows M a.now → GivenAs M w result }
{
    if !legal_given_word(a.words, &w) {
        return Err(Refusal::GivenWord);
    }
    Ok(ShortWord { word: w })
}

// The path call for an accepted file. The ones of the visited mask number the path's parties.
// Kept: first and second are any numbers here; they become a pair of the graph in the first line.
#[tactic(auto, using(crate::proofs::CallLaws::refusal_laws))]
fn path_in(
    a: &Archive,
    first: usize,
    second: usize,
    w: Word,
    out: &mut [u8],
) -> Result<Option<usize>, Refusal>
    ensures { (M : Matter) → Shows M a.now
        → (result ≡ word_reply (path_in M first second w (length out.old)))
        × (out.new ≡ word_output (path_in M first second w (length out.old)) out.old) }
{
    let pair = a.pair(first, second)?;
    let word = given_word(a, w)?;
    let len = w.len;
    if len == 0 {
        return Err(Refusal::GivenWord);
    }
    if out.len() < len + 1 {
        return Err(Refusal::Output);
    }
    let Ok(path) = pair.search(Form { word, fixed: len }) else {
        return Ok(None);
    };
    let mut parties = path.parties;
    parties[0] = first as u8;
    let count = u32::count_ones(path.visited) as usize;
    out[..count].copy_from_slice(&parties[..count]);
    Ok(Some(count))
}

// The next-word call for an accepted file.
// Kept: first and second are any numbers here; they become a pair of the graph in the first line.
#[tactic(auto, using(crate::proofs::CallLaws::refusal_laws))]
fn next_in(
    a: &Archive,
    first: usize,
    second: usize,
    w: Word,
    out: &mut [u8],
) -> Result<Option<usize>, Refusal>
    ensures { (M : Matter) → Shows M a.now
        → (result ≡ word_reply (next_in M first second w (length out.old)))
        × (out.new ≡ word_output (next_in M first second w (length out.old)) out.old) }
{
    let pair = a.pair(first, second)?;
    let word = given_word(a, w)?;
    if out.len() < WORD_CAPACITY {
        return Err(Refusal::Output);
    }
    let Some(next) = next_word(&pair, a.words.longest, word) else {
        return Ok(None);
    };
    let len = next.word.len;
    let symbols = next.word.symbols;
    out[..len].copy_from_slice(&symbols[..len]);
    Ok(Some(len))
}

// Writes the parties of the pair's path with the word, and replies how many; none: the pair has no such path. `said_word` gives 01's
// number and values of each reply; equal ones mean equal replies (`word_said`).
#[tactic(auto, using(house_layout::proofs::Exits::left_with), unfolding(crate::specs::Calls::path_call))]
pub fn path_call(
    file: &[u8],
    first: usize,
    second: usize,
    w: Word,
    out: &mut [u8],
) -> Result<Option<usize>, Refusal>
    ensures { (result ≡ word_reply (path_call file.now first second w (length out.old)))
        × (out.new ≡ word_output (path_call file.now first second w (length out.old)) out.old) }
{
    let a = graph::load(file)?;
    path_in(&a, first, second, w, out)
}

// Writes the pair's first word after the given one, and replies its length; none: no word follows.
#[tactic(auto, using(house_layout::proofs::Exits::left_with), unfolding(crate::specs::Calls::next_call))]
pub fn next_call(
    file: &[u8],
    first: usize,
    second: usize,
    w: Word,
    out: &mut [u8],
) -> Result<Option<usize>, Refusal>
    ensures { (result ≡ word_reply (next_call file.now first second w (length out.old)))
        × (out.new ≡ word_output (next_call file.now first second w (length out.old)) out.old) }
{
    let a = graph::load(file)?;
    next_in(&a, first, second, w, out)
}
