// The word test, for the pairs and words that path takes.
use crate::calls::read_word;
use crate::frame::Asked;
use crate::show;
use crate::stop::Stop;
use house_layout::Refusal;
use search::Word;
use std::io::{Read, Write};
use word_test::Tested;

// The word test for the frame's file; pair and word are refused as path refuses them.
fn test_call(asked: Asked, w: Word) -> Result<Tested, Refusal> {
    let a = graph::load(asked.file)?;
    let pair = a.pair(asked.frame.first, asked.frame.second)?;
    let word = paths::given_word(&a, w)?;
    if w.len == 0 {
        return Err(Refusal::GivenWord);
    }
    Ok(word_test::word_test(&pair, word))
}

// Reads the word of a frame and tests it.
pub fn run_test<R: Read, W: Write>(asked: Asked, input: &mut R, out: &mut W) -> Result<(), Stop> {
    let w = read_word(input)?;
    show("test", test_call(asked, w), out, |t, out| {
        let yes = if t.yes { "yes" } else { "no" };
        writeln!(out, " {yes} {}", t.length)
    })?;
    Ok(())
}
