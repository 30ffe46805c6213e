// What letters stand for, and a graph written in them.
use crate::MOST_LETTERS;
use crate::span::Span;
use limits::MOST_PARTIES;
use masks::{Row, Table, with};
use search::Symbol;

// The letters below the span's base stand for symbols, the others for classes.
// Kept: arrays beside a base and an end, since there is no heap here and room for 32.
#[derive(Clone, Copy)]
pub struct Legend {
    pub span: Span,
    pub symbols: [Symbol; MOST_LETTERS],
    pub classes: [u32; MOST_LETTERS],
}

impl Legend {
    ghost use Rattle.limits.specs.Limits.{most_parties};
    ghost use Rattle.letters.specs.promises.Writing.{LettersIn, RowWritten, Written};

    // A mask in letters.
    fn letters_in(&self, mask: u32) -> u32
        ensures { LettersIn self.now mask result }
    {
        let mut letters: u32 = 0;
        for i in 0..self.span.end {
            let on = if i < self.span.base {
                self.symbols[i].is_in(mask)
            } else {
                mask | self.classes[i - self.span.base] == mask
            };
            if on {
                letters = with(letters, i as u32);
            }
        }
        letters
    }

    // A row of masks, each in letters.
    fn row_in(&self, row: Row) -> Row
        ensures { RowWritten self.now row most_parties result }
    {
        let mut written = row;
        for v in 0..MOST_PARTIES {
            written.masks[v] = self.letters_in(row.masks[v]);
        }
        written
    }

    // The masks of a graph, each in letters.
    pub fn write(&self, g: &Table) -> Table
        ensures { Written self.now g.now most_parties result }
    {
        let mut rows = [Row::empty(); MOST_PARTIES];
        for u in 0..MOST_PARTIES {
            rows[u] = self.row_in(g.rows[u]);
        }
        Table { rows }
    }
}
