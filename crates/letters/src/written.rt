// A graph written in letters.
ghost use Rattle.letters.specs.promises.Following.{Follows};

use crate::MOST_LETTERS;
use crate::span::Span;
use masks::{Row, Table};
use search::Symbol;

// A graph in letters, if they are few enough for a mask. Words are of the letters below the span's base, for each of which there are
// classes among the others, if there are any. `symbols` has what the letters of words stand for, if they stand for symbols.
// `follow` has for each letter those that may follow it.
// Kept: an array beside a base and an end, since there is no heap here and room for 32.
#[derive(Clone, Copy)]
pub struct Letters {
    pub span: Span,
    pub symbols: [Symbol; MOST_LETTERS],
    pub graph: Table,
    pub follow: Row,
    ghost follows: { Follows graph follow },
}
