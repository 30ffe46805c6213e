// A graph in letters of two kinds: of symbols with classes of them, and of classes alone.
ghost use Rattle.std.specs.Prelude.{◌≤◌, IfSome};
ghost use Rattle.letters.specs.promises.Writing.{InLetters, LettersMade, ClassesMade};

use crate::MOST_LETTERS;
use crate::different::Classes;
use crate::follow::followers;
use crate::least::Least;
use crate::legend::Legend;
use crate::span::Span;
use crate::written::Letters;
use masks::Table;
use search::Symbol;

// The graph in the legend's letters, of which words have those below `base`.
fn in_letters(g: &Table, legend: &Legend, base: usize) -> Letters
    requires { base ≤ legend.now.span.end }
    ensures { InLetters g.now legend.now base result }
{
    let graph = legend.write(g);
    let follow = followers(&graph);
    let symbols = legend.symbols;
    let span = Span {
        base,
        end: legend.span.end,
    };
    Letters {
        span,
        symbols,
        graph,
        follow,
    }
}

// The graph in letters, those of words for symbols, if no class is contained in another: else words of classes are mostly more than those
// of symbols. None too where the letters are more than a mask has room for.
pub fn letters_of(g: &Table) -> Option<Letters>
    ensures { IfSome result (LettersMade g.now) }
{
    let c = Classes::of(g)?;
    let l = Least::of(g);
    let end = l.count + c.count;
    if end > MOST_LETTERS || c.nested() {
        return None;
    }
    let symbols = l.symbols;
    let classes = c.masks;
    let span = Span { base: l.count, end };
    let legend = Legend {
        span,
        symbols,
        classes,
    };
    Some(in_letters(g, &legend, l.count))
}

// The graph in classes alone, if they are no more than the symbols: else words of classes are mostly more than those of symbols.
// None too where they are more than a mask has room for.
pub fn class_letters(g: &Table) -> Option<Letters>
    ensures { IfSome result (ClassesMade g.now) }
{
    let c = Classes::of(g)?;
    if c.count > Least::of(g).count {
        return None;
    }
    let classes = c.masks;
    let span = Span {
        base: 0,
        end: c.count,
    };
    let legend = Legend {
        span,
        // Kept: zeros, since no letter stands for a symbol here: the span's base, 0, says so already, and an Option would say it twice.
        symbols: [Symbol { number: 0 }; MOST_LETTERS],
        classes,
    };
    Some(in_letters(g, &legend, c.count))
}
