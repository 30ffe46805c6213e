// The symbols that hold for some pair, each the least of those that hold for the same pairs.
ghost use Rattle.std.specs.Prelude.{◌≡◌, true, ℕ, ◌<◌};
ghost use Rattle.limits.specs.Limits.{pair_numbers};
ghost use Rattle.letters.specs.promises.Letters.{numbers};
ghost use Rattle.letters.specs.promises.Writing.{SameBelow, UsedBelow, StandsFor, LeastOf, AllLeast};

use crate::MOST_LETTERS;
use crate::pair::mask_of_pair;
use limits::{LAST_SYMBOL, PAIR_NUMBERS};
use masks::Table;
use search::Symbol;

// The symbols found so far, ascending; past the count nothing is meant.
// Kept: a count beside an array, since there is no heap here and room for 32; a const parameter for the 32 would have this one value only.
#[derive(Clone, Copy)]
pub struct Least {
    pub count: usize,
    pub symbols: [Symbol; MOST_LETTERS],
}

// Whether two symbols hold for the same pairs.
fn same_symbol(g: &Table, s: Symbol, other: Symbol) -> bool
    ensures { result ≡ true → SameBelow g.now s.number other.number pair_numbers }
{
    (0..PAIR_NUMBERS).all(|k| {
        let mask = mask_of_pair(g, k);
        s.is_in(mask) == other.is_in(mask)
    })
}

// The symbols that hold for some pair.
#[tactic(auto, using(crate::proofs::WritingLaws::used_more))]
fn used_symbols(g: &Table) -> u32
    ensures { UsedBelow g.now pair_numbers result }
{
    let mut used: u32 = 0;
    for k in 0..PAIR_NUMBERS {
        used |= mask_of_pair(g, k);
    }
    used
}

impl Least {
    // Whether one of the symbols found holds for the same pairs.
    fn stands(&self, g: &Table, s: Symbol) -> bool
        requires { LeastOf g.now s.number self.now }
        ensures { result ≡ true → (i : ℕ) × StandsFor g.now (numbers self.now.symbols) self.now.count s.number i }
    {
        self.symbols[..self.count]
            .iter()
            .any(|found| same_symbol(g, *found, s))
    }

    // The symbols of a graph.
    pub fn of(g: &Table) -> Least
        ensures { AllLeast g.now result }
    {
        let used = used_symbols(g);
        let mut l = Least {
            count: 0,
            symbols: [Symbol { number: 0 }; MOST_LETTERS],
        };
        for number in 0..=LAST_SYMBOL {
            let s = Symbol { number };
            if s.is_in(used) && !l.stands(g, s) {
                l.symbols[l.count] = s;
                l.count += 1;
            }
        }
        l
    }
}
