// The words that a file's rules may have.
ghost use Rattle.std.specs.Prelude.{◌≤◌};
ghost use Rattle.limits.specs.Limits.{last_language};

use crate::absent::absent_in;

// What makes a word legal: at most `longest` symbols, each of a kind that the language uses and with a label below `labels`.
#[derive(Clone, Copy)]
pub struct WordRule {
    pub labels: usize,
    pub language: usize,
    pub longest: usize,
    ghost known: { language ≤ last_language },
}

impl WordRule {
    ghost use Rattle.std.specs.Prelude.{◌≡◌, ◌&&◌, ℕ, ◌*◌, ◌<◌, ltb};
    ghost use Rattle.lists.specs.Lists.{member, all_of};
    ghost use Rattle.limits.specs.Limits.{most_labels, symbol_count};
    ghost use Rattle.masks.specs.promises.Mask.{test_bit};
    ghost use Rattle.rebac.specs.Symbols.{kinds};
    ghost use Rattle.graph.specs.Legal.{legal_symbol};
    ghost use Rattle.graph.specs.promises.Symbols.{symbol_in};

    // Whether the language uses a kind.
    // Kept: languages and kinds are numbers in 000 and 01, and definitions and file bytes compute with them (4 * label + kind).
    pub fn uses_kind(self, kind: u32) -> bool
        requires { kind < 4 }
        ensures { result ≡ member kind (kinds self.language) }
    {
        match self.language {
            0 => kind == 0,
            1 => kind < 2,
            2 => kind % 2 == 0,
            _ => true,
        }
    }

    // Whether a symbol is the language's and its label below L.
    #[tactic(auto, unfolding(crate::specs::Legal::legal_symbol))]
    pub fn legal_symbol(self, s: u8) -> bool
        ensures { result ≡ legal_symbol self.labels self.language s }
    {
        ((s / 4) as usize) < self.labels && self.uses_kind((s % 4) as u32)
    }

    // Whether all of them are.
    pub fn legal_symbols(self, symbols: &[u8]) -> bool
        ensures { result ≡ all_of (legal_symbol self.labels self.language) symbols.now }
    {
        symbols.iter().all(|&s| self.legal_symbol(s))
    }

    // Whether a symbol of the language holds, by the kinds out and back.
    // Kept: a symbol's kind is a number here, as in `uses_kind`.
    fn symbol_in(self, out: u32, back: u32, s: u32) -> bool
        requires { s < symbol_count }
        ensures { result ≡ symbol_in self.language out back s }
    {
        let label = s / 4;
        let kind = s % 4;
        self.uses_kind(kind)
            && match kind {
                0 => masks::has(out, label),
                1 => absent_in(out, label),
                2 => masks::has(back, label),
                _ => absent_in(back, label),
            }
    }

    // The symbols that hold, by the kinds out and back.
    pub(crate) fn symbols(self, out: u32, back: u32) -> u32
        requires { self.labels ≤ most_labels }
        ensures { (s : ℕ) → test_bit result s ≡ (ltb s (4 * self.labels) && symbol_in self.language out back s) }
    {
        let end = (4 * self.labels) as u32;
        let mut mask = 0;
        for s in 0..end {
            if self.symbol_in(out, back, s) {
                mask = masks::with(mask, s);
            }
        }
        mask
    }
}
