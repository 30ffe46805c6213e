// Symbols, tested in masks.
ghost use Rattle.std.specs.Prelude.{◌<◌};
ghost use Rattle.limits.specs.Limits.{symbol_count};

// A symbol: a place of a mask.
#[derive(Clone, Copy)]
pub struct Symbol {
    pub number: u8,
    ghost within: { number < symbol_count },
}

impl Symbol {
    ghost use Rattle.std.specs.Prelude.{◌≡◌};
    ghost use Rattle.masks.specs.promises.Mask.{test_bit};

    // Whether the mask has it.
    pub fn is_in(self, mask: u32) -> bool
        ensures { result ≡ test_bit mask self.number }
    {
        masks::has(mask, u32::from(self.number))
    }
}
