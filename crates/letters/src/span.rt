// The numbers of letters of two kinds.
ghost use Rattle.std.specs.Prelude.{◌≤◌};
ghost use Rattle.limits.specs.Limits.{symbol_count};

// The letters of one kind are those below `base`, those of the other, if there are any, from there to below `end`.
#[derive(Clone, Copy)]
pub struct Span {
    pub base: usize,
    pub end: usize,
    ghost order: { base ≤ end },
    ghost few: { end ≤ symbol_count },
}
