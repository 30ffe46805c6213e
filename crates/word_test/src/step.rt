// Steps along one symbol from one party, or to one.
ghost use Rattle.std.specs.Prelude.{◌<◌, slice_index_or};
ghost use Rattle.masks.specs.promises.Table.{no_row};
ghost use Rattle.word_test.specs.promises.Steps.{StepsFrom, StepsTo, Joined};

use masks::Row;
use search::{Graph, Symbol};

// Kept: `u` and `c` are held to the graph beside them, as an index to its slice's length; a type for them would carry the graph along.
// The parties to which the symbol leads from party u.
pub fn steps_from(g: &Graph, u: usize, s: Symbol) -> u32
    requires { u < g.now.parties }
    ensures { StepsFrom g.now.parties (slice_index_or g.now.table.rows u no_row) s.number result }
{
    let row = &g.table.rows[u];
    let mut mask: u32 = 0;
    for c in 0..g.parties {
        if s.is_in(row.masks[c]) {
            mask = masks::with(mask, c as u32);
        }
    }
    mask
}

// The parties of the mask from which the symbol leads to party u.
pub fn steps_to(g: &Graph, s: Symbol, u: usize, among: u32) -> u32
    requires { u < g.now.parties }
    ensures { StepsTo g.now.parties g.now.table s.number u among result }
{
    let mut mask: u32 = 0;
    for c in 0..g.parties {
        if masks::has(among, c as u32) && s.is_in(g.table.rows[c].masks[u]) {
            mask = masks::with(mask, c as u32);
        }
    }
    mask
}

// The row with party c in the mask of each party to which the symbol leads from it.
pub fn join(row: Row, g: &Graph, s: Symbol, c: usize) -> Row
    requires { c < g.now.parties }
    ensures { Joined g.now.parties row (slice_index_or g.now.table.rows c no_row) s.number c result }
{
    let from = &g.table.rows[c];
    let mut joined = row;
    for v in 0..g.parties {
        if s.is_in(from.masks[v]) {
            joined.masks[v] = masks::with(joined.masks[v], c as u32);
        }
    }
    joined
}
