// The enlarged graph, made of the masks of kinds.
ghost use Rattle.std.specs.Prelude.{◌≡◌, ℕ, ◌<◌};
ghost use Rattle.masks.specs.promises.Mask.{test_bit};
ghost use Rattle.masks.specs.promises.Table.{mask_in, mask_at};
ghost use Rattle.rebac.specs.Matter.{Matter};
ghost use Rattle.rebac.specs.Symbols.{holds};
ghost use Rattle.graph.specs.promises.Symbols.{GraphLimits, Records};

use crate::words::WordRule;
use masks::{Row, Table};

// The row of one party.
fn enlarge_row(words: WordRule, n: usize, kinds: &Table, u: usize) -> Row
    requires { GraphLimits n words × (u < n) }
    ensures { (M : Matter) → Records M n words kinds.now → (v s : ℕ) → test_bit (mask_in result v) s ≡ holds M u v s }
{
    let own = kinds.rows[u];
    let mut row = Row::empty();
    for v in 0..n {
        if v != u {
            let back = kinds.rows[v].masks[u];
            row = row.put_mask(v, words.symbols(own.masks[v], back));
        }
    }
    row
}

// The rows of all parties.
pub fn enlarge(words: WordRule, n: usize, kinds: &Table) -> Table
    requires { GraphLimits n words }
    ensures { (M : Matter) → Records M n words kinds.now → (u v s : ℕ) → test_bit (mask_at result u v) s ≡ holds M u v s }
{
    let mut table = Table::empty();
    for u in 0..n {
        table = table.put_row(u, enlarge_row(words, n, kinds, u));
    }
    table
}
