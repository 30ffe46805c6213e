// Which relations a mask of kinds says are absent.
ghost use Rattle.std.specs.Prelude.{◌≡◌, ◌<◌};
ghost use Rattle.limits.specs.Limits.{most_labels};
ghost use Rattle.graph.specs.promises.Symbols.{absent_in};

use house_layout::UNKNOWN_BIT;

// Whether the mask has neither a label nor the unknown label.
pub fn absent_in(mask: u32, label: u32) -> bool
    requires { label < most_labels }
    ensures { result ≡ absent_in mask label }
{
    !masks::has(mask, label) && !masks::has(mask, UNKNOWN_BIT + label)
}
