// A matter as the numbers of a header and masks of kinds.
ghost use Rattle.std.specs.Prelude.{◌≤◌};
ghost use Rattle.limits.specs.Limits.{most_parties, most_labels};

use house_layout::Header;
use masks::Table;

// The matter that the header's numbers and the masks of kinds say.
#[derive(Clone, Copy)]
pub struct MatterIn<'a> {
    pub header: Header,
    pub masks: &'a Table,
    ghost parties: { header.parties ≤ most_parties },
    ghost labels: { header.labels ≤ most_labels },
}
