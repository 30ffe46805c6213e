// Which two numbers are a pair.
ghost use Rattle.std.specs.Prelude.{◌≡◌};
ghost use Rattle.graph.specs.Legal.{is_pair};

// Whether two parties are a pair of n parties.
#[tactic(auto, unfolding(crate::specs::Legal::is_pair))]
pub fn is_pair(n: usize, first: usize, second: usize) -> bool
    ensures { result ≡ is_pair n first second }
{
    first < n && second < n && first != second
}
