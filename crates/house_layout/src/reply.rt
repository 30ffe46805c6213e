// Why a file or a call is refused.
ghost use Rattle.std.specs.Prelude.{◌≡◌};
ghost use Rattle.house_layout.specs.Reply.{number_of};

// The refusals of 01 and 02; `number_of` gives the number of each. 1 to 8, 15 and 16 are caused by whoever wrote the file.
#[derive(Clone, Copy, Debug, PartialEq, Eq)]
pub enum Refusal {
    Length,
    Field,
    Link,
    Again,
    Unreached,
    Target,
    Kind,
    Repeat,
    RuleList,
    PartyPair,
    GivenWord,
    Scratch,
    Inconvertible,
    Output,
    Owner,
    Contrary,
}

// 01's number of a refusal.
impl From<Refusal> for u8 {
    ghost from_gives = { λ x n. n ≡ number_of x };

    fn from(x: Refusal) -> u8 {
        match x {
            Refusal::Length => 1,
            Refusal::Field => 2,
            Refusal::Link => 3,
            Refusal::Again => 4,
            Refusal::Unreached => 5,
            Refusal::Target => 6,
            Refusal::Kind => 7,
            Refusal::Repeat => 8,
            Refusal::RuleList => 9,
            Refusal::PartyPair => 10,
            Refusal::GivenWord => 11,
            Refusal::Scratch => 12,
            Refusal::Inconvertible => 13,
            Refusal::Output => 14,
            Refusal::Owner => 15,
            Refusal::Contrary => 16,
        }
    }
}
