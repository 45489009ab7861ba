// Why a call is refused: document 01, "Refusal numbers", and what document 02 adds to them.
#![tactic(auto)]

ghost use Rattle.std.specs.Prelude.{◌≡◌};
ghost use Rattle.refusals.specs.Numbers.{number_of, told_of, code_of};

// A refusal by its name. Two of them tell more than that: which number of the mesh comes first of those that are no coordinates, and how many triangles
// stand whole before the cut of a file that broke off.
#[derive(Clone, Copy, Debug, PartialEq, Eq)]
pub enum Refusal {
    Length,
    Number,
    Empty,
    Coordinate(u32),
    Starts,
    Members,
    Index,
    Tool,
    Parameter,
    Depth,
    Levels,
    Fine,
    Runs,
    Head,
    Mark,
    Version,
    SixthByte,
    Count,
    Cut(u32),
    NotFinite,
    Surplus,
    Bytes,
    Boxes,
    Shape,
    Sections,
    Heights,
    Id,
    Kind,
    State,
}

impl Refusal {
    // Its number in document 01, which C is answered.
    #[tactic(auto, unfolding(crate::specs::Numbers::number_of))]
    pub fn number(self) -> u32
        ensures { result ≡ number_of self }
    {
        match self {
            Refusal::Length => 1,
            Refusal::Number => 2,
            Refusal::Empty => 3,
            Refusal::Coordinate(_) => 4,
            Refusal::Starts => 5,
            Refusal::Members => 6,
            Refusal::Index => 7,
            Refusal::Tool => 8,
            Refusal::Parameter => 9,
            Refusal::Depth => 10,
            Refusal::Levels => 11,
            Refusal::Fine => 12,
            Refusal::Runs => 13,
            Refusal::Head => 14,
            Refusal::Mark => 15,
            Refusal::Version => 16,
            Refusal::SixthByte => 17,
            Refusal::Count => 18,
            Refusal::Cut(_) => 19,
            Refusal::NotFinite => 20,
            Refusal::Surplus => 21,
            Refusal::Bytes => 22,
            Refusal::Boxes => 23,
            Refusal::Shape => 24,
            Refusal::Sections => 25,
            Refusal::Heights => 26,
            Refusal::Id => 27,
            Refusal::Kind => 28,
            Refusal::State => 29,
        }
    }

    // What it tells beside its number, 0 where that is nothing.
    #[tactic(auto, unfolding(crate::specs::Numbers::told_of))]
    pub fn told(self) -> u32
        ensures { result ≡ told_of self }
    {
        match self {
            Refusal::Coordinate(place) => place,
            Refusal::Cut(whole) => whole,
            _ => 0,
        }
    }
}

// The number of a refusal, 0 of an answer.
#[tactic(auto, unfolding(crate::specs::Numbers::code_of))]
pub fn code_of<T>(answer: &Result<T, Refusal>) -> u32
    ensures { result ≡ code_of answer.now }
{
    match answer {
        Ok(_) => 0,
        Err(refusal) => refusal.number(),
    }
}
