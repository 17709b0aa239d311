//! The steps of a path.
ghost use Rattle.std.specs.Prelude.{◌≡◌};
ghost use Rattle.conform_check.specs.Inside.{next_place, next_step};

/// One step on the way from a message's body to a place in it.
#[derive(Clone, Copy)]
pub enum Step {
    /// The field of a struct with this id.
    Field(i16),
    /// An element of a list or set, from 0 on in the order in which they stand.
    Item(u32),
    /// The key of a pair of a map, from 0 on.
    Key(u32),
    /// The value of a pair of a map, from 0 on.
    Part(u32),
}

impl Step {
    /// Where the value stands that comes next in the same struct or container.
    #[inline(always)]
    pub(crate) fn next(self) -> Step
        ensures { result ≡ next_step self }
    {
        match self {
            Step::Field(id) => Step::Field(id),
            Step::Item(place) => Step::Item(next_place(place)),
            Step::Key(place) => Step::Part(place),
            Step::Part(place) => Step::Key(next_place(place)),
        }
    }
}

/// The next place in a container. A size is below 2^31, so it never stands still.
#[inline(always)]
fn next_place(place: u32) -> u32
    ensures { result ≡ next_place place }
{
    if place < u32::MAX { place + 1 } else { place }
}
