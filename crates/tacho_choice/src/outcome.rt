ghost use Rattle.std.specs.Prelude.{◌≡◌, ◌<◌};
ghost use Rattle.tacho_choice.specs.Step.{place_of};

use crate::counted::Counted;

/// What a choice leaves of a week: the rests that it counts there, and whether it counts the rest that crosses the week's end by then.
#[derive(Clone, Copy)]
pub struct Outcome {
    pub counted: Counted,
    pub crossing: bool,
}

/// The outcomes of a week of which nothing is required: nothing is counted in it, and a rest that crosses its end may or may not be counted
/// by then.
pub const ANY: [bool; 10] = [
    true, false, false, false, false, true, false, false, false, false,
];

impl Outcome {
    /// Returns the outcome's place among the ten.
    pub fn place(self) -> usize
        ensures { result ≡ place_of self }
    {
        let counted = match self.counted {
            Counted::Nothing => 0,
            Counted::One(false) => 1,
            Counted::One(true) => 2,
            Counted::More(false) => 3,
            Counted::More(true) => 4,
        };
        if self.crossing { counted + 5 } else { counted }
    }

    /// Returns the outcome at a place.
    pub fn at(place: usize) -> Outcome
        requires { place < 10 }
        ensures { place_of result ≡ place }
    {
        let counted = match place % 5 {
            0 => Counted::Nothing,
            1 => Counted::One(false),
            2 => Counted::One(true),
            3 => Counted::More(false),
            _ => Counted::More(true),
        };
        Outcome {
            counted,
            crossing: place >= 5,
        }
    }
}
