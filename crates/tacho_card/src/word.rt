ghost use Rattle.std.specs.Prelude.{◌≡◌};
ghost use Rattle.tacho_card.specs.ActivityChangeInfo.{activity_of};

use std::marker::Model;
use tacho_time::{Activity, Mark};

/// ActivityChangeInfo (Annex IC, Appendix 1): the sixteen bits `scpaattttttttttt` of a change of activity.
#[derive(Clone, Copy)]
pub struct Word {
    bits: u16,
}

impl Model for Word {
    ghost use Rattle.std.specs.Prelude.{ℕ};

    ghost Value = { ℕ };

    ghost view = { λ word. word.bits };

    ghost inverse = { λ bits. record { bits = bits } };
}

impl Word {
    ghost use Rattle.std.specs.Prelude.{◌≡◌};
    ghost use Rattle.tacho_card.specs.ActivityChangeInfo.{time_of, mark_of};

    /// Returns the word with these bits.
    pub fn of(bits: u16) -> Word
        ensures { result ≡ bits }
    {
        Word { bits }
    }

    /// Returns the minute of the day from which the word holds: 0 to 2047, although a day has only 1,440.
    pub fn minute(self) -> u16
        ensures { result ≡ time_of self }
    {
        self.bits % 2048
    }

    /// Returns the mark that the word gives, or none if the card was out and nothing was entered by hand.
    pub fn mark(self) -> Option<Mark>
        ensures { result ≡ mark_of self }
    {
        let activity = activity_of_word(self.bits);
        let card_is_out = self.bits / 8192 % 2 == 1;
        let driving_status = self.bits / 16384 % 2 == 1;
        match (card_is_out, driving_status) {
            (false, crew) => Some(Mark { activity, crew }),
            (true, true) => Some(Mark {
                activity,
                crew: false,
            }),
            (true, false) => None,
        }
    }
}

/// Returns the activity of the bits `aa`.
fn activity_of_word(bits: u16) -> Activity
    ensures { result ≡ activity_of bits }
{
    match bits / 2048 % 4 {
        0 => Activity::Rest,
        1 => Activity::Available,
        2 => Activity::Work,
        _ => Activity::Drive,
    }
}
