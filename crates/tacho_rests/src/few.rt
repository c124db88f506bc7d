//! A few debts and a few rests, each in an array with a count. They don't use `ArrayVec`, since a scan is `Copy` and an `ArrayVec` isn't.

ghost use Rattle.std.specs.Prelude.{◌≡◌, ◌≤◌, [], All, length, take};
ghost use Rattle.tacho_law.specs.Limits.{latest};
ghost use Rattle.tacho_rests.specs.Paying.{push_few};

use tacho_law::{Debt, Run};
use tacho_time::{Minute, Week};

/// The most debts that can be open at once: those of four weeks.
const MOST_DEBTS: usize = 4;

/// The most rests of nine hours or more that can start in one week.
const MOST_RESTS: usize = 19;

/// A few debts, by week.
#[derive(Clone, Copy)]
pub struct Debts {
    slots: [Debt; 4],
    count: usize,
    ghost few: { count ≤ 4 },
}

impl Debts {
    /// Returns an empty list of debts.
    pub fn none() -> Debts
        ensures { take result.count result.slots ≡ [] }
    {
        let none = Debt {
            week: Week::new(0),
            amount: 0,
            deadline: Minute::new(0),
            paid_by: None,
        };
        Debts {
            slots: [none; 4],
            count: 0,
        }
    }

    /// Returns all the debts.
    pub fn as_slice(&self) -> &[Debt]
        ensures all { result.now ≡ take self.now.count self.now.slots }
        ensures bounded { length result.now ≤ 4 }
    {
        &self.slots[..self.count]
    }

    /// Appends a debt, if there is room for it.
    pub fn push(&mut self, debt: Debt)
        ensures { take self.new.count self.new.slots ≡ push_few 4 (take self.old.count self.old.slots) debt }
    {
        if self.count < MOST_DEBTS {
            self.slots[self.count] = debt;
            self.count += 1;
        }
    }
}

/// A few rests, in order of time.
#[derive(Clone, Copy)]
pub struct Rests {
    slots: [Run; 19],
    count: usize,
    ghost few: { count ≤ 19 },
    ghost early: { All (λ run. run.start ≤ latest) (take count slots) },
}

impl Rests {
    /// Returns an empty list of rests.
    pub fn none() -> Rests
        ensures { take result.count result.slots ≡ [] }
    {
        Rests {
            slots: [Run { start: 0, past: 0 }; 19],
            count: 0,
        }
    }

    /// Returns all the rests.
    pub fn as_slice(&self) -> &[Run]
        ensures all { result.now ≡ take self.now.count self.now.slots }
        ensures in_range { All (λ run. run.start ≤ latest) result.now }
    {
        &self.slots[..self.count]
    }

    /// Appends a rest, if there is room for it.
    pub fn push(&mut self, rest: Run)
        requires { rest.start ≤ latest }
        ensures { take self.new.count self.new.slots ≡ push_few 19 (take self.old.count self.old.slots) rest }
    {
        if self.count < MOST_RESTS {
            self.slots[self.count] = rest;
            self.count += 1;
        }
    }
}
