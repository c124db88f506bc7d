ghost use Rattle.std.specs.Prelude.{◌≡◌};
ghost use Rattle.tacho_choice.specs.Step.{has_one, has_two, has_regular, plus, plus_where, serves as serves_it};

/// The weekly rests that are counted in a week: none, one, or more, and whether a regular one is among them.
#[derive(Clone, Copy)]
pub enum Counted {
    Nothing,
    One(bool),
    More(bool),
}

impl Counted {
    fn some(self) -> bool
        ensures { result ≡ has_one self }
    {
        !matches!(self, Counted::Nothing)
    }

    fn several(self) -> bool
        ensures { result ≡ has_two self }
    {
        matches!(self, Counted::More(_))
    }

    fn regular(self) -> bool
        ensures { result ≡ has_regular self }
    {
        match self {
            Counted::Nothing => false,
            Counted::One(regular) | Counted::More(regular) => regular,
        }
    }

    /// Returns the set with one more rest.
    pub fn and(self, regular: bool) -> Counted
        ensures { result ≡ plus self regular }
    {
        match self {
            Counted::Nothing => Counted::One(regular),
            Counted::One(before) | Counted::More(before) => Counted::More(before || regular),
        }
    }

    /// Returns the set with one more rest, if there is one and it is taken.
    pub fn and_where(self, taken: bool, rest: Option<bool>) -> Counted
        ensures { result ≡ plus_where taken rest self }
    {
        match rest {
            Some(regular) if taken => self.and(regular),
            _ => self,
        }
    }

    /// Returns true if a week and the next have two rests, one of them regular (Article 8(6), first subparagraph).
    pub fn serves(self, next: Counted) -> bool
        ensures { result ≡ serves_it self next }
    {
        (self.regular() || next.regular())
            && (self.several() || next.several() || (self.some() && next.some()))
    }
}
