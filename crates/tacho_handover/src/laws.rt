//! Laws about handovers. A law is a function without a body: its `ensures` clause is proved, and holds for all values that it names.

ghost use Rattle.std.specs.Prelude.{◌≡◌, ◌↔◌, ◌++◌, ◌∷◌, ℕ, List};
ghost use Rattle.tacho_time.specs.declared.span.Mark.{Mark};
ghost use Rattle.tacho_line.specs.Line.{IsWithin};
ghost use Rattle.tacho_state.specs.State.{Download, Driver};
ghost use Rattle.tacho_handover.specs.Covering.{AreHanded, GivenBy, GivesOf, Handed, HandedGive};
ghost use Rattle.tacho_handover.specs.Handover.{IsHandover};

use tacho_line::laws::one_list_of_gaps;

/// The card files that are handed over give the same in the period as all of them.
pub fn all_is_given()
    ensures { (start past i : ℕ) (ds : List Download) (handed : List Handed) (m : ℕ) (mark : Mark) → AreHanded start past i ds handed
        → IsWithin start past m → GivenBy ds m mark ↔ HandedGive handed m mark }
{}

/// None of them could be left out beside the newer ones: each gives a minute and mark of the period that these don't give.
pub fn each_is_needed()
    ensures { (start past i : ℕ) (ds : List Download) (newer older : List Handed) (h : Handed) → AreHanded start past i ds (newer ++ h ∷ older)
        → (m : ℕ) × (mark : Mark) × IsWithin start past m × GivesOf h m mark × ¬ HandedGive newer m mark }
{}

/// There is one handover of a driver and a period.
pub fn one_handover()
    ensures { (program : List ℕ) (from past : ℕ) (d : Driver) (a b : List ℕ) → IsHandover program from past d a → IsHandover program from past d b
        → a ≡ b }
{
    one_list_of_gaps();
}
