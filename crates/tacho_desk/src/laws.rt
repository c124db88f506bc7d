//! Laws about tasks. A law is a function that does nothing: what it ensures is proved, and holds for everything that it names. Some call
//! the laws on which they depend.

ghost use Rattle.std.specs.Prelude.{◌≡◌, ℕ, List};
ghost use Rattle.tacho_state.specs.declared.caller.Caller.{Caller};
ghost use Rattle.tacho_desk.specs.Arguments.{AreReadAsListed};
ghost use Rattle.tacho_desk.specs.Own.{OneAnswer, OthersStay, RefusalsStay, SameAnswers};
ghost use Rattle.tacho_desk.specs.Words.{IsTask, Wanted};
ghost use Rattle.tacho_desk.specs.declared.want.Want.{Want};

use tacho_handover::laws::one_handover;
use tacho_rules::laws::one_report;
use tacho_sheet::laws::{
    one_ahead_text, one_chart_of_a_month, one_form, one_sheet_of_a_month, one_text_of_a_month,
    one_why_of_a_month,
};
use tacho_state::laws::one_content;
use tacho_stretches::laws::one_list_of_stretches;

/// Arguments make one task, or have one first fault.
pub fn one_task()
    ensures { (want : Want) (caller : Caller) (driver word next : List ℕ) (a b : Wanted) → IsTask want caller driver word next a
        → IsTask want caller driver word next b → a ≡ b }
{}

/// The arguments of each command are read as the kinds that its row of the table names, from left to right: what is asked for is refused
/// exactly with the fault of the first bad argument.
pub fn arguments_are_read_as_listed()
    ensures { AreReadAsListed }
{}

/// A refusal changes nothing.
pub fn refusals_change_nothing()
    ensures { RefusalsStay }
{}

/// What a driver's own task answers, and the driver's rows after it, depend on the driver's rows alone. No other driver's rows change.
pub fn own_tasks_stand_alone()
    ensures same { SameAnswers }
    ensures others { OthersStay }
{}

/// A driver's own task has only one answer, and only one state after it.
pub fn own_tasks_have_one_answer()
    ensures { OneAnswer }
{
    one_content();
    one_report();
    one_text_of_a_month();
    one_sheet_of_a_month();
    one_list_of_stretches();
    one_form();
    one_chart_of_a_month();
    one_why_of_a_month();
    one_ahead_text();
    one_handover();
}
