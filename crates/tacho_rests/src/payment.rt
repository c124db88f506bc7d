ghost use Rattle.std.specs.Prelude.{◌≡◌, ◌<◌, ◌≤◌, All, None as NoRun};
ghost use Rattle.tacho_law.specs.Limits.{latest};
ghost use Rattle.tacho_rests.specs.Few.{debts_in};
ghost use Rattle.tacho_rests.specs.Paying.{takes as takes_it, pay_all, longest_rest, debt_for, is_main as is_main_of};
ghost use Rattle.tacho_rests.specs.Paying.{turn as turn_of, turns as turns_of};

use crate::few::Debts;
use tacho_law::limits::{DAILY_REST, REGULAR_WEEKLY_REST, WEEKLY_REST, WEEKS_TO_PAY};
use tacho_law::{Debt, Run, known_minutes};
use tacho_time::{Minute, Week, first_minute};

/// Returns true if no rest pays a debt yet and this rest has room for it, in addition to the minutes that are spent (Article 8(6b)).
fn takes(rest: Run, end: u32, spent: u32, debt: &Debt) -> bool
    ensures { result ≡ takes_it rest end spent debt.now }
{
    let minutes = known_minutes(rest, end.min(debt.deadline.number()));
    debt.paid_by.is_none() && debt.amount <= minutes.saturating_sub(spent)
}

/// Returns the debts after the turn of a rest, which keeps `kept` minutes for itself (Article 8(6b)).
fn paid(debts: &Debts, rest: Run, end: u32, kept: u32) -> Debts
    requires { rest.start ≤ latest }
    ensures { debts_in result ≡ pay_all rest end kept (debts_in debts.now) }
{
    let mut after = Debts::none();
    let mut spent = kept;
    for debt in debts.as_slice() {
        if takes(rest, end, spent, debt) {
            after.push(Debt {
                paid_by: Some(Minute::new(rest.start)),
                ..*debt
            });
            spent += debt.amount;
        } else {
            after.push(*debt);
        }
    }
    after
}

/// Returns the rest with the most minutes before `end`, of those with a day or more; the earliest, if several have as many (Article 8(6)).
pub fn main_of(rests: &[Run], end: u32) -> Option<Run>
    ensures { result ≡ longest_rest end NoRun rests.now }
{
    let mut main: Option<Run> = None;
    for rest in rests {
        let minutes = known_minutes(*rest, end);
        let is_longer = match main {
            Some(longest) => minutes > known_minutes(longest, end),
            None => minutes >= WEEKLY_REST,
        };
        if is_longer {
            main = Some(*rest);
        }
    }
    main
}

/// Returns what a week owes for its main rest, if it owes anything (Article 8(6b)).
pub fn owed_for(week: u32, main: Option<Run>) -> Option<Debt>
    requires { week ≤ 6784 }
    ensures { result ≡ debt_for week main }
{
    let main = main?;
    let minutes = main.past.saturating_sub(main.start);
    if minutes >= REGULAR_WEEKLY_REST {
        return None;
    }
    Some(Debt {
        week: Week::new(week),
        amount: REGULAR_WEEKLY_REST - minutes,
        deadline: first_minute(Week::new(week + WEEKS_TO_PAY)),
        paid_by: None,
    })
}

/// Returns true if the rest is the main rest.
fn is_main(main: Option<Run>, rest: Run) -> bool
    ensures { result ≡ is_main_of main rest }
{
    match main {
        Some(run) => run.start == rest.start,
        None => false,
    }
}

/// Returns the debts after the turn of a rest of a week, given the week's main rest and what the week owes.
fn turn(debts: &Debts, rest: Run, end: u32, main: Option<Run>, owed: &Option<Debt>) -> Debts
    requires { rest.start ≤ latest }
    ensures { debts_in result ≡ turn_of end main owed.now rest (debts_in debts.now) }
{
    if !is_main(main, rest) {
        return paid(debts, rest, end, DAILY_REST);
    }
    let mut after = paid(debts, rest, end, REGULAR_WEEKLY_REST);
    if let Some(debt) = owed {
        after.push(*debt);
    }
    after
}

/// Returns the debts after the turns of the rests of a week. There are none if there were none and the week owes nothing.
#[tactic(auto, using(crate::proofs::PayingLemmas::turns_none))]
pub fn turns(
    debts: &Debts,
    rests: &[Run],
    end: u32,
    main: Option<Run>,
    owed: &Option<Debt>,
) -> Debts
    requires { All (λ rest. rest.start ≤ latest) rests.now }
    ensures { debts_in result ≡ turns_of end main owed.now rests.now (debts_in debts.now) }
{
    if debts.as_slice().is_empty() && owed.is_none() {
        return *debts;
    }
    let mut after = *debts;
    for rest in rests {
        after = turn(&after, *rest, end, main, owed);
    }
    after
}
