ghost use Rattle.std.specs.Prelude.{◌≡◌, ◌++◌, ◌∷◌, [], true, OnOk, if◌then◌else◌, Some, None};
ghost use Rattle.tacho_pass.specs.Found.{Appends};
ghost use Rattle.tacho_pass.specs.Kinds.{is_b10};
ghost use Rattle.tacho_rests.specs.Few.{debts_in};
ghost use Rattle.tacho_rests.specs.Paying.{overdue_breach, overdue_of, is_overdue, due_of, open_of};

use crate::few::Debts;
use std::alloc::AllocError;
use tacho_law::{Breach, Debt, Kind};
use tacho_pass::Found;
use tacho_time::{Minute, first_minute};

/// Returns the breach of a debt, if no rest pays it and its deadline is at or before a minute (Article 8(6b) of Regulation (EC) No
/// 561/2006).
fn breach_of(debt: &Debt, by: Minute) -> Option<Breach>
    ensures { result ≡ (if is_overdue by debt.now then Some (overdue_breach debt.now) else None) }
{
    if debt.paid_by.is_some() || debt.deadline > by {
        return None;
    }
    Some(Breach {
        kind: Kind::B10,
        moment: debt.deadline,
        since: first_minute(debt.week),
        amount: debt.amount,
    })
}

/// Returns the debts whose deadline is at or before a minute.
pub fn due(debts: &Debts, by: Minute) -> Debts
    ensures { debts_in result ≡ due_of by (debts_in debts.now) }
{
    let mut due = Debts::none();
    for debt in debts.as_slice() {
        if debt.deadline <= by {
            due.push(*debt);
        }
    }
    due
}

/// Returns the debts whose deadline is after a minute.
pub fn open(debts: &Debts, by: Minute) -> Debts
    ensures { debts_in result ≡ open_of by (debts_in debts.now) }
{
    let mut open = Debts::none();
    for debt in debts.as_slice() {
        if debt.deadline > by {
            open.push(*debt);
        }
    }
    open
}

/// Appends a debt that can no longer change, and its breach if it is overdue at a minute, to what is found.
fn emit_one(debt: Debt, by: Minute, found: &mut Found) -> Result<(), AllocError>
    ensures debts { OnOk result (found.new.debts.items ≡ found.old.debts.items ++ debt ∷ []) }
    ensures breaches { OnOk result (found.new.breaches.items ≡ found.old.breaches.items ++ overdue_of by (debt ∷ [])) }
    ensures appends { Appends is_b10 true found.old found.new }
{
    found.debts.push(debt)?;
    if let Some(breach) = breach_of(&debt, by) {
        found.breaches.push(breach)?;
    }
    Ok(())
}

/// Appends debts that can no longer change, and the breaches of those that are overdue at a minute, to what is found.
pub fn emit(debts: &[Debt], by: Minute, found: &mut Found) -> Result<(), AllocError>
    ensures debts { OnOk result (found.new.debts.items ≡ found.old.debts.items ++ debts.now) }
    ensures breaches { OnOk result (found.new.breaches.items ≡ found.old.breaches.items ++ overdue_of by debts.now) }
    ensures appends { Appends is_b10 true found.old found.new }
{
    for debt in debts {
        emit_one(*debt, by, found)?;
    }
    Ok(())
}
