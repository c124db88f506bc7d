ghost use Rattle.std.specs.Prelude.{◌≡◌, ◌<◌, ◌≤◌, All, MatchOption, length, take};
ghost use Rattle.tacho_law.specs.Line.{line_of, IsExamined};
ghost use Rattle.tacho_law.specs.Driving.{driving, IsDrivingMinute, IsDrivingAbove};

use crate::examined::Examined;
use tacho_pass::is_drive;
use tacho_time::Minute;

/// Returns how many of the first spans have ended by a minute.
fn ended_by(examined: &Examined<'_>, minute: u32) -> usize
    requires { IsExamined examined.now.spans.now examined.now.base examined.now.past }
    ensures within { result ≤ length examined.now.spans.now }
    ensures ended { All (λ span. span.past ≤ minute) (take result examined.now.spans.now) }
{
    examined
        .spans
        .partition_point(|span| span.past.number() <= minute)
}

/// Returns the number of driving minutes from `from` to before `to`.
pub fn driving_minutes(examined: &Examined<'_>, from: u32, to: u32) -> u32
    requires { IsExamined examined.now.spans.now examined.now.base examined.now.past }
    ensures { result ≡ driving (line_of examined.now.spans.now) from to }
{
    let later = &examined.spans[ended_by(examined, from)..];
    let mut count = 0;
    for span in later {
        if span.start.number() >= to {
            break;
        }
        if is_drive(span.mark.activity) {
            let first = span.start.number().max(from);
            let end = span.past.number().min(to);
            if first < end {
                count += end - first;
            }
        }
    }
    count
}

/// Returns the k-th driving minute from `from` to before `to`, counted from 1, if there are that many.
pub fn driving_minute(examined: &Examined<'_>, from: u32, to: u32, k: u32) -> Option<u32>
    requires examined { IsExamined examined.now.spans.now examined.now.base examined.now.past }
    requires first { 0 < k }
    ensures { MatchOption result
        (driving (line_of examined.now.spans.now) from to < k)
        (λ m. IsDrivingMinute (line_of examined.now.spans.now) from to k m) }
{
    let later = &examined.spans[ended_by(examined, from)..];
    let mut left = k;
    for span in later {
        if span.start.number() >= to {
            break;
        }
        if is_drive(span.mark.activity) {
            let first = span.start.number().max(from);
            let end = span.past.number().min(to);
            if first < end {
                if left <= end - first {
                    return Some(first + (left - 1));
                }
                left -= end - first;
            }
        }
    }
    None
}

/// More driving than a limit.
#[derive(Clone, Copy)]
pub struct Excess {
    /// The first driving minute above the limit.
    pub moment: Minute,
    /// The number of driving minutes above the limit.
    pub amount: u32,
}

/// Returns the driving from `from` to before `to` above a limit in minutes, if there is more (Articles 6 and 7 of Regulation (EC) No
/// 561/2006).
pub fn excess_between(examined: &Examined<'_>, from: u32, to: u32, limit: u32) -> Option<Excess>
    requires { IsExamined examined.now.spans.now examined.now.base examined.now.past }
    ensures { MatchOption result
        (driving (line_of examined.now.spans.now) from to ≤ limit)
        (λ excess. IsDrivingAbove (line_of examined.now.spans.now) limit from to excess.moment excess.amount) }
{
    let minutes = driving_minutes(examined, from, to);
    if minutes <= limit {
        return None;
    }
    let moment = driving_minute(examined, from, to, limit + 1)?;
    Some(Excess {
        moment: Minute::new(moment),
        amount: minutes - limit,
    })
}
