//! The chart of a driver's month, as SVG.

ghost use Rattle.std.specs.Prelude.{◌≡◌, ◌+◌, ◌-◌, ◌*◌, ◌<◌, ◌≤◌, ◌++◌, ℕ, List, codes, decimal, flat_map, map, IfOk, OnOk, string_bytes};
ghost use Rattle.tacho_time.specs.Limits.{greatest_day};
ghost use Rattle.tacho_time.specs.Spans.{Gives, IsCanonicalOf};
ghost use Rattle.tacho_stretches.specs.Stretches.{judged_of, Judged};
ghost use Rattle.tacho_line.specs.Line.{AreGaps, HoldsWithin};
ghost use Rattle.tacho_sheet.specs.Reports.{breaches_within};
ghost use Rattle.tacho_sheet.specs.Months.{month_breaches};
ghost use Rattle.tacho_sheet.specs.Chart.{bar, bar_height, bar_rect, bar_title, bar_top, breach_code as code_after_space, breach_mark, breach_path, breach_title, chart_afternoon, chart_columns, chart_front, chart_hours, chart_legend, chart_morning, chart_style, chart_title, crew_class, day_end, day_grid, day_group, day_head, day_label, day_open, flag_shape, legend_bars, legend_others, shade, shade_rect, xml_char, xml_text, AreDayGroups, IsDayGroup, IsMonthChart};
ghost use Rattle.tacho_sheet.specs.Seen.{seen_span, seen_spans};

use crate::amounts::amounts_of_day;
use crate::months::{add_breaches, breaches_in, code_of_kind};
use crate::reports::name_of_kind;
use crate::sheet::{name_of_weekday, push_amount, push_month};
use std::alloc::{AllocError, Global};
use tacho_law::Breach;
use tacho_line::{Gap, Line};
use tacho_state::line_of;
use tacho_stretches::Stretch;
use tacho_time::{
    Activity, Day, Mark, Minute, Month, Span, SpanFault, month_range, weekday, write_day,
};

/// The height of a day's row, and where the first row begins.
const ROW: u32 = 42;

const TOP: u32 = 100;

/// The minutes of a day.
const MINUTES_OF_DAY: u32 = 1440;

/// Draws a driver's month as SVG: for each day a row with a bar for each span that the line holds, a shade over each range that isn't within a
/// stretch, and a mark at each breach of the stretches. Each span and each breach has its line as a title.
pub fn month_chart(
    alloc: Global,
    number: u32,
    name: &str,
    line: &Line,
    stretches: &[Stretch],
    month: Month,
) -> Result<String, AllocError>
    ensures { IfOk result (λ text. IsMonthChart number name.now line.now (map judged_of stretches.now) month (string_bytes text)) }
{
    let (start, past) = month_range(month);
    let first = start.day();
    let last = past.day();
    let days = last.number() - first.number();
    let seen = seen_of(alloc, stretches)?;
    let breaches = breaches_in(alloc, stretches, start, past)?;
    let title = title_of(alloc, number, name, month)?;
    let mut text = String::new(alloc);
    push_front(&mut text, &title, days)?;
    push_hours(&mut text, &title)?;
    push_days(alloc, &mut text, line, &seen, &breaches, first, last)?;
    push_legend(&mut text, days)?;
    Ok(text)
}

/// Makes the line that holds exactly the minutes within a stretch.
fn seen_of(alloc: Global, stretches: &[Stretch]) -> Result<Line, AllocError>
    ensures { IfOk result (λ line. IsCanonicalOf (Gives (seen_spans (map judged_of stretches.now))) line) }
{
    let spans = spans_of(alloc, stretches)?;
    match line_of(alloc, &spans) {
        Ok(line) => Ok(line),
        Err(fault) => Err(no_memory(fault)),
    }
}

/// The spans of the minutes within a stretch.
fn spans_of(alloc: Global, stretches: &[Stretch]) -> Result<Vec<Span>, AllocError>
    ensures { IfOk result (λ spans. spans.items ≡ seen_spans (map judged_of stretches.now)) }
{
    let mut spans = Vec::new(alloc);
    for stretch in stretches {
        spans.push(span_of(stretch))?;
    }
    Ok(spans)
}

/// The span of a stretch's minutes, from its Monday to its horizon. All stretches have one mark, so no two contradict.
fn span_of(stretch: &Stretch) -> Span
    ensures { result ≡ seen_span (judged_of stretch.now) }
{
    Span {
        start: stretch.monday,
        past: stretch.report.horizon.minute,
        mark: Mark {
            activity: Activity::Rest,
            crew: false,
        },
    }
}

/// Converts the fault of spans that don't contradict: it is out of memory.
fn no_memory(fault: SpanFault) -> AllocError
    requires { fault ≡ SpanFault.Memory }
{
    match fault {
        SpanFault::Memory => AllocError,
        SpanFault::Contradiction(_) => unreachable!(),
    }
}

/// Writes the driver's number and name, and the month, as XML.
fn title_of(alloc: Global, number: u32, name: &str, month: Month) -> Result<String, AllocError>
    ensures { IfOk result (λ text. string_bytes text ≡ chart_title number name.now month) }
{
    let name = xml_of(alloc, name)?;
    let mut text = format!(in alloc; "{number} ")?;
    text.push_str(&name)?;
    text.push_str(", ")?;
    push_month(&mut text, month)?;
    Ok(text)
}

/// Writes a text as XML.
fn xml_of(alloc: Global, text: &str) -> Result<String, AllocError>
    ensures { IfOk result (λ xml. string_bytes xml ≡ xml_text text.now) }
{
    let mut xml = String::new(alloc);
    for character in text.chars() {
        push_xml(&mut xml, character)?;
    }
    Ok(xml)
}

/// Appends a character as XML text.
fn push_xml(text: &mut String, character: char) -> Result<(), AllocError>
    ensures { OnOk result (string_bytes text.new ≡ string_bytes text.old ++ xml_char character) }
{
    match character {
        '&' => text.push_str("&amp;"),
        '<' => text.push_str("&lt;"),
        '>' => text.push_str("&gt;"),
        '\u{fffe}' | '\u{ffff}' => text.push('\u{fffd}'),
        _ => text.push(character),
    }
}

/// Appends the beginning of a month of `days` days: the picture, its title, and its style.
fn push_front(text: &mut String, title: &str, days: u32) -> Result<(), AllocError>
    requires { days ≤ greatest_day }
    ensures { OnOk result (string_bytes text.new ≡ string_bytes text.old ++ chart_front title.now days) }
{
    let height = 160 + ROW * days;
    push_open(text, height)?;
    write!(text, "<title>{title}</title>\n")?;
    push_style(text)
}

/// Appends the start of a picture of this height.
fn push_open(text: &mut String, height: u32) -> Result<(), AllocError>
    ensures { OnOk result (string_bytes text.new ≡ string_bytes text.old ++ (codes "<svg xmlns=\"http://www.w3.org/2000/svg\" viewBox=\"0 0 1920 "
        ++ (decimal height ++ codes "\" font-family=\"sans-serif\" font-size=\"20\" role=\"img\">\n"))) }
{
    write!(
        text,
        "<svg xmlns=\"http://www.w3.org/2000/svg\" viewBox=\"0 0 1920 {height}\" font-family=\"sans-serif\" font-size=\"20\" role=\"img\">\n"
    )
}

/// Appends the style of all that is drawn, and the ground.
fn push_style(text: &mut String) -> Result<(), AllocError>
    ensures { OnOk result (string_bytes text.new ≡ string_bytes text.old ++ chart_style) }
{
    text.push_str(
        "<style>text{fill:#1c2128}.right{text-anchor:end}.middle{text-anchor:middle}.back{fill:#f0f2f4;stroke:#767e87}.hour{stroke:#d7dbe0}",
    )?;
    text.push_str(
        ".rest{fill:#5b8fc2}.available{fill:#9270c4}.work{fill:#b87100}.drive{fill:#1f4e79}",
    )?;
    text.push_str(
        ".crew{fill-opacity:.4;stroke:#1c2128;stroke-dasharray:4 3}.unseen{fill:#55606b;fill-opacity:.2}",
    )?;
    text.push_str(
        ".breach path,.mark{fill:#a8201a;stroke:#fff}.code{fill:#a8201a;font-weight:bold;font-size:15px}</style>\n<rect width=\"100%\" height=\"100%\" fill=\"#fff\"/>\n",
    )
}

/// Appends the heading, and the hours above the days.
fn push_hours(text: &mut String, title: &str) -> Result<(), AllocError>
    ensures { OnOk result (string_bytes text.new ≡ string_bytes text.old ++ chart_hours title.now) }
{
    write!(
        text,
        "<text x=\"20\" y=\"40\" font-size=\"28\">{title}</text>\n"
    )?;
    push_columns(text)?;
    push_morning(text)?;
    push_afternoon(text)
}

/// Appends what the hours are in, and what the amounts at the right are.
fn push_columns(text: &mut String) -> Result<(), AllocError>
    ensures { OnOk result (string_bytes text.new ≡ string_bytes text.old ++ chart_columns) }
{
    text.push_str(
        "<g class=\"right\"><text x=\"176\" y=\"88\">UTC</text><text x=\"1730\" y=\"88\">driven</text></g>\n",
    )
}

/// Appends the hours to noon.
fn push_morning(text: &mut String) -> Result<(), AllocError>
    ensures { OnOk result (string_bytes text.new ≡ string_bytes text.old ++ chart_morning) }
{
    text.push_str(
        "<g class=\"middle\"><text x=\"200\" y=\"88\">0</text><text x=\"320\" y=\"88\">2</text><text x=\"440\" y=\"88\">4</text>",
    )?;
    text.push_str(
        "<text x=\"560\" y=\"88\">6</text><text x=\"680\" y=\"88\">8</text><text x=\"800\" y=\"88\">10</text>",
    )?;
    text.push_str("<text x=\"920\" y=\"88\">12</text>")
}

/// Appends the hours after noon.
fn push_afternoon(text: &mut String) -> Result<(), AllocError>
    ensures { OnOk result (string_bytes text.new ≡ string_bytes text.old ++ chart_afternoon) }
{
    text.push_str(
        "<text x=\"1040\" y=\"88\">14</text><text x=\"1160\" y=\"88\">16</text><text x=\"1280\" y=\"88\">18</text>",
    )?;
    text.push_str("<text x=\"1400\" y=\"88\">20</text><text x=\"1520\" y=\"88\">22</text>")?;
    text.push_str("<text x=\"1640\" y=\"88\">24</text></g>\n")
}

/// Appends the groups of the days from one to before another. `breaches` are those of all stretches in the month.
fn push_days(
    alloc: Global,
    text: &mut String,
    line: &Line,
    seen: &Line,
    breaches: &[Breach],
    first: Day,
    past: Day,
) -> Result<(), AllocError>
    requires { first ≤ past }
    ensures { OnOk result ((stretches : List Judged) → IsCanonicalOf (Gives (seen_spans stretches)) seen.now
        → breaches.now ≡ month_breaches (1440 * first) (1440 * past) stretches → (groups : List ℕ)
        × (string_bytes text.new ≡ string_bytes text.old ++ groups) × AreDayGroups line.now stretches first 100 (past - first) groups) }
{
    for number in first.number()..past.number() {
        let y = TOP + ROW * (number - first.number());
        push_day(alloc, text, line, seen, breaches, Day::new(number), y)?;
    }
    Ok(())
}

/// Appends the group of a day, `y` below the top. `breaches` are those of all stretches in some minutes, among them those of the day.
fn push_day(
    alloc: Global,
    text: &mut String,
    line: &Line,
    seen: &Line,
    breaches: &[Breach],
    day: Day,
    y: u32,
) -> Result<(), AllocError>
    requires { day < greatest_day }
    ensures { OnOk result ((stretches : List Judged) (start past : ℕ) → IsCanonicalOf (Gives (seen_spans stretches)) seen.now
        → breaches.now ≡ month_breaches start past stretches → start ≤ 1440 * day → 1440 * (day + 1) ≤ past → (group : List ℕ)
        × (string_bytes text.new ≡ string_bytes text.old ++ group) × IsDayGroup line.now stretches day y group) }
{
    let spans = spans_of_day(alloc, line, day)?;
    let gaps = gaps_of_day(alloc, seen, day)?;
    let found = breaches_of_day(alloc, breaches, day)?;
    let amounts = amounts_of_day(alloc, line, day)?;
    push_group(text, day, y, &spans, &gaps, &found, amounts.drive)
}

/// The first minute of a day, and the first minute after it.
fn range_of_day(day: Day) -> (Minute, Minute)
    requires { day < greatest_day }
    ensures start { result.0 ≡ 1440 * day }
    ensures past { result.1 ≡ 1440 * (day + 1) }
{
    let first = MINUTES_OF_DAY * day.number();
    (Minute::new(first), Minute::new(first + MINUTES_OF_DAY))
}

/// The spans that a line holds in a day.
fn spans_of_day(alloc: Global, line: &Line, day: Day) -> Result<Vec<Span>, AllocError>
    requires { day < greatest_day }
    ensures { IfOk result (λ spans. IsCanonicalOf (HoldsWithin line.now (1440 * day) (1440 * (day + 1))) spans.items) }
{
    let (start, past) = range_of_day(day);
    line.slice(alloc, start, past)
}

/// The gaps of a line in a day.
fn gaps_of_day(alloc: Global, line: &Line, day: Day) -> Result<Vec<Gap>, AllocError>
    requires { day < greatest_day }
    ensures { IfOk result (λ gaps. AreGaps line.now (1440 * day) (1440 * (day + 1)) gaps.items) }
{
    let (start, past) = range_of_day(day);
    line.gaps(alloc, start, past)
}

/// The breaches with their moment in a day.
fn breaches_of_day(alloc: Global, breaches: &[Breach], day: Day) -> Result<Vec<Breach>, AllocError>
    requires { day < greatest_day }
    ensures { IfOk result (λ found. found.items ≡ breaches_within (1440 * day) (1440 * (day + 1)) breaches.now) }
{
    let (start, past) = range_of_day(day);
    let mut found = Vec::new(alloc);
    add_breaches(&mut found, breaches, start, past)?;
    Ok(found)
}

/// Appends the group of a day, `y` below the top.
fn push_group(
    text: &mut String,
    day: Day,
    y: u32,
    spans: &[Span],
    gaps: &[Gap],
    breaches: &[Breach],
    drive: u32,
) -> Result<(), AllocError>
    requires { day < greatest_day }
    ensures { OnOk result (string_bytes text.new ≡ string_bytes text.old ++ day_group day y spans.now gaps.now breaches.now drive) }
{
    let (first, _) = range_of_day(day);
    push_day_head(text, day, y)?;
    push_bars(text, spans, first)?;
    push_shades(text, gaps, first)?;
    push_marks(text, breaches, first)?;
    push_day_end(text, drive, breaches)
}

/// Appends what comes before the bars of a day.
fn push_day_head(text: &mut String, day: Day, y: u32) -> Result<(), AllocError>
    ensures { OnOk result (string_bytes text.new ≡ string_bytes text.old ++ day_head day y) }
{
    push_day_open(text, day, y)?;
    push_day_grid(text)?;
    push_day_label(text, day)
}

/// Appends the start of a day's group.
fn push_day_open(text: &mut String, day: Day, y: u32) -> Result<(), AllocError>
    ensures { OnOk result (string_bytes text.new ≡ string_bytes text.old ++ day_open day y) }
{
    text.push_str("<g class=\"day\" id=\"")?;
    write_day(text, day)?;
    write!(text, "\" transform=\"translate(200 {y})\">\n")
}

/// Appends the ground of a day's row, and a line every two hours.
fn push_day_grid(text: &mut String) -> Result<(), AllocError>
    ensures { OnOk result (string_bytes text.new ≡ string_bytes text.old ++ day_grid) }
{
    text.push_str("<rect class=\"back\" x=\"0\" y=\"4\" width=\"1440\" height=\"28\"/>\n")?;
    text.push_str(
        "<path class=\"hour\" d=\"M0 4v28M120 4v28M240 4v28M360 4v28M480 4v28M600 4v28M720 4v28",
    )?;
    text.push_str("M840 4v28M960 4v28M1080 4v28M1200 4v28M1320 4v28M1440 4v28\"/>\n")
}

/// Appends a day's date, and its day of the week.
fn push_day_label(text: &mut String, day: Day) -> Result<(), AllocError>
    ensures { OnOk result (string_bytes text.new ≡ string_bytes text.old ++ day_label day) }
{
    let name = name_of_weekday(weekday(day));
    text.push_str("<text class=\"right\" x=\"-12\" y=\"26\">")?;
    write_day(text, day)?;
    write!(text, " {name}</text>\n")
}

/// Appends the bars of a day's spans.
fn push_bars(text: &mut String, spans: &[Span], first: Minute) -> Result<(), AllocError>
    ensures { OnOk result (string_bytes text.new ≡ string_bytes text.old ++ flat_map (bar first) spans.now) }
{
    for span in spans {
        push_bar(text, span, first)?;
    }
    Ok(())
}

/// Appends the bar of a span, on the day that begins with the minute `first`.
fn push_bar(text: &mut String, span: &Span, first: Minute) -> Result<(), AllocError>
    ensures { OnOk result (string_bytes text.new ≡ string_bytes text.old ++ bar first span.now) }
{
    let x = minutes_between(first, span.start);
    let width = minutes_between(span.start, span.past);
    push_rect(text, span.mark, x, width)?;
    push_bar_title(text, span)
}

/// The minutes from one to before another, or 0 if it comes later.
fn minutes_between(start: Minute, past: Minute) -> u32
    ensures { result ≡ past - start }
{
    past.number().saturating_sub(start.number())
}

/// Appends a bar of a mark, from `x` on.
fn push_rect(text: &mut String, mark: Mark, x: u32, width: u32) -> Result<(), AllocError>
    ensures { OnOk result (string_bytes text.new ≡ string_bytes text.old ++ bar_rect mark x width) }
{
    let activity = mark.activity.name();
    let crew = class_of_crew(mark.crew);
    let y = top_of(mark.activity);
    let height = height_of(mark.activity);
    write!(
        text,
        "<rect class=\"{activity}{crew}\" x=\"{x}\" y=\"{y}\" width=\"{width}\" height=\"{height}\">"
    )
}

/// Appends the line of a span, as the title of its bar.
fn push_bar_title(text: &mut String, span: &Span) -> Result<(), AllocError>
    ensures { OnOk result (string_bytes text.new ≡ string_bytes text.old ++ bar_title span.now) }
{
    let start = span.start;
    let past = span.past;
    let activity = span.mark.activity.name();
    let manning = span.mark.manning();
    write!(
        text,
        "<title>{start} {past} {activity} {manning}</title></rect>\n"
    )
}

/// The class that marks a second driver.
fn class_of_crew(crew: bool) -> &'static str
    ensures { result.now ≡ crew_class crew }
{
    if crew { " crew" } else { "" }
}

/// The height of an activity's bar.
fn height_of(activity: Activity) -> u32
    ensures { result ≡ bar_height activity }
{
    match activity {
        Activity::Rest => 6,
        Activity::Available => 12,
        Activity::Work => 20,
        Activity::Drive => 28,
    }
}

/// Where the top of an activity's bar is.
fn top_of(activity: Activity) -> u32
    ensures { result ≡ bar_top activity }
{
    match activity {
        Activity::Rest => 26,
        Activity::Available => 20,
        Activity::Work => 12,
        Activity::Drive => 4,
    }
}

/// Appends a shade over each range of a day that isn't within a stretch.
fn push_shades(text: &mut String, gaps: &[Gap], first: Minute) -> Result<(), AllocError>
    ensures { OnOk result (string_bytes text.new ≡ string_bytes text.old ++ flat_map (shade first) gaps.now) }
{
    for gap in gaps {
        push_shade(text, gap, first)?;
    }
    Ok(())
}

/// Appends a shade over a range.
fn push_shade(text: &mut String, gap: &Gap, first: Minute) -> Result<(), AllocError>
    ensures { OnOk result (string_bytes text.new ≡ string_bytes text.old ++ shade first gap.now) }
{
    let x = minutes_between(first, gap.start);
    let width = minutes_between(gap.start, gap.past);
    push_shade_rect(text, x, width)
}

/// Appends a shade from `x` on.
fn push_shade_rect(text: &mut String, x: u32, width: u32) -> Result<(), AllocError>
    ensures { OnOk result (string_bytes text.new ≡ string_bytes text.old ++ shade_rect x width) }
{
    write!(
        text,
        "<rect class=\"unseen\" x=\"{x}\" y=\"-5\" width=\"{width}\" height=\"42\"/>\n"
    )
}

/// Appends a mark at each breach of a day.
fn push_marks(text: &mut String, breaches: &[Breach], first: Minute) -> Result<(), AllocError>
    ensures { OnOk result (string_bytes text.new ≡ string_bytes text.old ++ flat_map (breach_mark first) breaches.now) }
{
    for breach in breaches {
        push_mark(text, breach, first)?;
    }
    Ok(())
}

/// Appends a mark at a breach.
fn push_mark(text: &mut String, breach: &Breach, first: Minute) -> Result<(), AllocError>
    ensures { OnOk result (string_bytes text.new ≡ string_bytes text.old ++ breach_mark first breach.now) }
{
    let x = minutes_between(first, breach.moment);
    push_breach_title(text, breach)?;
    push_path(text, x)
}

/// Appends the line of a breach, as the title of its mark.
fn push_breach_title(text: &mut String, breach: &Breach) -> Result<(), AllocError>
    ensures { OnOk result (string_bytes text.new ≡ string_bytes text.old ++ breach_title breach.now) }
{
    let kind = name_of_kind(breach.kind);
    let moment = breach.moment;
    let since = breach.since;
    let amount = breach.amount;
    write!(
        text,
        "<g class=\"breach\"><title>{kind} at {moment} since {since} amount {amount}</title>"
    )
}

/// Appends a mark at `x`: a flag above the row, and its pole.
fn push_path(text: &mut String, x: u32) -> Result<(), AllocError>
    ensures { OnOk result (string_bytes text.new ≡ string_bytes text.old ++ breach_path x) }
{
    let flag = flag_at(x);
    write!(text, "<path d=\"M{x}{flag}\"/></g>\n")
}

/// The flag of a mark at `x`, and its pole: to the left after 23:00, so that it stays above the row.
fn flag_at(x: u32) -> &'static str
    ensures { result.now ≡ flag_shape x }
{
    if x <= 23 * 60 {
        " -9h11l-3 4 3 4h-8v33h-3z"
    } else {
        " -9h-11l3 4-3 4h11v33h3v-41z"
    }
}

/// Appends the day's driving without a second driver, and the codes of its breaches.
fn push_day_end(text: &mut String, drive: u32, breaches: &[Breach]) -> Result<(), AllocError>
    ensures { OnOk result (string_bytes text.new ≡ string_bytes text.old ++ day_end drive breaches.now) }
{
    text.push_str("<text class=\"right\" x=\"1530\" y=\"26\">")?;
    push_amount(text, drive)?;
    text.push_str("</text>\n<text class=\"code\" x=\"1545\" y=\"26\">")?;
    push_codes(text, breaches)?;
    text.push_str("</text>\n</g>\n")
}

/// Appends the code of each breach, after a space.
fn push_codes(text: &mut String, breaches: &[Breach]) -> Result<(), AllocError>
    ensures { OnOk result (string_bytes text.new ≡ string_bytes text.old ++ flat_map code_after_space breaches.now) }
{
    for breach in breaches {
        let code = code_of_kind(breach.kind);
        write!(text, " {code}")?;
    }
    Ok(())
}

/// Appends what comes after the days of a month of `days` days: what the bars, the shades and the marks mean.
fn push_legend(text: &mut String, days: u32) -> Result<(), AllocError>
    requires { days ≤ greatest_day }
    ensures { OnOk result (string_bytes text.new ≡ string_bytes text.old ++ chart_legend days) }
{
    let y = 112 + ROW * days;
    write!(text, "<g transform=\"translate(200 {y})\">\n")?;
    push_legend_bars(text)?;
    push_legend_others(text)
}

/// Appends what the bars mean.
fn push_legend_bars(text: &mut String) -> Result<(), AllocError>
    ensures { OnOk result (string_bytes text.new ≡ string_bytes text.old ++ legend_bars) }
{
    text.push_str(
        "<rect class=\"rest\" x=\"0\" y=\"26\" width=\"40\" height=\"6\"/><text x=\"50\" y=\"32\">rest</text>\n",
    )?;
    text.push_str(
        "<rect class=\"available\" x=\"140\" y=\"20\" width=\"40\" height=\"12\"/><text x=\"190\" y=\"32\">available</text>\n",
    )?;
    text.push_str(
        "<rect class=\"work\" x=\"330\" y=\"12\" width=\"40\" height=\"20\"/><text x=\"380\" y=\"32\">other work</text>\n",
    )?;
    text.push_str(
        "<rect class=\"drive\" x=\"530\" y=\"4\" width=\"40\" height=\"28\"/><text x=\"580\" y=\"32\">driving</text>\n",
    )
}

/// Appends what the rest means, and the end of the picture.
fn push_legend_others(text: &mut String) -> Result<(), AllocError>
    ensures { OnOk result (string_bytes text.new ≡ string_bytes text.old ++ legend_others) }
{
    text.push_str(
        "<rect class=\"drive crew\" x=\"700\" y=\"4\" width=\"40\" height=\"28\"/><text x=\"750\" y=\"32\">second driver</text>\n",
    )?;
    text.push_str(
        "<rect class=\"back\" x=\"930\" y=\"4\" width=\"40\" height=\"28\"/><text x=\"980\" y=\"32\">not known</text>\n",
    )?;
    text.push_str(
        "<rect class=\"unseen\" x=\"1120\" y=\"0\" width=\"40\" height=\"36\"/><text x=\"1170\" y=\"32\">not examined</text>\n",
    )?;
    text.push_str(
        "<path class=\"mark\" d=\"M1340 -9h11l-3 4 3 4h-8v33h-3z\"/><text x=\"1360\" y=\"32\">breach</text>\n</g>\n</svg>\n",
    )
}
