use crate::march::{at, line_of, month, span};
use crate::pieces::{breach, debt};
use crate::same::assert_same;
use std::alloc::Global;
use std::test::Fail;
use tacho_law::{Breach, Debt, Kind};
use tacho_line::{Cause, Horizon, Line, LineFault};
use tacho_rules::Report;
use tacho_sheet::{breach_text, gap_text, month_chart, month_sheet, owed_text, span_csv};
use tacho_stretches::Stretch;
use tacho_time::{Activity, Minute, Month, span_lines};

// `checks/failing_sheet.py` runs each test with each of its allocations refused in turn. So a test returns an error by `?` if it runs out
// of memory, and asserts everything else.

/// Returns rest, work and driving on Monday the 4th, and rest over the month's end.
fn a_month(alloc: Global) -> Result<Line, LineFault> {
    let spans = [
        span(4, 0, 480, Activity::Rest, false),
        span(4, 480, 510, Activity::Work, false),
        span(4, 510, 1020, Activity::Drive, false),
        span(31, 960, 1440, Activity::Rest, false),
        span(32, 0, 480, Activity::Rest, false),
    ];
    line_of(alloc, &spans)
}

/// Returns March 2024.
fn march() -> Result<Month, Fail> {
    month(b"2024-03")
}

/// Returns a report with these breaches.
fn report_of(alloc: Global, horizon: Horizon, breaches: &[Breach]) -> Result<Report, Fail> {
    Ok(Report {
        horizon,
        breaches: Vec::from_slice(alloc, breaches)?,
        debts: Vec::new(alloc),
    })
}

/// Returns the text of debts, if the examination ends at a minute.
fn owed(alloc: Global, debts: &[Debt], minute: Minute) -> Result<String, Fail> {
    let report = Report {
        horizon: Horizon {
            minute,
            cause: Cause::Unknown,
        },
        breaches: Vec::new(alloc),
        debts: Vec::from_slice(alloc, debts)?,
    };
    Ok(owed_text(alloc, &report)?)
}

/// Returns the horizon of the month's examination.
fn end() -> Horizon {
    Horizon {
        minute: at(4, 1020),
        cause: Cause::Unknown,
    }
}

#[test]
fn spans_have_lines(rt: HostRuntime) -> Result<(), Fail> {
    let spans = [
        span(4, 0, 480, Activity::Rest, false),
        span(4, 480, 510, Activity::Work, true),
        span(4, 510, 1020, Activity::Drive, false),
        span(31, 1380, 1440, Activity::Available, true),
        // The spans needn't be in order.
        span(4, 1020, 1021, Activity::Rest, true),
    ];
    let text = span_lines(rt.alloc(), &spans)?;
    let wanted =
        b"2024-03-04 00:00 2024-03-04 08:00 rest single\n2024-03-04 08:00 2024-03-04 08:30 work crew\n2024-03-04 08:30 2024-03-04 17:00 drive single\n2024-03-31 23:00 2024-04-01 00:00 available crew\n2024-03-04 17:00 2024-03-04 17:01 rest crew\n";
    assert_same(&rt, text.as_slice(), wanted.as_slice());
    Ok(())
}

#[test]
fn breaches_are_printed(rt: HostRuntime) -> Result<(), Fail> {
    let alloc = rt.alloc();
    let breaches = [
        breach(Kind::B1, at(4, 780), at(4, 510), 240),
        breach(Kind::B2, at(5, 0), at(4, 480), 1),
        breach(Kind::B3, at(6, 0), at(4, 480), 2),
        breach(Kind::B4, at(7, 0), at(4, 480), 3),
        breach(Kind::B5, at(8, 0), at(4, 480), 4),
        breach(Kind::B6, at(9, 0), at(4, 480), 5),
        breach(Kind::B7, at(10, 0), at(4, 480), 6),
        breach(Kind::B8, at(11, 0), at(4, 480), 7),
        breach(Kind::B9, at(12, 0), at(4, 480), 0),
        breach(Kind::B10, at(13, 0), at(4, 480), 1260),
    ];
    let text = breach_text(alloc, &report_of(alloc, end(), &breaches)?)?;
    assert_same(
        &rt,
        text.as_str(),
        "B1 Art 7 at 2024-03-04 13:00 since 2024-03-04 08:30 amount 240\nB2 Art 8(2) at 2024-03-05 00:00 since 2024-03-04 08:00 amount 1\nB3 Art 8(4) at 2024-03-06 00:00 since 2024-03-04 08:00 amount 2\nB4 Art 6(1) at 2024-03-07 00:00 since 2024-03-04 08:00 amount 3\nB5 Art 6(1) at 2024-03-08 00:00 since 2024-03-04 08:00 amount 4\nB6 Art 6(2) at 2024-03-09 00:00 since 2024-03-04 08:00 amount 5\nB7 Art 6(3) at 2024-03-10 00:00 since 2024-03-04 08:00 amount 6\nB8 Art 8(6) at 2024-03-11 00:00 since 2024-03-04 08:00 amount 7\nB9 Art 8(6) at 2024-03-12 00:00 since 2024-03-04 08:00 amount 0\nB10 Art 8(6b) at 2024-03-13 00:00 since 2024-03-04 08:00 amount 1260\nEXAMINED TO 2024-03-04 17:00 unknown\n",
    );
    let crew = Horizon {
        minute: at(4, 1020),
        cause: Cause::Crew,
    };
    let text = breach_text(alloc, &report_of(alloc, crew, &[])?)?;
    assert_same(&rt, text.as_str(), "EXAMINED TO 2024-03-04 17:00 crew\n");
    Ok(())
}

#[test]
fn a_lack_of_weekly_rests_is_printed(rt: HostRuntime) -> Result<(), Fail> {
    let alloc = rt.alloc();
    let april = Horizon {
        minute: at(32, 0),
        cause: Cause::Unknown,
    };
    let lacking = breach(Kind::B9, at(32, 0), at(18, 0), 0);
    let report = report_of(alloc, april, &[lacking])?;
    assert_same(
        &rt,
        breach_text(alloc, &report)?.as_str(),
        "B9 Art 8(6) at 2024-04-01 00:00 since 2024-03-18 00:00 amount 0\nEXAMINED TO 2024-04-01 00:00 unknown\n",
    );
    assert_same(
        &rt,
        owed_text(alloc, &report)?.as_str(),
        "EXAMINED TO 2024-04-01 00:00 unknown\n",
    );
    Ok(())
}

#[test]
fn debts_are_printed(rt: HostRuntime) -> Result<(), Fail> {
    let alloc = rt.alloc();
    assert_same(
        &rt,
        owed(alloc, &[debt(1260, None)], at(31, 1439))?.as_str(),
        "WEEK 2024-03-04 owes 1260 by 2024-04-01 00:00 open\nEXAMINED TO 2024-03-31 23:59 unknown\n",
    );
    assert_same(
        &rt,
        owed(alloc, &[debt(1260, None)], at(32, 0))?.as_str(),
        "WEEK 2024-03-04 owes 1260 by 2024-04-01 00:00 late\nEXAMINED TO 2024-04-01 00:00 unknown\n",
    );
    assert_same(
        &rt,
        owed(alloc, &[debt(1260, Some(at(20, 0)))], at(32, 0))?.as_str(),
        "WEEK 2024-03-04 owes 1260 by 2024-04-01 00:00 paid 2024-03-20 00:00\nEXAMINED TO 2024-04-01 00:00 unknown\n",
    );
    Ok(())
}

#[test]
fn gaps_of_a_month_are_printed(rt: HostRuntime) -> Result<(), Fail> {
    let alloc = rt.alloc();
    let text = gap_text(alloc, &a_month(alloc)?, march()?)?;
    assert_same(
        &rt,
        text.as_str(),
        "2024-03-01 00:00 2024-03-04 00:00\n2024-03-04 17:00 2024-03-31 16:00\n",
    );
    let text = gap_text(alloc, &Line::empty(alloc), march()?)?;
    assert_same(&rt, text.as_str(), "2024-03-01 00:00 2024-04-01 00:00\n");
    Ok(())
}

#[test]
fn spans_of_a_month_are_printed(rt: HostRuntime) -> Result<(), Fail> {
    let alloc = rt.alloc();
    let text = span_csv(alloc, &a_month(alloc)?, march()?)?;
    assert_same(
        &rt,
        text.as_str(),
        "start,past,activity,manning\n2024-03-04 00:00,2024-03-04 08:00,rest,single\n2024-03-04 08:00,2024-03-04 08:30,work,single\n2024-03-04 08:30,2024-03-04 17:00,drive,single\n2024-03-31 16:00,2024-04-01 00:00,rest,single\n",
    );
    let held = [span(4, 0, 1, Activity::Available, true)];
    let text = span_csv(alloc, &line_of(alloc, &held)?, march()?)?;
    assert_same(
        &rt,
        text.as_str(),
        "start,past,activity,manning\n2024-03-04 00:00,2024-03-04 00:01,available,crew\n",
    );
    Ok(())
}

#[test]
fn a_month_is_printed(rt: HostRuntime) -> Result<(), Fail> {
    let alloc = rt.alloc();
    // Breaches at the month's first and last minutes, and at the minutes next to them.
    let breaches = [
        breach(Kind::B2, at(0, 1439), at(0, 0), 1),
        breach(Kind::B6, at(1, 0), at(0, 0), 2),
        breach(Kind::B1, at(4, 780), at(4, 510), 240),
        breach(Kind::B4, at(31, 1439), at(31, 0), 3),
        breach(Kind::B2, at(32, 0), at(31, 0), 4),
    ];
    let report = report_of(alloc, end(), &breaches)?;
    let text = month_sheet(alloc, 17, "Anna Berg", &a_month(alloc)?, &report, march()?)?;
    assert_same(
        &rt,
        text.as_str(),
        "DRIVER 17 Anna Berg\nMONTH 2024-03\nDATE       DAY   REST  AVAIL   WORK  DRIVE   CREW   NONE\n2024-03-01 Fri   0:00   0:00   0:00   0:00   0:00  24:00\n2024-03-02 Sat   0:00   0:00   0:00   0:00   0:00  24:00\n2024-03-03 Sun   0:00   0:00   0:00   0:00   0:00  24:00\n2024-03-04 Mon   8:00   0:00   0:30   8:30   0:00   7:00\n2024-03-05 Tue   0:00   0:00   0:00   0:00   0:00  24:00\n2024-03-06 Wed   0:00   0:00   0:00   0:00   0:00  24:00\n2024-03-07 Thu   0:00   0:00   0:00   0:00   0:00  24:00\n2024-03-08 Fri   0:00   0:00   0:00   0:00   0:00  24:00\n2024-03-09 Sat   0:00   0:00   0:00   0:00   0:00  24:00\n2024-03-10 Sun   0:00   0:00   0:00   0:00   0:00  24:00\n2024-03-11 Mon   0:00   0:00   0:00   0:00   0:00  24:00\n2024-03-12 Tue   0:00   0:00   0:00   0:00   0:00  24:00\n2024-03-13 Wed   0:00   0:00   0:00   0:00   0:00  24:00\n2024-03-14 Thu   0:00   0:00   0:00   0:00   0:00  24:00\n2024-03-15 Fri   0:00   0:00   0:00   0:00   0:00  24:00\n2024-03-16 Sat   0:00   0:00   0:00   0:00   0:00  24:00\n2024-03-17 Sun   0:00   0:00   0:00   0:00   0:00  24:00\n2024-03-18 Mon   0:00   0:00   0:00   0:00   0:00  24:00\n2024-03-19 Tue   0:00   0:00   0:00   0:00   0:00  24:00\n2024-03-20 Wed   0:00   0:00   0:00   0:00   0:00  24:00\n2024-03-21 Thu   0:00   0:00   0:00   0:00   0:00  24:00\n2024-03-22 Fri   0:00   0:00   0:00   0:00   0:00  24:00\n2024-03-23 Sat   0:00   0:00   0:00   0:00   0:00  24:00\n2024-03-24 Sun   0:00   0:00   0:00   0:00   0:00  24:00\n2024-03-25 Mon   0:00   0:00   0:00   0:00   0:00  24:00\n2024-03-26 Tue   0:00   0:00   0:00   0:00   0:00  24:00\n2024-03-27 Wed   0:00   0:00   0:00   0:00   0:00  24:00\n2024-03-28 Thu   0:00   0:00   0:00   0:00   0:00  24:00\n2024-03-29 Fri   0:00   0:00   0:00   0:00   0:00  24:00\n2024-03-30 Sat   0:00   0:00   0:00   0:00   0:00  24:00\n2024-03-31 Sun   8:00   0:00   0:00   0:00   0:00  16:00\nTOTAL           16:00   0:00   0:30   8:30   0:00 719:00\nB6 Art 6(2) at 2024-03-01 00:00 since 2024-02-29 00:00 amount 2\nB1 Art 7 at 2024-03-04 13:00 since 2024-03-04 08:30 amount 240\nB4 Art 6(1) at 2024-03-31 23:59 since 2024-03-31 00:00 amount 3\nEXAMINED TO 2024-03-04 17:00 unknown\n",
    );
    Ok(())
}

#[test]
fn a_day_with_every_mark_is_printed(rt: HostRuntime) -> Result<(), Fail> {
    let alloc = rt.alloc();
    let held = [
        span(4, 0, 1, Activity::Rest, false),
        span(4, 1, 3, Activity::Available, false),
        span(4, 3, 6, Activity::Work, false),
        span(4, 6, 65, Activity::Drive, false),
        span(4, 65, 125, Activity::Rest, true),
        span(4, 125, 126, Activity::Drive, true),
    ];
    let report = report_of(alloc, end(), &[])?;
    let text = month_sheet(alloc, 1, "Bo", &line_of(alloc, &held)?, &report, march()?)?;
    assert!(rt; text.contains("\n2024-03-04 Mon   0:01   0:02   0:03   0:59   1:01  21:54\n"));
    assert!(rt;
        text.ends_with(
            "\nTOTAL            0:01   0:02   0:03   0:59   1:01 741:54\nEXAMINED TO 2024-03-04 17:00 unknown\n"
        )
    );
    Ok(())
}

/// The beginning and the end of the chart, and the group of Monday the 4th, are those that `checks/slow/slow_office.py` draws for these spans.
#[test]
fn a_chart_is_drawn(rt: HostRuntime) -> Result<(), Fail> {
    let alloc = rt.alloc();
    let held = [
        span(4, 0, 480, Activity::Rest, false),
        span(4, 480, 510, Activity::Work, false),
        span(4, 510, 1020, Activity::Drive, false),
        span(4, 1020, 1090, Activity::Drive, true),
        span(4, 1090, 1100, Activity::Available, true),
    ];
    let crew = Horizon {
        minute: at(4, 1020),
        cause: Cause::Crew,
    };
    let long = breach(Kind::B1, at(4, 780), at(4, 510), 240);
    let stretches = [Stretch {
        monday: at(4, 0),
        report: report_of(alloc, crew, &[long])?,
        unseen: Some(at(4, 1100)),
    }];
    let line = line_of(alloc, &held)?;
    let text = month_chart(alloc, 17, "A <B> & C", &line, &stretches, march()?)?;
    assert!(rt;
        text.starts_with(
            "<svg xmlns=\"http://www.w3.org/2000/svg\" viewBox=\"0 0 1920 1462\" font-family=\"sans-serif\" font-size=\"20\" role=\"img\">\n<title>17 A &lt;B&gt; &amp; C, 2024-03</title>\n<style>text{fill:#1c2128}.right{text-anchor:end}.middle{text-anchor:middle}.back{fill:#f0f2f4;stroke:#767e87}.hour{stroke:#d7dbe0}.rest{fill:#5b8fc2}.available{fill:#9270c4}.work{fill:#b87100}.drive{fill:#1f4e79}.crew{fill-opacity:.4;stroke:#1c2128;stroke-dasharray:4 3}.unseen{fill:#55606b;fill-opacity:.2}.breach path,.mark{fill:#a8201a;stroke:#fff}.code{fill:#a8201a;font-weight:bold;font-size:15px}</style>\n<rect width=\"100%\" height=\"100%\" fill=\"#fff\"/>\n<text x=\"20\" y=\"40\" font-size=\"28\">17 A &lt;B&gt; &amp; C, 2024-03</text>\n<g class=\"right\"><text x=\"176\" y=\"88\">UTC</text><text x=\"1730\" y=\"88\">driven</text></g>\n<g class=\"middle\"><text x=\"200\" y=\"88\">0</text><text x=\"320\" y=\"88\">2</text><text x=\"440\" y=\"88\">4</text><text x=\"560\" y=\"88\">6</text><text x=\"680\" y=\"88\">8</text><text x=\"800\" y=\"88\">10</text><text x=\"920\" y=\"88\">12</text><text x=\"1040\" y=\"88\">14</text><text x=\"1160\" y=\"88\">16</text><text x=\"1280\" y=\"88\">18</text><text x=\"1400\" y=\"88\">20</text><text x=\"1520\" y=\"88\">22</text><text x=\"1640\" y=\"88\">24</text></g>\n"
        )
    );
    assert!(rt;
        text.contains(
            "<g class=\"day\" id=\"2024-03-04\" transform=\"translate(200 226)\">\n<rect class=\"back\" x=\"0\" y=\"4\" width=\"1440\" height=\"28\"/>\n<path class=\"hour\" d=\"M0 4v28M120 4v28M240 4v28M360 4v28M480 4v28M600 4v28M720 4v28M840 4v28M960 4v28M1080 4v28M1200 4v28M1320 4v28M1440 4v28\"/>\n<text class=\"right\" x=\"-12\" y=\"26\">2024-03-04 Mon</text>\n<rect class=\"rest\" x=\"0\" y=\"26\" width=\"480\" height=\"6\"><title>2024-03-04 00:00 2024-03-04 08:00 rest single</title></rect>\n<rect class=\"work\" x=\"480\" y=\"12\" width=\"30\" height=\"20\"><title>2024-03-04 08:00 2024-03-04 08:30 work single</title></rect>\n<rect class=\"drive\" x=\"510\" y=\"4\" width=\"510\" height=\"28\"><title>2024-03-04 08:30 2024-03-04 17:00 drive single</title></rect>\n<rect class=\"drive crew\" x=\"1020\" y=\"4\" width=\"70\" height=\"28\"><title>2024-03-04 17:00 2024-03-04 18:10 drive crew</title></rect>\n<rect class=\"available crew\" x=\"1090\" y=\"20\" width=\"10\" height=\"12\"><title>2024-03-04 18:10 2024-03-04 18:20 available crew</title></rect>\n<rect class=\"unseen\" x=\"1020\" y=\"-5\" width=\"420\" height=\"42\"/>\n<g class=\"breach\"><title>B1 Art 7 at 2024-03-04 13:00 since 2024-03-04 08:30 amount 240</title><path d=\"M780 -9h11l-3 4 3 4h-8v33h-3z\"/></g>\n<text class=\"right\" x=\"1530\" y=\"26\">8:30</text>\n<text class=\"code\" x=\"1545\" y=\"26\"> B1</text>\n</g>\n"
        )
    );
    assert!(rt;
        text.ends_with(
            "<g class=\"day\" id=\"2024-03-31\" transform=\"translate(200 1360)\">\n<rect class=\"back\" x=\"0\" y=\"4\" width=\"1440\" height=\"28\"/>\n<path class=\"hour\" d=\"M0 4v28M120 4v28M240 4v28M360 4v28M480 4v28M600 4v28M720 4v28M840 4v28M960 4v28M1080 4v28M1200 4v28M1320 4v28M1440 4v28\"/>\n<text class=\"right\" x=\"-12\" y=\"26\">2024-03-31 Sun</text>\n<rect class=\"unseen\" x=\"0\" y=\"-5\" width=\"1440\" height=\"42\"/>\n<text class=\"right\" x=\"1530\" y=\"26\">0:00</text>\n<text class=\"code\" x=\"1545\" y=\"26\"></text>\n</g>\n<g transform=\"translate(200 1414)\">\n<rect class=\"rest\" x=\"0\" y=\"26\" width=\"40\" height=\"6\"/><text x=\"50\" y=\"32\">rest</text>\n<rect class=\"available\" x=\"140\" y=\"20\" width=\"40\" height=\"12\"/><text x=\"190\" y=\"32\">available</text>\n<rect class=\"work\" x=\"330\" y=\"12\" width=\"40\" height=\"20\"/><text x=\"380\" y=\"32\">other work</text>\n<rect class=\"drive\" x=\"530\" y=\"4\" width=\"40\" height=\"28\"/><text x=\"580\" y=\"32\">driving</text>\n<rect class=\"drive crew\" x=\"700\" y=\"4\" width=\"40\" height=\"28\"/><text x=\"750\" y=\"32\">second driver</text>\n<rect class=\"back\" x=\"930\" y=\"4\" width=\"40\" height=\"28\"/><text x=\"980\" y=\"32\">not known</text>\n<rect class=\"unseen\" x=\"1120\" y=\"0\" width=\"40\" height=\"36\"/><text x=\"1170\" y=\"32\">not examined</text>\n<path class=\"mark\" d=\"M1340 -9h11l-3 4 3 4h-8v33h-3z\"/><text x=\"1360\" y=\"32\">breach</text>\n</g>\n</svg>\n"
        )
    );
    Ok(())
}
