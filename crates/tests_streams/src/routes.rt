//! Who may ask for what over HTTP.

use crate::requests::{archive, ask, holds};
use std::test::Fail;

/// What may be asked for. Everything else is denied.
static ALLOWED: &str = "\
office POST /drivers
office POST /cards/both
office POST /drivers/17/entries
office POST /drivers/17/withdraw/1
office POST /drivers/17/base/2024-03-04
office POST /drivers/17/key
office POST /drivers/17/name
office POST /drivers/17/withdraw/1/1
office GET /drivers/17/spans/2024-03
office GET /drivers/17/gaps/2024-03
office GET /drivers/17/sheet/2024-03
office GET /drivers/17/breaches
office GET /drivers/17/owed
office GET /drivers/17/entries
office GET /drivers/17/files/1
office GET /drivers
office GET /drivers/17/stretches
office GET /drivers/17/debts
office GET /drivers/17/files
office GET /drivers/17/form
office GET /drivers/17/form/2024-03-07
office GET /drivers/17/why/2024-03
office GET /drivers/17/chart/2024-03
office GET /drivers/17/ahead/2024-03-07/12:00
office GET /drivers/17/handover/2024-03-01/2024-04-01
office GET /overview/2024-03
office GET /incidents/2024-03
office GET /standing/2024-03
office GET /forecast/2024-03-07/12:00
office GET /drivers/17
office GET /version
driver POST /me/cards/both
driver GET /me/spans/2024-03
driver GET /me/gaps/2024-03
driver GET /me/sheet/2024-03
driver GET /me/breaches
driver GET /me/owed
driver GET /me/entries
driver GET /me/files/1
driver GET /me/stretches
driver GET /me/debts
driver GET /me/files
driver GET /me/form
driver GET /me/form/2024-03-07
driver GET /me/why/2024-03
driver GET /me/chart/2024-03
driver GET /me/ahead/2024-03-07/12:00
driver GET /me/handover/2024-03-01/2024-04-01
driver GET /me/driver
driver GET /me/version
";

/// A path of each kind, and then some that name nothing. After each path come the statuses of GET, POST, PUT and HEAD: with the office's
/// key, with the key of driver 17, with nobody's key, without a key, and with two keys.
static STATUSES: &str = "\
/drivers                        200 201 405 405  403 403 405 405  403 403 403 403  403 403 403 403  403 403 403 403
/cards/both                     405 200 405 405  405 403 405 405  403 403 403 403  403 403 403 403  403 403 403 403
/drivers/17/entries             200 201 405 405  403 403 405 405  403 403 403 403  403 403 403 403  403 403 403 403
/drivers/17/withdraw/1          405 200 405 405  405 403 405 405  403 403 403 403  403 403 403 403  403 403 403 403
/drivers/17/base/2024-03-04     405 200 405 405  405 403 405 405  403 403 403 403  403 403 403 403  403 403 403 403
/drivers/17/key                 405 200 405 405  405 403 405 405  403 403 403 403  403 403 403 403  403 403 403 403
/drivers/17/name                405 200 405 405  405 403 405 405  403 403 403 403  403 403 403 403  403 403 403 403
/drivers/17/withdraw/1/1        405 200 405 405  405 403 405 405  403 403 403 403  403 403 403 403  403 403 403 403
/drivers/17/spans/2024-03       200 405 405 405  403 405 405 405  403 403 403 403  403 403 403 403  403 403 403 403
/drivers/17/gaps/2024-03        200 405 405 405  403 405 405 405  403 403 403 403  403 403 403 403  403 403 403 403
/drivers/17/sheet/2024-03       200 405 405 405  403 405 405 405  403 403 403 403  403 403 403 403  403 403 403 403
/drivers/17/breaches            200 405 405 405  403 405 405 405  403 403 403 403  403 403 403 403  403 403 403 403
/drivers/17/owed                200 405 405 405  403 405 405 405  403 403 403 403  403 403 403 403  403 403 403 403
/drivers/17/files/1             200 405 405 405  403 405 405 405  403 403 403 403  403 403 403 403  403 403 403 403
/me/cards/both                  405 403 405 405  405 200 405 405  403 403 403 403  403 403 403 403  403 403 403 403
/me/spans/2024-03               403 405 405 405  200 405 405 405  403 403 403 403  403 403 403 403  403 403 403 403
/me/gaps/2024-03                403 405 405 405  200 405 405 405  403 403 403 403  403 403 403 403  403 403 403 403
/me/sheet/2024-03               403 405 405 405  200 405 405 405  403 403 403 403  403 403 403 403  403 403 403 403
/me/breaches                    403 405 405 405  200 405 405 405  403 403 403 403  403 403 403 403  403 403 403 403
/me/owed                        403 405 405 405  200 405 405 405  403 403 403 403  403 403 403 403  403 403 403 403
/me/entries                     403 405 405 405  200 405 405 405  403 403 403 403  403 403 403 403  403 403 403 403
/me/files/1                     403 405 405 405  200 405 405 405  403 403 403 403  403 403 403 403  403 403 403 403
/drivers/17/stretches           200 405 405 405  403 405 405 405  403 403 403 403  403 403 403 403  403 403 403 403
/drivers/17/debts               200 405 405 405  403 405 405 405  403 403 403 403  403 403 403 403  403 403 403 403
/drivers/17/files               200 405 405 405  403 405 405 405  403 403 403 403  403 403 403 403  403 403 403 403
/drivers/17/form                200 405 405 405  403 405 405 405  403 403 403 403  403 403 403 403  403 403 403 403
/drivers/17/form/2024-03-07     200 405 405 405  403 405 405 405  403 403 403 403  403 403 403 403  403 403 403 403
/drivers/17/why/2024-03         200 405 405 405  403 405 405 405  403 403 403 403  403 403 403 403  403 403 403 403
/drivers/17/chart/2024-03       200 405 405 405  403 405 405 405  403 403 403 403  403 403 403 403  403 403 403 403
/drivers/17/ahead/2024-03-07/12:00  200 405 405 405  403 405 405 405  403 403 403 403  403 403 403 403  403 403 403 403
/drivers/17/handover/2024-03-01/2024-04-01  200 405 405 405  403 405 405 405  403 403 403 403  403 403 403 403  403 403 403 403
/overview/2024-03               200 405 405 405  403 405 405 405  403 403 403 403  403 403 403 403  403 403 403 403
/incidents/2024-03              200 405 405 405  403 405 405 405  403 403 403 403  403 403 403 403  403 403 403 403
/standing/2024-03               200 405 405 405  403 405 405 405  403 403 403 403  403 403 403 403  403 403 403 403
/forecast/2024-03-07/12:00      200 405 405 405  403 405 405 405  403 403 403 403  403 403 403 403  403 403 403 403
/drivers/17                     200 405 405 405  403 405 405 405  403 403 403 403  403 403 403 403  403 403 403 403
/version                        200 405 405 405  403 405 405 405  403 403 403 403  403 403 403 403  403 403 403 403
/me/stretches                   403 405 405 405  200 405 405 405  403 403 403 403  403 403 403 403  403 403 403 403
/me/debts                       403 405 405 405  200 405 405 405  403 403 403 403  403 403 403 403  403 403 403 403
/me/files                       403 405 405 405  200 405 405 405  403 403 403 403  403 403 403 403  403 403 403 403
/me/form                        403 405 405 405  200 405 405 405  403 403 403 403  403 403 403 403  403 403 403 403
/me/form/2024-03-07             403 405 405 405  200 405 405 405  403 403 403 403  403 403 403 403  403 403 403 403
/me/why/2024-03                 403 405 405 405  200 405 405 405  403 403 403 403  403 403 403 403  403 403 403 403
/me/chart/2024-03               403 405 405 405  200 405 405 405  403 403 403 403  403 403 403 403  403 403 403 403
/me/ahead/2024-03-07/12:00      403 405 405 405  200 405 405 405  403 403 403 403  403 403 403 403  403 403 403 403
/me/handover/2024-03-01/2024-04-01  403 405 405 405  200 405 405 405  403 403 403 403  403 403 403 403  403 403 403 403
/me/driver                      403 405 405 405  200 405 405 405  403 403 403 403  403 403 403 403  403 403 403 403
/me/version                     403 405 405 405  200 405 405 405  403 403 403 403  403 403 403 403  403 403 403 403

/                               404 404 404 404  404 404 404 404  403 403 403 403  403 403 403 403  403 403 403 403
*                               404 404 404 404  404 404 404 404  403 403 403 403  403 403 403 403  403 403 403 403
/nothing                        404 404 404 404  404 404 404 404  403 403 403 403  403 403 403 403  403 403 403 403
/me                             404 404 404 404  404 404 404 404  403 403 403 403  403 403 403 403  403 403 403 403
/me/                            404 404 404 404  404 404 404 404  403 403 403 403  403 403 403 403  403 403 403 403
/cards                          404 404 404 404  404 404 404 404  403 403 403 403  403 403 403 403  403 403 403 403
/cards/                         404 404 404 404  404 404 404 404  403 403 403 403  403 403 403 403  403 403 403 403
/drivers/                       404 404 404 404  404 404 404 404  403 403 403 403  403 403 403 403  403 403 403 403
/drivers/17/                    404 404 404 404  404 404 404 404  403 403 403 403  403 403 403 403  403 403 403 403
/drivers//owed                  404 404 404 404  404 404 404 404  403 403 403 403  403 403 403 403  403 403 403 403
/drivers/17/spans               404 404 404 404  404 404 404 404  403 403 403 403  403 403 403 403  403 403 403 403
/drivers/17/spans/              404 404 404 404  404 404 404 404  403 403 403 403  403 403 403 403  403 403 403 403
/drivers/17/spans/2024-03/      404 404 404 404  404 404 404 404  403 403 403 403  403 403 403 403  403 403 403 403
/drivers/17/withdraw/           404 404 404 404  404 404 404 404  403 403 403 403  403 403 403 403  403 403 403 403
/drivers/17/withdraw/1/         404 404 404 404  404 404 404 404  403 403 403 403  403 403 403 403  403 403 403 403
/drivers/17/withdraw/1/2/3      404 404 404 404  404 404 404 404  403 403 403 403  403 403 403 403  403 403 403 403
/drivers/17/form/               404 404 404 404  404 404 404 404  403 403 403 403  403 403 403 403  403 403 403 403
/me/name                        404 404 404 404  404 404 404 404  403 403 403 403  403 403 403 403  403 403 403 403
/me/base/2024-03-04             404 404 404 404  404 404 404 404  403 403 403 403  403 403 403 403  403 403 403 403
/me/withdraw/1                  404 404 404 404  404 404 404 404  403 403 403 403  403 403 403 403  403 403 403 403
/overview                       404 404 404 404  404 404 404 404  403 403 403 403  403 403 403 403  403 403 403 403
/overview/                      404 404 404 404  404 404 404 404  403 403 403 403  403 403 403 403  403 403 403 403
/me/why                         404 404 404 404  404 404 404 404  403 403 403 403  403 403 403 403  403 403 403 403
/me/overview/2024-03            404 404 404 404  404 404 404 404  403 403 403 403  403 403 403 403  403 403 403 403
/me/standing/2024-03            404 404 404 404  404 404 404 404  403 403 403 403  403 403 403 403  403 403 403 403
/standing                       404 404 404 404  404 404 404 404  403 403 403 403  403 403 403 403  403 403 403 403
/standing/2024-03/              404 404 404 404  404 404 404 404  403 403 403 403  403 403 403 403  403 403 403 403
/me/forecast/2024-03-07/12:00   404 404 404 404  404 404 404 404  403 403 403 403  403 403 403 403  403 403 403 403
/forecast/2024-03-07            404 404 404 404  404 404 404 404  403 403 403 403  403 403 403 403  403 403 403 403
/forecast/2024-03-07/12:00/     404 404 404 404  404 404 404 404  403 403 403 403  403 403 403 403  403 403 403 403
/me/ahead/2024-03-07            404 404 404 404  404 404 404 404  403 403 403 403  403 403 403 403  403 403 403 403
/me/ahead/2024-03-07/           404 404 404 404  404 404 404 404  403 403 403 403  403 403 403 403  403 403 403 403
/me/ahead/2024-03-07/12:00/     404 404 404 404  404 404 404 404  403 403 403 403  403 403 403 403  403 403 403 403
/me/handover/2024-03-01         404 404 404 404  404 404 404 404  403 403 403 403  403 403 403 403  403 403 403 403
/drivers/17/handover/2024-03-01  404 404 404 404  404 404 404 404  403 403 403 403  403 403 403 403  403 403 403 403
/drivers/17/ahead/2024-03-07    404 404 404 404  404 404 404 404  403 403 403 403  403 403 403 403  403 403 403 403
/me/drivers                     404 404 404 404  404 404 404 404  403 403 403 403  403 403 403 403  403 403 403 403
/me/owed/                       404 404 404 404  404 404 404 404  403 403 403 403  403 403 403 403  403 403 403 403
/me/owed/1                      404 404 404 404  404 404 404 404  403 403 403 403  403 403 403 403  403 403 403 403
/me/owed?                       404 404 404 404  404 404 404 404  403 403 403 403  403 403 403 403  403 403 403 403
//me/owed                       404 404 404 404  404 404 404 404  403 403 403 403  403 403 403 403  403 403 403 403
/Me/owed                        404 404 404 404  404 404 404 404  403 403 403 403  403 403 403 403  403 403 403 403
/me/%6fwed                      404 404 404 404  404 404 404 404  403 403 403 403  403 403 403 403  403 403 403 403
/drivers/17/files/1/1           404 404 404 404  404 404 404 404  403 403 403 403  403 403 403 403  403 403 403 403
me/owed                         404 404 404 404  404 404 404 404  403 403 403 403  403 403 403 403  403 403 403 403
http://tacho/me/owed            404 404 404 404  404 404 404 404  403 403 403 403  403 403 403 403  403 403 403 403
";

/// Who asks, and the fields that show it.
static CALLERS: [(&str, &str); 5] = [
    ("office", "x-key: office-key-1\r\n"),
    ("driver", "x-key: anna-key-1\r\n"),
    ("nobody", "x-key: bert-key-1\r\n"),
    ("without", ""),
    ("two", "x-key: office-key-1\r\nx-key: anna-key-1\r\n"),
];

static METHODS: [&str; 4] = ["GET", "POST", "PUT", "HEAD"];

/// A driver who isn't registered yet.
const DRIVER: &str =
    "driver,holder,key,base,name\n18,0d4431323334353637383930313234,carl-key-1,2024-03-04,Carl Dahl\n";

/// A card file of driver 17 without records.
const CARD: &str =
    "\x05\x20\x00\x00\x11\x0dD123456789012300\x05\x04\x00\x00\x10\x00\x00\x00\x00\x00\x00\x00\x00\x00\x00\x00\x00\x00\x00\x00\x00";

/// A key that no driver has.
const KEY: &str = "carl-key-1\n";

/// A name.
const NAME: &str = "Anna Lind\n";

/// Hours that aren't entered yet.
const HOURS: &str = "start,past,activity\n2024-03-07 00:00,2024-03-07 08:00,rest\n";

/// The body that a path takes.
fn body_at(path: &str) -> &'static str {
    match path {
        "/drivers" => DRIVER,
        "/cards/both" | "/me/cards/both" => CARD,
        "/drivers/17/entries" => HOURS,
        "/drivers/17/key" => KEY,
        "/drivers/17/name" => NAME,
        _ => "",
    }
}

/// True if a text has this line.
fn has_line(text: &str, wanted: &str) -> bool {
    for line in text.lines() {
        if line == wanted {
            return true;
        }
    }
    false
}

#[test]
fn each_may_ask_for_what_is_theirs(rt: HostRuntime) -> Result<(), Fail> {
    let alloc = rt.alloc();
    let mut done = 0_usize;
    for line in STATUSES.lines() {
        let mut words = line.split_whitespace();
        let Some(path) = words.next() else {
            continue;
        };
        let body = body_at(path);
        let length = body.len();
        for (caller, key) in CALLERS.iter() {
            for method in METHODS.iter() {
                let asked = format!(in alloc; "{caller} {method} {path}")?;
                let status = words.next().unwrap_or("");
                let request = format!(in alloc;
                    "{method} {path} HTTP/1.1\r\n{key}content-length: {length}\r\n\r\n{body}"
                )?;
                let reply = ask(alloc, &mut archive(alloc)?, request.as_bytes())?;
                let wanted = format!(in alloc; "HTTP/1.1 {status} ")?;
                holds(&rt, &asked, done, reply.starts_with(wanted.as_bytes()));
                let is_done = matches!(status, "200" | "201");
                holds(&rt, &asked, done, is_done == has_line(ALLOWED, &asked));
                if is_done {
                    done = done.saturating_add(1);
                }
            }
        }
        holds(&rt, path, done, words.next().is_none());
    }
    holds(&rt, "all", done, done == ALLOWED.lines().count());
    Ok(())
}
