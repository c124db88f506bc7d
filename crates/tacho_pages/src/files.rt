//! The page files: those of the folder pages/, of which build/pages.py makes this file.

ghost use Rattle.std.specs.Prelude.{◌≡◌, map};
ghost use Rattle.tacho_pages.specs.Pages.{path_and_type, paths_and_types};

use tacho_message::{PageFile, PageType};

/// The page files, in the order of their paths.
pub fn page_files() -> [PageFile; 30]
    ensures { map path_and_type result ≡ paths_and_types }
{
    [
        PageFile {
            path: "/driver/",
            kind: PageType::Html,
            text: driver(),
        },
        PageFile {
            path: "/driver/driver.js",
            kind: PageType::JavaScript,
            text: driver_driver_js(),
        },
        PageFile {
            path: "/driver/uploads",
            kind: PageType::Text,
            text: driver_uploads(),
        },
        PageFile {
            path: "/driver/words-de.js",
            kind: PageType::JavaScript,
            text: driver_words_de_js(),
        },
        PageFile {
            path: "/driver/words-en.js",
            kind: PageType::JavaScript,
            text: driver_words_en_js(),
        },
        PageFile {
            path: "/office/",
            kind: PageType::Html,
            text: office(),
        },
        PageFile {
            path: "/office/commands.js",
            kind: PageType::JavaScript,
            text: office_commands_js(),
        },
        PageFile {
            path: "/office/entries.js",
            kind: PageType::JavaScript,
            text: office_entries_js(),
        },
        PageFile {
            path: "/office/files.js",
            kind: PageType::JavaScript,
            text: office_files_js(),
        },
        PageFile {
            path: "/office/gaps.js",
            kind: PageType::JavaScript,
            text: office_gaps_js(),
        },
        PageFile {
            path: "/office/inspection.js",
            kind: PageType::JavaScript,
            text: office_inspection_js(),
        },
        PageFile {
            path: "/office/left.js",
            kind: PageType::JavaScript,
            text: office_left_js(),
        },
        PageFile {
            path: "/office/letter.js",
            kind: PageType::JavaScript,
            text: office_letter_js(),
        },
        PageFile {
            path: "/office/month.js",
            kind: PageType::JavaScript,
            text: office_month_js(),
        },
        PageFile {
            path: "/office/office.css",
            kind: PageType::Css,
            text: office_office_css(),
        },
        PageFile {
            path: "/office/office.js",
            kind: PageType::JavaScript,
            text: office_office_js(),
        },
        PageFile {
            path: "/office/overview.js",
            kind: PageType::JavaScript,
            text: office_overview_js(),
        },
        PageFile {
            path: "/office/people.js",
            kind: PageType::JavaScript,
            text: office_people_js(),
        },
        PageFile {
            path: "/office/start.js",
            kind: PageType::JavaScript,
            text: office_start_js(),
        },
        PageFile {
            path: "/office/words-de.js",
            kind: PageType::JavaScript,
            text: office_words_de_js(),
        },
        PageFile {
            path: "/office/words-en.js",
            kind: PageType::JavaScript,
            text: office_words_en_js(),
        },
        PageFile {
            path: "/shared/page.css",
            kind: PageType::Css,
            text: shared_page_css(),
        },
        PageFile {
            path: "/shared/page.js",
            kind: PageType::JavaScript,
            text: shared_page_js(),
        },
        PageFile {
            path: "/shared/parts.js",
            kind: PageType::JavaScript,
            text: shared_parts_js(),
        },
        PageFile {
            path: "/shared/read.js",
            kind: PageType::JavaScript,
            text: shared_read_js(),
        },
        PageFile {
            path: "/shared/say.js",
            kind: PageType::JavaScript,
            text: shared_say_js(),
        },
        PageFile {
            path: "/shared/tables.js",
            kind: PageType::JavaScript,
            text: shared_tables_js(),
        },
        PageFile {
            path: "/shared/time.js",
            kind: PageType::JavaScript,
            text: shared_time_js(),
        },
        PageFile {
            path: "/shared/words-de.js",
            kind: PageType::JavaScript,
            text: shared_words_de_js(),
        },
        PageFile {
            path: "/shared/words-en.js",
            kind: PageType::JavaScript,
            text: shared_words_en_js(),
        },
    ]
}

/// The text at `/driver/`.
fn driver() -> &'static str {
    "<!doctype html>
<html lang=\"en\">
<head>
<meta charset=\"utf-8\">
<meta name=\"viewport\" content=\"width=device-width, initial-scale=1\">
<title>Mansulip</title>
<!-- So that the browser asks for no icon. -->
<link rel=\"icon\" href=\"data:,\">
<link rel=\"stylesheet\" href=\"/shared/page.css\">
<!-- So that all modules are loaded at once. say.js is run first, since it loads the sentences. -->
<link rel=\"modulepreload\" href=\"/shared/page.js\">
<link rel=\"modulepreload\" href=\"/shared/parts.js\">
<link rel=\"modulepreload\" href=\"/shared/read.js\">
<link rel=\"modulepreload\" href=\"/shared/tables.js\">
<link rel=\"modulepreload\" href=\"/shared/time.js\">
<script type=\"module\" src=\"/shared/say.js\"></script>
<script type=\"module\" src=\"/driver/driver.js\"></script>
</head>
<!-- driver.js fills each element that has the attribute data-text with the sentence of that name. -->
<body class=\"driver\">
<header class=\"bar\">
  <span class=\"brand\" data-text=\"yourHours\">tacho</span>
  <div class=\"tools\">
    <select id=\"language\" class=\"small\"></select>
    <button type=\"button\" id=\"log-out\" class=\"small\" data-text=\"logOut\" hidden></button>
  </div>
</header>
<noscript><p>This page needs JavaScript. <span lang=\"de\">Diese Seite braucht JavaScript.</span></p></noscript>
<main>
  <div id=\"message\" role=\"alert\"></div>
  <form id=\"sign-in\" hidden>
    <h1 data-text=\"yourHours\"></h1>
    <div class=\"field\">
      <label for=\"key\" data-text=\"yourKey\"></label>
      <div class=\"row\">
        <input id=\"key\" type=\"password\" autocomplete=\"current-password\" required aria-describedby=\"key-help\">
        <button class=\"main\" data-text=\"showHours\"></button>
      </div>
      <p id=\"key-help\" class=\"note\" data-text=\"yourKeyHelp\"></p>
    </div>
  </form>
  <div id=\"hours\" hidden></div>
  <section id=\"upload\" class=\"no-print\" aria-labelledby=\"upload-head\" hidden>
    <h2 id=\"upload-head\" data-text=\"upload\"></h2>
    <div id=\"drop\" class=\"drop\">
      <label for=\"file\" data-text=\"cards\"></label>
      <input id=\"file\" type=\"file\" multiple>
      <p class=\"note\" data-text=\"dropHere\"></p>
    </div>
    <ul id=\"results\" class=\"list results\" aria-live=\"polite\"></ul>
  </section>
</main>
<footer>
  <p id=\"zone\" class=\"note\"></p>
  <p data-text=\"foot\"></p>
  <p id=\"program\"></p>
</footer>
<div id=\"busy\" role=\"status\"></div>
</body>
</html>
"
}

/// The text at `/driver/driver.js`.
fn driver_driver_js() -> &'static str {
    "// The driver's page: what is left first, then a month. It asks the archive with the driver's key, and shows the replies. The address after
// `#` is the month; without one it is the last month that has data.
import { $, KEY_FORM, Problem, bytes, forget, h, isAbort, keep, key, listed, reading, send, watch, written } from \"/shared/page.js\";
import { breachItem, chart, gapsPart, notExaminedBox, sheetTable, unseenOf } from \"/shared/parts.js\";
import { lengthOf, readAhead, readBreaches, readDebts, readEntries, readFiles, readGaps, readSheet, readSpans, readVersion, readWhy }
  from \"/shared/read.js\";
import { LANGUAGES, both, debtsPart, languageNow, monthName, ready, say, speak, undivided, utcDay } from \"/shared/say.js\";
import { meters } from \"/shared/tables.js\";
import { DAY, dateOf, localText, minuteOf, minutesOfLocal, monthOf, monthStep, nextMorning, now, offsetText, rangeOf, textOf, zone }
  from \"/shared/time.js\";

/** @import { Ahead, Breach, CardFile, Debt, Entry, Range, Sheet, ShownBreach, Span, Stretch } from \"/shared/read.js\" */
/** @import { Child } from \"/shared/page.js\" */
/**
 * All that the page shows of a month. `end` is the end of what is held, 0 where nothing is. `ahead` is null where there is no forecast.
 * @typedef {{month: string, sheet: Sheet, spans: Span[], gaps: Range[], stretches: Array<Stretch<Breach>>, why: ShownBreach[],
 *   debts: Array<Stretch<Debt>>, files: CardFile[], entries: Entry[], ahead: Ahead | null, end: number}} Month
 */
/** @typedef {{sentence: () => string, line: string, kind: string}} Result what became of a file that was sent */

const MONTH = /^20\\d\\d-(0[1-9]|1[0-2])$/;
const TRIES = 3;
/** From so many days between the last known hour and the start on, what is left isn't to be relied on, and isn't shown. */
const OLD = { doubtful: 2, useless: 4 };
/** How many breaches come before the chart. The others are folded up, so that the chart isn't far down on a phone. */
const FIRST_BREACHES = 2;
const LARGEST_FILE = 262144;

// `session` grows with each sign-in and log-out, so that what comes too late isn't shown. `asking` ends the requests for a month. `start`
// is the start that was chosen. A message makes its text, so that it changes with the language.
const state = {
  session: 0,
  /** @type {AbortController | null} */ asking: null,
  /** @type {Month | null} */ month: null,
  /** @type {number | null} */ start: null,
  /** @type {{text: () => string, isBad: boolean, again: boolean} | null} */ message: null,
  /** @type {Result[]} */ results: [],
  isSending: false,
  uploads: false,
  program: \"\",
};

/** What the state has of no driver. */
const NOBODY = { month: null, start: null, results: [], isSending: false, uploads: false, program: \"\" };

// Asking

/**
 * A reading of the driver's own.
 * @param {string} what
 * @param {AbortSignal} signal
 * @returns {Promise<string>}
 */
function own(what, signal) {
  return reading(`/me/${what}`, { signal, wait: tellWait });
}

/**
 * The end of what the driver holds, 0 where nothing is held.
 * @param {CardFile[]} files
 * @param {Entry[]} entries
 * @param {Array<Stretch<Breach>>} stretches
 * @returns {number}
 */
function endOf(files, entries, stretches) {
  const kept = entries.filter((entry) => entry.state === \"kept\");
  const last = /** @type {Stretch<Breach>} */ (stretches.at(-1));
  const examined = Math.max(last.horizon, last.to ?? 0);
  return Math.max(0, ...files.map((file) => file.past), ...kept.map((entry) => entry.past), examined > last.from ? examined : 0);
}

/**
 * The forecast from a start. Null where the archive has none for so late a minute.
 * @param {number} start
 * @param {AbortSignal} signal
 * @returns {Promise<Ahead | null>}
 */
async function aheadOf(start, signal) {
  try {
    return readAhead(await own(`ahead/${textOf(start).replace(\" \", \"/\")}`, signal));
  } catch (fault) {
    if (fault instanceof Problem && fault.name === \"otherReply\" && fault.values[1] === \"Z3 out of range\") {
      return null;
    }
    throw fault;
  }
}

/**
 * The minutes of a month's spans and gaps by the columns of the sheet.
 * @param {Span[]} spans
 * @param {Range[]} gaps
 * @returns {number[]}
 */
function sumsOf(spans, gaps) {
  const sums = [0, 0, 0, 0, 0, 0];
  for (const { start, past, activity, isCrew } of spans) {
    sums[isCrew ? 4 : [\"rest\", \"available\", \"work\", \"drive\"].indexOf(activity)] += past - start;
  }
  for (const { start, past } of gaps) {
    sums[5] += past - start;
  }
  return sums;
}

/**
 * Whether replies are of one state of the archive: the horizons, the breaches and the sums are the same in all of them.
 * @param {Month} replies
 * @returns {boolean}
 */
function agree({ month, sheet, spans, gaps, stretches, why, debts, ahead }) {
  const [first, past] = rangeOf(month);
  const frame = (/** @type {Stretch<any>} */ { from, horizon, cause, to }) => ({ from, horizon, cause, to });
  const inMonth = (/** @type {Stretch<Breach>} */ one) => one.items.filter((breach) => breach.at >= first && breach.at < past);
  const last = /** @type {Stretch<Breach>} */ (stretches.at(-1));
  const pairs = [
    [stretches.map(frame), debts.map(frame)],
    [stretches.flatMap(inMonth), why.map(({ evidence, ...breach }) => breach)],
    [[sheet.month, sheet.horizon, sheet.cause], [month, stretches[0].horizon, stretches[0].cause]],
    [sheet.breaches, inMonth(stretches[0])],
    [sheet.total.map(lengthOf), sumsOf(spans, gaps)],
    [ahead === null ? null : [ahead.from, ahead.held, ahead.cause], ahead === null ? null : [last.from, last.horizon, last.cause]],
  ];
  return pairs.every(([one, other]) => JSON.stringify(one) === JSON.stringify(other))
    && [...spans, ...gaps].every((range) => range.start >= first && range.past <= past);
}

/**
 * A month. The card files come first, and alone, so that a wrong key is sent once. If they and the entries are the same at the end, all
 * that came between is of one state. Else it is asked for again.
 * @param {string | null} wanted the month, or null for the last that has data
 * @param {AbortSignal} signal
 * @returns {Promise<Month>}
 */
async function monthOfArchive(wanted, signal) {
  let before = [await own(\"files\", signal), await own(\"entries\", signal)];
  for (let tries = 0; ; tries += 1) {
    const [files, entries, stretches] = [readFiles(before[0]), readEntries(before[1]), readBreaches(await own(\"stretches\", signal))];
    const end = endOf(files, entries, stretches);
    const month = wanted ?? (end > 0 ? monthOf(end - 1) : monthOf(now()));
    const [ahead, sheet, spans, gaps, why, debts] = await Promise.all([
      aheadOf(state.start ?? nextMorning(), signal),
      ...[`sheet/${month}`, `spans/${month}`, `gaps/${month}`, `why/${month}`, \"debts\"].map((what) => own(what, signal)),
    ]);
    const replies = {
      month, sheet: readSheet(sheet), spans: readSpans(spans), gaps: readGaps(gaps), stretches, why: readWhy(why), debts: readDebts(debts),
      files, entries, ahead, end,
    };
    const after = await Promise.all([own(\"files\", signal), own(\"entries\", signal)]);
    const isSame = before[0] === after[0] && before[1] === after[1];
    if (isSame && agree(replies)) {
      return replies;
    }
    if (tries + 1 === TRIES) {
      throw new Problem(isSame ? \"unreadable\" : \"keepsChanging\");
    }
    before = after;
  }
}

/**
 * The sentence on what went wrong.
 * @param {unknown} fault
 * @returns {() => string}
 */
function sentenceOn(fault) {
  if (fault instanceof Problem) {
    return () => (typeof say[fault.name] === \"string\" ? say[fault.name] : say[fault.name](...fault.values));
  }
  // A fault of the page itself: what it can't read it doesn't show.
  console.error(fault);
  return () => say.unreadable;
}

/**
 * Drops the key, and all that the page has of the driver, if that is what went wrong.
 * @param {unknown} fault
 */
function dropKey(fault) {
  if (fault instanceof Problem && fault.name === \"badKey\") {
    forget();
    Object.assign(state, NOBODY);
    render();
  }
}

/**
 * Tells what went wrong. What is shown stays.
 * @param {() => string} text
 */
function tell(text) {
  state.message = { text, isBad: true, again: false };
  renderMessage();
}

/**
 * Asks for something, and shows it, or what went wrong. What was asked for before is given up.
 * @param {(signal: AbortSignal) => Promise<void>} ask
 * @returns {Promise<boolean>} whether it is shown
 */
async function attempt(ask) {
  const asking = new AbortController();
  state.asking?.abort();
  state.asking = asking;
  try {
    await ask(asking.signal);
    state.message = null;
  } catch (fault) {
    if (asking !== state.asking) {
      return false;
    }
    const isStopped = isAbort(fault);
    // Where the driver has stopped it, or only the limit of requests stands against it, what is there stays.
    if (!isStopped && !(fault instanceof Problem && fault.name === \"tooOften\")) {
      state.month = null;
    }
    dropKey(fault);
    state.message = { text: isStopped ? () => say.stopped : sentenceOn(fault), isBad: !isStopped, again: true };
  }
  if (asking !== state.asking) {
    return false;
  }
  state.asking = null;
  render();
  return state.message === null;
}

/**
 * Asks for the month of the address, and shows it.
 * @returns {Promise<boolean>} whether it is shown
 */
function showMonth() {
  const wanted = MONTH.test(location.hash.slice(1)) ? location.hash.slice(1) : null;
  $(\"hours\").setAttribute(\"aria-busy\", \"true\");
  return attempt(async (signal) => {
    const session = state.session;
    const month = await monthOfArchive(wanted, signal);
    const program = state.program || readVersion(await own(\"version\", signal));
    if (session === state.session) {
      Object.assign(state, { month, program });
    }
  });
}

/** Asks what is left from another start, and shows it. */
async function showLeft() {
  await attempt(async (signal) => {
    const ahead = await aheadOf(state.start ?? nextMorning(), signal);
    const month = state.month;
    if (month !== null) {
      const next = { ...month, ahead };
      if (!agree(next)) {
        state.month = await monthOfArchive(month.month, signal);
      } else {
        state.month = next;
      }
    }
  });
  $(\"start-at\")?.focus();
}

/** Asks whether drivers may send card files: /driver/uploads says so. */
async function askUploads() {
  const session = state.session;
  let isOpen = false;
  try {
    const reply = await fetch(\"/driver/uploads\", { cache: \"no-store\", credentials: \"omit\" });
    isOpen = reply.ok && (await reply.text()).trim() === \"open\";
  } catch {
    // Without a connection there are no uploads either.
  }
  if (session === state.session) {
    state.uploads = isOpen;
    $(\"upload\").hidden = !isOpen;
  }
}

/**
 * Saves a reply as a file.
 * @param {string} path
 * @param {string} name
 */
async function save(path, name) {
  const session = state.session;
  try {
    const link = h(\"a\", { href: URL.createObjectURL(await bytes(path, { wait: tellWait })), download: name });
    if (session === state.session) {
      link.click();
    }
    setTimeout(() => URL.revokeObjectURL(link.href), 60000);
  } catch (fault) {
    if (session === state.session) {
      dropKey(fault);
      tell(sentenceOn(fault));
    }
  }
}

// What is left

/**
 * The field with the start of driving.
 * @param {number} start
 * @returns {HTMLElement}
 */
function startField(start) {
  const field = h(\"input\", { type: \"datetime-local\", id: \"start-at\", value: localText(start).replace(\" \", \"T\"), required: true });
  const take = (/** @type {Event} */ event) => {
    event.preventDefault();
    const [chosen] = field.value === \"\" ? [] : minutesOfLocal(field.value);
    if (chosen === undefined) {
      tell(() => say.badStart);
    } else {
      state.start = chosen;
      showLeft();
    }
  };
  return h(\"form\", { class: \"row no-print\", id: \"start\", onsubmit: take },
    h(\"label\", { for: \"start-at\" }, say.startAt), field, h(\"button\", {}, say.show));
}

/**
 * What the forecast says, or why it says nothing.
 * @param {Month} month
 * @returns {Child}
 */
function leftTexts({ ahead, end }) {
  if (end === 0) {
    return h(\"p\", { class: \"box warn\" }, say.noLeft);
  }
  if (ahead === null) {
    return h(\"p\", { class: \"box warn\" }, say.leftNone);
  }
  if (ahead.not !== null) {
    return h(\"p\", { class: \"box warn\" }, say.leftBroken(both(ahead.not.start), both(ahead.not.past)));
  }
  const days = Math.floor((ahead.start - ahead.held) / DAY);
  if (ahead.start - ahead.held > OLD.useless * DAY) {
    return h(\"p\", { class: \"box warn\" }, say.leftOld(days, both(ahead.held)));
  }
  const isDoubtful = ahead.start - ahead.held > OLD.doubtful * DAY;
  const known = `${say.colHeld} ${both(ahead.held)}. ${isDoubtful ? `${say.leftStale(days)}. ` : \"\"}${say.leftAssume}`;
  const coming = ahead.coming.map(({ kind, at, amount }) =>
    h(\"li\", {}, undivided(`${say.short[kind]}, ${both(at)}: ${say[kind](amount)}`)));
  return [
    h(\"p\", { class: isDoubtful ? \"box warn\" : \"note\", id: \"left-known\" }, known),
    meters(ahead),
    h(\"p\", { class: \"note\" }, say.leftUsed(ahead.reduced, ahead.extended)),
    coming.length === 0 ? null : h(\"div\", { class: \"box warn\" }, h(\"p\", {}, say.leftComing), h(\"ul\", {}, coming)),
  ];
}

/**
 * What is left.
 * @param {Month} month
 * @returns {HTMLElement}
 */
function leftPart(month) {
  return h(\"section\", { id: \"left\", \"aria-labelledby\": \"left-head\" },
    h(\"h2\", { id: \"left-head\" }, say.left),
    startField(month.ahead && !month.ahead.not ? month.ahead.start : state.start ?? nextMorning()),
    leftTexts(month));
}

// A month

/**
 * The head of the month, with the ways to other months.
 * @param {Month} month
 * @returns {HTMLElement}
 */
function monthHead({ month }) {
  const step = (/** @type {number} */ by, /** @type {string} */ id, /** @type {string} */ sign, /** @type {string} */ text) => {
    const other = monthStep(month, by);
    return MONTH.test(other) ? h(\"a\", { class: \"button\", id, href: `#${other}`, \"aria-label\": text, title: text }, sign) : null;
  };
  return h(\"div\", { class: \"head month\" }, step(-1, \"earlier\", \"←\", say.monthBefore),
    h(\"h2\", { id: \"month-head\", tabindex: \"-1\" }, monthName(month)), step(1, \"later\", \"→\", say.monthAfter));
}

/**
 * The field with the month, for a month that is far away.
 * @param {string} month
 * @returns {HTMLElement}
 */
function monthField(month) {
  const field = h(\"input\", {
    id: \"month\", type: \"month\", min: \"2000-01\", max: \"2099-12\", required: true, pattern: \"20[0-9][0-9]-(0[1-9]|1[0-2])\", value: month,
  });
  const take = (/** @type {Event} */ event) => {
    event.preventDefault();
    goTo(field.value.trim());
  };
  return h(\"form\", { id: \"choose\", class: \"row\", onsubmit: take },
    h(\"label\", { for: \"month\" }, say.wholeMonth), field, h(\"button\", {}, say.show));
}

/**
 * The month's breaches: the first ones, and the others folded up.
 * @param {ShownBreach[]} why
 * @param {boolean} isSeen whether a minute of the month is examined
 * @param {Entry[]} entries
 * @returns {Child}
 */
function breachList(why, isSeen, entries) {
  if (why.length === 0) {
    return h(\"p\", {}, isSeen ? say.noBreach : say.nothingExamined);
  }
  const list = (/** @type {ShownBreach[]} */ some) => h(\"ul\", { class: \"list\" }, some.map((breach) => breachItem(breach, { entries })));
  const others = why.slice(FIRST_BREACHES);
  return [
    list(why.slice(0, FIRST_BREACHES)),
    others.length === 0 ? null : h(\"details\", { class: \"more\" }, h(\"summary\", {}, say.moreBreaches(others.length)), list(others)),
  ];
}

/**
 * Other months: a field, and a link to each that has breaches, the latest first.
 * @param {Month} month
 * @returns {Child}
 */
function otherMonths({ month, stretches }) {
  const counts = new Map();
  for (const breach of stretches.flatMap((one) => one.items)) {
    counts.set(monthOf(breach.at), (counts.get(monthOf(breach.at)) ?? 0) + 1);
  }
  counts.delete(month);
  const count = [...counts.values()].reduce((sum, one) => sum + one, 0);
  const links = [...counts].reverse().map(([other, number]) =>
    h(\"a\", { class: \"button small\", href: `#${other}` }, `${monthName(other)} (${number})`));
  return h(\"details\", { id: \"others\", class: \"no-print\" },
    h(\"summary\", {}, say.others(count)), monthField(month), h(\"div\", { class: \"row links\" }, links));
}

/**
 * The card files, and all of the month as one file.
 * @param {Month} month
 * @returns {Child}
 */
function filesPart({ month, files }) {
  const [first, past] = rangeOf(month);
  const file = (/** @type {CardFile} */ { number, start, past: end }) => h(\"li\", {}, h(\"button\", {
    type: \"button\", class: \"small\", onclick: () => save(`/me/files/${number}`, `card-${number}.ddd`),
  }, say.fileName(number, utcDay(start), utcDay(end - 1))));
  const all = h(\"button\", {
    type: \"button\", class: \"small\", id: \"handover\",
    onclick: () => save(`/me/handover/${dateOf(first)}/${dateOf(past)}`, `tacho-${month}.tar`),
  }, say.handover(monthName(month)));
  return [h(\"p\", { class: \"note\" }, say.filesHelp), h(\"ul\", { class: \"list files\" }, h(\"li\", {}, all), [...files].reverse().map(file))];
}

/**
 * The hours of the month that were entered by hand.
 * @param {Month} month
 * @returns {Child}
 */
function entriesPart({ month, entries }) {
  const [first, past] = rangeOf(month);
  const inMonth = entries.filter((entry) => entry.start < past && first < entry.past);
  if (inMonth.length === 0) {
    return null;
  }
  const item = (/** @type {Entry} */ entry) => h(\"li\", {},
    `${both(entry.start)} ${say.to} ${both(entry.past)}: ${say[entry.activity]}, `, written(entry.author),
    entry.note ? [\", \", written(entry.note)] : null, entry.state === \"withdrawn\" ? ` (${say.isWithdrawn})` : \"\");
  return h(\"details\", { id: \"entries\" }, h(\"summary\", {}, say.entered(inMonth.length)), h(\"ul\", {}, inMonth.map(item)));
}

/**
 * All parts of the month.
 * @param {Month} month
 * @returns {Child[]}
 */
function monthParts(month) {
  const { sheet, spans, stretches, why, debts, entries, end } = month;
  const range = rangeOf(month.month);
  const unseen = unseenOf(stretches, range);
  const isSeen = unseen.reduce((sum, one) => sum + one.past - one.start, 0) < range[1] - range[0];
  // Hours that haven't come yet are no gap.
  const gaps = month.gaps.map((gap) => ({ ...gap, past: Math.min(gap.past, end) })).filter((gap) => gap.start < gap.past);
  const isOver = (/** @type {{start: number}} */ day) => day.start < Math.max(end, now());
  const [days, later] = [sheet.days.filter(isOver), sheet.days.filter((day) => !isOver(day))];
  return [
    h(\"h1\", { id: \"title\", tabindex: \"-1\" }, written(sheet.name)),
    leftPart(month),
    monthHead(month),
    h(\"h2\", { id: \"breaches-head\" }, `${say.breaches}${why.length > 0 ? `: ${why.length}` : \"\"}`),
    h(\"div\", { id: \"breaches\" }, breachList(why, isSeen, entries)),
    otherMonths(month),
    h(\"section\", { class: \"keep\", id: \"chart\" }, h(\"h2\", {}, say.chart), chart({
      spans, gaps, breaches: why, unseen, days, range, labelledBy: \"chart-name title month-head\", describedBy: \"breaches\",
    })),
    h(\"span\", { id: \"chart-name\", hidden: true }, say.chartName),
    h(\"div\", { id: \"not-examined\" }, notExaminedBox(stretches, range, end, gaps)),
    h(\"h2\", {}, say.debts),
    h(\"div\", { id: \"debts\" }, debtsPart(debts)),
    h(\"h2\", {}, say.gaps),
    h(\"div\", { id: \"gaps\" }, end <= range[0] ? h(\"p\", {}, say.noHours) : gapsPart(gaps), entriesPart(month)),
    h(\"details\", { id: \"days\" }, h(\"summary\", {}, say.sheet), sheetTable({ days, total: sheet.total, later })),
    h(\"section\", { id: \"files\", class: \"no-print\", \"aria-labelledby\": \"files-head\" },
      h(\"h2\", { id: \"files-head\" }, say.files), filesPart(month)),
  ];
}

// Rendering

/** Shows what went wrong, and a button to ask again. */
function renderMessage() {
  const { message } = state;
  const again = h(\"button\", { type: \"button\", id: \"again\", class: \"small\", onclick: showMonth }, say.retry);
  $(\"message\").className = message === null ? \"\" : message.isBad ? \"box bad\" : \"box\";
  $(\"message\").replaceChildren(...(message === null ? [] : listed([h(\"p\", {}, message.text()), message.again && key() ? again : null])));
}

/** Shows what became of the files. An item that stays the same is left alone, so that a screen reader doesn't repeat it. */
function renderResults() {
  const list = $(\"results\");
  while (list.children.length > state.results.length) {
    list.lastElementChild.remove();
  }
  state.results.forEach(({ sentence, line, kind }, number) => {
    const raw = line ? h(\"p\", { class: \"note\" }, h(\"code\", {}, line)) : null;
    const made = h(\"li\", { class: kind }, h(\"div\", {}, h(\"p\", {}, undivided(sentence())), raw));
    const shown = list.children[number];
    if (shown === undefined) {
      list.append(made);
    } else if (shown.textContent !== made.textContent) {
      shown.replaceWith(made);
    }
  });
}

/** Shows the state. Without a key, removes all that the page has of a driver. */
function render() {
  const { month, program } = state;
  const isIn = key() !== null;
  document.documentElement.lang = languageNow();
  for (const one of document.querySelectorAll(\"[data-text]\")) {
    one.textContent = say[/** @type {HTMLElement} */ (one).dataset.text ?? \"\"];
  }
  $(\"language\").setAttribute(\"aria-label\", say.language);
  $(\"sign-in\").hidden = isIn;
  $(\"log-out\").hidden = !isIn;
  $(\"upload\").hidden = !(isIn && state.uploads);
  $(\"hours\").hidden = month === null;
  $(\"hours\").removeAttribute(\"aria-busy\");
  $(\"hours\").replaceChildren(...(month === null ? [] : listed(monthParts(month))));
  $(\"zone\").textContent = month === null ? \"\" : say.zoneNote(zone(), offsetText(rangeOf(month.month)[0]));
  $(\"program\").textContent = program === \"\" ? \"\" : say.program(program);
  document.title = month === null ? say.yourHours : `${say.yourHours}: ${monthName(month.month)}`;
  renderMessage();
  renderResults();
}

// What is slow says so, after half a second, and again after five. After 429 the page says that it waits.

/** @type {number[]} */
let timers = [];
let isWaiting = false;

/**
 * Shows a text in the corner, with a button that ends the wait.
 * @param {string} text
 * @param {boolean} canStop
 */
function tellBusy(text, canStop) {
  const stop = h(\"button\", { type: \"button\", class: \"small\", onclick: () => state.asking?.abort() }, say.cancel);
  $(\"busy\").replaceChildren(h(\"span\", {}, text), ...(canStop ? [stop] : []));
}

/**
 * Says that the page waits, since there were too many requests.
 * @param {number} seconds
 */
function tellWait(seconds) {
  isWaiting = true;
  timers.forEach(clearTimeout);
  tellBusy(say.waits(seconds), true);
  timers = [setTimeout(() => {
    isWaiting = false;
    $(\"busy\").replaceChildren();
  }, 1000 * seconds)];
}

watch((count) => {
  if (isWaiting) {
    return;
  }
  timers.forEach(clearTimeout);
  if (count === 0) {
    $(\"busy\").replaceChildren();
  } else {
    timers = [setTimeout(() => tellBusy(say.busy, false), 500), setTimeout(() => tellBusy(say.busyLong, true), 5000)];
  }
});

// What the driver does

/**
 * Shows a month: the address names it, so that the browser can go back.
 * @param {string} month
 */
function goTo(month) {
  if (!MONTH.test(month)) {
    tell(() => say.badMonth);
  } else if (location.hash === `#${month}`) {
    showMonth();
  } else {
    location.hash = month;
  }
}

/**
 * Signs in with the key in the field. Blanks within it are dropped, since slips print keys in groups. A text that isn't a key isn't sent.
 * @param {Event} event
 */
async function signIn(event) {
  event.preventDefault();
  const wanted = $(\"key\").value.replace(/\\s/g, \"\");
  state.session += 1;
  if (!KEY_FORM.test(wanted)) {
    tell(() => say.badKey);
    return;
  }
  keep(wanted);
  $(\"key\").value = \"\";
  state.message = null;
  if (await showMonth()) {
    $(\"title\").focus();
    await askUploads();
  } else if (key() === null) {
    $(\"key\").focus();
  }
}

/** Removes the key, and all that the page has of the driver. */
function logOut() {
  state.session += 1;
  state.asking?.abort();
  forget();
  Object.assign(state, { ...NOBODY, asking: null });
  state.message = { text: () => say.loggedOut, isBad: false, again: false };
  $(\"key\").value = \"\";
  $(\"file\").value = \"\";
  render();
  $(\"key\").focus();
}

/** Shows another month, and goes to its head. */
async function changeMonth() {
  if (key() !== null && await showMonth()) {
    $(\"month-head\").focus();
  }
}

// Uploads

/** By the code of a fault, or its letter: the sentence. */
const BY_CODE = new Map([[\"C\", \"broken\"], [\"C14\", \"contradictsItself\"], [\"S5\", \"notYours\"], [\"S14\", \"isFull\"]]);
/** By the status, where no fault has a line. */
const BY_STATUS = new Map([
  [403, \"badKey\"], [405, \"isShut\"], [413, \"tooLarge\"], [429, \"notSent\"], [502, \"sendAgain\"], [503, \"sendAgain\"], [504, \"sendAgain\"],
]);

/**
 * What became of a file, from the reply to it.
 * @param {string} name the file's
 * @param {number} status
 * @param {string} line
 * @returns {Result}
 */
function resultOf(name, status, line) {
  const added = /^added driver \\d+ number (\\d+)$/.exec(line);
  const contradiction = /^S6 contradiction at (\\d{4}-\\d\\d-\\d\\d \\d\\d:\\d\\d)$/.exec(line);
  if (status === 201 && added) {
    return { sentence: () => say.sent.added(name, added[1]), line, kind: \"good\" };
  }
  if (status === 200 && /^repeated driver \\d+$/.test(line)) {
    return { sentence: () => say.sent.repeated(name), line, kind: \"same\" };
  }
  if (status === 409 && contradiction) {
    return { sentence: () => say.sent.contradicts(name, both(minuteOf(contradiction[1]))), line, kind: \"bad\" };
  }
  const [code, letter] = /^([A-Z])\\d+/.exec(line) ?? [];
  const sentence = BY_CODE.get(code) ?? BY_CODE.get(letter) ?? BY_STATUS.get(status) ?? \"refused\";
  return { sentence: () => say.sent[sentence](name), line: line || String(status), kind: \"bad\" };
}

/**
 * Sends a file, and says what became of it.
 * @param {File} file
 * @param {string} name as it is said
 * @returns {Promise<{status: number, result: Result}>}
 */
async function sendFile(file, name) {
  if (file.size > LARGEST_FILE) {
    return { status: 0, result: { sentence: () => say.sent.tooLarge(name), line: \"\", kind: \"bad\" } };
  }
  try {
    const { status, text } = await send(\"/me/cards/both\", { method: \"POST\", body: file });
    return { status, result: resultOf(name, status, text.trim()) };
  } catch {
    return { status: 0, result: { sentence: () => say.sent.sendAgain(name), line: \"\", kind: \"bad\" } };
  }
}

/**
 * Sends files one after the other, and then shows the month anew if one was added.
 * @param {File[]} files
 */
async function sendFiles(files) {
  const session = state.session;
  // In a sentence a name is isolated, so that its direction of writing doesn't change that of the sentence.
  const items = files.map((file) => ({ file, name: `\\u2068${file.name}\\u2069`, at: state.results.length }));
  items.forEach((item, number) => {
    item.at += number;
    state.results.push({ sentence: () => say.sent.waiting(item.name), line: \"\", kind: \"\" });
  });
  let isChanged = false;
  state.isSending = true;
  for (const { file, name, at } of items) {
    state.results[at] = { sentence: () => say.sent.sending(name), line: \"\", kind: \"\" };
    renderResults();
    const { status, result } = await sendFile(file, name);
    if (session !== state.session) {
      return;
    }
    state.results[at] = result;
    renderResults();
    isChanged ||= status === 201;
  }
  state.isSending = false;
  if (isChanged) {
    await showMonth();
  }
}

/** Lets files be dropped on the upload part. Dropped elsewhere, a file would replace the page. */
function takeDrops() {
  const drop = $(\"drop\");
  const isOver = (/** @type {DragEvent} */ event) => !$(\"upload\").hidden && drop.contains(event.target);
  addEventListener(\"dragover\", (event) => {
    event.preventDefault();
    drop.classList.toggle(\"over\", isOver(event));
    if (event.dataTransfer !== null) {
      event.dataTransfer.dropEffect = isOver(event) ? \"copy\" : \"none\";
    }
  });
  addEventListener(\"drop\", (event) => {
    event.preventDefault();
    drop.classList.remove(\"over\");
    if (isOver(event)) {
      sendFiles([...(event.dataTransfer?.files ?? [])]);
    }
  });
  drop.addEventListener(\"dragleave\", () => drop.classList.remove(\"over\"));
}

/** What is folded up is printed too, but for the evidence. */
function unfoldForPrint() {
  for (const one of document.querySelectorAll(\"details.more\")) {
    one.setAttribute(\"open\", \"\");
  }
}

/** Shows the language that is chosen. */
async function changeLanguage() {
  try {
    await speak($(\"language\").value);
    render();
  } catch (fault) {
    $(\"language\").value = languageNow();
    tell(sentenceOn(fault));
  }
}

/** Begins: with the key of this tab if there is one. */
async function begin() {
  await ready;
  $(\"language\").append(...LANGUAGES.map(([language, name]) => h(\"option\", { value: language, lang: language }, name)));
  $(\"language\").value = languageNow();
  $(\"language\").addEventListener(\"change\", changeLanguage);
  $(\"sign-in\").addEventListener(\"submit\", signIn);
  $(\"log-out\").addEventListener(\"click\", logOut);
  $(\"file\").addEventListener(\"change\", () => {
    const files = [...$(\"file\").files];
    // So that the same file can be chosen once more.
    $(\"file\").value = \"\";
    sendFiles(files);
  });
  takeDrops();
  addEventListener(\"hashchange\", changeMonth);
  addEventListener(\"beforeprint\", unfoldForPrint);
  addEventListener(\"beforeunload\", (event) => {
    if (state.isSending) {
      event.preventDefault();
    }
  });
  // The browser may keep the page while another is shown: after a log-out nothing of it may come back.
  addEventListener(\"pageshow\", (event) => {
    if (event.persisted && key() === null) {
      logOut();
    }
  });
  render();
  if (key() !== null && await showMonth()) {
    await askUploads();
  }
}

begin();
"
}

/// The text at `/driver/uploads`.
fn driver_uploads() -> &'static str {
    "open
"
}

/// The text at `/driver/words-de.js`.
fn driver_words_de_js() -> &'static str {
    "// The driver's German sentences. words-en.js has the same names in the same order.

export const WORDS = {
  // The page
  yourHours: \"Ihre Stunden\",
  yourKey: \"Ihr Schlüssel\",
  yourKeyHelp: \"Sie haben ihn vom Büro bekommen. Er bleibt in diesem Tab, bis Sie sich abmelden oder den Tab schließen.\",
  showHours: \"Meine Stunden zeigen\",
  program: (program) => `Die Antworten sind von ${program}.`,

  // What can go wrong
  badKey: \"Diesen Schlüssel hat kein Fahrer. Prüfen Sie ihn, oder fragen Sie Ihr Büro.\",
  badMonth: \"Das ist kein Monat von 2000-01 bis 2099-12, wie etwa 2024-03.\",
  waits: (seconds) => `Über Ihre Verbindung sind zu viele Anfragen gekommen. Die Seite wartet ${seconds} Sekunden und fragt dann noch einmal.`,
  isDown: \"Das Archiv ist im Augenblick nicht erreichbar. Was gespeichert war, ist nicht verloren. Versuchen Sie es in einer Minute noch einmal.\",
  noConnection: \"Es gibt keine Verbindung zum Archiv. Was gespeichert war, ist nicht verloren. Versuchen Sie es später noch einmal, oder fragen Sie Ihr Büro.\",
  unreadable: \"Das Archiv hat etwas geantwortet, was diese Seite nicht lesen kann; sie zeigt nichts davon. Laden Sie die Seite neu. Hilft das nicht, sagen Sie es Ihrem Büro.\",
  keepsChanging: \"Das Archiv wurde bei jeder Abfrage gerade geändert. Versuchen Sie es in einer Minute noch einmal.\",
  stopped: \"Die Seite wartet nicht mehr.\",

  // What is left
  leftOld: (days, held) => `Die letzte bekannte Stunde ist ${held}, ${days} Tage vor diesem Beginn. Darum lässt sich nicht sagen, was noch geht. Lassen Sie Ihre Karte auslesen.`,
  leftBroken: (from, to) => `Was noch geht, lässt sich nicht sagen, denn was von ${from} bis ${to} bekannt ist, ist nicht geprüft.`,
  leftNone: \"Von diesem Beginn an lässt sich nicht sagen, was noch geht.\",
  leftComing: \"Auch wenn nicht mehr gefahren wird:\",
  badStart: \"Diese Zeit gibt es nicht: die Uhr wird umgestellt.\",

  // A month
  moreBreaches: (count) => (count === 1 ? \"1 weiterer Verstoß in diesem Monat\" : `${count} weitere Verstöße in diesem Monat`),
  others: (count) => `Andere Monate${count === 0 ? \"\" : count === 1 ? \" (1 Verstoß)\" : ` (${count} Verstöße)`}`,
  chartName: \"Diagramm des Monats\",
  noHours: \"Von diesem Monat ist nichts bekannt.\",
  entered: (count) => `Von Hand eingetragen in diesem Monat: ${count}`,
  handover: (month) => `Alles von ${month} als eine Datei (.tar)`,
  files: \"Ihre Kartendateien\",
  filesHelp: \"Was von Ihrer Karte gelesen wurde, dürfen Sie als Kopie haben.\",
  fileName: (number, start, past) => `Datei ${number}: ${start} bis ${past}`,

  // Uploads
  upload: \"Eine Kartendatei senden\",
  dropHere: \"Sie können Dateien auch hierher ziehen. Die Signatur einer Datei wird nicht geprüft.\",
  sent: {
    waiting: (name) => `${name} wartet.`,
    sending: (name) => `${name} wird gesendet …`,
    added: (name, number) => `${name} wurde aufgenommen, als Ihre Datei Nummer ${number}.`,
    repeated: (name) => `${name} bringt nichts Neues. Das Archiv hatte schon alles davon.`,
    broken: (name) => `${name} ist beschädigt oder keine Datei einer Fahrerkarte. Nichts davon wurde aufgenommen.`,
    contradictsItself: (name) => `${name} widerspricht sich selbst. Nichts davon wurde aufgenommen. Geben Sie sie Ihrem Büro.`,
    notYours: (name) => `${name} ist von der Karte eines anderen Fahrers. Nichts davon wurde aufgenommen.`,
    contradicts: (name, at) => `${name} widerspricht dem, was das Archiv für ${at} hat. Nichts davon wurde aufgenommen. Sagen Sie es Ihrem Büro.`,
    isFull: (name) => `${name} wurde nicht aufgenommen: Das Archiv hat keinen Platz mehr für Ihre Dateien. Sagen Sie es Ihrem Büro.`,
    tooLarge: (name) => `${name} ist zu groß: Eine Kartendatei hat höchstens 262.144 Bytes. Nichts davon wurde aufgenommen.`,
    isShut: (name) => `${name} wurde nicht aufgenommen: Das Büro nimmt hier keine Dateien von Fahrern an.`,
    sendAgain: (name) => `Es ist nicht bekannt, ob ${name} aufgenommen wurde. Senden Sie sie später noch einmal: Wenn ja, dann bringt sie nichts Neues.`,
    notSent: (name) => `${name} wurde nicht gesendet: Über Ihre Verbindung sind zu viele Anfragen gekommen. Warten Sie eine Minute, und senden Sie sie noch einmal.`,
    badKey: (name) => `${name} wurde nicht aufgenommen: Ihren Schlüssel gibt es nicht mehr. Fragen Sie Ihr Büro nach dem neuen.`,
    refused: (name) => `${name} wurde nicht aufgenommen.`,
  },
};
"
}

/// The text at `/driver/words-en.js`.
fn driver_words_en_js() -> &'static str {
    "// The driver's English sentences. words-de.js has the same names in the same order.

export const WORDS = {
  // The page
  yourHours: \"Your hours\",
  yourKey: \"Your key\",
  yourKeyHelp: \"The office has given it to you. It stays in this tab until you log out or close the tab.\",
  showHours: \"Show my hours\",
  program: (program) => `The replies are from ${program}.`,

  // What can go wrong
  badKey: \"No driver has this key. Check it, or ask your office.\",
  badMonth: \"This isn't a month from 2000-01 to 2099-12, such as 2024-03.\",
  waits: (seconds) => `Too many requests have come from your connection. The page waits ${seconds} seconds, and then asks again.`,
  isDown: \"The archive can't be reached at the moment. Nothing that was saved is lost. Try again in a minute.\",
  noConnection: \"There is no connection to the archive. Nothing that was saved is lost. Try again later, or ask your office.\",
  unreadable: \"The archive gave a reply that this page can't read, so it shows nothing of it. Reload the page. If that doesn't help, tell your office.\",
  keepsChanging: \"The archive was changed each time it was asked. Try again in a minute.\",
  stopped: \"The page has stopped waiting.\",

  // What is left
  leftOld: (days, held) => `The last known hour is ${held}, ${days} days before this start. So nothing can be said of what is left. Bring your card to be read.`,
  leftBroken: (from, to) => `Nothing can be said of what is left, since what is known from ${from} to ${to} isn't examined.`,
  leftNone: \"Nothing can be said of what is left from this start.\",
  leftComing: \"Even if nothing more is driven:\",
  badStart: \"This time doesn't exist: the clocks are changed.\",

  // A month
  moreBreaches: (count) => `${count} more ${count === 1 ? \"breach\" : \"breaches\"} in this month`,
  others: (count) => `Other months${count === 0 ? \"\" : count === 1 ? \" (1 breach)\" : ` (${count} breaches)`}`,
  chartName: \"Chart of the month\",
  noHours: \"Nothing of this month is known.\",
  entered: (count) => `Entered by hand in this month: ${count}`,
  handover: (month) => `All of ${month} as one file (.tar)`,
  files: \"Your card files\",
  filesHelp: \"You may have a copy of what was read from your card.\",
  fileName: (number, start, past) => `File ${number}: ${start} to ${past}`,

  // Uploads
  upload: \"Send a card file\",
  dropHere: \"You can also drop files here. The signature of a file isn't verified.\",
  sent: {
    waiting: (name) => `${name} waits.`,
    sending: (name) => `${name} is being sent …`,
    added: (name, number) => `${name} was added: it is your file number ${number}.`,
    repeated: (name) => `${name} has nothing new. The archive already had all of it.`,
    broken: (name) => `${name} is broken, or isn't the file of a driver card. Nothing of it was taken.`,
    contradictsItself: (name) => `${name} contradicts itself. Nothing of it was taken. Give it to your office.`,
    notYours: (name) => `${name} is from another driver's card. Nothing of it was taken.`,
    contradicts: (name, at) => `${name} contradicts what the archive has for ${at}. Nothing of it was taken. Tell your office.`,
    isFull: (name) => `${name} wasn't taken: the archive has no more room for your files. Tell your office.`,
    tooLarge: (name) => `${name} is too large: a card file has at most 262,144 bytes. Nothing of it was taken.`,
    isShut: (name) => `${name} wasn't taken: the office doesn't take files from drivers here.`,
    sendAgain: (name) => `It isn't known whether ${name} was taken. Send it again later: if it was, you will see that it has nothing new.`,
    notSent: (name) => `${name} wasn't sent: too many requests have come from your connection. Wait a minute, and send it again.`,
    badKey: (name) => `${name} wasn't taken: your key is no longer known. Ask your office for the new one.`,
    refused: (name) => `${name} wasn't taken.`,
  },
};
"
}

/// The text at `/office/`.
fn office() -> &'static str {
    "<!doctype html>
<html lang=\"en\">
<head>
<meta charset=\"utf-8\">
<meta name=\"viewport\" content=\"width=device-width, initial-scale=1\">
<title>tacho</title>
<link rel=\"icon\" href=\"data:,\">
<link rel=\"stylesheet\" href=\"/shared/page.css\">
<link rel=\"stylesheet\" href=\"office.css\">
<!-- say.js is run first, since it loads the sentences. -->
<link rel=\"modulepreload\" href=\"/shared/read.js\">
<script type=\"module\" src=\"/shared/say.js\"></script>
<script type=\"module\" src=\"office.js\"></script>
</head>
<body>
<a class=\"skip\" id=\"skip\" href=\"#content\"></a>
<header class=\"bar\"><span class=\"brand\">tacho</span><nav id=\"nav\"></nav><div class=\"tools\" id=\"tools\"></div></header>
<noscript><p>This page needs JavaScript. <span lang=\"de\">Diese Seite braucht JavaScript.</span></p></noscript>
<main id=\"content\" tabindex=\"-1\"></main>
<footer id=\"foot\"></footer>
<div id=\"busy\" role=\"status\"></div>
</body>
</html>
"
}

/// The text at `/office/commands.js`.
fn office_commands_js() -> &'static str {
    "// Commands: what is sent to change the archive, what is said of a refusal, and whose a card file is.
import { h, send } from \"/shared/page.js\";
import { say } from \"/shared/say.js\";
import { busy, dropKey, tellBusy } from \"./office.js\";

const PAUSE = 4, TURNS = 15;

/** A command: the status and the line of its reply. After a wrong key the page asks for the key; too many requests aren't a fault, since
 *  the archive got none.
 * @param {string} path
 * @param {string | Blob} [body]
 * @returns {Promise<{ status: number, line: string }>} */
export async function command(path, body) {
  for (let turn = 1; ; turn += 1) {
    const { status, text } = await busy(send(path, { method: \"POST\", body }));
    if (status === 403 && text === \"forbidden\\n\") {
      dropKey();
      throw new DOMException(\"another key is needed\", \"AbortError\");
    }
    if (status !== 429 || turn === TURNS) return { status, line: text.replace(/\\n$/, \"\") };
    tellBusy(say.askAgain(PAUSE));
    await new Promise((resolve) => { setTimeout(resolve, 1000 * PAUSE); });
    tellBusy(\"\");
  }
}

/** Whether it isn't known what a command did: the service failed after it had got it.
 * @type {(status: number) => boolean} */
export const isUnsure = (status) => status >= 500 || status === 0;

/** @type {(line: string) => string | undefined} the code of a fault */
export const codeOf = (line) => /^([A-Z]\\d+) /.exec(line)?.[1];

/** What is said of a refusal, with its line below it, for a telephone call.
 * @type {(status: number, line: string) => import(\"/shared/page.js\").Child} */
export const refusal = (status, line) =>
  [say.refusals[codeOf(line) ?? \"\"] ?? say.refusedOther, h(\"small\", { class: \"raw\" }, ` ${line || `HTTP ${status}`}`)];

/** @type {(id: string, label: string, attributes: Record<string, unknown>) => HTMLElement} a field with its label */
export const field = (id, label, attributes) =>
  h(\"div\", { class: \"field\" }, h(\"label\", { for: id }, label), h(\"input\", { id, required: true, ...attributes }));

/**
 * A name in a card file: 35 bytes in a code page of ISO 8859.
 * @param {ArrayBuffer} file
 * @param {number} at where the code page stands; the name follows
 * @returns {string}
 */
function nameIn(file, at) {
  const page = new DataView(file).getUint8(at);
  // There are no other parts of ISO 8859.
  const part = page > 0 && page <= 16 && page !== 12 ? page : 1;
  return new TextDecoder(`iso-8859-${part}`).decode(new Uint8Array(file, at + 1, 35)).replace(/[\\0 ]+$/, \"\");
}

/**
 * Whose a card file is, by its EF Identification (0520) of either generation. Nothing is judged by it: the archive reads the file itself.
 * @param {ArrayBuffer} file
 * @returns {{holder: string, name: string} | null}
 */
export function holderOf(file) {
  const view = new DataView(file);
  for (let at = 0; at + 5 <= view.byteLength;) {
    const [id, kind, size] = [view.getUint16(at), view.getUint8(at + 2), view.getUint16(at + 3)];
    const start = at + 5;
    if (id === 0x0520 && (kind === 0 || kind === 2) && size >= 143 && start + 143 <= view.byteLength) {
      const holder = [...new Uint8Array(file, start, 15)].map((one) => one.toString(16).padStart(2, \"0\")).join(\"\");
      return { holder, name: `${nameIn(file, start + 101)} ${nameIn(file, start + 65)}`.trim() };
    }
    at = start + size;
  }
  return null;
}
"
}

/// The text at `/office/entries.js`.
fn office_entries_js() -> &'static str {
    "// A driver's entries, and their withdrawal.
import { $, h, isAbort, written } from \"/shared/page.js\";
import { both, length, monthName, say } from \"/shared/say.js\";
import { readDrivers, readEntries } from \"/shared/read.js\";
import { ask, button, confirmed, head, listTable, notice, thisMonth, tool } from \"./office.js\";
import { command, field, isUnsure, refusal } from \"./commands.js\";

/** Withdraws the entries from one number to another, after a question. After a broken connection the page shows what is there.
 * @type {(driver: string, first: number, last: number, again: (notice?: Node) => void) => Promise<void>} */
async function withdraw(driver, first, last, again) {
  if (!await confirmed(say.withdrawAsk(first, last), say.withdraw)) return;
  const path = first === last ? String(first) : `${first}/${last}`;
  try {
    const { status, line } = await command(`/drivers/${driver}/withdraw/${path}`);
    if (/^withdrawn \\d+( to \\d+)?$/.test(line)) again(notice(\"good\", say.withdrawn(first, last)));
    else again(isUnsure(status) ? notice(\"warn\", say.unsureWithdrawn) : notice(\"bad\", refusal(status, line)));
  } catch (fault) {
    if (!isAbort(fault)) again(notice(\"warn\", say.unsureWithdrawn));
  }
}

/** @type {(withdrawOne: (number: number) => void) => import(\"./office.js\").Column[]} */
const columnsOf = (withdrawOne) => [
  { head: say.number, cell: (one) => one.number },
  { head: say.fromTo, cell: (one) => h(\"span\", { class: \"v\" }, `${both(one.start)} ${say.to} ${both(one.past)}`,
    h(\"small\", {}, ` ${length(one.past - one.start)}`)) },
  { head: say.what, cell: (one) => say[one.activity] },
  { head: say.author, cell: (one) => written(one.author) }, { head: say.noteLabel, kindOf: (one) => (one.note ? \"\" : \"quiet\"),
    cell: (one) => written(one.note) },
  { head: say.state, cell: (one) => (one.state === \"withdrawn\" ? h(\"span\", { class: \"dim\" }, say.isWithdrawn)
    : button(say.withdraw, () => withdrawOne(Number(one.number)),
      { class: \"small no-print\", \"aria-label\": `${say.withdraw}: ${one.number}` })) },
];

/** The form for several entries.
 * @type {(most: number, act: (first: number, last: number) => void) => HTMLElement} */
function rangeForm(most, act) {
  const numbers = { type: \"number\", min: 1, max: most, step: 1 };
  return h(\"form\", { class: \"row end no-print\", onsubmit: (event) => {
    event.preventDefault();
    const [first, last] = [\"first\", \"last\"].map((id) => Number($(id).value));
    act(Math.min(first, last), Math.max(first, last));
  } }, field(\"first\", say.firstEntry, numbers), field(\"last\", say.lastEntry, numbers), h(\"button\", {}, say.withdrawRange));
}

/** @type {(context: import(\"./office.js\").Context) => Promise<import(\"./office.js\").Content>} */
export async function page({ signal, args: [driver], again }) {
  const [person] = readDrivers(await ask(`/drivers/${driver}`, signal));
  const entries = readEntries(await ask(`/drivers/${driver}/entries`, signal));
  const act = (/** @type {number} */ first, /** @type {number} */ last) => withdraw(driver, first, last, again);
  return [head([written(person.name), `: ${say.entries}`], tool(`/drivers/${driver}/gaps`, say.gapForm),
    tool(`/drivers/${driver}/${thisMonth()}`, monthName(thisMonth()))),
    h(\"p\", {}, say.entriesHelp), entries.length === 0 ? h(\"p\", { class: \"box\" }, say.noEntries)
      : [entries.length > 1 ? rangeForm(entries.length, act) : null,
        listTable(columnsOf((number) => act(number, number)), entries.reverse())]];
}
"
}

/// The text at `/office/files.js`.
fn office_files_js() -> &'static str {
    "// Card files, one after the other. The list outlives the page, so that an office can look at other pages meanwhile.
import { h, listed } from \"/shared/page.js\";
import { minuteOf, textOf } from \"/shared/time.js\";
import { both, monthName, say } from \"/shared/say.js\";
import { cardOf, readDrivers } from \"/shared/read.js\";
import { ask, atLogOut, button, confirmed, head, link, proposed, telling, thisMonth, unfinished } from \"./office.js\";
import { codeOf, command, holderOf, isUnsure } from \"./commands.js\";

const MOST = 262_144, NAME = /\\.(ddd|c1b|tgd|esm)$/i, FAULTS_IN_A_ROW = 2;

/** What became of a file: a name of a sentence, the status and line of the reply, and whose card it is, if that could be read.
 * @typedef {{ what: string, status: number, line: string, whose: { holder: string, name: string } | null }} Outcome */
/** @typedef {{ file: File, part: string, outcome: Outcome, node: HTMLElement }} Item */

/** @type {Item[]} */
let items = [];
let others = 0, faults = 0;
let isSending = false, isStopped = false;
/** @type {import(\"/shared/read.js\").Driver[]} */
let people = [];
const list = h(\"ul\", { class: \"list results\", \"aria-live\": \"polite\" }), progress = h(\"div\", { role: \"status\", class: \"row\" });
atLogOut.push(() => { items = []; people = []; others = 0; isStopped = true; draw(); });

const WAITING = { what: \"waiting\", status: 0, line: \"\", whose: null };

/** @type {(number: string) => string} the name of a driver */
const nameOf = (number) => people.find((one) => String(one.number) === number)?.name ?? number;

/** What a reply says of a file.
 * @type {(status: number, line: string, whose: Outcome[\"whose\"]) => string} */
function whatOf(status, line, whose) {
  const code = codeOf(line);
  if (/^added driver \\d+ number \\d+$/.test(line)) return \"added\";
  if (/^repeated driver \\d+$/.test(line)) return \"repeated\";
  if (code === \"S4\") return \"unknownCard\";
  if (code === \"S6\") return \"contradicts\";
  if (code === \"C14\") return \"generations\";
  if (code?.startsWith(\"C\")) return whose === null ? \"noCard\" : \"broken\";
  return isUnsure(status) ? \"unsure\" : \"refused\";
}

/** @type {Record<string, string>} */
const KINDS = { added: \"good\", repeated: \"same\", noCard: \"same\", waiting: \"\", sending: \"\" };

/** The sentence of an item.
 * @type {(item: Item) => import(\"./office.js\").Content} */
function sentenceOf({ file, outcome: { what, line, whose } }) {
  const [, driver, number] = /driver (\\d+)(?: number (\\d+))?$/.exec(line) ?? [];
  if (what === \"added\") return telling((name, who) => say.added(name, who, number), file.name, nameOf(driver));
  if (what === \"repeated\") return telling(say.repeated, file.name, nameOf(driver));
  if (what === \"unknownCard\" && whose) {
    return telling((name, who) => say.unknownCard(name, `${who}, ${cardOf(whose.holder)}`), file.name, whose.name);
  }
  if (what === \"contradicts\") return telling((name) => say.contradicts(name, both(minuteOf(line.slice(-16)))), file.name);
  return telling((name) => say[what](name, line), file.name);
}

/** What can be done about an item.
 * @type {(item: Item) => import(\"./office.js\").Content} */
function actionsOf(item) {
  const { what, line, whose } = item.outcome, small = { class: \"button small\" };
  const sendAgain = button(say.sendAgain, () => retry(item, item.part), { class: \"small\" });
  if (what === \"added\") {
    const driver = /driver (\\d+)/.exec(line)?.[1];
    return link(`/drivers/${driver}/${thisMonth()}`, monthName(thisMonth()), small);
  }
  if (what === \"unknownCard\") {
    const isKnown = whose && people.some((one) => one.holder === whose.holder);
    if (isKnown) return sendAgain;
    return whose ? link(\"/people\", say.register, { ...small, onclick: () => { proposed.person = whose; } }) : null;
  }
  if (what === \"contradicts\") {
    const person = people.find((one) => one.holder === whose?.holder), day = textOf(minuteOf(line.slice(-16))).slice(0, 10);
    return [person ? [link(`/drivers/${person.number}/${day}`, say.look, small),
      link(`/drivers/${person.number}/entries`, say.entries, small)] : null, sendAgain];
  }
  if (what === \"generations\") return [\"first\", \"second\"].map((part) => button(say.tryPart[part], () => retry(item, part),
    { class: \"small\" }));
  return [\"unsure\", \"refused\"].includes(what) ? sendAgain : null;
}

/** @type {(item: Item) => void} shows what became of an item */
function drawItem(item) {
  const { what, line } = item.outcome;
  item.node.className = KINDS[what] ?? \"bad\";
  const isRaw = !(what in KINDS) && line !== \"\";
  item.node.replaceChildren(h(\"span\", {}, sentenceOf(item), isRaw ? h(\"small\", { class: \"raw\" }, ` ${line}`) : \"\"),
    ...listed([actionsOf(item)]));
}

/** @type {(what: string) => number} */
const countOf = (what) => items.filter((item) => item.outcome.what === what).length;

/** Shows all items, and how far the sending is.
 * @type {() => void} */
function draw() {
  items.forEach(drawItem);
  list.replaceChildren(...items.map((item) => item.node), ...(others ? [h(\"li\", { class: \"same\" }, h(\"span\", {}, say.noCards(others)))]
    : []));
  drawProgress();
}

/** @type {() => void} */
function drawProgress() {
  const waiting = countOf(\"waiting\") + countOf(\"sending\");
  unfinished.delete(\"files\");
  if (waiting) unfinished.add(\"files\");
  if (items.length === 0) { progress.replaceChildren(); return; }
  const sent = say.sent(items.length - waiting, items.length), counted = say.counted(countOf(\"added\"), countOf(\"repeated\"),
    items.length - waiting - countOf(\"added\") - countOf(\"repeated\"));
  progress.replaceChildren(h(\"span\", {}, `${sent}: ${counted}`), ...(waiting === 0 ? [] : isSending
    ? [button(say.stop, () => { isStopped = true; }, { class: \"small\" })]
    : [h(\"span\", { class: \"warn-text\" }, say.stoppedFiles(waiting)), button(say.goOn, () => sendAll(), { class: \"small main\" })]));
}

/** Sends one file.
 * @type {(item: Item) => Promise<void>} */
async function sendOne(item) {
  item.outcome = { ...WAITING, what: \"sending\" };
  drawItem(item);
  drawProgress();
  if (item.file.size > MOST) { item.outcome = { ...WAITING, what: \"tooLarge\" }; return; }
  try {
    const whose = holderOf(await item.file.arrayBuffer());
    const { status, line } = await command(`/cards/${item.part}`, item.file);
    item.outcome = { what: whatOf(status, line, whose), status, line, whose };
  } catch {
    item.outcome = { ...WAITING, what: \"unsure\" };
  }
  faults = item.outcome.what === \"unsure\" ? faults + 1 : 0;
}

/** Sends all files that wait, one after the other. It stops by itself where several in a row aren't answered.
 * @type {() => Promise<void>} */
async function sendAll() {
  if (isSending) return;
  [isSending, isStopped, faults] = [true, false, 0];
  for (let item = nextItem(); item && !isStopped && faults < FAULTS_IN_A_ROW; item = nextItem()) {
    await sendOne(item);
    drawItem(item);
  }
  isSending = false;
  drawProgress();
}
const nextItem = () => items.find((item) => item.outcome.what === \"waiting\");

/** @type {(item: Item, part: string) => void} sends a file again */
function retry(item, part) {
  Object.assign(item, { part, outcome: WAITING });
  drawItem(item);
  sendAll();
}

/** @type {(files: File[]) => void} */
function take(files) {
  for (const file of files) items.push({ file, part: \"both\", outcome: WAITING, node: h(\"li\") });
  draw();
  sendAll();
}

// Folders

/** @type {(entry: FileSystemFileEntry) => Promise<File>} */
const fileOf = (entry) => new Promise((resolve, reject) => entry.file(resolve, reject));
/** @type {(reader: FileSystemDirectoryReader) => Promise<FileSystemEntry[]>} some entries of a folder; none after the last */
const someOf = (reader) => new Promise((resolve, reject) => reader.readEntries(resolve, reject));

/** All files of a folder, and of those below it.
 * @type {(entry: any) => Promise<File[]>} */
async function filesOf(entry) {
  if (entry.isFile) return [await fileOf(entry)];
  const reader = entry.createReader(), found = [];
  for (let some = await someOf(reader); some.length > 0; some = await someOf(reader)) {
    for (const one of some) found.push(...await filesOf(one));
  }
  return found;
}

/** Takes what was dropped. Within a folder only names of card files count; the others are one line.
 * @type {(dropped: DataTransfer) => Promise<void>} */
async function takeDropped(dropped) {
  const entries = [...dropped.items].flatMap((item) => item.webkitGetAsEntry() ?? []);
  const single = entries.filter((entry) => entry.isFile), folders = entries.filter((entry) => entry.isDirectory);
  const files = [...dropped.files].filter((file) => single.some((entry) => entry.name === file.name));
  for (const folder of folders) {
    const found = await filesOf(folder);
    files.push(...found.filter((file) => NAME.test(file.name)));
    others += found.filter((file) => !NAME.test(file.name)).length;
  }
  take(files.sort((a, b) => (a.name < b.name ? -1 : a.name > b.name ? 1 : 0)));
}

/** @type {() => HTMLElement} where files are dropped or chosen */
function dropPlace() {
  const input = h(\"input\", { type: \"file\", multiple: true, id: \"files\", class: \"hush\", tabindex: \"-1\", \"aria-label\": say.choose });
  input.addEventListener(\"change\", () => { take([...input.files]); input.value = \"\"; });
  const drop = h(\"div\", {
    class: \"drop\", ondragover: (event) => { event.preventDefault(); drop.classList.add(\"over\"); },
    ondragleave: () => drop.classList.remove(\"over\"),
    ondrop: (event) => { event.preventDefault(); drop.classList.remove(\"over\"); takeDropped(event.dataTransfer); },
  }, h(\"p\", {}, say.drop), button(say.choose, () => input.click(), { class: \"main\" }), input, h(\"p\", { class: \"note\" }, say.cardsHelp));
  return drop;
}

/** Empties the list, after a question where files wait.
 * @type {() => Promise<void>} */
async function clear() {
  if (unfinished.has(\"files\") && !await confirmed(say.leaveUnfinished, say.clearList)) return;
  items = isSending ? items.filter((item) => item.outcome.what === \"sending\") : [];
  others = 0;
  draw();
}

/** @type {(context: import(\"./office.js\").Context) => Promise<import(\"./office.js\").Content>} */
export async function page({ signal }) {
  people = readDrivers(await ask(\"/drivers\", signal));
  draw();
  return [head(say.cards, items.length ? button(say.clearList, clear) : null), dropPlace(), progress, list];
}
"
}

/// The text at `/office/gaps.js`.
fn office_gaps_js() -> &'static str {
    "// The gaps as a form, in local time. It sends UTC.
import { h, isAbort, written } from \"/shared/page.js\";
import { DAY, dateOf, localText, minuteOf, minutesOfLocal, textOf } from \"/shared/time.js\";
import { length, localMoment, monthName, say } from \"/shared/say.js\";
import { readDrivers, readEntries, readForm } from \"/shared/read.js\";
import { ask, busy, button, head, momentField, notice, thisMonth, tool, unfinished } from \"./office.js\";
import { command, isUnsure, refusal } from \"./commands.js\";

const AUTHOR = \"tacho.author\", AUTHOR_BYTES = 64, NOTE_BYTES = 200, FEW = 60;

/** A piece of a gap: what it is said to be (empty: left open), and by which paper.
 * @typedef {{ start: number, past: number, activity: string, note: string }} Piece */

/** Says at a field whether the archive would take its text: at most some bytes, without commas, double quotes and control characters.
 * @type {(input: HTMLInputElement, most: number) => void} */
function judge(input, most) {
  const text = input.value.trim();
  const isLong = new TextEncoder().encode(text).length > most;
  input.setCustomValidity(isLong ? say.textTooLong(most) : /[\\u0000-\\u001f\\u007f,\"]/.test(text) ? say.textSigns : \"\");
}

/** A moment of a gap, and which of two it is in the hour that comes twice.
 * @type {(minute: number) => string} */
function momentText(minute) {
  const all = minutesOfLocal(localText(minute));
  return `${localMoment(minute, true)}${all.length === 2 ? ` (${say.nthTime(all.indexOf(minute))})` : \"\"}`;
}

/** The pieces of a gap, cut at the midnights of local time.
 * @type {(piece: Piece) => Piece[]} */
function byDays(piece) {
  const pieces = [];
  let start = piece.start;
  while (start < piece.past) {
    const next = dateOf(minuteOf(localText(start).slice(0, 10)) + DAY);
    const past = Math.min(piece.past, minutesOfLocal(`${next} 00:00`)[0] ?? piece.past);
    pieces.push({ ...piece, start, past });
    start = past;
  }
  return pieces;
}

/** The CSV that `enter` takes.
 * @type {(pieces: Piece[], author: string) => string} */
const csvOf = (pieces, author) => `start,past,activity,author,note\\n${pieces.map((one) =>
  `${textOf(one.start)},${textOf(one.past)},${one.activity},${author},${one.note}\\n`).join(\"\")}`;

/** Whether an entry is a piece that was sent.
 * @type {(entry: any, piece: Piece, author: string) => boolean} */
const isSame = (entry, piece, author) => entry.start === piece.start && entry.past === piece.past && entry.activity === piece.activity
  && entry.author === author && entry.note === piece.note;

/** The form of a driver's gaps. */
class GapForm {
  /**
   * @param {string} driver
   * @param {Piece[]} pieces
   * @param {number} count how many entries there are
   * @param {import(\"./office.js\").Context} context
   */
  constructor(driver, pieces, count, context) {
    this.driver = driver;
    this.pieces = pieces;
    this.count = count;
    this.context = context;
    this.isSending = false;
    this.list = h(\"div\", {});
    this.told = h(\"p\", { role: \"status\", id: \"gaps-told\" });
    const name = localStorage.getItem(AUTHOR) ?? \"\";
    this.author = h(\"input\", { id: \"author\", required: true, autocomplete: \"name\", value: name,
      oninput: () => judge(this.author, AUTHOR_BYTES) });
    this.save = h(\"button\", { class: \"main\", id: \"save\" }, say.save);
    this.node = h(\"form\", { onsubmit: (event) => { event.preventDefault(); this.send(); } }, this.list,
      h(\"div\", { class: \"row end\" }, h(\"div\", { class: \"field\" }, h(\"label\", { for: \"author\" }, say.author), this.author), this.save),
        this.told,
      h(\"datalist\", { id: \"papers\" }, say.papers.map((/** @type {string} */ one) => h(\"option\", { value: one }))));
    this.draw();
  }

  /** @type {() => void} */
  draw() {
    this.list.replaceChildren(...this.pieces.map((piece, k) => this.rowOf(piece, k)));
    this.tellCount();
  }

  /** @type {() => void} */
  tellCount() {
    const count = this.chosen().length;
    this.told.textContent = say.rows(count);
    this.save.disabled = count === 0 || this.isSending;
    unfinished.delete(\"gaps\");
    if (count && this.node.isConnected) unfinished.add(\"gaps\"); // a reply may come when another page is shown
  }

  /** @type {() => Piece[]} the pieces that are to be saved */
  chosen() {
    return this.pieces.filter((one) => one.activity);
  }

  /** @type {(piece: Piece, k: number) => HTMLElement} */
  rowOf(piece, k) {
    const pick = (/** @type {string} */ value, /** @type {string} */ text) => h(\"label\", {}, h(\"input\", {
      type: \"radio\", name: `what-${k}`, value, checked: piece.activity === value,
      onchange: () => { piece.activity = value; this.tellCount(); },
    }), text);
    const keep = () => { piece.note = note.value.trim(); judge(note, NOTE_BYTES); };
    const note = h(\"input\", { id: `note-${k}`, list: \"papers\", value: piece.note, oninput: keep });
    return h(\"fieldset\", { class: \"gap\" }, h(\"legend\", { class: \"hush\" }, momentText(piece.start)),
      h(\"div\", {}, h(\"b\", {}, `${momentText(piece.start)} ${say.to} ${momentText(piece.past)}`), h(\"br\"),
        h(\"span\", { class: \"note\" }, `${length(piece.past - piece.start)} · ${textOf(piece.start)} ${say.to} ${textOf(piece.past)} UTC`)),
      h(\"div\", { class: \"choice\", role: \"radiogroup\", \"aria-label\": say.what },
        pick(\"rest\", say.rest), pick(\"work\", say.work), pick(\"available\", say.available), pick(\"drive\", say.drive), pick(\"\", say.skipRow)),
      h(\"div\", { class: \"field\" }, h(\"label\", { for: `note-${k}` }, say.noteLabel), note), this.splitter(piece, k));
  }

  /** @type {(piece: Piece, k: number) => HTMLElement} divides a gap at a local time, or at each midnight */
  splitter(piece, k) {
    const cut = momentField(`cut-${k}`, say.splitAt, null), told = h(\"span\", { class: \"warn-text\", role: \"status\" });
    const [min, max] = [piece.start, piece.past].map((one) => localText(one).replace(\" \", \"T\"));
    Object.assign(cut.input, { required: false, min, max });
    const split = () => {
      const at = cut.minute();
      if (at === null || at <= piece.start || at >= piece.past) { told.textContent = say.splitWithin; return; }
      this.pieces.splice(k, 1, { ...piece, past: at }, { ...piece, start: at, activity: \"\" });
      this.draw();
    };
    const days = byDays(piece);
    const each = () => { this.pieces.splice(k, 1, ...days); this.draw(); };
    return h(\"details\", { class: \"split\" }, h(\"summary\", {}, say.split),
      h(\"div\", { class: \"row end\" }, cut.node, button(say.split, split, { class: \"small\" }),
      days.length > 1 && days.length <= FEW ? button(say.splitDays(days.length), each, { class: \"small\" }) : null, told));
  }

  /** Saves what was chosen, once.
   * @type {() => Promise<void>} */
  async send() {
    const pieces = this.chosen(), author = this.author.value.trim();
    if (this.isSending || pieces.length === 0) return;
    this.isSending = true;
    this.tellCount();
    this.told.textContent = say.saving;
    localStorage.setItem(AUTHOR, author);
    try {
      const { status, line } = await command(`/drivers/${this.driver}/entries`, csvOf(pieces, author));
      const saved = /^entered (\\d+) to (\\d+)$/.exec(line);
      if (status === 201 && saved) this.isSaved(saved.slice(1));
      else if (isUnsure(status)) await this.look(pieces, author);
      else this.refused(refusal(status, line));
    } catch (fault) {
      if (!isAbort(fault)) await this.look(pieces, author);
    }
  }

  /** @type {(numbers: (string | number)[]) => void} */
  isSaved([first, last]) {
    unfinished.delete(\"gaps\");
    this.context.again(notice(\"good\", say.savedEntries(Number(first), Number(last))));
  }

  /** @type {(sentence: import(\"./office.js\").Content) => void} */
  refused(sentence) {
    this.isSending = false;
    this.tellCount();
    this.told.replaceChildren(notice(\"bad\", sentence));
  }

  /** After a broken connection: looks at what is there. Until that is known nothing can be sent again.
   * @type {(pieces: Piece[], author: string) => Promise<void>} */
  async look(pieces, author) {
    this.told.textContent = say.looking;
    try {
      const entries = readEntries(await busy(ask(`/drivers/${this.driver}/entries`, this.context.signal)));
      const added = entries.slice(this.count);
      const found = added.filter((entry, k) => k < pieces.length && isSame(entry, pieces[k], author));
      if (added.length > 0 && found.length === pieces.length) this.isSaved([found[0].number, found[found.length - 1].number]);
      else if (added.length === 0) this.refused(say.notSaved);
      else this.context.again(notice(\"warn\", say.otherEntries));
    } catch (fault) {
      if (isAbort(fault)) return;
      this.told.replaceChildren(notice(\"bad\", say.unsureEntries, \" \",
        button(say.lookAgain, () => this.look(pieces, author), { class: \"small\" })));
    }
  }
}

/** @type {(context: import(\"./office.js\").Context) => Promise<import(\"./office.js\").Content>} */
export async function page(context) {
  const { signal, args: [driver] } = context;
  const [person] = readDrivers(await ask(`/drivers/${driver}`, signal));
  const gaps = readForm(await ask(`/drivers/${driver}/form`, signal)),
    entries = readEntries(await ask(`/drivers/${driver}/entries`, signal));
  const title = head([written(person.name), `: ${say.gaps}`], tool(`/drivers/${driver}/entries`, say.entries),
    tool(`/drivers/${driver}/${thisMonth()}`, monthName(thisMonth())));
  if (gaps.length === 0) return [title, h(\"p\", { class: \"box good\" }, say.noGapsAtAll)];
  const form = new GapForm(driver, gaps.map((gap) => ({ ...gap, activity: \"\", note: \"\" })), entries.length, context);
  return [title, h(\"p\", {}, say.gapsHelp), h(\"p\", { class: \"note\" }, say.workHelp), h(\"p\", { class: \"box\" }, say.neverIllness), form.node];
}
"
}

/// The text at `/office/inspection.js`.
fn office_inspection_js() -> &'static str {
    "// An inspection: what the archive hands over of a driver and a period, and what isn't in it. What is shown is read in the tar file that
// is saved.
import { $, Problem, bytes, h, written } from \"/shared/page.js\";
import { DAY, dateOf, minuteOf, monthOf, monthStep, now } from \"/shared/time.js\";
import { both, monthName, say, utcDay } from \"/shared/say.js\";
import { cardOf, linesOf, readDrivers } from \"/shared/read.js\";
import { ask, atLogOut, button, head, link, listTable, notice, printButton, tellWait } from \"./office.js\";
import { field } from \"./commands.js\";

const DAYS_BEFORE = 56, MOST_DAYS = 366, BLOCK = 512, NAME_BYTES = 100, SIZE_AT = 124, SIZE_BYTES = 12;

/** @typedef {{ driver: string, from: string, to: string }} Asked */

/** @type {Asked | null} what was asked for last */
let last = null;
atLogOut.push(() => { last = null; });

/** The files of a tar file: names and bytes.
 * @type {(bytes: Uint8Array) => Map<string, Uint8Array>} */
export function membersOf(bytes) {
  const members = new Map(), textAt = (/** @type {number} */ at, /** @type {number} */ size) =>
    new TextDecoder().decode(bytes.subarray(at, at + size)).replace(/\\0[^]*$/, \"\");
  for (let at = 0; at + BLOCK <= bytes.length && bytes[at] !== 0;) {
    const size = parseInt(textAt(at + SIZE_AT, SIZE_BYTES), 8);
    members.set(textAt(at, NAME_BYTES), bytes.subarray(at + BLOCK, at + BLOCK + size));
    at += BLOCK + Math.ceil(size / BLOCK) * BLOCK;
  }
  return members;
}

/** The list of contents of a handover.
 * @type {(text: string) => { files: { name: string, size: number, digest: string }[], gaps: { start: number, past: number }[] }} */
function readContents(text) {
  const files = [], gaps = [];
  for (const line of linesOf(text)) {
    const file = /^FILE (\\S+) (\\d+) ([0-9a-f]{64})$/.exec(line), gap = /^NOT HELD (.{16}) (.{16})$/.exec(line);
    if (file) files.push({ name: file[1], size: Number(file[2]), digest: file[3] });
    else if (gap) gaps.push({ start: minuteOf(gap[1]), past: minuteOf(gap[2]) });
    else if (!/^(DRIVER|FROM|PROGRAM) /.test(line)) throw new Problem(\"unreadable\");
  }
  return { files, gaps };
}

/** Saves bytes as a file.
 * @type {(blob: Blob, name: string) => void} */
function save(blob, name) {
  const href = URL.createObjectURL(blob), anchor = h(\"a\", { href, download: name });
  anchor.click();
  setTimeout(() => URL.revokeObjectURL(href), 60_000);
}

/** @type {(file: { name: string }) => string} what a file of the handover is */
function coverOf({ name }) {
  if (name === \"entries.txt\") return say.entriesFile;
  const [, first, last] = /-(\\d{8})-(\\d{8})\\.ddd$/.exec(name) ?? [];
  const day = (/** @type {string} */ text) => utcDay(minuteOf(text.replace(/(....)(..)(..)/, \"$1-$2-$3\")));
  return first ? `${day(first)} ${say.to} ${day(last)}` : \"\";
}
/** @type {() => import(\"./office.js\").Column[]} */
const columns = () => [
  { head: say.fileName, cell: (file) => file.name }, { head: say.covers, cell: coverOf },
    { head: say.size, kind: \"num\", cell: (file) => file.size },
  { head: \"SHA-256\", cell: (file) => h(\"code\", { class: \"digest\" }, file.digest) },
];

/** The months of a period.
 * @type {(first: number, past: number) => string[]} */
function monthsOf(first, past) {
  const months = [];
  for (let month = monthOf(first); month <= monthOf(past - 1); month = monthStep(month, 1)) months.push(month);
  return months;
}

/** What was handed over.
 * @type {(asked: Asked, person: any, blob: Blob) => Promise<import(\"./office.js\").Content>} */
async function shown(asked, person, blob) {
  const [first, past] = [minuteOf(asked.from), minuteOf(asked.to) + DAY], days = (past - first) / DAY;
  const text = membersOf(new Uint8Array(await blob.arrayBuffer())).get(\"contents.txt\");
  if (!text) throw new Problem(\"unreadable\");
  const { files, gaps } = readContents(new TextDecoder().decode(text));
  const known = Array.from({ length: days }, (_, k) => first + k * DAY).filter((day) =>
    !gaps.some((gap) => gap.start < day + DAY && day < gap.past)).length;
  const name = `${person.number}-${asked.from}-${asked.to}.tar`;
  const period = `${utcDay(first)} ${say.to} ${utcDay(past - DAY)} (UTC)`;
  return [h(\"p\", {}, written(person.name), ` · ${cardOf(person.holder)} · ${period} · ${say.knownOf(known, days)}`),
    h(\"h2\", {}, say.give), listTable(columns(), files),
    h(\"p\", { class: \"no-print\" }, button(say.makeTar, () => save(blob, name), { class: \"main\", id: \"save-tar\" }),
      h(\"span\", { class: \"note\" }, ` ${say.tarHelp(name)}`)),
    gaps.length ? [h(\"h2\", {}, say.notHeld), h(\"ul\", { id: \"not-held\" },
      gaps.map((gap) => h(\"li\", {}, `${both(gap.start)} ${say.to} ${both(gap.past)}`)))] : null,
    h(\"h2\", { class: \"no-print\" }, say.help), h(\"p\", { class: \"no-print\" }, say.helpText),
    h(\"p\", { class: \"row no-print\" }, monthsOf(first, past).map((month) => link(`/drivers/${person.number}/${month}`, monthName(month),
      { class: \"button small\" })))];
}

/** @type {(people: any[], again: () => void) => HTMLElement} */
function askForm(people, again) {
  return h(\"form\", { class: \"row end no-print\", onsubmit: (event) => {
    event.preventDefault();
    last = { driver: $(\"who\").value, from: $(\"from\").value, to: $(\"to\").value };
    again();
  } },
    h(\"div\", { class: \"field\" }, h(\"label\", { for: \"who\" }, say.colDriver), h(\"select\", { id: \"who\" },
      people.map((one) => h(\"option\", { value: String(one.number), selected: String(one.number) === last?.driver },
        `\\u2068${one.name.replace(/\\p{Bidi_Control}/gu, \"\")}\\u2069 (${one.number})`)))),
    field(\"from\", say.periodFrom, { type: \"date\", value: last?.from ?? dateOf(now() - DAYS_BEFORE * DAY) }),
    field(\"to\", say.periodTo, { type: \"date\", value: last?.to ?? dateOf(now()) }), h(\"button\", { class: \"main\" }, say.show));
}

/** What the archive hands over for what was asked, or why it doesn't.
 * @type {(asked: Asked, people: any[], signal: AbortSignal) => Promise<import(\"./office.js\").Content>} */
async function answer(asked, people, signal) {
  const person = people.find((one) => String(one.number) === asked.driver), first = minuteOf(asked.from), past = minuteOf(asked.to) + DAY;
  if (!person || first >= past || past - first > MOST_DAYS * DAY) return notice(\"bad\", say.badPeriod);
  return shown(asked, person, await bytes(`/drivers/${asked.driver}/handover/${asked.from}/${dateOf(past)}`, { signal, wait: tellWait }));
}

/** @type {(context: import(\"./office.js\").Context) => Promise<import(\"./office.js\").Content>} */
export async function page({ signal, again }) {
  const people = readDrivers(await ask(\"/drivers\", signal));
  return [head(say.inspection, last ? printButton() : null), people.length ? askForm(people, again) : h(\"p\", {}, say.noDriversYet),
    last ? await answer(last, people, signal) : null,
    h(\"h2\", {}, say.missing),
    h(\"div\", { class: \"box warn\" }, h(\"ul\", {}, say.inspMissing.map((/** @type {string} */ one) => h(\"li\", {}, one))))];
}
"
}

/// The text at `/office/left.js`.
fn office_left_js() -> &'static str {
    "// What is left until the limits, for all drivers and for one.
import { h, written } from \"/shared/page.js\";
import { DAY, textOf, tomorrow } from \"/shared/time.js\";
import { both, debtsPart, length, localMoment, monthName, say, shortUtcDay } from \"/shared/say.js\";
import { readAhead, readDebts, readDrivers } from \"/shared/read.js\";
import { leftOf, meters, readForecast } from \"/shared/tables.js\";
import { ask, atLogOut, head, link, listTable, momentField, printButton, thisMonth, tool, zoneLine } from \"./office.js\";

/** @typedef {import(\"/shared/tables.js\").Forecast} Forecast */

const UNRELIABLE = 2, STALE = 4, LOW = 600, BREAK = 270;

/** @type {number | null} the start of driving that was chosen; null is tomorrow at six */
let chosen = null;
atLogOut.push(() => { chosen = null; });

/** @type {(again: () => void) => HTMLElement} */
function startForm(again) {
  const moment = momentField(\"start-at\", say.startAt, startOfDriving());
  return h(\"form\", { class: \"row end no-print\", onsubmit: (event) => {
    event.preventDefault();
    if (moment.minute() !== null) { chosen = moment.minute(); again(); }
  } }, moment.node, h(\"button\", {}, say.show));
}
/** @type {() => number} */
const startOfDriving = () => chosen ?? tomorrow();

/** How many days before the start the last known hour is; Infinity where nothing can be said.
 * @type {(row: Forecast) => number} */
const staleOf = (row) => (row.held === null || row.ahead === null ? Infinity : Math.floor((row.ahead.start - row.held) / DAY));
/** Whether a row says anything.
 * @type {(row: Forecast) => boolean} */
const isTold = (row) => staleOf(row) <= STALE;

/** @type {(value: number | null, least: number) => string} */
const low = (value, least) => (value !== null && value < least ? \"warn-text\" : \"\");
/** @type {(value: number | null) => string} */
const bare = (value) => (value === null ? \"–\" : length(value));

/** The driving that is left, and what ends it.
 * @type {(left: any) => import(\"./office.js\").Content} */
function drivingCell(left) {
  const bounds = [[\"day\", left.day], [\"week\", left.week], [\"two\", left.isYoung ? null : left.two]].filter(([, value]) => value !== null);
  const [name, value] = bounds.sort((a, b) => a[1] - b[1])[0] ?? [];
  if (value === undefined) return \"–\";
  const remark = [say.binds[name], left.isYoung ? say.twoUnknown : \"\"].filter(Boolean).join(\", \");
  return h(\"span\", { class: \"v\" }, h(\"b\", { class: low(value, LOW) || null }, length(value)), remark ? h(\"small\", {}, ` ${remark}`) : null);
}

/** @type {(row: any) => import(\"./office.js\").Content} */
const heldCell = (row) => h(\"span\", { class: \"v\" }, localMoment(row.held),
  staleOf(row) > UNRELIABLE ? h(\"small\", { class: \"warn-text\" }, ` ${say.leftStale(staleOf(row))}`) : null);
/** @type {(left: any) => import(\"./office.js\").Content} */
function restCell(left) {
  if (left.needsLong) return h(\"span\", { class: \"v warn-text\" }, localMoment(left.long), h(\"small\", {}, \" 11 h\"));
  return left.rest === null ? \"–\" : localMoment(left.rest);
}
/** @type {(left: any, row: any) => import(\"./office.js\").Content} */
const twoCell = (left, row) => (left.isYoung
  ? h(\"span\", { class: \"v wrap warn-text\" }, \"?\", h(\"small\", {}, ` ${say.young(shortUtcDay(row.from))}`)) : bare(left.two));

/** @type {() => import(\"./office.js\").Column[]} */
function columns() {
  const [driver, held, ...heads] = say.leftCols;
  /** @type {[(left: any, row: any) => import(\"./office.js\").Content, (left: any, row: any) => string][]} */
  const cells = [
    [drivingCell, () => \"\"],
    [(left) => bare(left.now), (left) => (left.now === BREAK ? \"quiet\" : low(left.now, BREAK))],
    [restCell, () => \"\"],
    [(left) => bare(left.week), (left) => low(left.week, LOW)],
    [twoCell, (left) => low(left.two, LOW)],
    [(left) => (left.weekly === null ? \"–\" : localMoment(left.weekly)),
      (left, row) => (left.weekly !== null && left.weekly - row.ahead.start < DAY ? \"warn-text\" : \"\")],
    [(_, row) => `${row.ahead.reduced}/3 · ${row.ahead.extended}/2`, () => \"quiet\"],
  ];
  return [{ head: driver, cell: (row) => [link(`/drivers/${row.driver}/left`, written(row.name)), h(\"small\", {}, ` ${row.driver}`)] },
    { head: held, kind: \"when\", cell: heldCell },
    ...cells.map(([cell, kind], k) => ({
      head: heads[k], kind: \"num\", kindOf: (/** @type {any} */ row) => kind(leftOf(row.ahead), row),
      cell: (/** @type {any} */ row) => cell(leftOf(row.ahead), row),
    }))];
}

/** Of whom nothing can be said, and why.
 * @type {(rows: Forecast[]) => import(\"./office.js\").Content} */
const untold = (rows) => (rows.length === 0 ? null : [h(\"h2\", {}, say.leftUntold), h(\"ul\", { id: \"untold\" }, rows.map((row) => h(\"li\", {},
  link(`/drivers/${row.driver}/${thisMonth()}`, written(row.name)), ` (${row.driver}): `,
    row.held === null ? say.noLeft : row.ahead === null ? say.leftCrew
    : `${say.colHeld} ${localMoment(row.held)}. ${say.leftStale(staleOf(row))}`)))]);

/** @type {(context: import(\"./office.js\").Context) => Promise<import(\"./office.js\").Content>} */
async function leftAll({ signal, again }) {
  const rows = readForecast(await ask(`/forecast/${textOf(startOfDriving()).replace(\" \", \"/\")}`, signal)), told = rows.filter(isTold);
  return [head(`${say.left}: ${localMoment(startOfDriving(), true)}`, printButton()), startForm(again),
    h(\"p\", { class: \"box\" }, say.leftAssume),
    told.length ? listTable(columns(), told) : null, untold(rows.filter((row) => !isTold(row))),
    h(\"p\", { class: \"note\" }, `– : ${say.notBinding}.`), zoneLine()];
}

/** Whether nothing is held.
 * @type {(ahead: import(\"/shared/read.js\").Ahead) => boolean} */
const isNever = (ahead) => ahead.held === ahead.from && ahead.restSince === null;
/** @type {(text: string) => HTMLElement} */
const warning = (text) => h(\"p\", { class: \"box warn\" }, text);

/** The breaches that come even if nothing is driven.
 * @type {(breaches: import(\"/shared/read.js\").Breach[]) => import(\"./office.js\").Content} */
const comingBox = (breaches) => (breaches.length === 0 ? null : h(\"div\", { class: \"box bad\" }, h(\"p\", {}, say.coming),
  h(\"ul\", {}, breaches.map((one) => h(\"li\", {}, say[one.kind](one.amount), \" \", both(one.at))))));

/** What a forecast of one driver says.
 * @type {(ahead: import(\"/shared/read.js\").Ahead) => import(\"./office.js\").Content} */
function toldOf(ahead) {
  const days = Math.floor((ahead.start - ahead.held) / DAY);
  if (ahead.not) return warning(say.leftCrew);
  if (isNever(ahead)) return warning(say.noLeft);
  if (days > STALE) return warning(say.leftStale(days));
  return [days > UNRELIABLE ? warning(say.leftStale(days)) : null, meters(ahead), comingBox(ahead.coming),
    leftOf(ahead).isYoung ? warning(say.youngHelp(shortUtcDay(ahead.from))) : null,
      h(\"p\", {}, say.leftUsed(ahead.reduced, ahead.extended))];
}

/** @type {(context: import(\"./office.js\").Context) => Promise<import(\"./office.js\").Content>} */
async function leftOne({ signal, args: [driver], again }) {
  const ahead = readAhead(await ask(`/drivers/${driver}/ahead/${textOf(startOfDriving()).replace(\" \", \"/\")}`, signal)),
    [person] = readDrivers(await ask(`/drivers/${driver}`, signal));
  const debts = readDebts(await ask(`/drivers/${driver}/debts`, signal));
  const title = head([written(person.name), `: ${say.left}`], tool(`/drivers/${driver}/${thisMonth()}`, monthName(thisMonth())),
    printButton());
  const held = isNever(ahead) ? \"\" : ` · ${say.colHeld} ${both(ahead.held)}`;
  return [title, startForm(again), h(\"p\", {}, h(\"b\", {}, `${say.startAt}: ${both(ahead.start)}`), held), toldOf(ahead),
    h(\"p\", { class: \"note\" }, say.leftAssume), h(\"h2\", {}, say.debts), debtsPart(debts)];
}

/** @type {(context: import(\"./office.js\").Context) => Promise<import(\"./office.js\").Content>} */
export const page = (context) => (context.args.length ? leftOne(context) : leftAll(context));
"
}

/// The text at `/office/letter.js`.
fn office_letter_js() -> &'static str {
    "// A letter to a driver about the breaches of a month, in UTC with local time.
import { h, written } from \"/shared/page.js\";
import { DAY, now, rangeOf } from \"/shared/time.js\";
import { formal, languageNow, localMoment, monthName, say, withLanguage } from \"/shared/say.js\";
import { cardOf, readDrivers, readEntries, readFiles, readVersion, readWhy } from \"/shared/read.js\";
import { breachItem } from \"/shared/parts.js\";
import { ask, button, head, languageField, telling, tool } from \"./office.js\";

const SENDER = \"tacho.sender\", LANGUAGE = \"tacho.letter.\", DAYS_TO_ANSWER = 14, DIGITS = 12, ANSWER_LINES = 3;

/** The language of a driver's letters.
 * @type {(driver: string) => string} */
const languageOf = (driver) => localStorage.getItem(LANGUAGE + driver) ?? languageNow();

/** Whether what shows a breach ends in time that isn't known: no letter is written from it.
 * @type {(breach: import(\"/shared/read.js\").ShownBreach) => boolean} */
function isUnfinished({ kind, evidence }) {
  const last = evidence.filter((line) => [\"break\", \"rest\", \"weekly\"].includes(line.word)).at(-1);
  return [\"B1\", \"B2\", \"B8\"].includes(kind) && last !== undefined && last.past === null;
}

/** @type {() => { field: HTMLElement, printed: HTMLElement }} the sender: a field, and its text as it is printed */
function sender() {
  const kept = localStorage.getItem(SENDER) ?? \"\", printed = h(\"div\", { class: \"print-only\" }, kept);
  const field = h(\"textarea\", { rows: 3, id: \"sender\", class: \"no-print\", \"aria-label\": say.from, placeholder: say.from, oninput: () => {
    localStorage.setItem(SENDER, field.value);
    printed.textContent = field.value;
  } });
  field.value = kept;
  return { field, printed };
}

/** Where the letter's hours come from.
 * @type {(files: any[], entries: any[], program: string) => HTMLElement} */
function sourceLine(files, entries, program) {
  const fileTexts = files.map((file) => `${file.number} (SHA-256 ${file.digest.slice(0, DIGITS)}…)`);
  const entryTexts = entries.map((one) => `${one.number} (${say[one.activity]}, ${formal(one.start)} ${say.to} ${formal(one.past)})`);
  return h(\"p\", { class: \"note\" }, say.letterFiles(fileTexts.join(\", \") || \"–\", program),
    ` ${say.foot}`, entries.length ? ` ${say.letterHand} ${entryTexts.join(\"; \")}.` : \"\");
}

/** The sheet that is printed, in the language that is set. `ofMonth` are the month's entries; evidence may be of earlier months.
 * @type {(parts: { person: any, ready: any[], files: any[], entries: any[], ofMonth: any[], program: string, month: string,
 *  language: string }) => HTMLElement} */
function sheetOf({ person, ready, files, entries, ofMonth, program, month, language }) {
  const { field, printed } = sender();
  const day = (/** @type {number} */ minute) => localMoment(minute, true).slice(0, -6);
  return h(\"article\", { class: \"sheet\", lang: language },
    h(\"div\", { class: \"address\" }, h(\"div\", {}, field, printed), h(\"div\", {}, `${say.date2}: ${day(now())}`)),
    h(\"p\", {}, written(person.name), h(\"br\"), h(\"span\", { class: \"note\" }, `${say.cardNo}: ${cardOf(person.holder)}`)),
    h(\"h2\", {}, say.letterHead(monthName(month))), h(\"p\", {}, telling(say.dear, person.name)),
    ready.length === 0 ? h(\"p\", {}, say.letterNone) : [
      h(\"p\", {}, say.letterIntro(ready.length, monthName(month))),
      h(\"ol\", { class: \"list\" }, ready.map((one, k) => breachItem(one, { formalTimes: true, number: k + 1, entries }))),
      h(\"div\", { class: \"end\" }, h(\"p\", {}, `${say.letterAsk} ${day(now() + DAYS_TO_ANSWER * DAY)}.`), h(\"p\", {}, say.letterInstruct),
        sourceLine(files, ofMonth, program),
        h(\"h3\", {}, say.answer), Array.from({ length: ANSWER_LINES }, () => h(\"div\", { class: \"lines\" })),
        h(\"div\", { class: \"signs\" }, h(\"div\", {}, say.forOffice, h(\"br\"), say.signed), h(\"div\", {}, say.forDriver, h(\"br\"), say.signed)))]);
}

/** @type {(context: import(\"./office.js\").Context) => Promise<import(\"./office.js\").Content>} */
export async function page({ signal, args: [driver, month], again }) {
  const at = (/** @type {string} */ what) => ask(`/drivers/${driver}${what}`, signal);
  const [person] = readDrivers(await at(\"\")), all = readWhy(await at(`/why/${month}`)), files = readFiles(await at(\"/files\")),
    entries = readEntries(await at(\"/entries\"));
  const program = readVersion(await ask(\"/version\", signal)), [first, past] = rangeOf(month);
  const isWithin = (/** @type {import(\"/shared/read.js\").Range} */ one) => one.start < past && first < one.past;
  const ready = all.filter((one) => !isUnfinished(one)), language = languageOf(driver);
  const choose = languageField(language, (one) => { localStorage.setItem(LANGUAGE + driver, one); again(); }, { id: \"letter-language\" });
  return [h(\"div\", { class: \"no-print\" },
    head([`${say.letter}: `, written(person.name), `, ${monthName(month)}`],
      h(\"label\", { for: \"letter-language\" }, say.letterLanguage), choose,
      tool(`/drivers/${driver}/${month}`, monthName(month)), button(say.print, () => print(), { class: \"main\" })),
    ready.length < all.length ? h(\"div\", { class: \"box warn\", id: \"left-out\" }, h(\"p\", {}, say.letterOpen(all.length - ready.length)))
      : null,
    h(\"p\", { class: \"note\" }, `${say.from}: ${say.senderHelp}`)),
  await withLanguage(language, () => sheetOf({
    person, ready, month, language, program, files: files.filter(isWithin),
      entries, ofMonth: entries.filter((one) => one.state === \"kept\" && isWithin(one)),
  }))];
}
"
}

/// The text at `/office/month.js`.
fn office_month_js() -> &'static str {
    "// A driver's month.
import { Problem, h, written } from \"/shared/page.js\";
import { monthStep, now, offsetText, rangeOf, zone } from \"/shared/time.js\";
import { debtsPart, monthName, say } from \"/shared/say.js\";
import { readBreaches, readDebts, readEntries, readFiles, readGaps, readSheet, readSpans, readWhy } from \"/shared/read.js\";
import { breachItem, chart, gapsPart, notExaminedBox, sheetTable, unseenOf } from \"/shared/parts.js\";
import { ask, head, link, printButton, tool } from \"./office.js\";

const TURNS = 3, DRIVE = 3;

/** The replies for a month, all of one state: the files and entries are the same before and after the others.
 * @type {(driver: string, month: string, signal: AbortSignal) => Promise<Record<string, string>>} */
async function repliesOf(driver, month, signal) {
  const all = { sheet: `sheet/${month}`, spans: `spans/${month}`, gaps: `gaps/${month}`, stretches: \"stretches\", why: `why/${month}`,
    debts: \"debts\" };
  const state = async () => ({ files: await ask(`/drivers/${driver}/files`, signal),
    entries: await ask(`/drivers/${driver}/entries`, signal) });
  let before = await state();
  for (let turn = 1; turn <= TURNS; turn += 1) {
    /** @type {Record<string, string>} */
    const replies = {};
    for (const [name, path] of Object.entries(all)) replies[name] = await ask(`/drivers/${driver}/${path}`, signal);
    const after = await state();
    if (after.files === before.files && after.entries === before.entries) return { ...replies, ...after };
    before = after;
  }
  throw new Problem(\"changing\");
}

/** The end of what is held; 0 where nothing is.
 * @type {(stretches: any[]) => number} */
function endOf(stretches) {
  const last = stretches.at(-1);
  return last.to ?? (last.horizon === last.from ? 0 : last.horizon);
}

/** The sums of the month; driving first, and no column that is empty.
 * @type {(total: string[]) => HTMLElement} */
const facts = (total) => h(\"dl\", { class: \"facts\" },
  [DRIVE, 2, 1, 0, 4].filter((k) => k === DRIVE || total[k] !== \"0:00\").map((k) => h(\"div\", {}, h(\"dt\", {}, say.sheetColumns[k + 1]),
    h(\"dd\", {}, total[k]))));

/** What the month was made of.
 * @type {(driver: string, files: any[], entries: any[]) => import(\"./office.js\").Content} */
const sourceOf = (driver, files, entries) => h(\"p\", {}, `${say.cards}: ${files.map((file) => file.number).join(\", \") || \"–\"}`, h(\"br\"),
  link(`/drivers/${driver}/entries`, say.entriesOf(entries.filter((one) => one.state === \"kept\").length)));

/** @type {(driver: string, month: string) => import(\"./office.js\").Content} the tools of the head */
const toolsOf = (driver, month) => [tool(`/drivers/${driver}/${monthStep(month, -1)}`, \"←\", say.monthBefore),
  tool(`/drivers/${driver}/${monthStep(month, 1)}`, \"→\", say.monthAfter), tool(`/drivers/${driver}/left`, say.left),
  tool(`/drivers/${driver}/gaps`, say.gapForm), tool(`/drivers/${driver}/entries`, say.entries), printButton(),
  link(`/drivers/${driver}/${month}/letter`, say.letter, { class: \"button main\" })];

/** @type {(context: import(\"./office.js\").Context) => Promise<import(\"./office.js\").Content>} */
export async function page({ signal, args: [driver, month, day] }) {
  const replies = await repliesOf(driver, month, signal);
  const sheet = readSheet(replies.sheet), range = rangeOf(month), stretches = readBreaches(replies.stretches),
    breaches = readWhy(replies.why);
  const debts = readDebts(replies.debts), spans = readSpans(replies.spans), files = readFiles(replies.files),
    entries = readEntries(replies.entries);
  const end = endOf(stretches), unseen = unseenOf(stretches, range);
  const gaps = readGaps(replies.gaps).map((gap) => ({ ...gap, past: Math.min(gap.past, end) })).filter((gap) => gap.start < gap.past);
  const isThere = (/** @type {{ start: number }} */ one) => one.start < Math.max(end, now()), days = sheet.days.filter(isThere),
    later = sheet.days.filter((one) => !isThere(one));
  const seen = range[1] - range[0] - unseen.reduce((sum, one) => sum + one.past - one.start, 0);
  const shown = chart({ spans, gaps, breaches, unseen, days, range });
  if (day) shown.map((one) => one.querySelector(`#day-${month}-${day}`)).find(Boolean)?.classList.add(\"seek\");
  return [head([written(sheet.name), ` (${driver}), ${monthName(month)}`], toolsOf(driver, month)), facts(sheet.total),
    notExaminedBox(stretches, range, end, gaps, link(`/drivers/${driver}/gaps`, say.gapForm)),
    h(\"h2\", { id: \"breaches-head\" }, `${say.breaches}${breaches.length ? `: ${breaches.length}` : \"\"}`),
    breaches.length ? h(\"ul\", { class: \"list\", \"aria-labelledby\": \"breaches-head\" }, breaches.map((one) => breachItem(one, { entries })))
      : h(\"p\", { id: \"no-breach\" }, seen > 0 ? say.noBreach : say.nothingExamined),
    h(\"section\", { class: \"keep\" }, h(\"h2\", {}, say.chart), shown),
    h(\"div\", { class: \"tellings\" },
      h(\"aside\", {}, h(\"section\", { id: \"debts\" }, h(\"h2\", {}, say.debts), debtsPart(debts)),
        h(\"section\", { id: \"gaps\" }, h(\"h2\", {}, say.gaps), gapsPart(gaps)),
        h(\"section\", { id: \"source\" }, h(\"h2\", {}, say.source), sourceOf(driver, files, entries))),
      h(\"div\", {}, h(\"h2\", {}, say.sheet), sheetTable({ days, later, total: sheet.total }))),
    h(\"p\", { class: \"note\" }, say.zoneNote(zone(), offsetText(range[0])))];
}
"
}

/// The text at `/office/office.css`.
fn office_office_css() -> &'static str {
    "/* The styles that only the office's pages have. They come after those of all pages (shared/page.css). */
.hush {
  position: absolute;
  width: 1px;
  height: 1px;
  overflow: hidden;
  clip-path: inset(50%);
  white-space: nowrap;
}

input[type=checkbox],
input[type=radio] {
  min-height: 0;
  width: 1.1rem;
  height: 1.1rem;
  padding: 0;
  vertical-align: -.15em;
}

caption {
  text-align: left;
  color: var(--note);
  font-size: .9rem;
  padding-bottom: .35rem;
}

tbody tr:hover {
  background: var(--raised);
}

.skip {
  position: absolute;
  left: -99rem;
}

.skip:focus {
  left: .5rem;
  top: .5rem;
  z-index: 2;
  padding: .5rem 1rem;
  background: var(--ground);
}

.bar nav {
  display: flex;
  flex-wrap: wrap;
  gap: 0 .25rem;
  flex: 1;
}

.bar nav a {
  padding: .55rem .7rem;
  color: var(--text);
  text-decoration: none;
  border-bottom: 3px solid transparent;
}

.bar nav a:hover {
  background: var(--line);
}

.bar nav a[aria-current] {
  border-bottom-color: var(--link);
  font-weight: 600;
}

/* Forced colours draw a transparent line too, so only that of the page that is shown may have one. */
@media (forced-colors: active) {
  .bar nav a:not([aria-current]) {
    border-bottom-color: Canvas;
  }
}

.row.end {
  align-items: end;
}

.field {
  grid-template-columns: minmax(0, auto);
  max-width: 100%;
}

/* Sums that choose rows */
.sums {
  display: flex;
  flex-wrap: wrap;
  gap: .5rem;
  margin: .25rem 0 1rem;
  padding: 0;
  list-style: none;
}

.sums button {
  display: flex;
  gap: .5rem;
  align-items: baseline;
  text-align: left;
  background: var(--ground);
}

.sums b {
  font-size: 1.35rem;
  line-height: 1;
  font-variant-numeric: tabular-nums;
}

.sums button[aria-pressed=true] {
  border-color: var(--link);
  box-shadow: inset 0 0 0 1px var(--link);
}

.sums .bad b {
  color: var(--bad);
}

.sums .warn b {
  color: var(--warn);
}

.sums .good b {
  color: var(--good);
}

.cards .when {
  white-space: nowrap;
}

/* A long name is divided, rather than that the table goes beyond the margins. */
.cards tbody th {
  min-width: 9rem;
  overflow-wrap: anywhere;
}

@media (min-width: 64rem) {
  .cards td.first {
    min-width: 17rem;
  }
}

.facts {
  display: flex;
  flex-wrap: wrap;
  gap: .1rem 1.75rem;
  margin: .25rem 0 .75rem;
}

.facts div {
  display: flex;
  gap: .4rem;
}

.facts dt {
  color: var(--note);
}

.facts dd {
  margin: 0;
  font-weight: 600;
  font-variant-numeric: tabular-nums;
}

.wrap {
  white-space: normal !important;
}

td small {
  display: block;
}

td small,
th small {
  color: var(--note);
  font-size: .85rem;
  font-weight: 400;
}

.todo {
  display: inline-flex;
  gap: .5rem;
  align-items: baseline;
  text-decoration: none;
  color: var(--text);
}

.todo:hover span {
  text-decoration: underline;
}

.todo::before {
  flex: none;
  width: 1.25rem;
  text-align: center;
  font-weight: 700;
  border-radius: .2rem;
  content: \"·\";
}

.todo.bad::before {
  content: \"!\";
  background: var(--bad);
  color: var(--ground);
}

.todo.warn::before {
  content: \"!\";
  background: var(--warn-ground);
  color: var(--warn);
  box-shadow: inset 0 0 0 1px var(--warn);
}

.todo.look::before {
  content: \"?\";
  background: var(--raised);
  color: var(--text);
  box-shadow: inset 0 0 0 1px var(--edge);
}

.todo.good::before {
  content: \"✓\";
  color: var(--good);
}

.todo.good {
  color: var(--note);
}

.bad-text {
  color: var(--bad);
  font-weight: 600;
}

.warn-text {
  color: var(--warn);
  font-weight: 600;
}

.labels .plain {
  color: var(--note);
}

.choice {
  display: inline-flex;
  flex-wrap: wrap;
  border: 1px solid var(--edge);
  border-radius: .3rem;
  overflow: hidden;
}

.choice label {
  padding: .4rem .65rem;
  border-right: 1px solid var(--line);
  cursor: pointer;
}

.choice label:last-child {
  border: 0;
}

.choice input {
  position: absolute;
  opacity: 0;
  min-height: 0;
}

.choice label:has(:checked) {
  background: var(--link);
  color: var(--ground);
  font-weight: 600;
}

.choice label:has(:focus-visible) {
  outline: 3px solid var(--link);
  outline-offset: -3px;
}

.gap {
  display: grid;
  grid-template-columns: minmax(13rem, 1.2fr) auto minmax(10rem, 1fr) auto;
  gap: .5rem .9rem;
  align-items: center;
  padding: .7rem 0;
  border-bottom: 1px solid var(--line);
  margin: 0;
  border-inline: 0;
  border-top: 0;
}

.sheet {
  max-width: 52rem;
  margin: 1rem auto;
  padding: 2.25rem 2.5rem;
  border: 1px solid var(--line);
  background: #fff;
  color: #111;
  font-size: .95rem;
  --text: #111;
  --note: #444;
  --line: #bbb;
  --bad: #111;
  --ground: #fff;
  --edge: #555;
  --raised: #fff;
  --link: #111;
}

.sheet .breach {
  border-width: 0 0 0 .2rem;
  border-radius: 0;
  padding-block: 0;
  margin-block: 1rem;
}

.sheet .breach .top,
.sheet .breach p {
  break-after: avoid;
  break-inside: avoid;
}

.sheet .evidence {
  font-size: .82rem;
  width: 100%;
}

.sheet .evidence th,
.sheet .evidence td {
  padding-block: .03rem;
  white-space: nowrap;
}

.sheet .evidence td:last-child {
  white-space: normal;
}

.print-only {
  display: none;
}

.sheet .address {
  display: flex;
  justify-content: space-between;
  gap: 2rem;
  margin-bottom: 1.25rem;
  white-space: pre-line;
}

.sheet .address input,
.sheet textarea {
  width: 100%;
}

.lines {
  border-bottom: 1px solid #555;
  height: 2.1rem;
}

.signs {
  display: grid;
  grid-template-columns: 1fr 1fr;
  gap: 2.5rem;
  margin-top: 4rem;
  break-inside: avoid;
}

.signs div {
  border-top: 1px solid #555;
  padding-top: .25rem;
  font-size: .85rem;
}

.tellings {
  display: grid;
  grid-template-columns: minmax(0, 1fr) 19rem;
  gap: 0 2rem;
}

.tellings > aside {
  order: 2;
}

.tellings > div {
  min-width: 0;
}

@media screen and (max-width: 48rem) {
  .bar nav {
    order: 3;
    flex: 1 0 100%;
  }

  .bar nav a {
    padding: .55rem .5rem;
  }

  .cards thead {
    position: absolute;
    width: 1px;
    height: 1px;
    overflow: hidden;
    clip-path: inset(50%);
  }

  .cards,
  .cards tbody,
  .cards tr {
    display: block;
  }

  .cards tr {
    padding: .6rem 0;
    border-bottom: 1px solid var(--edge);
  }

  .cards th,
  .cards td {
    display: flex;
    gap: .75rem;
    justify-content: space-between;
    padding: .15rem 0;
    border: 0;
    text-align: right;
  }

  .cards th {
    font-size: 1.05rem;
  }

  .cards td.quiet {
    display: none;
  }

  .cards td.first {
    display: block;
    text-align: left;
    padding: .3rem 0;
  }

  .cards td:not(.first)::before {
    content: attr(data-head);
    color: var(--note);
    text-align: left;
    font-size: .9rem;
    white-space: normal;
  }

  .cards td small {
    display: inline;
  }

  .cards td .v {
    white-space: normal;
  }

  .cards td.num {
    white-space: normal;
  }

  .sums {
    gap: .35rem;
  }

  .sums button {
    min-height: 2.4rem;
    padding: .25rem .55rem;
    font-size: .88rem;
  }

  .sums b {
    font-size: 1.1rem;
  }

  .bar nav a {
    font-size: .95rem;
  }

  .gap {
    grid-template-columns: 1fr;
  }

  .sheet {
    padding: 1rem;
  }

  .tellings {
    display: block;
  }
}

@media print {
  .skip {
    display: none !important;
  }

  .print-only {
    display: block;
  }

  .cards td.first {
    min-width: 11rem;
  }

  .end {
    break-inside: avoid;
  }

  body:has(.sheet) > footer {
    display: none;
  }

  .sheet {
    max-width: none;
    margin: 0;
    padding: 0;
    border: 0;
  }

  .sheet input,
  .sheet textarea {
    border: 0;
    padding: 0;
    min-height: 0;
    resize: none;
  }

  .tellings {
    display: block;
  }

}

/* The office: dialogs, lists of what can be done, slips */
button:disabled {
  opacity: .5;
  cursor: default;
}

.raw {
  display: block;
  color: var(--note);
  font-size: .85rem;
}

.panel {
  padding-bottom: .4rem;
  border-bottom: 1px solid var(--line);
}

.panel > summary {
  font-weight: 600;
}

.change {
  margin: 0;
}

.change form {
  margin: .4rem 0;
}

.which {
  display: flex;
  flex-wrap: wrap;
  gap: .1rem .9rem;
  align-items: baseline;
  font-size: .9rem;
}

.many th,
.many td {
  padding-inline: .3rem;
  font-size: .9rem;
}

.many tfoot th,
.many tfoot td {
  font-weight: 600;
}

.digest {
  font-size: .8rem;
  overflow-wrap: anywhere;
}

.seek {
  outline: 3px solid var(--warn);
  outline-offset: 2px;
}

.slip {
  padding: 1.25rem 1.75rem;
  break-inside: avoid;
}

.slip h2 {
  margin-top: 0;
}

.slip .key {
  font-size: 1.35rem;
  letter-spacing: .04em;
}

dialog {
  max-width: min(34rem, calc(100vw - 2rem));
  padding: 1.25rem;
  border: 1px solid var(--edge);
  border-radius: .4rem;
  background: var(--ground);
  color: var(--text);
}

dialog::backdrop {
  background: #0008;
}

@media print {
  main:has(.slip) > :not(.slips) {
    display: none !important;
  }
}
"
}

/// The text at `/office/office.js`.
fn office_office_js() -> &'static str {
    "// The frame of the office's pages: the key, the address after #, which names the page, and what several pages use. Each page is a module
// that is loaded when it is first opened.
import { $, KEY_FORM, MODULE, Problem, forget, h, isAbort, keep, key, listed, moduleAt, reading, written } from \"/shared/page.js\";
import { localText, minutesOfLocal, monthOf, now, offsetText, textOf, zone } from \"/shared/time.js\";
import { readVersion } from \"/shared/read.js\";
import { LANGUAGES, languageNow, ready, say, speak } from \"/shared/say.js\";

/** @typedef {import(\"/shared/page.js\").Child} Content */
/** @typedef {{ signal: AbortSignal, args: string[], again: (notice?: Node) => void }} Context what a page gets: a signal that ends its
 *  requests, the parts of its address, and how to show it anew */
/** @typedef {{ head: string, cell: (row: any) => Content, kind?: string, kindOf?: (row: any) => string }} Column a column of a list */

const IDLE = 30 * 60_000;

// What pages leave to others. A log-out clears it.

/** @type {{ person: { holder: string, name: string } | null }} whose card is to be registered */
export const proposed = { person: null };
/** @type {(() => void)[]} what else a log-out clears */
export const atLogOut = [() => { proposed.person = null; }];
/** @type {Set<string>} what would be lost if the page were left */
export const unfinished = new Set();

// Elements that several pages use

/** @type {(to: string, text: Content, attributes?: Record<string, unknown>) => HTMLElement} a link to a page */
export const link = (to, text, attributes = {}) => h(\"a\", { href: `#${to}`, ...attributes }, text);
/** @type {(to: string, text: Content, label?: string) => HTMLElement} a link that looks like a button */
export const tool = (to, text, label) => link(to, text, { class: \"button\", \"aria-label\": label, title: label });
/** @type {(title: Content, ...tools: Content[]) => HTMLElement} the head of a page */
export const head = (title, ...tools) =>
  h(\"div\", { class: \"head\" }, h(\"h1\", { tabindex: \"-1\", id: \"title\" }, title), h(\"div\", { class: \"row no-print\" }, tools));
/** @type {(text: string, act: () => void, attributes?: Record<string, unknown>) => HTMLButtonElement} a button */
export const button = (text, act, attributes = {}) => h(\"button\", { type: \"button\", onclick: act, ...attributes }, text);
/** @type {() => HTMLButtonElement} the button that prints the page */
export const printButton = () => button(say.print, () => print());
/** @type {(language: string, change: (other: string) => void, attributes: Record<string, string>) => HTMLElement} the field of a language
 *  */
export const languageField = (language, change, attributes) => h(\"select\",
  { onchange: (event) => change(event.target.value), ...attributes },
  LANGUAGES.map(([one, text]) => h(\"option\", { value: one, selected: one === language }, text)));
/** @type {() => string} this month, in UTC */
export const thisMonth = () => monthOf(now());
/** @type {(kind: string, ...children: Content[]) => HTMLElement} a box that says what became of something */
export const notice = (kind, ...children) =>
  h(\"div\", { class: `box ${kind}`, role: kind === \"bad\" ? \"alert\" : \"status\", tabindex: \"-1\" }, h(\"p\", {}, children));
/** @type {() => HTMLElement} the line about local time */
export const zoneLine = () => h(\"p\", { class: \"note\" }, say.zoneNote(zone(), offsetText(now())));

/** A sentence with texts that somebody wrote, each in its element. The sentence gets a sign of no script in place of each text, so that no
 *  text is taken for another.
 * @type {(sentence: (...texts: string[]) => string, ...texts: string[]) => Content} */
export function telling(sentence, ...texts) {
  const signs = texts.map((_, k) => String.fromCharCode(0xe000 + k));
  return sentence(...signs).split(/([\\ue000-\\uf8ff])/).map((part, k) => (k % 2 ? written(texts[signs.indexOf(part)]) : part));
}

/** A row of a list.
 * @type {(columns: Column[], row: any) => HTMLElement} */
export const listRow = (columns, row) => h(\"tr\", { role: \"row\" }, columns.map((column, k) => {
  const kind = `${column.kind ?? \"\"} ${column.kindOf?.(row) ?? \"\"}`.trim();
  if (k === 0) return h(\"th\", { scope: \"row\", role: \"rowheader\", class: kind || null }, column.cell(row));
  return h(\"td\", { role: \"cell\", \"data-head\": column.head, class: kind || null }, column.cell(row));
}));

/** A list as a table; on a phone its rows become cards. Its roles are named, since a table that isn't laid out as one loses them.
 * @type {(columns: Column[], rows: any[], body?: HTMLElement, foot?: any) => HTMLElement} */
export function listTable(columns, rows, body = h(\"tbody\", { role: \"rowgroup\" }), foot = null) {
  body.replaceChildren(...rows.map((row) => listRow(columns, row)));
  const heads = columns.map(({ head: text, kind = \"\" }) =>
    h(\"th\", { scope: \"col\", role: \"columnheader\", class: /\\bnum\\b/.test(kind) ? \"num\" : null }, text));
  return h(\"table\", { class: \"cards\", role: \"table\" }, h(\"thead\", { role: \"rowgroup\" }, h(\"tr\", { role: \"row\" }, heads)), body,
    foot && h(\"tfoot\", { role: \"rowgroup\" }, listRow(columns, foot)));
}

/** Asks a question in a dialog. Resolves to whether the action was chosen.
 * @type {(question: Content, action: string, other?: string) => Promise<boolean>} */
export const confirmed = (question, action, other = say.keepIt) => new Promise((resolve) => {
  const dialog = h(\"dialog\", { \"aria-labelledby\": \"question\", onclose: () => { dialog.remove(); resolve(dialog.returnValue === \"yes\"); } },
    h(\"p\", { id: \"question\" }, question),
    h(\"div\", { class: \"row\" }, button(action, () => dialog.close(\"yes\"), { class: \"main\" }), button(other, () => dialog.close(\"\"))));
  document.body.append(dialog);
  dialog.showModal();
});

/** A field for a local time. In the hour that autumn repeats it asks which of the two is meant; in the hour that spring leaves out it says
 *  so, and has no minute.
 * @type {(id: string, label: string, start: number | null) =>
 *  { node: HTMLElement, input: HTMLInputElement, minute: () => number | null }} */
export function momentField(id, label, start) {
  const value = start === null ? \"\" : localText(start).replace(\" \", \"T\");
  const input = h(\"input\", { type: \"datetime-local\", id, value, required: true, \"aria-describedby\": `${id}-which` });
  const which = h(\"div\", { id: `${id}-which`, class: \"which\", \"aria-live\": \"polite\" });
  /** @type {number[]} */
  let minutes = start === null ? [] : [start];
  let chosen = 0;
  const ask = () => {
    minutes = input.value ? minutesOfLocal(input.value) : [];
    chosen = 0;
    input.setCustomValidity(input.value && minutes.length === 0 ? say.noSuchTime : \"\");
    which.replaceChildren(...(input.value && minutes.length === 0 ? [h(\"span\", { class: \"warn-text\" }, say.noSuchTime)] : []),
      ...(minutes.length === 2 ? [h(\"span\", {}, say.whichTime(input.value.slice(11))), ...minutes.map((minute, k) => h(\"label\", {},
        h(\"input\", { type: \"radio\", name: `${id}-time`, value: String(k), checked: k === 0, onchange: () => { chosen = k; } }),
        ` ${say.nthTime(k)} (${textOf(minute).slice(11)} UTC)`))] : []));
  };
  input.addEventListener(\"input\", ask);
  if (start !== null && minutesOfLocal(value).length === 2) {
    ask();
    chosen = minutes.indexOf(start);
    which.querySelectorAll(\"input\")[chosen].checked = true;
  }
  const node = h(\"div\", { class: \"field\" }, h(\"label\", { for: id }, label), input, which);
  return { node, input, minute: () => minutes[chosen] ?? null };
}

// Requests

/** @type {Promise<unknown>} */
let queue = Promise.resolve();

/** Says that there were too many requests, and that the page asks again. What takes long says no more beside it.
 * @type {(seconds: number) => void} */
export const tellWait = (seconds) => { timers.forEach(clearTimeout); tellBusy(say.askAgain(seconds), true); };

/** A reading, once the readings before it have ended: the archive answers one after the other, and a wrong key is sent once.
 * @type {(path: string, signal: AbortSignal) => Promise<string>} */
export function ask(path, signal) {
  const mine = queue.then(() => reading(path, { signal, wait: tellWait }));
  queue = mine.then(() => undefined, () => undefined);
  return busy(mine);
}

/** @type {(fault: any) => string} the sentence of a fault of a reading */
function sentenceOf(fault) {
  if (!(fault instanceof Problem)) return `${say.pageFault} (${fault})`;
  const said = say[fault.name];
  return typeof said === \"function\" ? said(...fault.values) : said;
}

// What takes long says so, after half a second, and again after five.

let working = 0;
/** @type {number[]} */
let timers = [];

/** @type {(text: string, canStop?: boolean) => void} */
export function tellBusy(text, canStop = false) {
  const stop = canStop ? button(say.cancel, () => current.abort(), { class: \"small\" }) : null;
  $(\"busy\").replaceChildren(...(text ? [h(\"span\", {}, text), ...(stop ? [stop] : [])] : []));
}

/** Waits for something, and says so where it takes long.
 * @type {(work: Promise<any>) => Promise<any>} */
export async function busy(work) {
  working += 1;
  if (working === 1) timers = [setTimeout(() => tellBusy(say.busy), 500), setTimeout(() => tellBusy(say.busyLong, true), 5000)];
  try {
    return await work;
  } finally {
    working -= 1;
    if (working === 0) { timers.forEach(clearTimeout); tellBusy(\"\"); }
  }
}

// Pages

const MONTH = \"(\\\\d{4}-(?:0[1-9]|1[0-2]))\", DRIVER = \"/drivers/([1-9]\\\\d{0,5})\";
/** @type {(text: string) => RegExp} */
const form = (text) => new RegExp(`^${text}$`);
/** @type {[RegExp, string][]} the form of an address, and the module of its page */
const PAGES = [
  [/^\\/?$/, \"start\"], [/^\\/files$/, \"files\"], [/^\\/left$/, \"left\"], [form(`/month/${MONTH}`), \"overview\"], [/^\\/people$/, \"people\"],
  [/^\\/inspection$/, \"inspection\"], [form(`${DRIVER}/${MONTH}(?:-(\\\\d\\\\d))?`), \"month\"], [form(`${DRIVER}/${MONTH}/letter`), \"letter\"],
  [form(`${DRIVER}/left`), \"left\"], [form(`${DRIVER}/gaps`), \"gaps\"], [form(`${DRIVER}/entries`), \"entries\"],
];
let current = new AbortController();
/** @type {string | null} the program's version, once it is known */
let version = null;

/** @type {() => string} the address of the page */
const address = () => location.hash.slice(1) || \"/\";

/** @type {(to: string) => void} shows what is around a page */
function showFrame(to) {
  document.documentElement.lang = languageNow();
  $(\"skip\").textContent = say.skip;
  $(\"nav\").setAttribute(\"aria-label\", say.nav);
  showFoot();
  const isIn = key() !== null;
  const places = [[\"/\", say.start], [\"/files\", say.cards], [\"/left\", say.left], [`/month/${thisMonth()}`, say.wholeMonth],
    [\"/people\", say.people], [\"/inspection\", say.inspection]];
  const isAt = (/** @type {string} */ where) => (where === \"/\" ? to === \"/\" : to.startsWith(where.startsWith(\"/month\") ? \"/month\" : where));
  $(\"nav\").replaceChildren(...(isIn ? places.map(([where, text]) => link(where, text, { \"aria-current\": isAt(where) ? \"page\" : null }))
    : []));
  const change = async (/** @type {string} */ language) => {
    if (!await mayLeave()) { showFrame(to); return; }
    busy(speak(language)).then(() => render(), (fault) => render(notice(\"bad\", sentenceOf(fault))));
  };
  const select = languageField(languageNow(), change, { id: \"language\", class: \"small\", \"aria-label\": say.language });
  $(\"tools\").replaceChildren(select, ...(isIn ? [button(say.logOut, leave, { class: \"small\", id: \"log-out\" })] : []));
}

/** @type {() => void} */
function showFoot() {
  $(\"foot\").textContent = version === null ? say.foot : `${say.foot} · ${version}`;
}

/** Asks for the program's version. If it is another one than before, the page's modules may be of both, and the page has to be loaded anew.
 * @type {(signal: AbortSignal) => Promise<void>} */
async function compareVersion(signal) {
  const program = readVersion(await ask(\"/version\", signal));
  if (version !== null && program !== version) {
    $(\"content\").prepend(notice(\"warn\", say.otherVersion, \" \", button(say.again, () => location.reload())));
  }
  version ??= program;
  showFoot();
}

/** @type {Set<string>} the modules that were loaded */
const loaded = new Set();

/** The content of the page at an address.
 * @type {(to: string, signal: AbortSignal, again: (notice?: Node) => void) => Promise<Content>} */
async function contentOf(to, signal, again) {
  const found = PAGES.find(([one]) => one.test(to));
  if (!found) return [head(say.noPage), h(\"p\", {}, link(\"/\", say.start))];
  const module = await moduleAt(`/office/${found[1]}.js`);
  return module.page({ signal, args: found[0].exec(to)?.slice(1), again });
}

/** The address of what is shown, or is about to be. */
let place = \"\";

/** Whether the page may be left: where hours are filled in and not saved it asks, once at a time.
 * @type {() => Promise<boolean>} */
const mayLeave = async () => !unfinished.has(\"gaps\")
  || ($(\"question\") === null && await confirmed(say.leaveGaps, say.leaveUnsaved, say.stay));

/** Shows the page of another address, if this one may be left. Until that is answered, the address is that of what is shown.
 * @type {() => Promise<void>} */
async function follow() {
  if (!unfinished.has(\"gaps\")) { render(); return; }
  history.pushState(null, \"\", `#${place}`);
  if (!await mayLeave()) return;
  unfinished.delete(\"gaps\");
  history.back();
}

/** Shows the page of the address. Its content stays until the next one is there.
 * @type {(notice?: Node | null) => Promise<void>} */
async function render(told = null) {
  current.abort();
  unfinished.delete(\"gaps\");
  const mine = new AbortController(), to = address();
  [current, place] = [mine, to];
  showFrame(to);
  if (key() === null) { showSignIn(told); return; }
  let made;
  try {
    made = await busy(contentOf(to, mine.signal, render));
  } catch (fault) {
    if (isAbort(fault) && mine !== current) return;
    if (fault instanceof Problem && fault.name === \"badKey\") { dropKey(); return; }
    const sentence = isAbort(fault) ? say.stopped : sentenceOf(fault);
    made = [h(\"h1\", { id: \"title\", class: \"hush\", tabindex: \"-1\" }, say.office), notice(\"bad\", sentence),
      button(say.retry, () => again(fault))];
  }
  if (mine !== current) return;
  show(made, told);
  await afterShown(to, mine.signal);
}

/** @type {(fault: any) => unknown} repeats a page; where a module couldn't be loaded, some browsers do so only when all is loaded anew */
const again = (fault) => (fault.values?.includes(MODULE) ? location.reload() : render());

/** @type {(made: Content, told: Node | null) => void} */
function show(made, told) {
  $(\"content\").replaceChildren(...listed([made]));
  const title = $(\"title\");
  document.title = `${title?.textContent ?? say.office} · tacho`;
  if (told) (title?.closest(\".head\") ?? title).after(told);
  (told ?? title)?.focus({ preventScroll: true });
  if (!document.querySelector(\".seek\")) scrollTo(0, 0);
  document.querySelector(\".seek\")?.scrollIntoView({ block: \"center\" });
}

/** @type {(to: string, signal: AbortSignal) => Promise<void>} */
async function afterShown(to, signal) {
  const name = PAGES.find(([one]) => one.test(to))?.[1] ?? \"\";
  if (key() === null || loaded.has(name)) return;
  loaded.add(name);
  try { await compareVersion(signal); } catch { loaded.delete(name); } // the page says by itself if the service can't be reached
}

// The key

/** @type {(told: Node | null) => void} */
function showSignIn(told) {
  const input = h(\"input\", { type: \"password\", id: \"key\", autocomplete: \"off\", required: true, \"aria-describedby\": \"key-help\" });
  const message = h(\"div\", { role: \"alert\" }, told);
  const submit = (/** @type {Event} */ event) => {
    event.preventDefault();
    const value = input.value.replace(/\\s/g, \"\");
    if (!KEY_FORM.test(value)) { message.replaceChildren(notice(\"bad\", say.badKey)); return; }
    keep(value);
    active = Date.now();
    render();
  };
  $(\"content\").replaceChildren(h(\"h1\", { id: \"title\" }, say.office), h(\"form\", { onsubmit: submit },
    h(\"div\", { class: \"field\" }, h(\"label\", { for: \"key\" }, say.keyLabel),
      h(\"div\", { class: \"row\" }, input, h(\"button\", { class: \"main\" }, say.signIn))),
    h(\"p\", { id: \"key-help\", class: \"note\" }, say.keyHelp)), message);
  document.title = say.office;
  input.focus();
}

/** Ends all requests, and drops the key and all that is known by it.
 * @type {(told: Node) => void} */
function logOut(told) {
  forget();
  current.abort();
  $(\"content\").replaceChildren();
  document.querySelectorAll(\"dialog\").forEach((one) => one.remove());
  document.title = \"\";
  atLogOut.forEach((clear) => clear());
  unfinished.clear();
  loaded.clear();
  render(told);
}
/** @type {() => void} */
export const dropKey = () => logOut(notice(\"bad\", say.badKey));

/** @type {() => Promise<void>} */
async function leave() {
  if (unfinished.size > 0 && !await confirmed(say.leaveUnfinished, say.logOut)) return;
  logOut(notice(\"good\", say.loggedOut));
}

let active = Date.now();
const stay = () => { active = Date.now(); };
/** @type {() => void} logs out after half an hour without a key press or a click */
const leaveIfIdle = () => { if (key() !== null && Date.now() - active >= IDLE) logOut(notice(\"warn\", say.idle)); };

addEventListener(\"keydown\", stay, true);
addEventListener(\"pointerdown\", stay, true);
setInterval(leaveIfIdle, 5000);
document.addEventListener(\"visibilitychange\", leaveIfIdle);
// The browser may keep the page while another is shown, whose log-out this one knows nothing of.
addEventListener(\"pageshow\", (event) => { if (event.persisted) logOut(notice(\"good\", say.loggedOut)); });
addEventListener(\"beforeunload\", (event) => { if (unfinished.size > 0) event.preventDefault(); });
$(\"skip\").addEventListener(\"click\", (/** @type {Event} */ event) => { event.preventDefault(); $(\"content\").focus(); });
ready.then(() => {
  addEventListener(\"hashchange\", follow);
  render();
});
"
}

/// The text at `/office/overview.js`.
fn office_overview_js() -> &'static str {
    "// A month of all drivers: what each did, how much of it was examined, and each breach.
import { h, written } from \"/shared/page.js\";
import { DAY, monthStep, now, rangeOf } from \"/shared/time.js\";
import { amountText, both, hm, length, monthName, say } from \"/shared/say.js\";
import { readIncidents, readOverview } from \"/shared/tables.js\";
import { ask, head, link, listTable, printButton, tool, zoneLine } from \"./office.js\";

/** The columns of a sheet, in their order. */
const COLUMNS = [\"rest\", \"available\", \"work\", \"drive\", \"crew\", \"none\"];
const RULES = [\"B1\", \"B2\", \"B3\", \"B4\", \"B5\", \"B6\", \"B7\", \"B8\", \"B9\", \"B10\"];
const SUMMED = [\"drive\", \"work\", \"available\", \"rest\", \"crew\", \"none\", \"examined\", ...RULES];

/** @type {(text: string) => string} */
const capital = (text) => text[0].toUpperCase() + text.slice(1);
/** How many minutes of the month have passed.
 * @type {(month: string) => number} */
const passedOf = (month) => { const [first, past] = rangeOf(month); return Math.max(0, Math.min(past, now()) - first); };

/** @type {(name: string) => (row: any) => string} */
const time = (name) => (row) => (row[name] ? hm(row[name]) : \"–\");
/** @type {(name: string) => (row: any) => string} */
const count = (name) => (row) => (row[name] ? String(row[name]) : \"–\");
/** @type {(name: string) => (row: any) => string} */
const dimIfNone = (name) => (row) => (row[name] ? \"\" : \"quiet dim\");

/** The columns; those of rules that nobody broke are left out.
 * @type {(month: string, total: any) => import(\"./office.js\").Column[]} */
const columnsOf = (month, total) => [
  { head: say.colDriver, cell: (row) => (row.driver === null ? row.name
    : [link(`/drivers/${row.driver}/${month}`, written(row.name)), h(\"small\", {}, ` ${row.driver}`)]) },
  ...[\"drive\", \"work\", \"available\", \"rest\", \"crew\", \"none\"].filter((name) => total[name] || name === \"drive\")
    .map((name) => ({ head: say.sheetColumns[1 + COLUMNS.indexOf(name)], kind: \"num\", kindOf: dimIfNone(name), cell: time(name) })),
  { head: say.notExamined, kind: \"num\", kindOf: (row) => (row.missing > 0 ? \"\" : \"quiet dim\"),
    cell: (row) => (row.missing > 0 ? h(\"span\", { class: row.missing > DAY ? \"warn-text\" : null }, hm(row.missing)) : \"–\") },
  ...RULES.filter((rule) => total[rule]).map((rule) => ({ head: rule, kind: \"num\", kindOf: dimIfNone(rule), cell: count(rule) })),
];

/** The table of the month, which may have many columns.
 * @type {(columns: import(\"./office.js\").Column[], rows: any[], total: any) => HTMLElement} */
function monthTable(columns, rows, total) {
  const table = listTable(columns, rows, undefined, total);
  table.classList.add(\"many\");
  return table;
}

/** The breaches of each driver.
 * @type {(rows: any[], month: string) => import(\"./office.js\").Content} */
function breachesOf(rows, month) {
  if (rows.length === 0) return h(\"p\", {}, say.noBreach);
  return listTable([
    { head: say.colDriver, cell: (row) => [link(`/drivers/${row.driver}/${month}`, written(row.name)), h(\"small\", {}, ` ${row.driver}`)] },
    { head: say.breach, kind: \"first\", cell: (row) => `${say.short[row.kind]} (${row.kind})` },
    { head: say.extent, kind: \"num\", cell: (row) => amountText(row) || \"–\" },
    { head: capital(say.at), cell: (row) => h(\"span\", { class: \"v\" }, both(row.moment)) },
    { head: capital(say.since), cell: (row) => h(\"span\", { class: \"v\" }, both(row.since)) },
  ], rows);
}

/** @type {(context: import(\"./office.js\").Context) => Promise<import(\"./office.js\").Content>} */
export async function page({ signal, args: [month] }) {
  const rows = readOverview(await ask(`/overview/${month}`, signal)), incidents = readIncidents(await ask(`/incidents/${month}`, signal));
  const passed = passedOf(month);
  rows.forEach((row) => { row.missing = Math.max(0, passed - row.examined); });
  const total = Object.fromEntries([...SUMMED, \"missing\"].map((name) => [name, rows.reduce((sum, row) => sum + row[name], 0)]));
  return [head(say.monthAllHead(monthName(month)), tool(`/month/${monthStep(month, -1)}`, \"←\", say.monthBefore),
    tool(`/month/${monthStep(month, 1)}`, \"→\", say.monthAfter), printButton()),
    rows.length === 0 ? h(\"p\", { class: \"box\" }, say.noDriversYet)
      : [monthTable(columnsOf(month, total), rows, { ...total, driver: null, name: say.wholeMonth }),
        h(\"p\", { class: \"note\" }, say.unseenHelp(length(passed))),
        h(\"p\", { class: \"note\" }, RULES.filter((rule) => total[rule]).map((rule) => `${rule}: ${say.short[rule]}`).join(\" · \"))],
    h(\"h2\", {}, `${say.breaches}${incidents.length ? `: ${incidents.length}` : \"\"}`), breachesOf(incidents, month),
    incidents.length ? h(\"p\", { class: \"note\" }, say.noLooks) : null, zoneLine()];
}
"
}

/// The text at `/office/people.js`.
fn office_people_js() -> &'static str {
    "// The drivers: one or many are added, and a key, base or name is changed. A key is made here, at random, and shown once.
import { $, h, isAbort, key, written } from \"/shared/page.js\";
import { DAY, dateOf, minuteOf, now, weekdayOf } from \"/shared/time.js\";
import { say, utcDay } from \"/shared/say.js\";
import { cardOf, readDrivers } from \"/shared/read.js\";
import { ask, atLogOut, button, confirmed, head, link, listTable, notice, proposed, telling } from \"./office.js\";
import { command, field, holderOf, isUnsure, refusal } from \"./commands.js\";

const LETTERS = \"abcdefghijkmnopqrstuvwxyzABCDEFGHJKLMNPQRSTUVWXYZ23456789\", KEY_LENGTH = 32, BYTES = 256;
const PLACE = \"tacho.driverspage\", FIRST_DAY = \"2000-01-03\", DAYS_BEFORE = 56;

/** @typedef {{ name: string, key: string }} Slip */
/** @typedef {{ driver: string, holder: string, key: string, base: string, name: string }} Registration */

/** @type {(keyof Registration)[]} */
const HEAD = [\"driver\", \"holder\", \"key\", \"base\", \"name\"];

/** The slips that wait to be printed: a page that is shown anew keeps them, a log-out drops them.
 * @type {Slip[]} */
let slips = [];
atLogOut.push(() => { slips = []; });

/** A new key. Bytes that would make some letters likelier than others are thrown away.
 * @type {() => string} */
function newKey() {
  let made = \"\";
  while (made.length < KEY_LENGTH) {
    const [byte] = crypto.getRandomValues(new Uint8Array(1));
    if (byte < BYTES - (BYTES % LETTERS.length)) made += LETTERS[byte % LETTERS.length];
  }
  return made;
}

// Slips

/** @type {(slip: Slip) => HTMLElement} */
const slipOf = (slip) => h(\"article\", { class: \"sheet slip\" }, h(\"h2\", {}, say.slipHead), h(\"p\", {}, written(slip.name)),
  h(\"p\", {}, say.slipText, \" \", h(\"b\", { class: \"where\" }, localStorage.getItem(PLACE) || \"………………………………\")),
  h(\"p\", { class: \"key\" }, h(\"code\", {}, slip.key.replace(/(.{4})(?=.)/g, \"$1 \"))), h(\"p\", { class: \"note\" }, say.slipCare));

/** The slips with their tools; the address of the drivers' page is typed once, and printed on each.
 * @type {(again: (notice?: Node) => void) => import(\"./office.js\").Content} */
function slipsPart(again) {
  if (slips.length === 0) return null;
  const where = h(\"input\", { id: \"where\", value: localStorage.getItem(PLACE) ?? \"\", placeholder: \"https://…/driver/\", oninput: () => {
    localStorage.setItem(PLACE, where.value);
    document.querySelectorAll(\".where\").forEach((one) => { one.textContent = where.value || \"………………………………\"; });
  } });
  const done = async () => { if (await confirmed(say.slipsDoneAsk, say.slipsDone)) { slips = []; again(); } };
  return h(\"section\", { class: \"slips\", \"aria-label\": say.keySlip },
    h(\"div\", { class: \"box warn no-print\" }, h(\"p\", {}, h(\"b\", {}, say.keyOnce)),
      h(\"div\", { class: \"row end\" }, h(\"div\", { class: \"field\" }, h(\"label\", { for: \"where\" }, say.slipWhere), where),
        button(say.print, () => print(), { class: \"main\" }), button(say.slipsDone, done))),
    slips.map(slipOf));
}

// Commands

/** Registers a driver. Returns the status and line of the reply; where the key is the office's, the page refuses it itself.
 * @type {(one: Registration) => Promise<{ status: number, line: string }>} */
async function register(one) {
  if (one.key === key()) return { status: 409, line: \"S2 key taken\" };
  const cell = (/** @type {string} */ text) => (/[\",\\r\\n]/.test(text) ? `\"${text.replaceAll('\"', '\"\"')}\"` : text);
  const row = HEAD.map((name) => cell(one[name])).join(\",\");
  const told = await command(\"/drivers\", `${HEAD.join(\",\")}\\n${row}\\n`);
  if (told.status === 201) slips.push({ name: one.name, key: one.key });
  return told;
}

let isActing = false;

/** Does something, once, and shows the page anew with what became of it.
 * @type {(work: () => Promise<{ status: number, line: string }>, expected: string, said: () => import(\"./office.js\").Content,
 *  again: (notice?: Node) => void) => Promise<void>} */
async function act(work, expected, said, again) {
  if (isActing) return;
  isActing = true;
  try {
    const { status, line } = await work();
    if (line === expected) again(notice(\"good\", said()));
    else again(isUnsure(status) ? notice(\"warn\", say.unsureDone) : notice(\"bad\", refusal(status, line)));
  } catch (fault) {
    if (!isAbort(fault)) again(notice(\"warn\", say.unsureDone));
  } finally {
    isActing = false;
  }
}

/** Gives a driver a new key, after a question.
 * @type {(person: any, again: (notice?: Node) => void) => Promise<void>} */
async function changeKey(person, again) {
  if (!await confirmed(telling(say.newKeyAsk, person.name), say.newKey)) return;
  const made = newKey();
  await act(async () => {
    const told = await command(`/drivers/${person.number}/key`, `${made}\\n`);
    if (told.line === `key ${person.number}` || isUnsure(told.status)) slips.push({ name: person.name, key: made });
    return told;
  }, `key ${person.number}`, () => telling(say.newKeyDone, person.name), again);
}

/** The form that changes a driver's name and base.
 * @type {(person: any, again: (notice?: Node) => void) => HTMLElement} */
function changeForms(person, again) {
  const name = h(\"input\", { \"aria-label\": `${say.fullName}: ${person.name}`, value: person.name, required: true });
  const base = h(\"input\", { type: \"date\", \"aria-label\": `${say.base}: ${person.name}`, min: FIRST_DAY, step: 7, value: person.base,
    required: true });
  const number = person.number;
  return h(\"details\", { class: \"change no-print\" }, h(\"summary\", { \"aria-label\": `${say.setBase}: ${person.name}` }, say.setBase),
    h(\"form\", { class: \"row\", onsubmit: (event) => {
      event.preventDefault();
      act(() => command(`/drivers/${number}/name`, `${name.value.trim()}\\n`), `name ${number}`,
        () => telling(say.nameDone, name.value.trim()), again);
    } }, name, h(\"button\", { class: \"small\" }, say.setName)),
    h(\"form\", { class: \"row\", onsubmit: (event) => {
      event.preventDefault();
      act(() => command(`/drivers/${number}/base/${base.value}`), `base ${base.value}`,
        () => telling((who) => say.baseDone(who, utcDay(minuteOf(base.value))), person.name), again);
    } }, base, h(\"button\", { class: \"small\" }, say.setBaseTo)));
}

// One driver

/** The Monday eight weeks ago.
 * @type {() => string} */
const usualBase = () => dateOf(now() - ((weekdayOf(now()) + 6) % 7) * DAY - DAYS_BEFORE * DAY);

/** @type {(people: any[], again: (notice?: Node) => void) => HTMLElement} the form for one driver */
function addForm(people, again) {
  const at = (/** @type {string} */ id) => $(id).value.trim(), person = proposed.person;
  const submit = (/** @type {Event} */ event) => {
    event.preventDefault();
    const one = { driver: at(\"f-number\"), holder: at(\"f-holder\"), key: newKey(), base: at(\"f-base\"), name: at(\"f-name\") };
    act(async () => {
      const told = await register(one);
      if (told.status === 201) proposed.person = null;
      return told;
    }, `registered ${one.driver}`, () => telling((who) => say.addedDriver(who, one.driver), one.name), again);
  };
  const fromFile = async (/** @type {File} */ file) => {
    const whose = holderOf(await file.arrayBuffer());
    $(\"f-file-told\").textContent = whose ? \"\" : say.noCard(file.name);
    if (whose) { $(\"f-name\").value = whose.name; $(\"f-holder\").value = whose.holder; }
  };
  return h(\"form\", { class: \"row end\", id: \"add\", onsubmit: submit },
    h(\"div\", { class: \"field\" }, h(\"label\", { for: \"f-file\" }, say.fromFile),
      h(\"input\", { id: \"f-file\", type: \"file\", onchange: (event) => fromFile(event.target.files[0]) }),
      h(\"span\", { id: \"f-file-told\", class: \"warn-text\", role: \"status\" })),
    field(\"f-number\", say.number, { type: \"number\", min: 1, max: 999999, value: Math.max(0, ...people.map((one) => one.number)) + 1 }),
    field(\"f-name\", say.fullName, { value: person?.name ?? \"\" }),
    field(\"f-holder\", say.card, { pattern: \"[0-9a-f]{30}\", size: 32, title: say.cardForm, value: person?.holder ?? \"\" }),
    field(\"f-base\", say.base, { type: \"date\", step: 7, min: FIRST_DAY, value: usualBase() }),
      h(\"button\", { class: \"main\" }, say.addDriver));
}

// Many drivers

/** The records of CSV as an office writes it (docs/FORMATS.md, 'CSV'); a semicolon may stand between fields.
 * @type {(text: string) => string[][]} */
function readRecords(text) {
  /** @type {string[][]} */
  const records = [];
  /** @type {string[]} */
  let fields = [];
  let at = text.startsWith(\"\\ufeff\") ? 1 : 0;
  const between = /^[^\\r\\n,]*;/.test(text.slice(at)) ? \";\" : \",\";
  const end = () => { if (fields.length > 1 || fields[0] !== \"\") records.push(fields); fields = []; };
  while (at < text.length) {
    const quoted = text[at] === '\"' ? /^\"((?:[^\"]|\"\")*)(?:\"|$)/.exec(text.slice(at)) : null;
    at += quoted ? quoted[0].length : 0;
    const rest = (new RegExp(`^[^\\r\\n${between}]*`).exec(text.slice(at)) ?? [\"\"])[0];
    at += rest.length;
    fields.push((quoted ? quoted[1].replaceAll('\"\"', '\"') : \"\") + rest);
    if (text[at] === between) { at += 1; if (at === text.length) fields.push(\"\"); continue; }
    at += text.startsWith(\"\\r\\n\", at) ? 2 : 1;
    end();
  }
  if (fields.length) end();
  return records;
}

/** The registrations of a CSV file: the columns that `register` takes; without the column `key` each gets a new one.
 * @type {(text: string) => Registration[] | null} */
function registrationsOf(text) {
  const [columns, ...rows] = readRecords(text);
  const isHead = (/** @type {string[]} */ names) => [...names].sort().join() === [...HEAD].sort().join();
  if (!columns || !(isHead(columns) || isHead([...columns, \"key\"]))) return null;
  return rows.map((row) => {
    const cells = Object.fromEntries(HEAD.map((name) => [name, row[columns.indexOf(name)] ?? \"\"]));
    return /** @type {Registration} */ ({ ...cells, key: cells.key || newKey() });
  });
}

/** Registers many drivers, one after the other, with a line for each.
 * @type {(file: File, list: HTMLElement, again: (notice?: Node) => void) => Promise<void>} */
async function addMany(file, list, again) {
  const all = registrationsOf(await file.text());
  if (all === null) { list.replaceChildren(h(\"li\", { class: \"bad\" }, h(\"span\", {}, say.csvHead(HEAD.join(\",\"))))); return; }
  let added = 0;
  const waiting = (/** @type {Registration} */ one) =>
    h(\"li\", {}, h(\"span\", {}, telling((who) => say.waiting(`${one.driver} ${who}`), one.name)));
  const items = all.map((one) => list.appendChild(waiting(one)));
  for (const [k, one] of all.entries()) {
    const { status, line } = await register(one).catch(() => ({ status: 0, line: \"\" }));
    const isAdded = status === 201;
    added += isAdded ? 1 : 0;
    items[k].className = isAdded ? \"good\" : \"bad\";
    items[k].replaceChildren(h(\"span\", {}, `${one.driver} `, written(one.name), \": \",
      isAdded ? say.isAdded : isUnsure(status) ? say.unsureDone : refusal(status, line)));
  }
  manyResults = [...items];
  again(notice(added === all.length ? \"good\" : \"warn\", say.addedMany(added, all.length)));
}
/** @type {HTMLElement[]} what became of each driver of the last file */
let manyResults = [];
atLogOut.push(() => { manyResults = []; });

/** @type {(again: (notice?: Node) => void) => HTMLElement} */
function manyForm(again) {
  const list = h(\"ul\", { class: \"list results\", id: \"many-results\", \"aria-live\": \"polite\" }, manyResults);
  const take = () => { manyResults = []; list.replaceChildren(); addMany(input.files[0], list, again); };
  const input = h(\"input\", { id: \"many\", type: \"file\", accept: \".csv,text/csv\", onchange: take });
  return h(\"div\", {}, h(\"p\", {}, say.manyHelp, \" \", h(\"code\", {}, \"driver,holder,base,name\")),
    h(\"div\", { class: \"field\" }, h(\"label\", { for: \"many\" }, say.manyFile), input), list);
}

/** @type {(again: (notice?: Node) => void) => import(\"./office.js\").Column[]} */
const columnsOf = (again) => [
  { head: say.colDriver, cell: (one) => [written(one.name), h(\"small\", {}, ` ${one.number}`)] },
    { head: say.card, cell: (one) => cardOf(one.holder) },
  { head: say.base, kind: \"when\", cell: (one) => utcDay(minuteOf(one.base)) }, { head: say.cards, kind: \"num\", cell: (one) => one.files },
  { head: say.newKey, cell: (one) => button(say.newKey, () => changeKey(one, again),
    { class: \"small no-print\", \"aria-label\": `${say.newKey}: ${one.name}` }) },
  { head: say.setBase, cell: (one) => changeForms(one, again) },
];

/** @type {(context: import(\"./office.js\").Context) => Promise<import(\"./office.js\").Content>} */
export async function page({ signal, again }) {
  const people = readDrivers(await ask(\"/drivers\", signal));
  const isOpen = proposed.person !== null || people.length === 0;
  return [head(say.people), slipsPart(again),
    slips.length && !proposed.person ? h(\"p\", { class: \"no-print\" }, link(\"/files\", say.toCards)) : null,
    h(\"details\", { class: \"no-print panel\", open: isOpen }, h(\"summary\", {}, say.addDriver), addForm(people, again),
      h(\"p\", { class: \"note\" }, `${say.base}: ${say.baseHelp}`)),
    h(\"details\", { class: \"no-print panel\", open: manyResults.length > 0 }, h(\"summary\", {}, say.addMany), manyForm(again)),
    people.length ? h(\"div\", { class: \"no-print\" }, listTable(columnsOf(again), people)) : null];
}
"
}

/// The text at `/office/start.js`.
fn office_start_js() -> &'static str {
    "// The start page: all drivers, most urgent first. What is left comes later, into cells that are there already.
import { h, listed, written } from \"/shared/page.js\";
import { DAY, localText, monthStep, now, textOf, tomorrow } from \"/shared/time.js\";
import { daysSince, length, localMoment, localTime, monthName, say } from \"/shared/say.js\";
import { leftOf, readForecast, readStanding } from \"/shared/tables.js\";
import { ask, button, head, link, listRow, listTable, printButton, thisMonth, zoneLine } from \"./office.js\";

const OVERDUE = 28, SOON = 21, GONE = 56, FEW_DAYS = 10, STALE = 4;

/** @typedef {import(\"/shared/tables.js\").Standing} Standing */
/** @typedef {{ level: \"bad\" | \"warn\" | \"look\" | \"good\", text: string, to: string, by: number, rank: number }} Task */

/** How many days ago the last known hour was; 0 where none is known.
 * @type {(row: Standing) => number} */
const ageOf = (row) => (row.held === null ? 0 : daysSince(row.held, now()));
/** Whether the driver may have left: nothing records that.
 * @type {(row: Standing) => boolean} */
const mayHaveLeft = (row) => row.held !== null && ageOf(row) > GONE;
/** @type {(row: Standing) => boolean} */
const isDue = (row) => row.held === null || ageOf(row) > SOON;

/** Whether the month is young, so that the one before is still of interest.
 * @type {() => boolean} */
const isEarly = () => Number(localText(now()).slice(8, 10)) <= FEW_DAYS;

/** What is to be done first: the first that holds. Within one rank the least `by` is the most urgent.
 * @type {(row: Standing) => Task} */
function taskOf(row) {
  const month = thisMonth(), before = monthStep(month, -1), age = ageOf(row), to = `/drivers/${row.driver}`;
  const tasks = [
    row.held === null && { level: \"bad\", text: row.files ? say.doNone : say.doNever, to: \"/files\", by: 0 },
    age > OVERDUE && { level: \"bad\", text: say.doLate(age), to: \"/files\", by: -age },
    age > SOON && { level: \"warn\", text: say.doSoon(OVERDUE - age), to: \"/files\", by: -age },
    row.by !== null && row.by - now() < FEW_DAYS * DAY && { level: \"warn\", text: say.doDebt(localMoment(row.by)), to: `${to}/${month}`,
      by: row.by },
    row.unknown > 0 && { level: \"warn\", text: say.doGaps(length(row.unknown)), to: `${to}/gaps`, by: -row.unknown },
    row.breaches > 0 && { level: \"look\", text: say.doBreaches(row.breaches), to: `${to}/${month}`, by: -row.breaches },
    isEarly() && row.last_month > 0 && { level: \"look\", text: say.doBreachesIn(row.last_month, monthName(before)), to: `${to}/${before}`,
      by: -row.last_month },
    { level: \"good\", text: say.doNothing, to: `${to}/${month}`, by: 0 },
  ];
  const rank = tasks.findIndex((task) => task !== false);
  return /** @type {Task} */ ({ ...tasks[rank], rank });
}

/** @type {Record<string, (row: Standing & { task: Task }) => boolean>} the rows that each sum counts */
const FILTERS = {
  all: () => true, download: isDue, gaps: (row) => row.unknown > 0, breaches: (row) => row.breaches > 0,
    before: (row) => row.last_month > 0,
  debts: (row) => row.debts > 0, fine: (row) => row.task.level === \"good\",
};

/** @type {(row: Standing) => import(\"./office.js\").Content} the last known hour, and how long ago it was */
function heldCell(row) {
  if (row.held === null) return \"–\";
  const age = ageOf(row);
  return h(\"span\", { class: \"v\" }, localMoment(row.held),
    h(\"small\", { class: age > OVERDUE ? \"bad-text\" : age > SOON ? \"warn-text\" : null }, ` ${say.ago(age)}`));
}
/** @type {(shown: boolean, value: () => string, more: () => string) => import(\"./office.js\").Content} a value and a remark, or a dash */
const withMore = (shown, value, more) => (shown ? h(\"span\", { class: \"v\" }, value(), h(\"small\", {}, ` ${more()}`)) : \"–\");
/** @type {(isEmpty: (row: Standing) => boolean) => (row: Standing) => string} */
const dimIf = (isEmpty) => (row) => (isEmpty(row) ? \"quiet dim\" : \"\");

/** @type {(leftCells: Map<number, HTMLElement>) => import(\"./office.js\").Column[]} */
function columnsOf(leftCells) {
  const month = thisMonth(), before = monthStep(month, -1);
  const breachesOf = (/** @type {\"last_month\" | \"breaches\"} */ name, /** @type {string} */ which) => ({
    head: say.colBreaches(monthName(which).split(\" \")[0]), kind: \"num\", kindOf: dimIf((row) => row[name] === 0),
    cell: (/** @type {Standing} */ row) => (row[name] ? link(`/drivers/${row.driver}/${which}`, String(row[name])) : \"–\"),
  });
  return [
    { head: say.colDriver, cell: (row) => [link(`/drivers/${row.driver}/${month}`, written(row.name)), h(\"small\", {}, ` ${row.driver}`)] },
    { head: say.colFirst, kind: \"first\", cell: (row) => link(row.task.to, h(\"span\", {}, row.task.text),
      { class: `todo ${row.task.level}` }) },
    { head: say.colHeld, kind: \"when\", kindOf: (row) => (row.held === null ? \"quiet\" : \"\"), cell: heldCell },
    { head: say.gaps, kind: \"num\", kindOf: dimIf((row) => row.unknown === 0),
      cell: (row) => withMore(row.unknown > 0, () => length(row.unknown), () => say.inPlaces(row.gaps)) },
    breachesOf(\"last_month\", before), breachesOf(\"breaches\", month),
    { head: say.colDebts, kind: \"num\", kindOf: dimIf((row) => row.debts === 0),
      cell: (row) => withMore(row.debts > 0, () => length(row.owes), () => `${say.before} ${localMoment(row.by)}`) },
    { head: say.colLeft, kind: \"num left-cell\", cell: (row) => leftCells.get(row.driver) },
  ];
}

/** The driving that is left, from a forecast: nothing where the last known hour is too old; and what isn't known is said.
 * @type {(row: import(\"/shared/tables.js\").Forecast) => import(\"./office.js\").Content} */
function leftText(row) {
  if (row.held === null || row.ahead === null || row.ahead.start - row.held > STALE * DAY) return \"–\";
  const left = leftOf(row.ahead);
  const least = Math.min(...[left.day, left.week, left.isYoung ? null : left.two].map((one) => one ?? Infinity));
  return [link(`/drivers/${row.driver}/left`, length(least)), left.isYoung ? h(\"small\", {}, ` ${say.twoUnknown}`) : null];
}

/** Fills the cells of what is left; `?` if that fails.
 * @type {(cells: Map<number, HTMLElement>, signal: AbortSignal) => Promise<void>} */
async function fillLeft(cells, signal) {
  try {
    const rows = readForecast(await ask(`/forecast/${textOf(tomorrow()).replace(\" \", \"/\")}`, signal));
    for (const row of rows) cells.get(row.driver)?.replaceChildren(...listed([leftText(row)]));
  } catch {
    cells.forEach((cell) => cell.replaceChildren(\"?\"));
  }
}

/** The sums, as buttons that choose rows.
 * @type {(rows: any[], show: (chosen: string) => void) => { node: HTMLElement, press: (chosen: string) => void }} */
function sums(rows, show) {
  const month = thisMonth(), before = monthStep(month, -1);
  let chosen = \"all\";
  const all = [[\"all\", say.all, \"\"], [\"download\", say.sumDownload, \"bad\"], [\"gaps\", say.sumGaps, \"warn\"],
    ...(isEarly() ? [[\"before\", say.sumBreaches(monthName(before)), \"\"]] : []), [\"breaches\", say.sumBreaches(monthName(month)), \"\"],
      [\"debts\", say.sumDebts, \"\"],
    [\"fine\", say.sumFine, \"good\"]];
  const buttons = all.map(([name, text, level]) => [name, h(\"button\", {
    type: \"button\", class: level, onclick: () => { chosen = chosen === name ? \"all\" : name; show(chosen); },
  }, h(\"b\", {}, String(rows.filter(FILTERS[name]).length)), text)]);
  return {
    node: h(\"ul\", { class: \"sums no-print\" }, buttons.map(([, one]) => h(\"li\", {}, one))),
    press: (name) => buttons.forEach(([each, one]) => one.setAttribute(\"aria-pressed\", String(each === name))),
  };
}

/** @type {(rows: Standing[]) => import(\"./office.js\").Content} the drivers of whom nothing has been known for long, folded */
const goneList = (rows) => (rows.length === 0 ? null : h(\"details\", { class: \"gone\" }, h(\"summary\", {}, say.gone(rows.length, GONE)),
  h(\"p\", { class: \"note\" }, say.goneWhy),
  h(\"ul\", {}, rows.map((row) => h(\"li\", {}, link(`/drivers/${row.driver}/${thisMonth()}`, written(row.name)),
    ` (${row.driver}) · ${say.colHeld} `, localMoment(/** @type {number} */ (row.held), true))))));

/** @type {(context: import(\"./office.js\").Context) => Promise<import(\"./office.js\").Content>} */
export async function page({ signal, again }) {
  const standing = readStanding(await ask(`/standing/${thisMonth()}`, signal));
  const rows = standing.filter((row) => !mayHaveLeft(row)).map((row) => ({ ...row, task: taskOf(row) }));
  rows.sort((a, b) => a.task.rank - b.task.rank || a.task.by - b.task.by || a.driver - b.driver);
  const leftCells = new Map(rows.map((row) => [row.driver, h(\"span\", { class: \"v\" }, \"…\")]));
  const columns = columnsOf(leftCells), body = h(\"tbody\", { role: \"rowgroup\" }), count = h(\"p\", { class: \"note\", role: \"status\" });
  const show = (/** @type {string} */ chosen) => {
    const shown = rows.filter(FILTERS[chosen]);
    body.replaceChildren(...shown.map((row) => listRow(columns, row)));
    count.textContent = say.showing(shown.length, rows.length);
    filters.press(chosen);
  };
  const filters = sums(rows, show), table = listTable(columns, rows, body);
  show(\"all\");
  fillLeft(leftCells, signal);
  return [head(say.startHead(localMoment(now(), true).slice(0, -6)), h(\"span\", { class: \"note\" }, say.asOf(localTime(now()))),
    button(say.again, () => again()), printButton()),
  rows.length === 0 && standing.length === 0 ? h(\"p\", { class: \"box\" }, say.noDriversYet, \" \", link(\"/people\", say.people))
    : [filters.node, table, count],
  goneList(standing.filter(mayHaveLeft)), zoneLine()];
}
"
}

/// The text at `/office/words-de.js`.
fn office_words_de_js() -> &'static str {
    "// The office's German sentences. words-en.js has the same names in the same order.
import { many } from \"/shared/words-de.js\";

export const WORDS = {
  // The frame, and what several pages use
  office: \"Tacho-Büro\",
  nav: \"Seiten\",
  skip: \"Zum Inhalt\",
  start: \"Fahrer heute\",
  people: \"Fahrer verwalten\",
  inspection: \"Kontrolle\",
  keyLabel: \"Büroschlüssel\",
  keyHelp: \"Er bleibt in diesem Tab, bis Sie sich abmelden oder den Tab schließen. Speichern Sie ihn an einem gemeinsamen Rechner nicht im Browser.\",
  signIn: \"Anmelden\",
  print: \"Drucken\",
  keepIt: \"Abbrechen\",
  again: \"Aktualisieren\",
  colDriver: \"Fahrer\",
  number: \"Nummer\",
  base: \"Geprüft ab\",
  entries: \"Einträge\",
  letter: \"Brief\",
  gapForm: \"Lücken ausfüllen\",
  look: \"Diesen Tag ansehen\",
  noDriversYet: \"Noch ist kein Fahrer angemeldet.\",
  noSuchTime: \"Diese Ortszeit gibt es nicht: Die Uhr wurde vorgestellt.\",
  whichTime: (time) => `${time} kommt in dieser Nacht zweimal vor. Welches ist gemeint?`,
  nthTime: (k) => (k === 0 ? \"das erste\" : \"das zweite\"),
  twoUnknown: \"zwei Wochen: ?\",

  // What can go wrong
  badKey: \"Diesen Schlüssel gibt es nicht. Prüfen Sie ihn.\",
  isDown: \"Das Archiv ist im Augenblick nicht erreichbar. Was gespeichert war, ist nicht verloren. Versuchen Sie es in einer Minute noch einmal.\",
  noConnection: \"Der Dienst läuft nicht, oder es gibt keine Verbindung. Was gespeichert war, ist nicht verloren. Fragen Sie den Betreuer des Dienstes (systemctl status tacho).\",
  unreadable: \"Das Archiv hat etwas geantwortet, was diese Seite nicht lesen kann; sie zeigt nichts davon. Programm und Seite sind vielleicht von zwei Versionen.\",
  stopped: \"Angehalten. Nichts wurde geändert.\",
  noPage: \"Diese Seite gibt es nicht.\",
  askAgain: (n) => `Zu viele Anfragen auf einmal. Die Seite wartet ${n} s und fragt dann selbst noch einmal.`,
  changing: \"Das Archiv hat sich geändert, während diese Seite gelesen wurde. Versuchen Sie es noch einmal.\",
  pageFault: \"Diese Seite hat einen Fehler. Nichts wurde geändert.\",
  idle: \"Sie sind abgemeldet: Eine halbe Stunde lang wurde keine Taste gedrückt und nichts angeklickt.\",
  leaveUnfinished: \"Dateien warten auf das Senden oder Stunden auf das Speichern. Sie würden ausgelassen.\",
  otherVersion: \"Das Programm hat jetzt eine andere Version.\",

  // What is refused, by its code
  refusals: {
    S1: \"Diese Nummer hat ein anderer Fahrer.\",
    S2: \"Diesen Schlüssel hat ein anderer Fahrer oder das Büro. Versuchen Sie es noch einmal: Es wird ein neuer gemacht.\",
    S3: \"Ein Fahrer mit dieser Karte ist schon angemeldet.\",
    S4: \"Es gibt diesen Fahrer nicht.\",
    S6: \"Das widerspricht dem, was da ist. Nichts wurde aufgenommen. Sehen Sie sich den Tag im Monat des Fahrers an, und die Einträge.\",
    S7: \"Diesen Eintrag gibt es nicht.\",
    S8: \"Ein Eintrag davon war schon zurückgezogen. Nichts wurde geändert.\",
    S9: \"Dieser Tag ist kein Montag.\",
    S14: \"Für diesen Fahrer ist kein Platz mehr.\",
    E9: \"Ein Wert hat eine andere Form, als er haben darf.\",
    E10: \"Der Name oder die Notiz ist zu lang oder hat ein Komma oder ein Anführungszeichen.\",
    E3: \"Eine Zeit ist nicht lesbar.\",
    E4: \"Die Zeiten sind nicht in der Reihenfolge.\",
    Z3: \"Dieses Datum liegt nicht in den Jahren 2000 bis 2099, die gelesen werden.\",
  },
  refusedOther: \"Das Archiv hat das abgelehnt, und nichts wurde geändert.\",

  // Drivers today
  startHead: (when) => `Fahrer am ${when}`,
  sumDownload: \"Dateien fällig\",
  sumGaps: \"mit unbekannten Stunden\",
  sumBreaches: (month) => `mit Verstößen im ${month.split(\" \")[0]}`,
  sumDebts: \"mit auszugleichender Ruhezeit\",
  sumFine: \"ohne Aufgabe\",
  all: \"Fahrer\",
  colFirst: \"Zuerst zu tun\",
  colBreaches: (month) => `Verstöße im ${month}`,
  colDebts: \"Auszugleichen\",
  colLeft: \"Morgen noch Lenkzeit\",
  ago: (n) => (n === 0 ? \"heute\" : n === 1 ? \"gestern\" : `vor ${n} Tagen`),
  doNever: \"Erste Kartendatei einlesen\",
  doNone: \"Neuere Kartendatei einlesen\",
  doLate: (n) => `Kartendatei ${many(n - 28, \"Tag\", \"Tage\")} überfällig`,
  doSoon: (n) => `Kartendatei fällig in ${many(n, \"Tag\", \"Tagen\")}`,
  doGaps: (n) => `${n} klären: was war?`,
  doDebt: (by) => `Ruhezeit auszugleichen vor ${by}`,
  doBreaches: (n) => `${many(n, \"Verstoß\", \"Verstöße\")} ansehen`,
  doBreachesIn: (n, month) => `${many(n, \"Verstoß\", \"Verstöße\")} im ${month} ansehen`,
  doNothing: \"Nichts zu tun\",
  before: \"vor\",
  inPlaces: (n) => many(n, \"Lücke\", \"Lücken\"),
  showing: (n, all) => `${n} von ${all} Fahrern`,
  asOf: (when) => `Stand ${when}`,
  gone: (n, days) => `${many(n, \"Fahrer\", \"Fahrer\")} ohne bekannte Stunde seit ${days} Tagen`,
  goneWhy: \"Das Archiv hält nicht fest, dass ein Fahrer ausgeschieden ist. Wer wieder fährt, braucht eine neue Kartendatei.\",

  // Card files
  cardsHelp: \"Dateien von Fahrerkarten (.ddd, .c1b, .tgd, .esm), je höchstens 262.144 Bytes. Signaturen werden nicht geprüft. Behalten Sie die Dateien: das Archiv behält nur, was etwas Neues hat.\",
  drop: \"Kartendateien hierher ziehen, oder wählen\",
  choose: \"Dateien wählen\",
  stop: \"Anhalten\",
  goOn: \"Weiter\",
  clearList: \"Liste leeren\",
  sent: (n, all) => `${n} von ${all} gesendet`,
  counted: (added, same, others) => `${added} aufgenommen, ${same} ohne Neues, ${others} nicht aufgenommen`,
  stoppedFiles: (n) => `Angehalten: ${many(n, \"Datei wartet\", \"Dateien warten\")}.`,
  waiting: (name) => `${name}: wartet`,
  sending: (name) => `${name}: wird gesendet …`,
  added: (name, who, k) => `${name}: bei ${who} aufgenommen als Datei ${k}.`,
  repeated: (name, who) => `${name}: nichts Neues für ${who}. Behalten Sie die Datei: das Archiv tut es nicht.`,
  unknownCard: (name, card) => `${name}: die Karte eines Fahrers, der nicht angemeldet ist${card ? ` (${card})` : \"\"}. Nichts wurde aufgenommen.`,
  register: \"Diesen Fahrer anmelden\",
  contradicts: (name, at) => `${name}: widerspricht dem, was für ${at} da ist. Nichts wurde aufgenommen. Entweder ist ein Eintrag von Hand falsch, oder zwei Dateien der Karte unterscheiden sich.`,
  generations: (name) => `${name}: die zwei Generationen der Karte widersprechen sich. Nichts wurde aufgenommen.`,
  tryPart: { first: \"Nur die erste Generation lesen\", second: \"Nur die zweite Generation lesen\" },
  noCard: (name) => `${name}: keine Datei einer Fahrerkarte.`,
  noCards: (n) => `${many(n, \"andere Datei\", \"andere Dateien\")} in den Ordnern: dem Namen nach keine Kartendateien, nicht gesendet.`,
  broken: (name) => `${name}: keine Datei einer Fahrerkarte, oder beschädigt. Nichts wurde aufgenommen.`,
  tooLarge: (name) => `${name}: zu groß (höchstens 262.144 Bytes). Nicht gesendet.`,
  refused: (name, line) => `${name}: abgelehnt (${line}). Nichts wurde aufgenommen.`,
  unsure: (name) => `${name}: unklar, ob sie aufgenommen wurde. Senden Sie sie noch einmal: wenn ja, bringt sie nichts Neues.`,
  sendAgain: \"Noch einmal senden\",

  // A driver's month
  source: \"Quelle\",
  entriesOf: (n) => many(n, \"Eintrag von Hand\", \"Einträge von Hand\"),

  // The month of all drivers
  monthAllHead: (month) => `Alle Fahrer im ${month}`,
  extent: \"Ausmaß\",
  breach: \"Verstoß\",
  unseenHelp: (all) => `„Nicht geprüft“ zählt die Minuten des Monats, die vergangen (${all} je Fahrer) und nicht geprüft sind. Wo nichts geprüft ist, wird kein Verstoß gezeigt.`,

  // What is left
  coming: \"Das kommt, auch wenn nicht gefahren wird:\",
  youngHelp: (d) => `Was vor ${d} gefahren wurde, ist nicht bekannt; deshalb steht hier nichts von zwei Wochen.`,
  leftCrew: \"Nichts ist zu sagen: Am Ende dessen, was bekannt ist, steht ein zweiter Fahrer.\",
  young: (d) => `bekannt ab ${d}`,
  binds: { day: \"\", week: \"Woche\", two: \"zwei Wochen\" },
  leftCols: [\"Fahrer\", \"Bekannt bis\", \"Lenken an diesem Tag\", \"Erste Unterbrechung nach\", \"Tägliche Ruhe beginnt bis\", \"Noch in der Woche\", \"Noch in zwei Wochen\", \"Wochenruhe beginnt bis\", \"Verbraucht: kurze Ruhen, lange Tage\"],
  notBinding: \"wird diese Woche nicht erreicht\",
  leftUntold: \"Von diesen Fahrern ist nichts zu sagen\",

  // Manage drivers
  card: \"Karte\",
  fullName: \"Name\",
  fromFile: \"Karte und Name aus einer Kartendatei\",
  cardForm: \"30 hexadezimale Ziffern, wie in einer Kartendatei\",
  addDriver: \"Fahrer hinzufügen\",
  addedDriver: (name, number) => `${name} ist als Fahrer ${number} angemeldet. Drucken Sie den Zettel mit dem Schlüssel.`,
  addMany: \"Viele Fahrer hinzufügen\",
  manyHelp: \"Eine CSV-Datei mit einer Zeile je Fahrer unter diesem Kopf; jeder Fahrer bekommt einen neuen Schlüssel:\",
  manyFile: \"CSV-Datei\",
  csvHead: (head) => `Die erste Zeile muss ${head} sein, mit oder ohne key.`,
  addedMany: (n, all) => `${n} von ${many(all, \"Fahrer\", \"Fahrern\")} angemeldet. Drucken Sie die Zettel.`,
  isAdded: \"angemeldet\",
  setName: \"Name setzen\",
  nameDone: (name) => `Der Name ist jetzt ${name}.`,
  setBase: \"Ändern\",
  setBaseTo: \"Montag setzen\",
  baseHelp: \"Ein Montag. Ein späterer verbirgt, was davor war; die Stunden bleiben.\",
  baseDone: (name, day) => `${name} wird ab ${day} geprüft.`,
  newKey: \"Neuer Schlüssel\",
  newKeyAsk: (name) => `Ein neuer Schlüssel für ${name}? Der jetzige öffnet dann nichts mehr.`,
  newKeyDone: (name) => `${name} hat einen neuen Schlüssel. Drucken Sie den Zettel.`,
  keyOnce: \"Wird einmal gezeigt. Drucken Sie ihn, und geben Sie ihn dem Fahrer selbst.\",
  keySlip: \"Schlüsselzettel\",
  slipHead: \"Ihre Stunden im Netz\",
  slipText: \"Geben Sie diesen Schlüssel ein bei\",
  slipCare: \"Behalten Sie ihn für sich: wer ihn hat, kann Ihre Stunden lesen. Kennt ihn noch jemand, sagen Sie es dem Büro; es macht einen neuen, und dieser öffnet dann nichts mehr.\",
  slipWhere: \"Adresse der Fahrerseite\",
  slipsDone: \"Die Zettel sind gedruckt\",
  slipsDoneAsk: \"Die Schlüssel werden nicht noch einmal gezeigt.\",
  toCards: \"Zurück zu den Kartendateien\",
  unsureDone: \"Es ist nicht bekannt, ob das geschehen ist. Sehen Sie in der Liste nach, und tun Sie es sonst noch einmal.\",

  // An inspection
  periodFrom: \"Von (UTC)\",
  periodTo: \"Bis (UTC)\",
  badPeriod: \"Der Zeitraum muss 1 bis 366 Tage haben.\",
  give: \"Was Sie geben müssen\",
  help: \"Was Ihnen helfen kann\",
  helpText: \"Die Monate des Zeitraums, zum Ansehen und Drucken:\",
  makeTar: \"Als eine Datei sichern (.tar)\",
  tarHelp: (name) => `Gespeichert wird ${name}. Eine Kartendatei darin ist Byte für Byte die eingelesene.`,
  fileName: \"Datei\",
  size: \"Bytes\",
  covers: \"Zeitraum\",
  entriesFile: \"Einträge von Hand\",
  knownOf: (n, all) => `${n} von ${all} Tagen ohne Lücke bekannt`,
  notHeld: \"In diesem Zeitraum nicht bekannt\",
  missing: \"Was nicht in diesem Archiv ist\",
  inspMissing: [\"Kartendateien, die nichts Neues hatten oder abgelehnt wurden: das Büro behält sie selbst\", \"Dateien der Fahrzeugeinheiten\", \"Ausdrucke und handschriftliche Aufzeichnungen\", \"die Liste der Fahrer und Fahrzeuge\", \"Dienstpläne und Aufzeichnungen der Arbeitszeit\"],

  // A letter
  from: \"Absender\",
  senderHelp: \"Bleibt nur in diesem Browser.\",
  letterLanguage: \"Sprache des Briefs\",
  date2: \"Datum\",
  cardNo: \"Fahrerkarte\",
  letterHead: (month) => `Ihre Lenk- und Ruhezeiten im ${month}`,
  dear: (name) => `Guten Tag ${name},`,
  letterIntro: (n, month) => `wir haben Ihre Stunden im ${month} nach der Verordnung (EG) Nr. 561/2006 geprüft. ${n === 1 ? \"Zu einem Punkt\" : `Zu ${n} Punkten`} bitten wir Sie um Antwort:`,
  letterNone: \"In diesem Monat gibt es keinen abgeschlossenen Verstoß, über den zu schreiben wäre.\",
  letterOpen: (n) => `${n === 1 ? \"Ein Verstoß ist\" : `${n} Verstöße sind`} ausgelassen: der Beleg ist noch nicht vollständig. Lesen Sie zuerst die nächste Kartendatei ein.`,
  letterAsk: \"Ist hier etwas falsch, oder fehlt etwas? Dann sagen Sie es uns bitte, und bringen Sie Ihren Ausdruck oder Ihre Notiz von diesem Tag mit. Sonst sagen Sie uns bitte, wie es dazu kam. Bitte antworten Sie bis\",
  letterInstruct: \"Wir weisen Sie an, diese Grenzen einzuhalten. Ist eine Fahrt innerhalb der Grenzen nicht zu schaffen, sagen Sie es uns, bevor Sie eine überschreiten.\",
  letterFiles: (files, program) => `Quelle: Kartendateien ${files}. Geprüft mit ${program}. Zeiten in UTC wie auf der Karte, Ortszeit in Klammern.`,
  letterHand: \"In diesem Monat von Hand eingetragen:\",
  answer: \"Antwort des Fahrers\",
  signed: \"Ort, Datum, Unterschrift\",
  forOffice: \"Für das Unternehmen\",
  forDriver: \"Fahrer: gelesen und beantwortet\",

  // Gaps
  gapsHelp: \"Zeiten sind Ortszeit. Schreiben Sie nur, was ein Papier sagt (Dienstplan, Urlaubsliste, Ausdruck), und nennen Sie das Papier.\",
  neverIllness: \"Eine Notiz kann nicht gelöscht werden, und der Fahrer kann sie lesen. Schreiben Sie nie eine Krankheit hinein: „abwesend nach Liste 7“ genügt.\",
  workHelp: \"Auto oder Transporter fahren, Werkstatt, Kurs, Laden: andere Arbeit. Urlaub, Krankheit, Freizeit: Ruhe.\",
  noGapsAtAll: \"Vom Beginn der Prüfung bis zum Ende dessen, was bekannt ist, gibt es keine Lücken.\",
  what: \"Was war\",
  noteLabel: \"Papier (Notiz)\",
  author: \"Ihr Name\",
  papers: [\"Dienstplan\", \"Urlaubsliste\", \"Ausdruck\", \"Werkstattauftrag\"],
  textTooLong: (n) => `Höchstens ${n} Bytes.`,
  textSigns: \"Kein Komma, kein Anführungszeichen und kein Steuerzeichen.\",
  skipRow: \"offen lassen\",
  split: \"Teilen\",
  splitAt: \"Teilen um (Ortszeit)\",
  splitWithin: \"Wählen Sie eine Zeit innerhalb dieser Stunden.\",
  splitDays: (n) => `Nach Tagen teilen (${n})`,
  rows: (n) => `${many(n, \"Zeile wird\", \"Zeilen werden\")} gespeichert.`,
  save: \"Speichern\",
  saving: \"Wird gespeichert …\",
  savedEntries: (a, b) => (a === b ? `Gespeichert als Eintrag ${a}.` : `Gespeichert als Einträge ${a} bis ${b}.`),
  notSaved: \"Nichts wurde gespeichert. Versuchen Sie es noch einmal.\",
  looking: \"Die Verbindung brach ab. Es wird nachgesehen, was da ist …\",
  lookAgain: \"Noch einmal nachsehen\",
  otherEntries: \"Die Verbindung brach ab, und inzwischen kamen andere Einträge hinzu. Das Formular zeigt, was noch unbekannt ist; die Einträge zeigen das Übrige.\",
  unsureEntries: \"Es ist nicht bekannt, ob das gespeichert wurde. Bevor das bekannt ist, kann nichts gesendet werden.\",
  leaveGaps: \"Hier sind Stunden ausgefüllt und nicht gespeichert.\",
  leaveUnsaved: \"Verlassen, ohne zu speichern\",
  stay: \"Bleiben\",

  // Entries
  entriesHelp: \"Stunden, die von Hand eingetragen wurden. Ein zurückgezogener Eintrag bleibt in der Liste und gibt nichts.\",
  noEntries: \"Es gibt keine Einträge.\",
  fromTo: \"Von, bis\",
  state: \"Stand\",
  withdraw: \"Zurückziehen\",
  withdrawRange: \"Alle diese zurückziehen\",
  firstEntry: \"Von Eintrag\",
  lastEntry: \"Bis Eintrag\",
  withdrawAsk: (a, b) => (a === b ? `Eintrag ${a} zurückziehen? Das ist endgültig; die Stunden können neu eingetragen werden.` : `Die ${b - a + 1} Einträge von ${a} bis ${b} zurückziehen? Das ist endgültig; die Stunden können neu eingetragen werden.`),
  withdrawn: (a, b) => (a === b ? `Eintrag ${a} ist zurückgezogen.` : `Die Einträge ${a} bis ${b} sind zurückgezogen.`),
  unsureWithdrawn: \"Die Verbindung brach ab. Die Liste zeigt, was jetzt zurückgezogen ist.\",
};
"
}

/// The text at `/office/words-en.js`.
fn office_words_en_js() -> &'static str {
    "// The office's English sentences. words-de.js has the same names in the same order.
import { many } from \"/shared/words-en.js\";

export const WORDS = {
  // The frame, and what several pages use
  office: \"Tachograph office\",
  nav: \"Pages\",
  skip: \"To the content\",
  start: \"Drivers today\",
  people: \"Manage drivers\",
  inspection: \"Inspection\",
  keyLabel: \"Office key\",
  keyHelp: \"It stays in this tab until you log out or close the tab. Don't let the browser save it on a shared computer.\",
  signIn: \"Sign in\",
  print: \"Print\",
  keepIt: \"Cancel\",
  again: \"Refresh\",
  colDriver: \"Driver\",
  number: \"Number\",
  base: \"Examined from\",
  entries: \"Entries\",
  letter: \"Letter\",
  gapForm: \"Fill in gaps\",
  look: \"Look at that day\",
  noDriversYet: \"No driver is registered yet.\",
  noSuchTime: \"This local time doesn't exist: the clock was put forward.\",
  whichTime: (time) => `${time} comes twice in this night. Which is meant?`,
  nthTime: (k) => (k === 0 ? \"the first\" : \"the second\"),
  twoUnknown: \"two weeks: ?\",

  // What can go wrong
  badKey: \"This key isn't known. Check it, or ask whoever keeps the service.\",
  isDown: \"The archive can't be reached at the moment. Nothing that was saved is lost. Try again in a minute; if that doesn't help, ask whoever keeps the service.\",
  noConnection: \"The service isn't running, or there is no connection to it. Nothing that was saved is lost. Ask whoever keeps the service (systemctl status tacho).\",
  unreadable: \"The archive gave a reply that this page can't read, so it shows none of it. Program and page may be of two versions.\",
  stopped: \"Stopped. Nothing was changed.\",
  noPage: \"There is no such page.\",
  askAgain: (n) => `Too many requests at once. The page waits ${n} s, and asks again by itself.`,
  changing: \"The archive changed while this page was read. Try again.\",
  pageFault: \"This page has a fault. Nothing was changed.\",
  idle: \"You are logged out: for half an hour no key was pressed and nothing was clicked.\",
  leaveUnfinished: \"Files wait to be sent, or hours to be saved. They would be left out.\",
  otherVersion: \"The program is of another version now.\",

  // What is refused, by its code
  refusals: {
    S1: \"Another driver has this number.\",
    S2: \"Another driver, or the office, has this key. Try again: a new key is made.\",
    S3: \"A driver with this card is registered already.\",
    S4: \"There is no such driver.\",
    S6: \"This contradicts what is held. Nothing was taken. Look at the day in the driver's month, and at the entries.\",
    S7: \"There is no such entry.\",
    S8: \"An entry of these was withdrawn before. Nothing was changed.\",
    S9: \"This day isn't a Monday.\",
    S14: \"The driver has no room for more.\",
    E9: \"A value has another form than it may have.\",
    E10: \"The name or the note is too long, or has a comma or a double quote.\",
    E3: \"A time can't be read.\",
    E4: \"The times aren't in order.\",
    Z3: \"This date is out of the range that is read, 2000 to 2099.\",
  },
  refusedOther: \"The archive refused this, and nothing was changed.\",

  // Drivers today
  startHead: (when) => `Drivers on ${when}`,
  sumDownload: \"card files due\",
  sumGaps: \"with unknown hours\",
  sumBreaches: (month) => `with breaches in ${month.split(\" \")[0]}`,
  sumDebts: \"with rest to make up\",
  sumFine: \"with nothing to do\",
  all: \"drivers\",
  colFirst: \"First to do\",
  colBreaches: (month) => `Breaches in ${month}`,
  colDebts: \"Rest to make up\",
  colLeft: \"Driving left tomorrow\",
  ago: (n) => (n === 0 ? \"today\" : n === 1 ? \"yesterday\" : `${n} days ago`),
  doNever: \"Import the first card file\",
  doNone: \"Import a newer card file\",
  doLate: (n) => `Card file ${many(n - 28, \"day\", \"days\")} overdue`,
  doSoon: (n) => `Card file due in ${many(n, \"day\", \"days\")}`,
  doGaps: (n) => `Fill in ${n} unknown`,
  doDebt: (by) => `Rest to be made up before ${by}`,
  doBreaches: (n) => `Look at ${many(n, \"breach\", \"breaches\")}`,
  doBreachesIn: (n, month) => `Look at ${many(n, \"breach\", \"breaches\")} in ${month}`,
  doNothing: \"Nothing to do\",
  before: \"before\",
  inPlaces: (n) => many(n, \"gap\", \"gaps\"),
  showing: (n, all) => `${n} of ${all} drivers`,
  asOf: (when) => `As of ${when}`,
  gone: (n, days) => `${many(n, \"driver\", \"drivers\")} without a known hour for ${days} days`,
  goneWhy: \"The archive doesn't record that a driver has left. Whoever drives again needs a new card file.\",

  // Card files
  cardsHelp: \"Files of driver cards (.ddd, .c1b, .tgd, .esm), up to 262,144 bytes each. Signatures aren't verified. Keep the files: the archive keeps only those with something new.\",
  drop: \"Drop card files here, or choose them\",
  choose: \"Choose files\",
  stop: \"Stop\",
  goOn: \"Go on\",
  clearList: \"Clear the list\",
  sent: (n, all) => `${n} of ${all} sent`,
  counted: (added, same, others) => `${added} added, ${same} with nothing new, ${others} not taken`,
  stoppedFiles: (n) => `Stopped: ${many(n, \"file waits\", \"files wait\")}.`,
  waiting: (name) => `${name}: waiting`,
  sending: (name) => `${name}: being sent …`,
  added: (name, who, k) => `${name}: added to ${who} as file ${k}.`,
  repeated: (name, who) => `${name}: nothing new for ${who}. Keep the file: the archive doesn't.`,
  unknownCard: (name, card) => `${name}: the card of a driver who isn't registered${card ? ` (${card})` : \"\"}. Nothing was taken.`,
  register: \"Register this driver\",
  contradicts: (name, at) => `${name}: contradicts what is held for ${at}. Nothing was taken. Either hours entered by hand are wrong, or two files of the card differ.`,
  generations: (name) => `${name}: the two generations of this card contradict each other. Nothing was taken.`,
  tryPart: { first: \"Read the first generation alone\", second: \"Read the second generation alone\" },
  noCard: (name) => `${name}: no file of a driver card.`,
  noCards: (n) => `${many(n, \"other file\", \"other files\")} in the folders: no card files by their names, and not sent.`,
  broken: (name) => `${name}: no file of a driver card, or damaged. Nothing was taken.`,
  tooLarge: (name) => `${name}: too large (at most 262,144 bytes). It wasn't sent.`,
  refused: (name, line) => `${name}: refused (${line}). Nothing was taken.`,
  unsure: (name) => `${name}: it isn't known whether it was taken. Send it again: if it was, it has nothing new.`,
  sendAgain: \"Send again\",

  // A driver's month
  source: \"Source\",
  entriesOf: (n) => many(n, \"entry by hand\", \"entries by hand\"),

  // The month of all drivers
  monthAllHead: (month) => `All drivers in ${month}`,
  extent: \"Extent\",
  breach: \"Breach\",
  unseenHelp: (all) => `“Not examined” counts the minutes of the month that have passed (${all} a driver) and weren't examined. Where nothing is examined no breach is shown.`,

  // What is left
  coming: \"This comes even if nothing is driven:\",
  youngHelp: (d) => `What was driven before ${d} isn't known, so nothing is said of two weeks.`,
  leftCrew: \"Nothing can be said: a second driver is recorded at the end of what is known.\",
  young: (d) => `known from ${d}`,
  binds: { day: \"\", week: \"week\", two: \"two weeks\" },
  leftCols: [\"Driver\", \"Known to\", \"Driving that day\", \"First break after\", \"Daily rest begins by\", \"Left in the week\", \"Left in two weeks\", \"Weekly rest begins by\", \"Used: short rests, long days\"],
  notBinding: \"isn't reached this week\",
  leftUntold: \"Nothing can be said of these drivers\",

  // Manage drivers
  card: \"Card\",
  fullName: \"Name\",
  fromFile: \"Take card and name from a card file\",
  cardForm: \"30 hexadecimal digits, as in a card file\",
  addDriver: \"Add a driver\",
  addedDriver: (name, number) => `${name} is registered as driver ${number}. Print the slip with the key.`,
  addMany: \"Add many drivers\",
  manyHelp: \"A CSV file with a row for each driver under this head; each driver gets a new key:\",
  manyFile: \"CSV file\",
  csvHead: (head) => `The first line has to be ${head}, with or without key.`,
  addedMany: (n, all) => `${n} of ${many(all, \"driver\", \"drivers\")} registered. Print the slips.`,
  isAdded: \"registered\",
  setName: \"Set name\",
  nameDone: (name) => `The name is ${name} now.`,
  setBase: \"Change\",
  setBaseTo: \"Set Monday\",
  baseHelp: \"A Monday. A later one hides what was before it; the hours stay.\",
  baseDone: (name, day) => `${name} is examined from ${day} on.`,
  newKey: \"New key\",
  newKeyAsk: (name) => `A new key for ${name}? The present key will open nothing from then on.`,
  newKeyDone: (name) => `${name} has a new key. Print the slip.`,
  keyOnce: \"Shown once. Print it, and give it to the driver in person.\",
  keySlip: \"Key slip\",
  slipHead: \"Your hours on the web\",
  slipText: \"Type this key at\",
  slipCare: \"Keep it to yourself: whoever has it can read your hours. If somebody else knows it, tell the office, which makes a new one; this one then opens nothing.\",
  slipWhere: \"Address of the drivers' page\",
  slipsDone: \"The slips are printed\",
  slipsDoneAsk: \"The keys won't be shown again.\",
  toCards: \"Back to the card files\",
  unsureDone: \"It isn't known whether this was done. Look at the list, and do it again if it wasn't.\",

  // An inspection
  periodFrom: \"From (UTC)\",
  periodTo: \"To (UTC)\",
  badPeriod: \"The period has to have 1 to 366 days.\",
  give: \"What you have to give\",
  help: \"What may help you\",
  helpText: \"The months of the period, to look at and to print:\",
  makeTar: \"Save as one file (.tar)\",
  tarHelp: (name) => `It is saved as ${name}. Where it has a card file, it is byte for byte the one that was imported.`,
  fileName: \"File\",
  size: \"Bytes\",
  covers: \"Covers\",
  entriesFile: \"entries by hand\",
  knownOf: (n, all) => `${n} of ${all} days known without a gap`,
  notHeld: \"Not known in this period\",
  missing: \"What isn't in this archive\",
  inspMissing: [\"card files that had nothing new or were refused: the office keeps them itself\", \"files of vehicle units\", \"printouts and manual records\", \"the list of drivers and vehicles\", \"rosters and records of working time\"],

  // A letter
  from: \"Sender\",
  senderHelp: \"Kept in this browser only.\",
  letterLanguage: \"Language of the letter\",
  date2: \"Date\",
  cardNo: \"Driver card\",
  letterHead: (month) => `Your driving and rest times in ${month}`,
  dear: (name) => `Dear ${name},`,
  letterIntro: (n, month) => `we have checked your hours in ${month} against Regulation (EC) No 561/2006. ${n === 1 ? \"One point needs\" : `${n} points need`} your attention:`,
  letterNone: \"There is no finished breach to write about in this month.\",
  letterOpen: (n) => `${many(n, \"breach is\", \"breaches are\")} left out: what shows ${n === 1 ? \"it isn't\" : \"them isn't\"} complete yet. Import the next card file first.`,
  letterAsk: \"Is anything wrong here, or missing? Then please tell us, and bring your printout or note of that day. Otherwise please tell us how it came about. Please answer by\",
  letterInstruct: \"We instruct you to keep to these limits. If a journey can't be done within them, tell us before you exceed one.\",
  letterFiles: (files, program) => `Source: card files ${files}. Examined with ${program}. Times in UTC as on the card, local time in brackets.`,
  letterHand: \"Entered by hand in this month:\",
  answer: \"Driver's answer\",
  signed: \"Place, date, signature\",
  forOffice: \"For the company\",
  forDriver: \"Driver: read and answered\",

  // Gaps
  gapsHelp: \"Times are local. Write only what a paper says (roster, leave list, printout), and name the paper.\",
  neverIllness: \"A note can't be deleted, and the driver can read it. Never write illness into it: “absent by list 7” is enough.\",
  workHelp: \"Driving a car or van, workshop, course, loading: other work. Leave, illness, free time: rest.\",
  noGapsAtAll: \"There are no gaps from the base to the end of what is known.\",
  what: \"What happened\",
  noteLabel: \"Paper (note)\",
  author: \"Your name\",
  papers: [\"roster\", \"leave list\", \"printout\", \"workshop order\"],
  textTooLong: (n) => `At most ${n} bytes.`,
  textSigns: \"No comma, no double quote and no control character.\",
  skipRow: \"leave open\",
  split: \"Split\",
  splitAt: \"Split at (local time)\",
  splitWithin: \"Choose a time within these hours.\",
  splitDays: (n) => `Split by days (${n})`,
  rows: (n) => `${many(n, \"row\", \"rows\")} will be saved.`,
  save: \"Save\",
  saving: \"Being saved …\",
  savedEntries: (a, b) => (a === b ? `Saved as entry ${a}.` : `Saved as entries ${a} to ${b}.`),
  notSaved: \"Nothing was saved. Try again.\",
  looking: \"The connection broke. Looking at what is there …\",
  lookAgain: \"Look again\",
  otherEntries: \"The connection broke, and other entries were added meanwhile. The form shows what is still unknown; the entries show the rest.\",
  unsureEntries: \"It isn't known whether this was saved. Before that is known, nothing can be sent.\",
  leaveGaps: \"Hours are filled in here and not saved.\",
  leaveUnsaved: \"Leave without saving\",
  stay: \"Stay\",

  // Entries
  entriesHelp: \"Hours that were entered by hand. An entry that is withdrawn stays listed, and gives nothing.\",
  noEntries: \"There are no entries.\",
  fromTo: \"From, to\",
  state: \"State\",
  withdraw: \"Withdraw\",
  withdrawRange: \"Withdraw all of these\",
  firstEntry: \"From entry\",
  lastEntry: \"To entry\",
  withdrawAsk: (a, b) => (a === b ? `Withdraw entry ${a}? That can't be undone; the hours can be entered again.` : `Withdraw the ${b - a + 1} entries from ${a} to ${b}? That can't be undone; the hours can be entered again.`),
  withdrawn: (a, b) => (a === b ? `Entry ${a} is withdrawn.` : `Entries ${a} to ${b} are withdrawn.`),
  unsureWithdrawn: \"The connection broke. The list shows what is withdrawn now.\",
};
"
}

/// The text at `/shared/page.css`.
fn shared_page_css() -> &'static str {
    ":root {
  color-scheme: light dark;
  --ground: #fff;
  --raised: #f5f6f8;
  --text: #1c2128;
  --note: #57606a;
  --line: #d5dae0;
  --edge: #767e87;
  --link: #0a5394;
  --bad: #a8201a;
  --bad-ground: #fdf0ef;
  --warn: #8a5300;
  --warn-ground: #fff6e3;
  --good: #1a6b3c;
  --good-ground: #eaf6ee;
  --rest: #5b8fc2;
  --available: #9270c4;
  --work: #b87100;
  --drive: #1f4e79;
  --back: #f0f2f4;
  --hour: #d7dbe0;
  --unseen: #55606b;
}

@media (prefers-color-scheme: dark) {
  :root {
    --ground: #14181d;
    --raised: #1d232a;
    --text: #e4e8ec;
    --note: #a3adb8;
    --line: #343c46;
    --edge: #7d8792;
    --link: #7fbcf5;
    --bad: #ff9189;
    --bad-ground: #351b1a;
    --warn: #f0b95a;
    --warn-ground: #33270f;
    --good: #7fd3a0;
    --good-ground: #15301f;
    --rest: #4d7aa6;
    --available: #9d83c4;
    --work: #d1892a;
    --drive: #86c1f7;
    --back: #20272e;
    --hour: #3a434d;
    --unseen: #c5ccd3;
  }
}

* {
  box-sizing: border-box;
}

[hidden] {
  display: none !important;
}

html {
  -webkit-text-size-adjust: 100%;
  text-size-adjust: 100%;
  scroll-padding-top: 1rem;
}

body {
  margin: 0;
  background: var(--ground);
  color: var(--text);
  font: 1rem/1.45 system-ui, \"Segoe UI\", \"Liberation Sans\", sans-serif;
  overflow-wrap: break-word;
}

h1 {
  font-size: 1.45rem;
  line-height: 1.2;
  margin: 0;
}

/* What somebody wrote (page.js): signs that turn the direction of writing, end lines, or pile up, change nothing beside it. */
bdi {
  display: inline-block;
  max-width: 100%;
  overflow: clip;
  overflow-clip-margin: 2px;
  text-decoration: inherit;
}

form h1 {
  margin-bottom: .5rem;
}

h2 {
  font-size: 1.12rem;
  line-height: 1.3;
  margin: 1.75rem 0 .5rem;
}

h3 {
  font-size: 1rem;
  margin: 0;
}

p {
  margin: .4rem 0;
}

a {
  color: var(--link);
  text-underline-offset: .15em;
}

.note {
  color: var(--note);
  font-size: .9rem;
}

.nums,
td,
th {
  font-variant-numeric: tabular-nums;
}

:focus-visible {
  outline: 3px solid var(--link);
  outline-offset: 2px;
  border-radius: 2px;
}

[tabindex=\"-1\"]:focus {
  outline: none;
}

/* The frame */
.bar {
  display: flex;
  flex-wrap: wrap;
  gap: .25rem 1.25rem;
  align-items: center;
  padding: .4rem 1.25rem;
  border-bottom: 1px solid var(--line);
  background: var(--raised);
}

.bar .brand {
  font-weight: 700;
}

.bar .tools {
  margin-left: auto;
  display: flex;
  gap: .5rem;
  align-items: center;
}

main {
  max-width: 78rem;
  margin: 0 auto;
  padding: 1.1rem 1.25rem 2rem;
}

footer {
  max-width: 78rem;
  margin: 0 auto;
  padding: .75rem 1.25rem 2rem;
  color: var(--note);
  font-size: .85rem;
}

#busy {
  position: fixed;
  left: 50%;
  bottom: 1rem;
  transform: translateX(-50%);
  display: flex;
  gap: .75rem;
  align-items: center;
  padding: .6rem 1rem;
  border: 1px solid var(--edge);
  border-radius: .4rem;
  background: var(--ground);
  box-shadow: 0 4px 16px #0004;
  z-index: 3;
  max-width: calc(100vw - 2rem);
}

#busy:empty,
#message:empty {
  display: none;
}

[aria-busy=\"true\"] {
  opacity: .6;
}

.head {
  display: flex;
  flex-wrap: wrap;
  gap: .5rem 1rem;
  align-items: center;
  justify-content: space-between;
  margin-bottom: .75rem;
}

.row {
  display: flex;
  flex-wrap: wrap;
  gap: .5rem;
  align-items: center;
}

label {
  font-size: .9rem;
}

.field {
  display: grid;
  gap: .2rem;
}

input,
select,
button,
.button,
textarea {
  min-height: 2.6rem;
  padding: .4rem .75rem;
  border: 1px solid var(--edge);
  border-radius: .3rem;
  background: var(--ground);
  color: var(--text);
  font: inherit;
  max-width: 100%;
}

button,
.button {
  display: inline-flex;
  align-items: center;
  justify-content: center;
  cursor: pointer;
  background: var(--raised);
  text-decoration: none;
}

button:hover,
.button:hover {
  border-color: var(--text);
}

button.main,
.button.main {
  background: var(--link);
  border-color: var(--link);
  color: var(--ground);
  font-weight: 600;
}

.small {
  min-height: 2rem;
  padding: .15rem .5rem;
  font-size: .9rem;
}

/* The month between the ways to its neighbours */
.head.month {
  flex-wrap: nowrap;
  justify-content: flex-start;
  margin: 1.5rem 0 0;
}

.head.month h2 {
  margin: 0;
}

.head.month .button {
  min-width: 3rem;
}

.links {
  margin-top: .5rem;
}

/* The start of driving, beside its button */
#start input {
  flex: 0 1 15rem;
  min-width: 0;
}

/* Boxes */
.box {
  margin: .75rem 0;
  padding: .6rem .9rem;
  border: 1px solid var(--line);
  border-left: .35rem solid var(--edge);
  border-radius: .25rem;
  background: var(--raised);
}

.box.warn {
  border-left-color: var(--warn);
  background: var(--warn-ground);
}

.box.bad {
  border-left-color: var(--bad);
  background: var(--bad-ground);
}

.box.good {
  border-left-color: var(--good);
  background: var(--good-ground);
}

.box > :first-child {
  margin-top: 0;
}

.box > :last-child {
  margin-bottom: 0;
}

.box ul {
  margin: .3rem 0;
  padding-left: 1.1rem;
}

/* Tables */
.wide {
  overflow-x: auto;
}

table {
  border-collapse: collapse;
  width: 100%;
}

th,
td {
  padding: .4rem .6rem;
  border-bottom: 1px solid var(--line);
  text-align: left;
  vertical-align: top;
}

thead th,
thead th.num {
  white-space: normal;
  color: var(--note);
  font-size: .85rem;
  font-weight: 600;
  line-height: 1.25;
  vertical-align: bottom;
  border-bottom-color: var(--edge);
}

.num {
  text-align: right;
  white-space: nowrap;
}

tbody th {
  font-weight: 600;
}

.tight th,
.tight td {
  padding: .18rem .6rem;
  font-size: .9rem;
  white-space: nowrap;
}

.tight {
  width: auto;
}

/* The days that haven't come: their name is long, and leaves no room for numbers on a phone. */
.tight .later > th {
  white-space: normal;
}

.tight .sunday > * {
  border-bottom-color: var(--edge);
}

.dim {
  color: var(--note);
}

/* Breaches */
.list {
  margin: .5rem 0;
  padding: 0;
  list-style: none;
}

.breach {
  margin: .6rem 0;
  padding: .55rem .9rem .3rem;
  border: 1px solid var(--line);
  border-left: .35rem solid var(--bad);
  border-radius: .25rem;
}

.breach p {
  margin: .15rem 0;
}

/* When it was, and beside it what shows it. */
.breach .foot {
  display: flex;
  flex-wrap: wrap;
  justify-content: space-between;
  align-items: baseline;
  gap: 0 1rem;
}

.breach .foot details {
  margin: 0;
}

.breach .foot details[open] {
  flex: 1 0 100%;
}

.breach .top {
  display: flex;
  flex-wrap: wrap;
  justify-content: space-between;
  gap: 0 1rem;
}

.breach .amount {
  font-weight: 700;
  white-space: nowrap;
  color: var(--bad);
}

details {
  margin: .2rem 0 .35rem;
}

summary {
  padding: .35rem 0;
  cursor: pointer;
  color: var(--link);
}

.evidence {
  font-size: .88rem;
  width: auto;
  min-width: min(100%, 34rem);
}

.evidence th,
.evidence td {
  padding: .15rem .6rem .15rem 0;
  border-bottom-color: transparent;
}

.evidence thead th {
  border-bottom-color: var(--line);
}

.evidence tr.over td {
  font-weight: 700;
  color: var(--bad);
}

/* The chart: text of the page's own size, only the bars are stretched */
.chart {
  font-size: .85rem;
  line-height: 1.15;
}

.day,
.hours {
  display: grid;
  grid-template-columns: 4.2em minmax(0, 1fr) 4.6em;
  column-gap: .8em;
  align-items: center;
  padding: .09em 0;
}

.day.sunday {
  border-bottom: 1px solid var(--edge);
  padding-bottom: .22em;
  margin-bottom: .16em;
}

.day > span {
  align-self: end;
  white-space: nowrap;
}

.strip {
  min-width: 0;
}

.day > .sum {
  text-align: right;
  font-variant-numeric: tabular-nums;
}

.hours > .sum {
  justify-self: end;
  color: var(--note);
  white-space: nowrap;
}

.scale {
  grid-column: 2;
  display: flex;
  justify-content: space-between;
  color: var(--note);
}

.scale > span {
  display: flex;
  justify-content: center;
  width: 0;
}

.bars {
  display: block;
  width: 100%;
  height: 1.35em;
  overflow: visible;
}

.labels {
  grid-column: 2 / 4;
  display: flex;
  flex-wrap: wrap;
  gap: 0 .8em;
  font-weight: 600;
  color: var(--bad);
  padding: .2em 0 .15em;
}

.back {
  fill: var(--back);
}

.hour {
  stroke: var(--hour);
  stroke-width: 1px;
}

.rest {
  fill: var(--rest);
}

.available {
  fill: var(--available);
}

.work {
  fill: var(--work);
}

.drive {
  fill: var(--drive);
}

.crew {
  fill-opacity: .4;
  stroke: var(--text);
  stroke-width: 1px;
  stroke-dasharray: 4 3;
}

.unknown {
  fill: var(--ground);
  stroke: var(--edge);
  stroke-width: 1px;
  stroke-dasharray: 3 2;
}

.unseen {
  fill: var(--unseen);
  fill-opacity: .2;
}

/* A dark line in a light one: each bar differs from one of both. */
.mark {
  stroke: var(--bad);
  stroke-width: 1.5px;
}

.halo {
  stroke: var(--ground);
  stroke-width: 3.5px;
}

/* The flags stand above the bars. */
.flags {
  display: block;
  width: 100%;
  height: 12px;
  overflow: visible;
}

.flag {
  fill: var(--bad);
}

.legend {
  display: flex;
  flex-wrap: wrap;
  gap: .2rem 1rem;
  margin: .5rem 0;
  font-size: .85rem;
}

.legend span {
  display: inline-flex;
  gap: .4rem;
  align-items: center;
}

.legend svg {
  width: 2rem;
  height: 1rem;
  overflow: visible;
}

/* What is left */
.meters {
  display: grid;
  grid-template-columns: repeat(auto-fit, minmax(min(100%, 15rem), 1fr));
  gap: .5rem;
  margin: .75rem 0;
  padding: 0;
  list-style: none;
}

.meter {
  padding: .65rem .8rem .7rem;
  border: 1px solid var(--line);
  border-radius: .4rem;
  background: var(--raised);
}

.meter b {
  display: block;
  font-size: 1.7rem;
  line-height: 1.15;
  font-variant-numeric: tabular-nums;
}

.meter.moment b {
  font-size: 1.35rem;
}

.meter.first b {
  font-size: 2.3rem;
}

.meter svg {
  display: block;
  width: 100%;
  height: .5rem;
  margin-top: .45rem;
}

.meter .full {
  fill: var(--line);
}

.meter .used {
  fill: var(--drive);
}

.meter.low {
  border-color: var(--warn);
}

.meter.low b {
  color: var(--warn);
}

.meter.low .used {
  fill: var(--warn);
}

/* Card files that are sent */
.drop {
  padding: 1.25rem;
  border: 2px dashed var(--edge);
  border-radius: .4rem;
  background: var(--raised);
  text-align: center;
}

.drop.over {
  border-color: var(--link);
}

.results li {
  padding: .5rem .75rem;
  border-bottom: 1px solid var(--line);
  display: flex;
  flex-wrap: wrap;
  gap: .25rem .75rem;
  align-items: center;
  justify-content: space-between;
}

.results li::before {
  width: 1.25rem;
  text-align: center;
  font-weight: 700;
  content: \"…\";
}

.results .good::before {
  content: \"✓\";
  color: var(--good);
}

.results .bad::before {
  content: \"×\";
  color: var(--bad);
}

.results .same::before {
  content: \"=\";
  color: var(--note);
}

.results li > span,
.results li > div {
  flex: 1 1 15rem;
  min-width: 0;
}

.files li {
  margin: .4rem 0;
}

/* A phone */
@media screen and (max-width: 48rem) {
  main,
  footer {
    padding-inline: .85rem;
  }

  .bar {
    padding-inline: .5rem;
  }

  .bar .brand {
    padding-left: .35rem;
  }

  .meters {
    grid-template-columns: 1fr 1fr;
  }

  .meter {
    padding: .5rem .6rem;
    font-size: .88rem;
    line-height: 1.3;
  }

  .meter b,
  .meter.first b {
    font-size: 1.45rem;
  }

  .meter.first b {
    font-size: 1.9rem;
  }

  .meter.moment {
    grid-column: 1 / -1;
    display: flex;
    flex-wrap: wrap;
    gap: 0 .6rem;
    align-items: baseline;
  }

  .meter.moment b {
    font-size: 1.15rem;
  }

  .scale > span:last-child {
    visibility: hidden;
  }

  .breach {
    padding: .4rem .65rem .1rem;
  }

  .head.month {
    justify-content: space-between;
  }

  #start label {
    flex: 1 0 100%;
  }

  #start input {
    flex: 1 1 10rem;
  }

  .day,
  .hours {
    grid-template-columns: 3.6em minmax(0, 1fr) 3em;
    column-gap: .5em;
    font-size: .78rem;
  }

  .labels {
    font-size: .8rem;
    grid-column: 1 / 4;
  }

  .evidence .utc {
    display: none;
  }
}

@media print {
  :root {
    color-scheme: light;
    --ground: #fff;
    --raised: #fff;
    --text: #000;
    --note: #333;
    --line: #999;
    --edge: #555;
    --bad: #000;
    --warn: #000;
    --good: #000;
    --bad-ground: #fff;
    --warn-ground: #fff;
    --link: #000;
    --rest: #bcd3e8;
    --available: #b79fd6;
    --work: #d99732;
    --drive: #1f4e79;
    --back: #f3f3f3;
    --hour: #ccc;
    --unseen: #555;
  }

  @page {
    size: A4;
    margin: 14mm 14mm 16mm;
  }

  * {
    print-color-adjust: exact;
  }

  html {
    font-size: 9.5pt;
  }

  main,
  footer {
    padding: 0;
    max-width: none;
  }

  header.bar,
  #busy,
  .no-print,
  button,
  .button {
    display: none !important;
  }

  tfoot {
    display: table-row-group;
  }

  .bars {
    height: 1.05em;
  }

  details:not([open]) {
    display: none;
  }

  h2,
  h3 {
    break-after: avoid;
  }

  tr,
  .box,
  .day {
    break-inside: avoid;
  }

  .breach {
    break-inside: auto;
  }

  .breach.short,
  .keep {
    break-inside: avoid;
  }

  .more > summary {
    display: none;
  }

  a {
    text-decoration: none;
  }

  details > summary {
    list-style: none;
  }

  .tight th,
  .tight td {
    padding: .05rem .5rem;
    font-size: 8pt;
  }

  .chart {
    break-inside: avoid;
    font-size: 7.5pt;
  }
}
"
}

/// The text at `/shared/page.js`.
fn shared_page_js() -> &'static str {
    "// Elements, requests and modules.

// Elements. A string becomes a text, never markup: no reply of the server is ever read as HTML.

const SVG = \"http://www.w3.org/2000/svg\";

/**
 * What an element can have in it. Lists may be nested; null, undefined and false are left out, so that a part can be left out in place.
 * @typedef {Node | string | null | undefined | false | Children} Child
 */
/** @typedef {{ [at: number]: Child, length: number }} Children */

/**
 * The attributes of an element by their names. `true` is an attribute without a value; null, undefined and false are none. A name that
 * begins with `on` is an event, and its value the function that gets it.
 * @typedef {Record<string, string | number | boolean | null | undefined | ((event: any) => void)>} Attributes
 */

/**
 * An element with attributes and children.
 * @template {Element} T
 * @param {T} made
 * @param {Attributes | null} attributes
 * @param {Child[]} children
 * @returns {T}
 */
function filled(made, attributes, children) {
  for (const [name, value] of Object.entries(attributes ?? {})) {
    if (value === null || value === undefined || value === false) {
      continue;
    }
    if (typeof value === \"function\") {
      made.addEventListener(name.slice(2), value);
    } else {
      made.setAttribute(name, value === true ? \"\" : String(value));
    }
  }
  made.append(...listed(children));
  return made;
}

/**
 * The children as a flat list, without those that are left out.
 * @param {Child[]} children
 * @returns {Array<Node | string>}
 */
export function listed(children) {
  return /** @type {any[]} */ (children).flat(Infinity).filter((child) => child !== null && child !== undefined && child !== false);
}

/**
 * A new element of HTML.
 * @param {string} name
 * @param {Attributes | null} [attributes]
 * @param {...Child} children
 * @returns {any} the element; its type depends on the name
 */
export function h(name, attributes = {}, ...children) {
  return filled(document.createElement(name), attributes, children);
}

/**
 * A new element of SVG.
 * @param {string} name
 * @param {Attributes | null} [attributes]
 * @param {...Child} children
 * @returns {SVGElement}
 */
export function svg(name, attributes = {}, ...children) {
  return filled(document.createElementNS(SVG, name), attributes, children);
}

/**
 * A text that somebody wrote, as a name, an author or a note. It may have signs that turn the direction of writing, end lines or pile up:
 * they change nothing outside of its element (page.css).
 * @param {string} text
 * @returns {HTMLElement}
 */
export function written(text) {
  return h(\"bdi\", {}, text);
}

/**
 * The element with an id.
 * @param {string} id
 * @returns {any} the element, or null
 */
export function $(id) {
  return document.getElementById(id);
}

// Requests. The key is in sessionStorage: the browser drops it with the tab.

const PLACE = \"tacho.key\";

/** The form of a key. A text of another form isn't sent. */
export const KEY_FORM = /^[A-Za-z0-9-]{8,64}$/;

/**
 * The key of this tab.
 * @returns {string | null}
 */
export function key() {
  return sessionStorage.getItem(PLACE);
}

/**
 * Keeps a key for this tab.
 * @param {string} value
 */
export function keep(value) {
  sessionStorage.setItem(PLACE, value);
}

/** Drops the key. */
export function forget() {
  sessionStorage.removeItem(PLACE);
}

/** A problem that the page tells: the name of a sentence, and the values that go into it. */
export class Problem extends Error {
  /**
   * @param {string} name
   * @param {...(string | number)} values
   */
  constructor(name, ...values) {
    super(name);
    this.name = name;
    this.values = values;
  }
}

/**
 * Whether a request was given up.
 * @param {unknown} fault
 * @returns {boolean}
 */
export function isAbort(fault) {
  return fault instanceof Error && fault.name === \"AbortError\";
}

/** The sentences on statuses that aren't from a command. */
const TOLD = new Map([[403, \"badKey\"], [429, \"tooOften\"], [502, \"isDown\"], [503, \"isDown\"], [504, \"isDown\"]]);

let asking = 0;
/** @type {Array<(count: number) => void>} */
const watchers = [];

/**
 * Has a function told how many requests are waiting, whenever that changes.
 * @param {(count: number) => void} tell
 */
export function watch(tell) {
  watchers.push(tell);
}

/**
 * Counts the requests that are waiting.
 * @param {number} by
 */
function change(by) {
  asking += by;
  watchers.forEach((tell) => tell(asking));
}

/**
 * What a request has beside its path. `key` is another key than that of the tab. `wait` is called before a reading is sent again.
 * @typedef {{method?: string, body?: BodyInit, signal?: AbortSignal, key?: string, wait?: (seconds: number) => void}} Options
 */

/** How long a reading waits for its reply, in milliseconds. The service gives a client 30 seconds. */
const PATIENCE = 35000;

/** @type {Set<() => void>} Each begins the wait of a reading anew. */
const waits = new Set();

/**
 * A request and its reply. The service answers one request after the other, so a reading's wait begins anew whenever another request has
 * ended. A command has no such end: it may have been done.
 * @param {string} path
 * @param {Options} options
 * @param {(reply: Response) => Promise<T>} take what takes the body
 * @template T
 * @returns {Promise<T>}
 */
async function asked(path, { method = \"GET\", body, signal, key: other }, take) {
  const ending = new AbortController();
  const end = () => ending.abort();
  let timer = 0;
  let isLate = false;
  const wait = () => {
    clearTimeout(timer);
    timer = setTimeout(() => {
      isLate = true;
      end();
    }, PATIENCE);
  };
  const stop = () => {
    clearTimeout(timer);
    waits.delete(wait);
  };
  change(1);
  try {
    signal?.throwIfAborted();
    signal?.addEventListener(\"abort\", end);
    if (method === \"GET\") {
      waits.add(wait);
      wait();
    }
    const headers = { \"x-key\": other ?? key() ?? \"\" };
    const reply = await fetch(path, {
      method, body, signal: ending.signal, headers, cache: \"no-store\", credentials: \"omit\", redirect: \"error\",
    });
    stop();
    return await take(reply);
  } catch (fault) {
    if (isLate) {
      throw new Problem(\"isDown\");
    }
    throw isAbort(fault) ? fault : new Problem(\"noConnection\");
  } finally {
    stop();
    if (!isLate) {
      waits.forEach((again) => again());
    }
    change(-1);
  }
}

/**
 * A request, and the status and text of its reply. Only a plain text or CSV is a reply of the archive, and its text is kept; other texts
 * are of servers between.
 * @param {string} path
 * @param {Options} [options]
 * @returns {Promise<{status: number, text: string}>}
 */
export function send(path, options = {}) {
  return asked(path, options, async (reply) => {
    const text = await reply.text();
    const isOurs = /^text\\/(plain|csv)\\b/.test(reply.headers.get(\"content-type\") ?? \"\");
    return { status: reply.status, text: isOurs ? text : \"\" };
  });
}

/**
 * The problem of a reply that isn't what was asked for.
 * @param {number} status
 * @param {string} text
 * @returns {Problem}
 */
function problemOf(status, text) {
  if (text === \"S4 unknown driver\\n\") {
    return new Problem(\"noDriver\");
  }
  const name = TOLD.get(status);
  return name === undefined ? new Problem(\"otherReply\", status, text.trim()) : new Problem(name);
}

/**
 * Waits, unless it is given up.
 * @param {number} seconds
 * @param {AbortSignal} [signal]
 * @returns {Promise<void>}
 */
function pause(seconds, signal) {
  return new Promise((done, giveUp) => {
    const timer = setTimeout(done, 1000 * seconds);
    signal?.addEventListener(\"abort\", () => {
      clearTimeout(timer);
      giveUp(signal.reason);
    }, { once: true });
  });
}

/** The seconds of each wait after 429, one after the other. */
const WAITS = [2, 4, 8, 16, 30, 30, 30];

/**
 * What a request gives. With `wait` it is sent again after 429, since nothing was asked of the archive then; each time later than before.
 * @param {Options} options
 * @param {() => Promise<T>} ask throws a Problem `tooOften` after 429
 * @template T
 * @returns {Promise<T>}
 */
async function patiently({ signal, wait }, ask) {
  for (const seconds of WAITS) {
    try {
      return await ask();
    } catch (fault) {
      if (wait === undefined || !(fault instanceof Problem) || fault.name !== \"tooOften\") {
        throw fault;
      }
      wait(seconds);
      await pause(seconds, signal);
    }
  }
  return ask();
}

/**
 * The text of a reading.
 * @param {string} path
 * @param {Options} [options]
 * @returns {Promise<string>}
 */
export function reading(path, options = {}) {
  return patiently(options, async () => {
    const { status, text } = await send(path, options);
    if (status === 200) {
      return text;
    }
    throw problemOf(status, text);
  });
}

/**
 * The bytes of a card file, or of a handover.
 * @param {string} path
 * @param {Options} [options]
 * @returns {Promise<Blob>}
 */
export function bytes(path, options = {}) {
  return patiently(options, () => asked(path, options, async (reply) => {
    if (reply.status === 200) {
      return reply.blob();
    }
    throw problemOf(reply.status, \"\");
  }));
}

// Modules

/** The value of a problem with a module. */
export const MODULE = \"module\";

/**
 * A module.
 * @param {string} path
 * @returns {Promise<any>}
 */
export function moduleAt(path) {
  return import(path).catch((fault) => { throw fault instanceof TypeError ? new Problem(\"noConnection\", MODULE) : fault; });
}
"
}

/// The text at `/shared/parts.js`.
fn shared_parts_js() -> &'static str {
    "// Parts of a month that both pages show: breaches with their evidence, what isn't examined, the chart, the sheet, and gaps.
import { h, svg } from \"./page.js\";
import { ARTICLES } from \"./read.js\";
import { amountText, both, bothTimes, formal, hm, length, localMoment, say, shortFormal, shortUtcDay, undivided, utcDay, utcTime }
  from \"./say.js\";
import { DAY, dateOf, offsetText, weekdayOf } from \"./time.js\";

/** @import { Breach, Day, Entry, Evidence, Range, ShownBreach, Span, Stretch } from \"./read.js\" */
/** @typedef {Range & {cause: string, from: number}} Unseen what isn't examined, why, and from when on it is examined again */

// Breaches

/** The minutes that a rule allows, of the rules that add driving up. */
const LIMITS = new Map([[\"B1\", 270], [\"B4\", 600], [\"B5\", 540], [\"B6\", 3360], [\"B7\", 5400]]);

/**
 * What stands in the last column of a line of evidence, in words.
 * @param {Evidence} line
 * @returns {string[]}
 */
function remarksOf(line) {
  const remarks = [];
  if (line.portion !== undefined) {
    remarks.push(say.within(hm(Math.max(0, line.portion))));
  }
  if (line.room !== undefined) {
    remarks.push(say.room(hm(Math.max(0, line.room))));
  }
  if (line.weeks !== undefined) {
    remarks.push(say.inWeeks(line.weeks.map(utcDay).join(\", \")));
  }
  if (line.isAtRest) {
    remarks.push(say.atRest);
  }
  return remarks;
}

/**
 * A moment in a line of evidence.
 * @param {number | null | undefined} minute null where it isn't known, undefined where there is none
 * @param {boolean} isFormal
 * @returns {import(\"./page.js\").Child[]}
 */
function momentCell(minute, isFormal) {
  if (minute === undefined) {
    return [];
  }
  if (minute === null) {
    return [h(\"i\", {}, say.open)];
  }
  return isFormal ? [shortFormal(minute)] : [localMoment(minute), h(\"span\", { class: \"utc note\" }, ` ${utcTime(minute)} UTC`)];
}

/**
 * Whether hours that were entered by hand lie in a line of evidence; in a sum of driving, whether driving does. A card file may have given
 * the same hours: the archive doesn't tell. Of a rest of which one end isn't known, the minute at the other end counts.
 * @param {Evidence} line
 * @param {Entry[]} entries
 * @returns {boolean}
 */
function isByHand({ word, start, past, day = NaN, total, isAtRest }, entries) {
  const isSum = word === \"date\" || (word === \"week\" && total !== undefined);
  const known = isSum || isAtRest ? [day, day + (word === \"date\" ? DAY : 7 * DAY)]
    : [start ?? (past ?? NaN) - 1, past ?? (start ?? NaN) + 1];
  return entries.some((one) =>
    one.state === \"kept\" && (!isSum || one.activity === \"drive\") && one.start < known[1] && known[0] < one.past);
}

/**
 * A line of evidence as a row: what it is, from, to, length, and the sum or a remark.
 * @param {Breach} breach
 * @param {Evidence} line
 * @param {boolean} isFormal
 * @param {Entry[]} entries
 * @returns {HTMLElement}
 */
function evidenceRow(breach, line, isFormal, entries) {
  const limit = LIMITS.get(breach.kind);
  const isOver = limit !== undefined && line.word === \"drive\" && (line.total ?? 0) > limit;
  const remarks = remarksOf(line);
  const isDay = line.day !== undefined && line.word !== \"reduced\";
  const first = isDay ? [shortUtcDay(/** @type {number} */ (line.day))] : momentCell(line.start ?? line.limit ?? line.start, isFormal);
  const last = remarks.length > 0 ? remarks.join(\", \") : line.total === undefined ? \"\" : hm(line.total);
  return h(\"tr\", { class: isOver ? \"over\" : null },
    h(\"th\", { scope: \"row\" }, say.ev[line.word], isByHand(line, entries) ? h(\"i\", { class: \"hand\" }, ` (${say.byHand})`) : null),
    h(\"td\", {}, first),
    h(\"td\", {}, isDay ? momentCell(line.limit, isFormal) : momentCell(line.past, isFormal)),
    h(\"td\", { class: \"num\" }, typeof line.length === \"number\" ? hm(line.length) : \"\"),
    h(\"td\", { class: remarks.length > 0 ? null : \"num\" }, last));
}

/**
 * The lines of evidence that are shown. A B9 may go back for years: of it only the last weeks are.
 * @param {ShownBreach} breach
 * @returns {Evidence[]}
 */
function shownEvidence({ kind, since, evidence }) {
  if (kind !== \"B9\") {
    return evidence;
  }
  const from = since - 14 * DAY;
  const isLate = (/** @type {Evidence} */ line) => (line.word === \"week\" ? line.day ?? 0 : line.past ?? from) >= from;
  return evidence.filter((line) => line.word !== \"from\" && isLate(line));
}

/**
 * What shows a breach, as a table.
 * @param {ShownBreach} breach
 * @param {boolean} isFormal whether times are UTC first, as in a letter
 * @param {Entry[]} entries
 * @returns {HTMLElement}
 */
function evidenceTable(breach, isFormal, entries) {
  const heads = (isFormal ? say.evHeadFormal : say.evHead).map((/** @type {string} */ one, /** @type {number} */ at) =>
    h(\"th\", { scope: \"col\", class: at === 3 ? \"num\" : null }, one));
  const rows = shownEvidence(breach).map((line) => evidenceRow(breach, line, isFormal, entries));
  const hasHand = rows.some((row) => row.querySelector(\".hand\"));
  return h(\"div\", { class: \"wide\" }, h(\"table\", { class: \"evidence\" }, h(\"thead\", {}, h(\"tr\", {}, heads)), h(\"tbody\", {}, rows)),
    hasHand ? h(\"p\", { class: \"note\" }, say.byHandHelp) : null);
}

/**
 * Of a B2: how much of the longest rest lay within the 24 hours.
 * @param {ShownBreach} breach
 * @returns {string} empty where none did
 */
function longestWithin({ since, evidence }) {
  const limit = since + DAY;
  let best = { within: 0, all: 0 };
  for (const { word, start, past } of evidence) {
    if (word === \"rest\" && typeof start === \"number\" && typeof past === \"number\") {
      const within = Math.min(past, limit) - Math.max(start, since);
      best = within > best.within ? { within, all: past - start } : best;
    }
  }
  return best.within > 0 ? say.longest(length(best.within), length(best.all)) : \"\";
}

/**
 * The sentence on a breach.
 * @param {ShownBreach} breach
 * @returns {string}
 */
function sentenceOf(breach) {
  const more = breach.kind === \"B2\" ? longestWithin(breach) : \"\";
  return undivided(`${say[breach.kind](breach.amount)}${more ? ` ${more}` : \"\"}`);
}

/**
 * A breach: its sentence, when, by which Article, and what shows it.
 * @param {ShownBreach} breach
 * @param {{entries: Entry[], open?: boolean, formalTimes?: boolean, number?: number | null}} options
 * @returns {HTMLElement}
 */
export function breachItem(breach, { entries, open = false, formalTimes = false, number = null }) {
  const { kind, at, since, evidence } = breach;
  const moment = formalTimes ? formal : both;
  const article = say.article(ARTICLES[kind], kind);
  const counted = `${say.since} ${moment(since)}`;
  const table = evidenceTable(breach, formalTimes, entries);
  const limits = (/** @type {string} */ text) => h(\"p\", { class: \"note limits\" }, text);
  const folded = h(\"details\", { open }, h(\"summary\", {}, say.evidence), h(\"p\", { class: \"note\" }, `${counted} · ${article}`), table);
  return h(\"li\", { class: `breach${evidence.length < 13 ? \" short\" : \"\"}`, id: `breach-${kind}-${at}` },
    h(\"div\", { class: \"top\" },
      h(\"h3\", {}, number ? `${number}. ` : \"\", say.short[kind]), h(\"span\", { class: \"amount\" }, amountText(breach))),
    h(\"p\", { class: \"sentence\" }, sentenceOf(breach)),
    formalTimes ? [limits(`${say.at}: ${moment(at)} · ${counted} · ${article}`), table]
      : h(\"div\", { class: \"foot\" }, limits(moment(at)), folded));
}

// What isn't examined

/**
 * What isn't examined of a month: before the first stretch, between the stretches, and after the last.
 * @param {Array<Stretch<any>>} stretches
 * @param {[number, number]} range the month's
 * @returns {Unseen[]}
 */
export function unseenOf(stretches, [first, past]) {
  const made = [];
  let start = -Infinity;
  let cause = \"base\";
  for (const one of stretches) {
    made.push({ start, past: one.from, cause, from: one.from });
    start = one.horizon;
    cause = one.cause;
  }
  made.push({ start, past: Infinity, cause, from: Infinity });
  return made.map((one) => ({ ...one, start: Math.max(one.start, first), past: Math.min(one.past, past) }))
    .filter((one) => one.start < one.past);
}

/**
 * Why a range isn't examined, as an item of a list.
 * @param {Unseen} one
 * @param {Range[]} gaps
 * @param {import(\"./page.js\").Child} form a link to the form for gaps
 * @returns {HTMLElement}
 */
function unseenItem(one, gaps, form) {
  if (one.cause === \"base\") {
    return h(\"li\", {}, say.beforeBase(utcDay(one.past)));
  }
  const gap = one.cause === \"unknown\" ? gaps.find((each) => each.start === one.start) : undefined;
  const isOpen = one.from === Infinity;
  const reason = gap ? say.unknownGap(both(gap.start), both(gap.past), length(gap.past - gap.start)) : say[one.cause];
  const range = isOpen ? say.openEnd(both(one.start)) : say.notFrom(both(one.start), both(one.past));
  const again = isOpen ? \"\" : ` ${say.restart(utcDay(one.from))}`;
  return h(\"li\", {}, h(\"b\", {}, range), \". \", undivided(reason), again, gap && form ? [\" \", form] : null);
}

/**
 * The line on where what is held ends. Where nothing comes after it, this is no reason for an alarm.
 * @param {Unseen} last what isn't examined after the last stretch
 * @param {number} horizon
 * @param {number} first the month's first minute
 * @param {number} end the end of what is held, 0 where nothing is
 * @returns {HTMLElement}
 */
function endLine(last, horizon, first, end) {
  if (end === 0) {
    return h(\"p\", { class: \"box warn\" }, say.noLeft);
  }
  return h(\"p\", { class: \"note\" }, last.start > first ? say.knownTo(both(last.start)) : say.knownBefore(both(horizon)));
}

/**
 * What isn't examined of a month, and why. A month that is examined whole has a quiet line.
 * @param {Array<Stretch<any>>} stretches
 * @param {[number, number]} range the month's
 * @param {number} [end] the end of what is held, 0 where nothing is
 * @param {Range[]} [gaps]
 * @param {import(\"./page.js\").Child} [form] a link to the form for gaps
 * @returns {import(\"./page.js\").Child}
 */
export function notExaminedBox(stretches, range, end = 0, gaps = [], form = null) {
  const all = unseenOf(stretches, range);
  const last = all.at(-1);
  const horizon = stretches.at(-1)?.horizon ?? 0;
  const isEnd = last !== undefined && last.from === Infinity && last.cause === \"unknown\" && horizon >= end;
  const unseen = isEnd ? all.slice(0, -1) : all;
  const ended = isEnd ? endLine(last, horizon, range[0], end) : null;
  if (unseen.length === 0) {
    return ended ?? h(\"p\", { class: \"note\" }, say.examinedAll);
  }
  return [ended, h(\"section\", { class: \"box warn\", \"aria-labelledby\": \"not-head\" }, h(\"h3\", { id: \"not-head\" }, say.notExamined),
    h(\"ul\", {}, unseen.map((one) => unseenItem(one, gaps, form))),
    h(\"p\", { class: \"note\" }, say.noLooks))];
}

// The chart

/** @type {Record<string, number>} The heights of the bars, of 24: they tell the activities apart without colours. */
const HEIGHTS = { rest: 7, available: 12, work: 17, drive: 24 };
const HOURS = [0, 6, 12, 18, 24];

/** From this minute of a day on, a flag points to the left, so that it stays within the row. */
const LAST_RIGHT = 23 * 60;

// A pole with a flag, twelve pixels high, whose foot is at the minute.
const FLAG = \"M-1 12h2V8h9L7 4l3-4H-1z\";
const FLAG_TO_THE_LEFT = \"M1 12h-2V8h-9l3-4-3-4H1z\";

/**
 * The pieces of ranges that lie in a day, with their places in it.
 * @param {T[]} ranges
 * @param {number} day its first minute
 * @returns {Array<{range: T, x: number, width: number}>}
 * @template {Range} T
 */
function piecesOf(ranges, day) {
  return ranges.map((range) => {
    const start = Math.max(range.start, day);
    return { range, x: start - day, width: Math.min(range.past, day + DAY) - start };
  }).filter((piece) => piece.width > 0);
}

/**
 * A vertical line through a day's bars, as wide on every screen.
 * @param {number} x
 * @param {string} kind its class
 * @returns {SVGElement}
 */
function upright(x, kind) {
  return svg(\"line\", { class: kind, x1: x, y1: 0, x2: x, y2: 24, \"vector-effect\": \"non-scaling-stroke\" });
}

/**
 * The line of a breach. It is dark and light, so that one of both differs from any bar.
 * @param {number} x
 * @returns {SVGElement[]}
 */
function markOf(x) {
  return [upright(x, \"halo\"), upright(x, \"mark\")];
}

/**
 * A rectangle in a day's row.
 * @param {string} kind its class
 * @param {number} x
 * @param {number} width
 * @param {number} height of 24
 * @param {...SVGElement} children
 * @returns {SVGElement}
 */
function block(kind, x, width, height, ...children) {
  return svg(\"rect\", { class: kind, x, y: 24 - height, width, height, \"vector-effect\": \"non-scaling-stroke\" }, ...children);
}

/**
 * The bar of an activity.
 * @param {string} activity
 * @param {boolean} isCrew
 * @param {number} x
 * @param {number} width
 * @param {...SVGElement} children
 * @returns {SVGElement}
 */
function bar(activity, isCrew, x, width, ...children) {
  const height = HEIGHTS[activity];
  return block(`bar ${activity}${isCrew ? \" crew\" : \"\"}`, x, width, height, ...children);
}

/**
 * What a bar says when it is pointed at.
 * @param {Range} range
 * @param {string} what
 * @returns {SVGElement}
 */
function tip(range, what) {
  return svg(\"title\", {}, `${both(range.start)} ${say.to} ${both(range.past)}: ${what}`);
}

/**
 * The flags of a day's breaches: above the bars, so that they hide none. They aren't stretched with the bars.
 * @param {number[]} minutes of the day
 * @returns {SVGElement | null}
 */
function flags(minutes) {
  if (minutes.length === 0) {
    return null;
  }
  return svg(\"svg\", { class: \"flags\" }, minutes.map((minute) =>
    svg(\"svg\", { x: `${100 * minute / DAY}%`, overflow: \"visible\" },
      svg(\"path\", { class: \"flag\", d: minute > LAST_RIGHT ? FLAG_TO_THE_LEFT : FLAG }))));
}

/**
 * The bars of a day.
 * @param {{spans: Span[], gaps: Range[], unseen: Range[]}} month
 * @param {number} day its first minute
 * @param {number[]} marks the minutes of the day at which breaches are
 * @returns {SVGElement}
 */
function bars({ spans, gaps, unseen }, day, marks) {
  return svg(\"svg\", { class: \"bars\", viewBox: \"0 0 1440 24\", preserveAspectRatio: \"none\" },
    block(\"back\", 0, DAY, 24),
    HOURS.map((hour) => upright(60 * hour, \"hour\")),
    piecesOf(gaps, day).map(({ range, x, width }) => block(\"unknown\", x, width, 24, tip(range, say.notKnown))),
    piecesOf(spans, day).map(({ range, x, width }) =>
      bar(range.activity, range.isCrew, x, width, tip(range, say[range.activity] + (range.isCrew ? `, ${say.withCrew}` : \"\")))),
    piecesOf(unseen, day).map(({ x, width }) => block(\"unseen\", x, width, 24)),
    marks.map(markOf));
}

/**
 * The row of a day: its name, its bars, its driving, and below them a label for each breach.
 * @param {{spans: Span[], gaps: Range[], unseen: Range[], breaches: Breach[]}} month
 * @param {Day} day
 * @returns {HTMLElement}
 */
function dayRow(month, { start, columns }) {
  const breaches = month.breaches.filter((breach) => breach.at >= start && breach.at < start + DAY);
  const marks = breaches.map((breach) => breach.at - start);
  const label = (/** @type {Breach} */ breach) => h(\"span\", {}, `${bothTimes(breach.at)} ${say.short[breach.kind]} ${amountText(breach)}`);
  return h(\"div\", { class: weekdayOf(start) === 0 ? \"day sunday\" : \"day\", id: `day-${dateOf(start)}` },
    h(\"span\", { class: \"name\" }, `${say.days[weekdayOf(start)]} ${Number(dateOf(start).slice(8))}`),
    h(\"div\", { class: \"strip\", \"aria-hidden\": \"true\" }, flags(marks), bars(month, start, marks)),
    h(\"span\", { class: \"sum\" }, columns[3] === \"0:00\" ? \"\" : columns[3]),
    breaches.length > 0 ? h(\"div\", { class: \"labels\" }, breaches.map(label)) : null);
}

/**
 * What the shapes of a chart mean.
 * @param {boolean} hasCrew
 * @returns {HTMLElement}
 */
function legend(hasCrew) {
  const sample = (/** @type {string} */ text, /** @type {import(\"./page.js\").Child[]} */ ...shapes) =>
    h(\"span\", {}, svg(\"svg\", { viewBox: \"0 0 60 24\", preserveAspectRatio: \"none\" }, shapes), text);
  return h(\"div\", { class: \"legend\", \"aria-hidden\": \"true\" },
    Object.keys(HEIGHTS).map((activity) => sample(say[activity], bar(activity, false, 0, 60))),
    hasCrew ? sample(say.withCrew, bar(\"drive\", true, 0, 60)) : null,
    sample(say.notKnown, block(\"unknown\", 0, 60, 24)),
    sample(say.unseen, block(\"back\", 0, 60, 24), block(\"unseen\", 0, 60, 24)),
    h(\"span\", {}, svg(\"svg\", { class: \"sample-flag\" }, svg(\"path\", { class: \"flag\", transform: \"translate(4 2)\", d: FLAG })), say.mark));
}

/**
 * The chart of a month. For a screen reader it is one image, which the list of breaches describes.
 * @param {{spans: Span[], gaps: Range[], breaches: Breach[], unseen: Range[], days: Day[], range: [number, number], labelledBy?: string,
 *   describedBy?: string}} month
 * @returns {HTMLElement[]}
 */
export function chart({ days, range, labelledBy, describedBy = \"breaches-head\", ...month }) {
  const offsets = new Set([offsetText(range[0]), offsetText(range[1] - 1)]);
  const name = labelledBy ? { \"aria-labelledby\": labelledBy } : { \"aria-label\": say.chart };
  const scale = h(\"div\", { class: \"scale\" }, HOURS.map((hour) => h(\"span\", {}, String(hour))));
  return [
    h(\"p\", { class: \"note\" }, say.chartNote([...offsets].join(\" / \"))),
    h(\"div\", { class: \"chart\", role: \"img\", ...name, \"aria-describedby\": describedBy },
      h(\"div\", { class: \"hours\" }, scale, h(\"span\", { class: \"sum\" }, say.sum)),
      days.map((day) => dayRow(month, day))),
    legend(month.spans.some((span) => span.isCrew)),
  ];
}

// The sheet

/**
 * The table of a month's days.
 * @param {{days: Day[], total: string[], later?: Day[]}} sheet `later`: the days that haven't come yet, which are one row
 * @returns {HTMLElement}
 */
export function sheetTable({ days, total, later = [] }) {
  const cell = (/** @type {string} */ text) => h(\"td\", { class: text === \"0:00\" ? \"num dim\" : \"num\" }, text === \"0:00\" ? \"–\" : text);
  const heads = say.sheetColumns.map((/** @type {string} */ name, /** @type {number} */ at) =>
    h(\"th\", { scope: \"col\", class: at > 0 ? \"num\" : null }, name));
  const row = (/** @type {Day} */ day) => h(\"tr\", { class: weekdayOf(day.start) === 0 ? \"sunday\" : null },
    h(\"th\", { scope: \"row\" }, utcDay(day.start)), day.columns.map(cell));
  const rest = later.length === 0 ? null : h(\"tr\", { class: \"later\" },
    h(\"th\", { scope: \"row\" }, say.notYet(shortUtcDay(later[0].start), utcDay(/** @type {Day} */ (later.at(-1)).start))),
    [\"0:00\", \"0:00\", \"0:00\", \"0:00\", \"0:00\", `${24 * later.length}:00`].map(cell));
  return h(\"div\", { class: \"wide\", tabindex: \"0\", role: \"region\", \"aria-label\": say.sheet }, h(\"table\", { class: \"tight\" },
    h(\"thead\", {}, h(\"tr\", {}, heads)),
    h(\"tbody\", {}, days.map(row), rest),
    h(\"tfoot\", {}, h(\"tr\", {}, h(\"th\", { scope: \"row\" }, say.wholeMonth), total.map(cell)))));
}

// Gaps

/**
 * The gaps.
 * @param {Range[]} gaps
 * @returns {HTMLElement}
 */
export function gapsPart(gaps) {
  if (gaps.length === 0) {
    return h(\"p\", {}, say.noGaps);
  }
  const text = (/** @type {Range} */ { start, past }) => `${both(start)} ${say.to} ${both(past)} · ${length(past - start)}`;
  return h(\"ul\", {}, gaps.map((gap) => h(\"li\", {}, text(gap))));
}
"
}

/// The text at `/shared/read.js`.
fn shared_read_js() -> &'static str {
    "// What the replies say (docs/FORMATS.md). Every line has to have its form and its place, else the reply is unreadable: what can't be read
// is never left out. Each function that reads takes the text of a reply, and throws a Problem `unreadable`.
import { Problem } from \"./page.js\";
import { DAY, dateOf, minuteOf, monthOf, rangeOf, textOf, weekdayOf, weekOf } from \"./time.js\";

/**
 * A breach: `at` its moment, `since` its first minute, `amount` in minutes (of B3 a count, of B9 always 0).
 * @typedef {{kind: string, article: string, at: number, since: number, amount: number}} Breach
 */
/**
 * A line of evidence: what it is, and what stands on it. A start or past that is null isn't known.
 * @typedef {{word: string, start?: number | null, past?: number | null, length?: number | null, total?: number, portion?: number,
 *   room?: number, number?: number, day?: number, limit?: number, weeks?: number[], isAtRest?: boolean}} Evidence
 */
/** @typedef {Breach & {evidence: Evidence[]}} ShownBreach a breach with what shows it */
/**
 * A debt: the week's first minute, what is owed in minutes, the deadline, `open`, `late` or `paid`, and the start of the rest that paid it.
 * @typedef {{week: number, owes: number, by: number, end: string, at: number | null}} Debt
 */
/**
 * A stretch: its first minute, its breaches or debts, its horizon with the cause, and the past of what isn't examined after it, or null.
 * @typedef {{from: number, items: T[], horizon: number, cause: string, to: number | null}} Stretch
 * @template T
 */
/** @typedef {{start: number, past: number}} Range */
/** @typedef {Range & {activity: string, isCrew: boolean}} Span */
/** @typedef {{number: string, part: string, size: number, start: number, past: number, digest: string}} CardFile */
/** @typedef {Range & {number: string, activity: string, state: string, author: string, note: string}} Entry */
/** @typedef {{number: number, holder: string, base: string, files: number, entries: number, name: string}} Driver */
/** @typedef {{start: number, columns: string[]}} Day a day of a sheet: its first minute, and its six amounts */
/**
 * The sheet of a month.
 * @typedef {{number: string, name: string, month: string, days: Day[], total: string[], breaches: Breach[], horizon: number,
 *   cause: string}} Sheet
 */
/**
 * A forecast. `held` is the horizon. Where minutes after it aren't examined, `not` is their range, and there is nothing else. `kinds` has
 * the limit of each rule that is reached, `weeks` the driving of the week before that of `start` and of that week.
 * @typedef {{from: number, held: number, cause: string, not: Range | null, start: number, restSince: number | null, daySince: number,
 *   reduced: number, extended: number, weeks: Array<{week: number, drive: number}>, coming: Breach[], debts: Debt[],
 *   kinds: Record<string, {until: number, left: number}>}} Ahead
 */

// Pieces of lines, as parts of regular expressions

const NUMBER = String.raw`(0|[1-9]\\d*)`;
const DATE = String.raw`(\\d{4}-\\d\\d-\\d\\d)`;
const AT = String.raw`(\\d{4}-\\d\\d-\\d\\d \\d\\d:\\d\\d)`;
const LENGTH = String.raw`(-?(?:0|[1-9]\\d*):[0-5]\\d)`;
const RUN = String.raw`(-|\\d{4}-\\d\\d-\\d\\d \\d\\d:\\d\\d) (-|\\d{4}-\\d\\d-\\d\\d \\d\\d:\\d\\d) (-|(?:0|[1-9]\\d*):[0-5]\\d)`;
const ACTIVITY = \"(rest|available|work|drive)\";
// Of a name, an author or a note. Their lengths are limited in bytes; see `textIn`.
const PLAIN = String.raw`([^\\x00-\\x1f\\x7f\",]*)`;

/** @type {Record<string, string>} The Article of each kind of breach. */
export const ARTICLES = {
  B1: \"7\", B2: \"8(2)\", B3: \"8(4)\", B4: \"6(1)\", B5: \"6(1)\", B6: \"6(2)\", B7: \"6(3)\", B8: \"8(6)\", B9: \"8(6)\", B10: \"8(6b)\",
};
const KINDS = Object.keys(ARTICLES);
const DAYS = [\"Sun\", \"Mon\", \"Tue\", \"Wed\", \"Thu\", \"Fri\", \"Sat\"];
const LARGEST_FILE = 262144;
/** What a reduced weekly rest of 24 hours owes. */
const MOST_OWED = 1260;

const FORMS = {
  breach: form(`(B[1-9]|B10) Art (\\\\S+) at ${AT} since ${AT} amount ${NUMBER}`),
  from: form(`FROM ${DATE}`),
  horizon: form(`EXAMINED TO ${AT} (unknown|crew)`),
  not: form(`NOT EXAMINED ${AT} ${AT}`),
  debt: form(`WEEK ${DATE} owes ${NUMBER} by ${AT} (?:(open|late)|paid ${AT})`),
  driver: form(`DRIVER ${NUMBER} ${PLAIN}`),
  month: form(String.raw`MONTH (\\d{4}-\\d\\d)`),
  columns: form(\"DATE       DAY   REST  AVAIL   WORK  DRIVE   CREW   NONE\"),
  day: form(`${DATE} ([A-Z][a-z]{2})([ 0-9:]{42})`),
  total: form(\"TOTAL {9}([ 0-9:]{42})\"),
  spans: form(\"start,past,activity,manning\"),
  span: form(`${AT},${AT},${ACTIVITY},(single|crew)`),
  gap: form(`${AT} ${AT}`),
  form: form(\"start,past,activity,author,note\"),
  row: form(`${AT},${AT},,,`),
  file: form(`${NUMBER} (both|first|second) ${NUMBER} ${AT} ${AT} ([0-9a-f]{64})`),
  entry: form(`${NUMBER} ${AT} ${AT} ${ACTIVITY} (kept|withdrawn) \"${PLAIN}\" \"${PLAIN}\"`),
  person: form(`${NUMBER} ([0-9a-f]{30}) ${DATE} ${NUMBER} ${NUMBER} ${PLAIN}`),
  start: form(`START ${AT}`),
  restSince: form(`REST SINCE (?:-|${AT})`),
  daySince: form(`DAY SINCE ${AT}`),
  reduced: form(`REDUCED ${NUMBER}`),
  extended: form(`EXTENDED ${NUMBER}`),
  driven: form(`DRIVEN ${DATE} ${LENGTH}`),
  left: form(`(B[1-9]) Art (\\\\S+) until ${AT} left ${LENGTH}`),
  schema: form(`schema ${NUMBER}`),
};

/**
 * The form of a whole line.
 * @param {string} text
 * @returns {RegExp}
 */
function form(text) {
  return new RegExp(`^${text}$`, \"u\");
}

/**
 * Refuses the reply, unless a condition holds.
 * @param {unknown} holds
 */
function must(holds) {
  if (!holds) {
    throw new Problem(\"unreadable\");
  }
}

/**
 * The lines of a reply.
 * @param {string} text
 * @returns {string[]}
 */
export function linesOf(text) {
  must(text === \"\" || text.endsWith(\"\\n\"));
  return text.split(\"\\n\").slice(0, -1);
}

/**
 * The parts of a line.
 * @param {RegExp} wanted
 * @param {string | undefined} line
 * @returns {string[]}
 */
function partsOf(wanted, line) {
  const found = wanted.exec(line ?? \"\");
  must(line !== undefined && found !== null);
  return /** @type {string[]} */ (found).slice(1);
}

/**
 * The minute of a day or a time, which has to be in the calendar.
 * @param {string} text
 * @returns {number}
 */
function minuteIn(text) {
  const minute = minuteOf(text);
  must(Number.isFinite(minute) && textOf(minute).startsWith(text));
  return minute;
}

/**
 * The first minute of a day that has to be a Monday.
 * @param {string} text
 * @returns {number}
 */
function mondayIn(text) {
  const minute = minuteIn(text);
  must(weekOf(minute) === minute);
  return minute;
}

/**
 * A range that isn't empty.
 * @param {string} start
 * @param {string} past
 * @returns {Range}
 */
function rangeIn(start, past) {
  const range = { start: minuteIn(start), past: minuteIn(past) };
  must(range.start < range.past);
  return range;
}

/**
 * A text of a limited length.
 * @param {string} text
 * @param {number} least in bytes of UTF-8
 * @param {number} most
 * @returns {string}
 */
function textIn(text, least, most) {
  const size = new TextEncoder().encode(text).length;
  must(size >= least && size <= most);
  return text;
}

/**
 * The minutes of a length.
 * @param {string} text as in `4:30` or `-11:00`
 * @returns {number}
 */
export function lengthOf(text) {
  const [, sign, hours, minutes] = /** @type {string[]} */ (/^(-?)(\\d+):(\\d\\d)$/.exec(text));
  return (sign ? -1 : 1) * (60 * Number(hours) + Number(minutes));
}

/**
 * Refuses ranges that aren't in order, or that touch.
 * @param {Range[]} ranges
 * @param {(one: Range, next: Range) => boolean} [mayTouch]
 */
function mustBeInOrder(ranges, mayTouch = () => false) {
  ranges.slice(1).forEach((next, number) => {
    const one = ranges[number];
    must(one.past < next.start || (one.past === next.start && mayTouch(one, next)));
  });
}

// Breaches, debts and stretches

/**
 * @param {string} line
 * @returns {Breach}
 */
function breachOf(line) {
  const [kind, article, at, since, amount] = partsOf(FORMS.breach, line);
  const breach = { kind, article, at: minuteIn(at), since: minuteIn(since), amount: Number(amount) };
  must(article === ARTICLES[kind] && (breach.amount === 0) === (kind === \"B9\"));
  return breach;
}

/**
 * Whether a breach may stand before another: by moment, then by kind, then by first minute.
 * @param {Breach} one
 * @param {Breach} next
 * @returns {boolean}
 */
function isBefore(one, next) {
  const keys = [one, next].map((breach) => [breach.at, KINDS.indexOf(breach.kind), breach.since]);
  const differs = [0, 1, 2].find((at) => keys[0][at] !== keys[1][at]);
  return differs !== undefined && keys[0][differs] < keys[1][differs];
}

/**
 * @param {string} line
 * @returns {Debt}
 */
function debtOf(line) {
  const [week, owes, by, end = \"paid\", at] = partsOf(FORMS.debt, line);
  const debt = { week: mondayIn(week), owes: Number(owes), by: minuteIn(by), end, at: at === undefined ? null : minuteIn(at) };
  must(debt.owes > 0 && debt.owes <= MOST_OWED && debt.week < debt.by);
  return debt;
}

/**
 * The horizon and its cause.
 * @param {string | undefined} line
 * @returns {{horizon: number, cause: string}}
 */
function horizonOf(line) {
  const [at, cause] = partsOf(FORMS.horizon, line);
  return { horizon: minuteIn(at), cause };
}

/**
 * What stands between `FROM` and `EXAMINED TO`, and what isn't examined after it.
 * @param {string} text
 * @param {(line: string) => T} itemOf
 * @param {(one: T, next: T) => boolean} inOrder
 * @template T
 * @returns {Array<Stretch<T>>}
 */
function stretchesOf(text, itemOf, inOrder) {
  const lines = linesOf(text);
  /** @type {Array<Stretch<T>>} */
  const made = [];
  must(lines.length > 0);
  for (let at = 0; at < lines.length;) {
    const from = mondayIn(partsOf(FORMS.from, lines[at])[0]);
    const before = made.at(-1);
    must(before === undefined || before.to === from);
    at += 1;
    const items = [];
    for (; at < lines.length && !lines[at].startsWith(\"EXAMINED TO \"); at += 1) {
      const item = itemOf(lines[at]);
      must(items.length === 0 || inOrder(/** @type {T} */ (items.at(-1)), item));
      items.push(item);
    }
    const { horizon, cause } = horizonOf(lines[at]);
    at += 1;
    must(from <= horizon);
    let to = null;
    if (at < lines.length && lines[at].startsWith(\"NOT EXAMINED \")) {
      const range = rangeIn(.../** @type {[string, string]} */ (partsOf(FORMS.not, lines[at])));
      must(range.start === horizon);
      to = range.past;
      at += 1;
    }
    made.push({ from, items, horizon, cause, to });
  }
  return made;
}

/**
 * `stretches`.
 * @param {string} text
 * @returns {Array<Stretch<Breach>>}
 */
export function readBreaches(text) {
  return stretchesOf(text, breachOf, isBefore);
}

/**
 * `debts`.
 * @param {string} text
 * @returns {Array<Stretch<Debt>>}
 */
export function readDebts(text) {
  const made = stretchesOf(text, debtOf, (one, next) => one.week < next.week);
  for (const { items, horizon } of made) {
    must(items.every((debt) => debt.end === \"paid\" || (debt.end === \"open\") === debt.by > horizon));
  }
  return made;
}

// Evidence

/**
 * A rest run: its length stands there if both its ends are known.
 * @param {string} start
 * @param {string} past
 * @param {string} length
 * @returns {Omit<Evidence, \"word\">}
 */
function runOf(start, past, length) {
  const isOpen = start === \"-\" || past === \"-\";
  must(isOpen === (length === \"-\"));
  const run = { start: start === \"-\" ? null : minuteIn(start), past: past === \"-\" ? null : minuteIn(past), length: null };
  return isOpen ? run : { ...rangeIn(start, past), length: lengthIn(length, minuteIn(past) - minuteIn(start)) };
}

/**
 * A length of exactly this many minutes.
 * @param {string} text
 * @param {number} minutes
 * @returns {number}
 */
function lengthIn(text, minutes) {
  must(lengthOf(text) === minutes);
  return minutes;
}

/**
 * The lines of evidence, each under a letter: the word, the rest of the line, and what is made of its parts.
 * @type {Record<string, [string, string, (...parts: string[]) => Omit<Evidence, \"word\">]>}
 */
const LINES = {
  b: [\"break\", RUN, runOf],
  r: [\"rest\", RUN, runOf],
  p: [\"rest\", `${RUN} portion ${LENGTH}`, (start, past, length, portion) =>
    ({ ...runOf(start, past, length), portion: lengthOf(portion) })],
  o: [\"rest\", `${RUN} room ${LENGTH}`, (start, past, length, room) =>
    ({ ...runOf(start, past, length), room: lengthOf(room) })],
  w: [\"weekly\", RUN, runOf],
  i: [\"weekly\", `${RUN} in (${DATE}(?: ${DATE})*)`, (start, past, length, weeks) =>
    ({ ...runOf(start, past, length), weeks: weeks.split(\" \").map(mondayIn) })],
  m: [\"main\", RUN, runOf],
  d: [\"drive\", `${AT} ${AT} ${LENGTH} ${LENGTH}`, (start, past, length, total) =>
    ({ ...runOf(start, past, length), total: lengthOf(total) })],
  y: [\"day\", `${AT} ${AT}`, (start, past) => rangeIn(start, past)],
  n: [\"day\", `${NUMBER} ${AT} ${AT} drive ${LENGTH}`, (number, start, past, total) =>
    ({ ...rangeIn(start, past), number: Number(number), total: lengthOf(total) })],
  l: [\"limit\", AT, (limit) => ({ limit: minuteIn(limit) })],
  k: [\"reduced\", `${NUMBER} ${AT} ${AT} ${LENGTH} day ${AT} portion ${LENGTH}`, (number, start, past, length, day, portion) =>
    ({ ...runOf(start, past, length), number: Number(number), day: minuteIn(day), portion: lengthOf(portion) })],
  W: [\"week\", DATE, (week) => ({ day: mondayIn(week) })],
  z: [\"week\", `${DATE} at rest`, (week) => ({ day: mondayIn(week), isAtRest: true })],
  D: [\"week\", `${DATE} drive ${LENGTH}`, (week, total) => ({ day: mondayIn(week), total: lengthOf(total) })],
  t: [\"date\", `${DATE} drive ${LENGTH} ${LENGTH}`, (date, length, total) =>
    ({ day: minuteIn(date), length: lengthOf(length), total: lengthOf(total) })],
  f: [\"from\", DATE, (week) => ({ day: mondayIn(week) })],
  O: [\"owes\", `${DATE} ${LENGTH} by ${AT}`, (week, length, limit) =>
    ({ day: mondayIn(week), length: lengthOf(length), limit: minuteIn(limit) })],
};
const LINE_FORMS = Object.fromEntries(Object.entries(LINES).map(([letter, [word, rest]]) => [letter, form(`${word} ${rest}`)]));

/** @type {Record<string, RegExp>} The order of the lines of each rule, by their letters. */
const ORDERS = {
  B1: /^b[dr]*d[dr]*b$/, B2: /^ylr*p$/, B3: /^wk+$/, B4: /^yd+$/, B5: /^Wn+d+$/, B6: /^Wt+d+t*$/, B7: /^Dt*(?:td+t*)?Dt*(?:td+t*)?$/,
  B8: /^ww$/, B9: /^f[Wz]+i*$/, B10: /^Omo*$/,
};

/**
 * What shows a breach.
 * @param {string} kind
 * @param {string[]} lines
 * @returns {Evidence[]}
 */
function evidenceOf(kind, lines) {
  const order = ORDERS[kind];
  const allowed = Object.keys(LINES).filter((letter) => order.source.includes(letter));
  let letters = \"\";
  const made = lines.map((line) => {
    const letter = allowed.find((one) => LINE_FORMS[one].test(line)) ?? \"\";
    must(letter !== \"\");
    letters += letter;
    const [word, , make] = LINES[letter];
    return { word, ...make(...partsOf(LINE_FORMS[letter], line)) };
  });
  must(order.test(letters));
  return made;
}

/**
 * `why`: the breaches of a month with their evidence.
 * @param {string} text
 * @returns {ShownBreach[]}
 */
export function readWhy(text) {
  const lines = linesOf(text);
  const made = [];
  for (let at = 0; at < lines.length;) {
    const breach = breachOf(lines[at]);
    const before = made.at(-1);
    must(before === undefined || before.at < breach.at || isBefore(before, breach));
    const past = lines.findIndex((line, number) => number > at && !line.startsWith(\"  \"));
    const own = lines.slice(at + 1, past < 0 ? lines.length : past);
    made.push({ ...breach, evidence: evidenceOf(breach.kind, own.map((line) => line.slice(2))) });
    at += 1 + own.length;
  }
  return made;
}

// A month

/**
 * The six amounts of a line of a sheet: each in seven places, right-aligned.
 * @param {string} text
 * @returns {string[]}
 */
function columnsOf(text) {
  return Array.from({ length: 6 }, (_, number) => {
    const place = text.slice(7 * number, 7 * number + 7);
    const amount = place.trimStart();
    must(amount.length < 7 && /^(?:0|[1-9]\\d*):[0-5]\\d$/.test(amount));
    return amount;
  });
}

/**
 * The sum of lengths.
 * @param {string[]} lengths
 * @returns {number}
 */
function sumOf(lengths) {
  return lengths.reduce((sum, one) => sum + lengthOf(one), 0);
}

/**
 * `sheet`: the sums of each day and of the month have to be right.
 * @param {string} text
 * @returns {Sheet}
 */
export function readSheet(text) {
  const lines = linesOf(text);
  const [number, name] = partsOf(FORMS.driver, lines[0]);
  const [month] = partsOf(FORMS.month, lines[1]);
  partsOf(FORMS.columns, lines[2]);
  const [first, past] = rangeOf(month);
  must(monthOf(first) === month);
  const count = (past - first) / DAY;
  const days = lines.slice(3, 3 + count).map((line, at) => {
    const [date, weekday, columns] = partsOf(FORMS.day, line);
    const start = first + at * DAY;
    must(date === dateOf(start) && weekday === DAYS[weekdayOf(start)]);
    return { start, columns: columnsOf(columns) };
  });
  const total = columnsOf(partsOf(FORMS.total, lines[3 + count])[0]);
  must(days.every((day) => sumOf(day.columns) === DAY));
  must(total.every((sum, at) => lengthOf(sum) === sumOf(days.map((day) => day.columns[at]))));
  const breaches = lines.slice(4 + count, -1).map(breachOf);
  must(breaches.every((breach, at) => monthOf(breach.at) === month && (at === 0 || isBefore(breaches[at - 1], breach))));
  must(lines.length > 4 + count);
  return { number, name: textIn(name, 1, 64), month, days, total, breaches, ...horizonOf(lines.at(-1)) };
}

/**
 * `spans`.
 * @param {string} text
 * @returns {Span[]}
 */
export function readSpans(text) {
  const [head, ...rows] = linesOf(text);
  partsOf(FORMS.spans, head);
  const spans = rows.map((row) => {
    const [start, past, activity, manning] = partsOf(FORMS.span, row);
    return { ...rangeIn(start, past), activity, isCrew: manning === \"crew\" };
  });
  mustBeInOrder(spans, (one, next) => JSON.stringify({ ...one, ...SAME }) !== JSON.stringify({ ...next, ...SAME }));
  return spans;
}

/** In place of the ends of two spans, so that their marks are compared. */
const SAME = { start: 0, past: 0 };

/**
 * `gaps`.
 * @param {string} text
 * @returns {Range[]}
 */
export function readGaps(text) {
  const gaps = linesOf(text).map((line) => rangeIn(.../** @type {[string, string]} */ (partsOf(FORMS.gap, line))));
  mustBeInOrder(gaps);
  return gaps;
}

/**
 * `form`. A gap of more than 366 days has several rows, which touch.
 * @param {string} text
 * @returns {Range[]}
 */
export function readForm(text) {
  const [head, ...rows] = linesOf(text);
  partsOf(FORMS.form, head);
  const gaps = rows.map((row) => rangeIn(.../** @type {[string, string]} */ (partsOf(FORMS.row, row))));
  mustBeInOrder(gaps, (one) => one.past - one.start === 366 * DAY);
  return gaps;
}

/**
 * `version`: the program, as in `tacho 1.1.0`.
 * @param {string} text
 * @returns {string}
 */
export function readVersion(text) {
  const [program = \"\", schema, logic, ...others] = linesOf(text);
  partsOf(FORMS.schema, schema);
  must(/^tacho \\d+\\.\\d+\\.\\d+$/.test(program) && logic && others.length === 0);
  return program;
}

// Card files, entries and drivers

/**
 * `files`: numbered from 1.
 * @param {string} text
 * @returns {CardFile[]}
 */
export function readFiles(text) {
  return linesOf(text).map((line, at) => {
    const [number, part, size, start, past, digest] = partsOf(FORMS.file, line);
    must(Number(number) === at + 1 && Number(size) > 0 && Number(size) <= LARGEST_FILE);
    return { number, part, size: Number(size), ...rangeIn(start, past), digest };
  });
}

/**
 * `entries`: numbered from 1.
 * @param {string} text
 * @returns {Entry[]}
 */
export function readEntries(text) {
  return linesOf(text).map((line, at) => {
    const [number, start, past, activity, state, author, note] = partsOf(FORMS.entry, line);
    must(Number(number) === at + 1);
    return { number, ...rangeIn(start, past), activity, state, author: textIn(author, 1, 64), note: textIn(note, 0, 200) };
  });
}

/**
 * `drivers`: by their numbers.
 * @param {string} text
 * @returns {Driver[]}
 */
export function readDrivers(text) {
  let last = 0;
  return linesOf(text).map((line) => {
    const [number, holder, base, files, entries, name] = partsOf(FORMS.person, line);
    must(Number(number) > last && Number(number) <= 999999);
    last = Number(number);
    mondayIn(base);
    return { number: last, holder, base, files: Number(files), entries: Number(entries), name: textIn(name, 1, 64) };
  });
}

// A forecast

/**
 * The limits of a forecast, by kind.
 * @param {string[]} lines
 * @param {number} start
 * @returns {Record<string, {until: number, left: number}>}
 */
function limitsOf(lines, start) {
  /** @type {Record<string, {until: number, left: number}>} */
  const made = {};
  let last = -1;
  for (const line of lines) {
    const [kind, article, until, left] = partsOf(FORMS.left, line);
    const at = KINDS.indexOf(kind);
    must(at > last && article === ARTICLES[kind]);
    last = at;
    made[kind] = { until: minuteIn(until), left: lengthIn(left, minuteIn(until) - start) };
  }
  return made;
}

/**
 * `ahead`.
 * @param {string} text
 * @returns {Ahead}
 */
export function readAhead(text) {
  const lines = linesOf(text);
  const from = mondayIn(partsOf(FORMS.from, lines[0])[0]);
  const { horizon: held, cause } = horizonOf(lines[1]);
  must(from <= held);
  if ((lines[2] ?? \"\").startsWith(\"NOT EXAMINED \")) {
    const not = rangeIn(.../** @type {[string, string]} */ (partsOf(FORMS.not, lines[2])));
    must(not.start === held && lines.length === 3);
    const none = { start: held, restSince: null, daySince: held, reduced: 0, extended: 0, weeks: [], coming: [], debts: [], kinds: {} };
    return { from, held, cause, not, ...none };
  }
  const start = minuteIn(partsOf(FORMS.start, lines[2])[0]);
  const rest = partsOf(FORMS.restSince, lines[3])[0];
  const daySince = minuteIn(partsOf(FORMS.daySince, lines[4])[0]);
  const [reduced] = partsOf(FORMS.reduced, lines[5]);
  const [extended] = partsOf(FORMS.extended, lines[6]);
  const weeks = lines.slice(7, 9).map((line, at) => {
    const [week, drive] = partsOf(FORMS.driven, line);
    must(minuteIn(week) === weekOf(start) - (1 - at) * 7 * DAY);
    return { week: minuteIn(week), drive: lengthOf(drive) };
  });
  must(weeks.length === 2 && held <= start && daySince <= start);
  const others = lines.slice(9);
  const coming = others.filter((line) => / since /.test(line)).map(breachOf);
  const debts = others.filter((line) => line.startsWith(\"WEEK \")).map(debtOf);
  const kinds = limitsOf(others.slice(coming.length + debts.length), start);
  must(others.slice(0, coming.length).every((line) => / since /.test(line)));
  must(coming.every((breach, at) => at === 0 || isBefore(coming[at - 1], breach)));
  must(debts.every((debt, at) => debt.end === \"open\" && debt.by > start && (at === 0 || debts[at - 1].week < debt.week)));
  return {
    from, held, cause, not: null, start, restSince: rest === undefined ? null : minuteIn(rest), daySince, reduced: Number(reduced),
    extended: Number(extended), weeks, coming, debts, kinds,
  };
}

// Cards

/** The states of Annex IC, by the first byte of a holder. */
const STATES = (\"- A AL AND ARM AZ B BG BIH BY CH CY CZ D DK E EST F FIN FL FR UK GE GR H HR I IRL IS KZ L LT LV M MC MD MK N NL P PL \"
  + \"RO RSM RUS S SK SLO TM TR UA V YU MNE SRB UZ TJ\").split(\" \");

/**
 * The number of a card, from its holder. The archive has no more than these 14 signs of it.
 * @param {string} holder
 * @returns {string} as in `D DF000000000001..`
 */
export function cardOf(holder) {
  const [state, ...signs] = (holder.match(/../g) ?? []).map((pair) => parseInt(pair, 16));
  return `${STATES[state] ?? holder.slice(0, 2)} ${String.fromCharCode(...signs)}..`;
}
"
}

/// The text at `/shared/say.js`.
fn shared_say_js() -> &'static str {
    "// The language, and how times, lengths and debts are said in it. Its sentences are in two files, words-en.js or words-de.js: those of both
// pages in shared/, the others in the page's own folder. Only the files of the language that is shown are loaded.
import { h, moduleAt } from \"./page.js\";
import { DAY, dateOf, localText, minuteOf, textOf, weekdayOf } from \"./time.js\";

/** Where the language is kept: in localStorage, since it is no secret and holds for all visits. */
const PLACE = \"tacho.language\";

/** @type {Array<[string, string]>} The languages that there are, each with its own name. */
export const LANGUAGES = [[\"en\", \"English\"], [\"de\", \"Deutsch\"]];

/**
 * The language to begin with: the one that was chosen, else the first of the browser's that there is, else English.
 * @returns {string}
 */
function firstLanguage() {
  const wanted = [localStorage.getItem(PLACE), ...navigator.languages.map((one) => one.split(\"-\")[0].toLowerCase())];
  return wanted.find((one) => LANGUAGES.some(([language]) => language === one)) ?? \"en\";
}

/**
 * The sentences of a language.
 * @param {string} language
 * @returns {Promise<Record<string, any>>}
 */
async function wordsOf(language) {
  const folders = [\"shared\", location.pathname.split(\"/\")[1]];
  const modules = await Promise.all(folders.map((folder) => moduleAt(`/${folder}/words-${language}.js`)));
  return Object.assign({}, ...modules.map((module) => module.WORDS));
}

let language = firstLanguage();

/** @type {Record<string, any>} The sentences of the present language. There are none before `ready`. */
export let say = {};

/** A page waits for this before it shows anything. */
export const ready = wordsOf(language).then((words) => { say = words; });

/**
 * The present language.
 * @returns {string} as in `en`
 */
export function languageNow() {
  return language;
}

/**
 * Takes another language, and keeps it for later visits, unless one is chosen while its sentences are loading.
 * @param {string} other
 */
export async function speak(other) {
  localStorage.setItem(PLACE, other);
  const words = await wordsOf(other);
  if (localStorage.getItem(PLACE) === other) {
    [language, say] = [other, words];
  }
}

/**
 * What a function makes in another language.
 * @param {string} other
 * @param {() => T} make
 * @template T
 * @returns {Promise<T>}
 */
export async function withLanguage(other, make) {
  const words = await wordsOf(other);
  const was = /** @type {const} */ ([language, say]);
  [language, say] = [other, words];
  try {
    return make();
  } finally {
    [language, say] = was;
  }
}

// Days and times

/**
 * Year, month, day and day of the week of a text.
 * @param {string} text it begins with `YYYY-MM-DD`
 * @returns {[number, number, number, number]}
 */
function fieldsOf(text) {
  const [year, month, day] = text.slice(0, 10).split(\"-\").map(Number);
  return [year, month, day, weekdayOf(minuteOf(text.slice(0, 10)))];
}

/**
 * A month: 'November 2026'.
 * @param {string} month `YYYY-MM`
 * @returns {string}
 */
export function monthName(month) {
  return say.month(...month.split(\"-\").map(Number));
}

/**
 * The day of a minute in UTC: 'Sat 14 Nov 2026'.
 * @param {number} minute
 * @returns {string}
 */
export function utcDay(minute) {
  return say.date(...fieldsOf(dateOf(minute)));
}

/**
 * The same without the year: 'Sat 14 Nov'.
 * @param {number} minute
 * @returns {string}
 */
export function shortUtcDay(minute) {
  return say.shortDate(...fieldsOf(dateOf(minute)));
}

/**
 * The time of a minute in UTC: '07:03'.
 * @param {number} minute
 * @returns {string}
 */
export function utcTime(minute) {
  return textOf(minute).slice(11);
}

/**
 * The local time of a minute: '08:03'.
 * @param {number} minute
 * @returns {string}
 */
export function localTime(minute) {
  return localText(minute).slice(11);
}

/**
 * The local day and time of a minute: 'Sat 14 Nov 08:03'.
 * @param {number} minute
 * @param {boolean} [isLong] whether with the year
 * @returns {string}
 */
export function localMoment(minute, isLong = false) {
  const day = (isLong ? say.date : say.shortDate)(...fieldsOf(localText(minute)));
  return `${day} ${localTime(minute)}`;
}

/**
 * Whether a minute is of the same day in UTC and in local time.
 * @param {number} minute
 * @returns {boolean}
 */
function isOneDay(minute) {
  return localText(minute).slice(0, 10) === dateOf(minute);
}

/**
 * A minute in local time, with UTC in brackets: 'Sat 14 Nov 08:03 (07:03 UTC)'.
 * @param {number} minute
 * @returns {string}
 */
export function both(minute) {
  const day = isOneDay(minute) ? \"\" : `${shortUtcDay(minute)} `;
  return `${localMoment(minute)} (${day}${utcTime(minute)}\\u00a0UTC)`;
}

/**
 * The time of a minute in local time, with UTC in brackets: '08:03 (07:03 UTC)'.
 * @param {number} minute
 * @returns {string}
 */
export function bothTimes(minute) {
  return `${localTime(minute)} (${utcTime(minute)}\\u00a0UTC)`;
}

/**
 * A minute in UTC, with local time in brackets: '07:03 UTC (08:03 local)', after a day.
 * @param {number} minute
 * @param {string} day the day in UTC, as it is said
 * @param {string} [utc] what stands after the time in UTC
 * @param {string} [local] what stands after the local time
 * @returns {string}
 */
function utcFirst(minute, day, utc = \"\", local = \"\") {
  const other = isOneDay(minute) ? \"\" : `${say.shortDate(...fieldsOf(localText(minute)))} `;
  return `${day} ${utcTime(minute)}${utc} (${other}${localTime(minute)}${local})`;
}

/**
 * A minute as it is said in a letter: 'Sat 14 Nov 2026 07:03 UTC (08:03 local)'.
 * @param {number} minute
 * @returns {string}
 */
export function formal(minute) {
  return utcFirst(minute, utcDay(minute), \"\\u00a0UTC\", `\\u00a0${say.local}`);
}

/**
 * The same for a table whose head names the year and UTC: 'Sat 14 Nov 07:03 (08:03)'.
 * @param {number} minute
 * @returns {string}
 */
export function shortFormal(minute) {
  return utcFirst(minute, shortUtcDay(minute));
}

// Lengths

/**
 * A number of minutes as hours and minutes: '4:30'.
 * @param {number} minutes
 * @returns {string}
 */
export function hm(minutes) {
  const size = Math.abs(minutes);
  return `${minutes < 0 ? \"−\" : \"\"}${Math.floor(size / 60)}:${String(size % 60).padStart(2, \"0\")}`;
}

/**
 * A number of minutes in words: '4 h 30', '20 min'.
 * @param {number} minutes
 * @returns {string}
 */
export function length(minutes) {
  return say.lengthOf(minutes);
}

/**
 * How many local days ago a minute was.
 * @param {number} minute
 * @param {number} present
 * @returns {number}
 */
export function daysSince(minute, present) {
  const dayOf = (/** @type {number} */ one) => minuteOf(localText(one).slice(0, 10));
  return Math.floor((dayOf(present) - dayOf(minute - 1)) / DAY);
}

/**
 * A sentence whose lengths, such as '4 h 30', no end of a line divides.
 * @param {string} text
 * @returns {string}
 */
export function undivided(text) {
  return text.replace(/(\\d) (h|min|minutes|Minuten)\\b/g, \"$1\\u00a0$2\").replace(/(h) (\\d\\d)\\b/g, \"$1\\u00a0$2\");
}

// Breaches

/** The sentences on the amount of a breach; of the other kinds it is how much is over the limit. */
const AMOUNTS = new Map([[\"B2\", \"late\"], [\"B8\", \"late\"], [\"B10\", \"lacking\"]]);

/**
 * The amount of a breach in a few words: '12 h 34 late'.
 * @param {import(\"./read.js\").Breach} breach
 * @returns {string} empty where it has none
 */
export function amountText({ kind, amount }) {
  if (kind === \"B9\") {
    return \"\";
  }
  return kind === \"B3\" ? `+${amount}` : say[AMOUNTS.get(kind) ?? \"overBy\"](length(amount));
}

// Debts

/** @import { Debt } from \"./read.js\" */

/**
 * The rest that is to be made up, and below it the rest that was. Where the examination broke off, it isn't known what became of a debt.
 * @param {Array<import(\"./read.js\").Stretch<Debt>>} stretches
 * @returns {import(\"./page.js\").Child}
 */
export function debtsPart(stretches) {
  const last = stretches.at(-1);
  const open = last === undefined ? [] : last.items.filter((debt) => debt.end !== \"paid\");
  const before = stretches.slice(0, -1).flatMap((one) => one.items);
  const broken = before.filter((debt) => debt.end === \"open\" && debt.by > (last?.horizon ?? 0));
  const paid = stretches.flatMap((one) => one.items).filter((debt) => debt.end === \"paid\").reverse();
  const item = (/** @type {Debt} */ debt, /** @type {string} */ sentence, /** @type {string} */ kind) =>
    h(\"li\", { class: kind }, undivided(say[sentence](utcDay(debt.week), length(debt.owes), both(debt.by))));
  const items = [
    ...open.map((debt) => (debt.end === \"late\" ? item(debt, \"debtLate\", \"box bad\") : item(debt, \"debt\", \"box warn\"))),
    ...broken.map((debt) => item(debt, \"debtBroken\", \"box warn\")),
  ];
  const paidItem = (/** @type {Debt} */ debt) =>
    h(\"li\", {}, undivided(say.debtWas(utcDay(debt.week), length(debt.owes), both(/** @type {number} */ (debt.at)))));
  return [
    items.length > 0 ? h(\"ul\", { class: \"list\" }, items) : h(\"p\", {}, say.noDebts),
    paid.length > 0 ? h(\"details\", {}, h(\"summary\", {}, say.debtPaid(paid.length)), h(\"ul\", {}, paid.slice(0, 12).map(paidItem))) : null,
  ];
}
"
}

/// The text at `/shared/tables.js`.
fn shared_tables_js() -> &'static str {
    "// What the replies in CSV say (docs/FORMATS.md): a row for each driver, or for each breach. A text of another form is a problem. Then: what
// is left, by a forecast.
import { Problem, h, svg } from \"./page.js\";
import { hm, length, localMoment, localTime, say, undivided } from \"./say.js\";
import { DAY, minuteOf, weekOf } from \"./time.js\";

const DATE = /^\\d{4}-\\d\\d-\\d\\d$/, MOMENT = /^\\d{4}-\\d\\d-\\d\\d \\d\\d:\\d\\d$/, NUMBER = /^\\d+$/;
const RULES = [\"B1\", \"B2\", \"B3\", \"B4\", \"B5\", \"B6\", \"B7\", \"B8\", \"B9\"];

/** @type {(form: RegExp, read: (text: string) => any) => (text: string) => any} reads a cell that has a form */
const cell = (form, read) => (text) => {
  if (!form.test(text)) throw new Problem(\"unreadable\");
  return read(text);
};
const number = cell(NUMBER, Number), day = cell(DATE, minuteOf), moment = cell(MOMENT, minuteOf), word = String;
/** @type {(read: (text: string) => any) => (text: string) => any} a cell that may be empty */
const orNone = (read) => (text) => (text === \"\" ? null : read(text));

/** The rows of a text with given columns: how each is named and read.
 * @type {(text: string, columns: Record<string, (text: string) => any>) => any[]} */
function rowsOf(text, columns) {
  const names = Object.keys(columns);
  const [head, ...rows] = text.split(\"\\n\");
  if (head !== names.join(\",\") || rows.pop() !== \"\") throw new Problem(\"unreadable\");
  return rows.map((row) => {
    const cells = row.split(\",\");
    if (cells.length !== names.length) throw new Problem(\"unreadable\");
    return Object.fromEntries(names.map((name, k) => [name, columns[name](cells[k])]));
  });
}

/** @typedef {{ driver: number, name: string, files: number, held: number | null, horizon: number, cause: string, gaps: number,
 *  unknown: number, first: number | null, last_month: number, breaches: number, debts: number, owes: number, by: number | null }}
 *  Standing */
/** @type {(text: string) => Standing[]} `standing` */
export const readStanding = (text) => rowsOf(text, {
  driver: number, name: word, files: number, held: orNone(moment), horizon: moment, cause: cell(/^(unknown|crew)$/, String), gaps: number,
  unknown: number, first: orNone(moment), last_month: number, breaches: number, debts: number, owes: number, by: orNone(moment),
});

/** A forecast of a driver: null where nothing can be said of them.
 * @typedef {{ driver: number, name: string, from: number, held: number | null, ahead: Omit<import(\"./read.js\").Ahead, \"held\" | \"cause\"> |
 *  null }} Forecast */
/** @type {(text: string) => Forecast[]} `forecast` */
export function readForecast(text) {
  const rules = Object.fromEntries(RULES.map((rule) => [rule, orNone(moment)]));
  const rows = rowsOf(text, {
    driver: number, name: word, from: day, held: orNone(moment), start: orNone(moment), ...rules,
    reduced: orNone(number), extended: orNone(number), before: orNone(number), week: orNone(number),
  });
  return rows.map((row) => ({ driver: row.driver, name: row.name, from: row.from, held: row.held,
    ahead: row.start === null ? null : aheadOf(row) }));
}
/** @type {(row: Record<string, any>) => any} a row of `forecast` in the form of `ahead` */
const aheadOf = (row) => ({
  from: row.from, start: row.start, reduced: row.reduced, extended: row.extended, weeks: [{ drive: row.before }, { drive: row.week }],
  kinds: Object.fromEntries(RULES.filter((rule) => row[rule] !== null).map((rule) => [rule,
    { until: row[rule], left: row[rule] - row.start }])),
});

/** @typedef {{ driver: number, name: string, rest: number, available: number, work: number, drive: number, crew: number, none: number,
 *  examined: number } & Record<string, number>} Overview */
/** @type {(text: string) => Overview[]} `overview` */
export const readOverview = (text) => rowsOf(text, {
  driver: number, name: word, rest: number, available: number, work: number, drive: number, crew: number, none: number, examined: number,
  ...Object.fromEntries([...RULES, \"B10\"].map((rule) => [rule, number])),
});

/** @typedef {{ driver: number, name: string, kind: string, article: string, moment: number, since: number, amount: number }} Incident */
/** @type {(text: string) => Incident[]} `incidents` */
export const readIncidents = (text) => rowsOf(text, {
  driver: number, name: word, kind: cell(/^B([1-9]|10)$/, String), article: cell(/^Art \\S+$/, String), moment, since: moment,
    amount: number,
});

// What is left

/**
 * What is left, from a forecast: how much driving until the next break, in the day, in the week and in two weeks, and when the daily and
 * the weekly rest have to begin at the latest. Null: no limit is reached.
 * @param {Pick<import(\"./read.js\").Ahead, \"kinds\" | \"start\" | \"from\" | \"weeks\" | \"reduced\">} ahead
 */
export function leftOf({ kinds, start, from, weeks }) {
  const left = (/** @type {string} */ kind) => kinds[kind]?.left ?? null;
  const until = (/** @type {string} */ kind) => kinds[kind]?.until ?? null;
  const least = (/** @type {Array<number | null>} */ all) => {
    const known = /** @type {number[]} */ (all.filter((one) => one !== null));
    return known.length > 0 ? Math.min(...known) : null;
  };
  const [ten, nine, rest, long] = [left(\"B4\"), left(\"B5\"), until(\"B2\"), until(\"B3\")];
  return {
    now: left(\"B1\"),
    day: least([ten, nine]),
    // Whether the two days of the week with more than nine hours are used.
    nine: nine !== null && (ten === null || nine < ten),
    week: left(\"B6\"),
    two: left(\"B7\"),
    rest,
    // B3 is reached once the three reduced rests are used: then the rest of eleven hours has to begin in time.
    long: long ?? (rest === null ? null : rest - 120),
    needsLong: long !== null && (rest === null || long <= rest),
    weekly: least([until(\"B8\"), until(\"B9\")]),
    // What was driven in the week before isn't known.
    isYoung: from > weekOf(start) - 7 * DAY,
    weekDrive: weeks.at(-1)?.drive ?? null,
    twoDrive: weeks.reduce((sum, one) => sum + one.drive, 0),
  };
}

/**
 * A field with what is left: a length with a bar, or a moment.
 * @param {string} value
 * @param {string} text
 * @param {{left: number, most: number, isFirst?: boolean} | null} [amount] null for a moment
 * @returns {HTMLElement}
 */
function meter(value, text, amount = null) {
  if (amount === null) {
    return h(\"li\", { class: \"meter moment\" }, h(\"b\", {}, value), h(\"span\", {}, undivided(text)));
  }
  const { left, most, isFirst } = amount;
  const part = Math.max(0, Math.min(100, 100 * left / most));
  return h(\"li\", { class: `meter${part < 10 ? \" low\" : \"\"}${isFirst ? \" first\" : \"\"}` }, h(\"b\", {}, value), h(\"span\", {}, undivided(text)),
    svg(\"svg\", { viewBox: \"0 0 100 4\", preserveAspectRatio: \"none\", \"aria-hidden\": \"true\" },
      svg(\"rect\", { class: \"full\", width: 100, height: 4 }), svg(\"rect\", { class: \"used\", width: part, height: 4 })));
}

/**
 * What is left, in fields.
 * @param {import(\"./read.js\").Ahead} ahead
 * @returns {HTMLElement}
 */
export function meters(ahead) {
  const left = leftOf(ahead);
  const made = [];
  if (left.now !== null) {
    made.push(meter(length(left.now), say.leftBreak, { left: left.now, most: 270, isFirst: true }));
  }
  if (left.day !== null) {
    const [text, most] = left.nine ? [say.leftDay9, 540] : [say.leftDay, 600];
    made.push(meter(length(left.day), text, { left: left.day, most, isFirst: true }));
  }
  if (left.long !== null && left.needsLong) {
    made.push(meter(localMoment(left.long), say.leftLong));
  } else if (left.rest !== null && left.long !== null) {
    made.push(meter(localMoment(left.rest), left.long >= ahead.start ? say.leftRest(localTime(left.long)) : say.leftShort));
  }
  if (left.week !== null) {
    const driven = say.driven(hm(left.weekDrive ?? 0));
    made.push(meter(length(left.week), `${say.leftWeek} (${driven} ${say.of} 56:00)`, { left: left.week, most: 3360 }));
  }
  if (left.two !== null && !left.isYoung) {
    made.push(meter(length(left.two), `${say.leftTwo} (${say.driven(hm(left.twoDrive))} ${say.of} 90:00)`, { left: left.two, most: 5400 }));
  }
  if (left.weekly !== null) {
    made.push(meter(localMoment(left.weekly), say.leftWeekly));
  }
  return h(\"ul\", { class: \"meters\" }, made);
}
"
}

/// The text at `/shared/time.js`.
fn shared_time_js() -> &'static str {
    "// Times. A minute is a number, counted from the beginning of 1970 in UTC.

/** The minutes of a day. */
export const DAY = 1440;

const LOCAL = new Intl.DateTimeFormat(\"en-GB\", {
  year: \"numeric\", month: \"2-digit\", day: \"2-digit\", hour: \"2-digit\", minute: \"2-digit\", hourCycle: \"h23\",
});

/**
 * The name of the browser's time zone.
 * @returns {string} as in `Europe/Berlin`
 */
export function zone() {
  return LOCAL.resolvedOptions().timeZone;
}

/**
 * The present minute.
 * @returns {number}
 */
export function now() {
  return Math.floor(Date.now() / 60000);
}

// In UTC

/**
 * The minute of a text, which is taken as UTC.
 * @param {string} text `YYYY-MM-DD`, `YYYY-MM-DD HH:MM` or `YYYY-MM-DDTHH:MM`
 * @returns {number}
 */
export function minuteOf(text) {
  const [year, month, day, hour = 0, minute = 0] = text.split(/[- :T]/).map(Number);
  return Date.UTC(year, month - 1, day, hour, minute) / 60000;
}

/**
 * A minute in UTC.
 * @param {number} minute
 * @returns {string} `YYYY-MM-DD HH:MM`
 */
export function textOf(minute) {
  return new Date(minute * 60000).toISOString().slice(0, 16).replace(\"T\", \" \");
}

/**
 * The day of a minute in UTC.
 * @param {number} minute
 * @returns {string} `YYYY-MM-DD`
 */
export function dateOf(minute) {
  return textOf(minute).slice(0, 10);
}

/**
 * The month of a minute in UTC.
 * @param {number} minute
 * @returns {string} `YYYY-MM`
 */
export function monthOf(minute) {
  return textOf(minute).slice(0, 7);
}

/**
 * The day of the week of a minute in UTC.
 * @param {number} minute
 * @returns {number} 0 for Sunday to 6 for Saturday
 */
export function weekdayOf(minute) {
  return new Date(minute * 60000).getUTCDay();
}

/**
 * The first minute of the week of a minute: Monday, 00:00 UTC.
 * @param {number} minute
 * @returns {number}
 */
export function weekOf(minute) {
  return minuteOf(dateOf(minute)) - ((weekdayOf(minute) + 6) % 7) * DAY;
}

/**
 * The first minute of a month, and that of the next one.
 * @param {string} month `YYYY-MM`
 * @returns {[number, number]}
 */
export function rangeOf(month) {
  const [year, number] = month.split(\"-\").map(Number);
  return [Date.UTC(year, number - 1, 1) / 60000, Date.UTC(year, number, 1) / 60000];
}

/**
 * The month that lies some months after another.
 * @param {string} month `YYYY-MM`
 * @param {number} step negative for a month before
 * @returns {string} `YYYY-MM`
 */
export function monthStep(month, step) {
  const [year, number] = month.split(\"-\").map(Number);
  return new Date(Date.UTC(year, number - 1 + step, 1)).toISOString().slice(0, 7);
}

// In local time

/**
 * A minute in the browser's time zone.
 * @param {number} minute
 * @returns {string} `YYYY-MM-DD HH:MM`
 */
export function localText(minute) {
  const fields = Object.fromEntries(LOCAL.formatToParts(new Date(minute * 60000)).map((part) => [part.type, part.value]));
  return `${fields.year}-${fields.month}-${fields.day} ${fields.hour}:${fields.minute}`;
}

/**
 * How many minutes local time is ahead of UTC.
 * @param {number} minute
 * @returns {number}
 */
export function offset(minute) {
  return minuteOf(localText(minute)) - minute;
}

/**
 * The same as a text.
 * @param {number} minute
 * @returns {string} as in `+01:00`
 */
export function offsetText(minute) {
  const ahead = offset(minute);
  const size = Math.abs(ahead);
  const two = (/** @type {number} */ number) => String(number).padStart(2, \"0\");
  return `${ahead < 0 ? \"−\" : \"+\"}${two(Math.floor(size / 60))}:${two(size % 60)}`;
}

/**
 * The minutes that have a local text: none in the hour that spring leaves out, two in the hour that autumn repeats.
 * @param {string} text `YYYY-MM-DD HH:MM` or `YYYY-MM-DDTHH:MM`
 * @returns {number[]} in order
 */
export function minutesOfLocal(text) {
  const asUtc = minuteOf(text);
  const wanted = text.replace(\"T\", \" \").slice(0, 16);
  const offsets = new Set([offset(asUtc - DAY), offset(asUtc + DAY)]);
  return [...offsets].map((ahead) => asUtc - ahead).filter((minute) => localText(minute) === wanted).sort((a, b) => a - b);
}

/**
 * Six o'clock, local time, of the day that lies some days after the present one.
 * @param {number} days
 * @returns {number}
 */
function sixInDays(days) {
  const noon = minuteOf(localText(now()).slice(0, 10)) + days * DAY + DAY / 2;
  return minutesOfLocal(`${dateOf(noon)} 06:00`)[0];
}

/**
 * Tomorrow at six, local time.
 * @returns {number}
 */
export function tomorrow() {
  return sixInDays(1);
}

/**
 * The next six o'clock, local time: after midnight it is that of the same day.
 * @returns {number}
 */
export function nextMorning() {
  const today = sixInDays(0);
  return today > now() ? today : tomorrow();
}
"
}

/// The text at `/shared/words-de.js`.
fn shared_words_de_js() -> &'static str {
    "// The German sentences of both pages. words-en.js has the same names in the same order.
const NB = \"\\u00a0\";
const two = (n) => String(n).padStart(2, \"0\");
export const many = (n, one, more) => `${n}${NB}${n === 1 ? one : more}`;
const hours = (n) => `${Math.floor(n / 60)}${NB}h${n % 60 ? `${NB}${two(n % 60)}` : \"\"}`;
const length = (n) => (n >= 60 ? hours(n) : `${n}${NB}Min.`);
const DAYS = [\"So\", \"Mo\", \"Di\", \"Mi\", \"Do\", \"Fr\", \"Sa\"];
const MONTHS = [\"Januar\", \"Februar\", \"März\", \"April\", \"Mai\", \"Juni\", \"Juli\", \"August\", \"September\", \"Oktober\", \"November\", \"Dezember\"];

export const WORDS = {
  // Times and lengths
  lengthOf: length,
  days: DAYS,
  date: (y, m, d, w) => `${DAYS[w]} ${two(d)}.${two(m)}.${y}`,
  shortDate: (y, m, d, w) => `${DAYS[w]} ${two(d)}.${two(m)}.`,
  month: (y, m) => `${MONTHS[m - 1]} ${y}`,
  local: \"Ortszeit\",
  to: \"bis\",
  zoneNote: (zone, ahead) => `Zeiten sind Ortszeit (${zone}, UTC${ahead}); wo es darauf ankommt, steht UTC, wie auf der Karte, daneben. Tage und Wochen der Regeln beginnen um 00:00 UTC.`,

  // The page
  language: \"Sprache\",
  cards: \"Kartendateien\",
  logOut: \"Abmelden\",
  loggedOut: \"Sie sind abgemeldet.\",
  busy: \"Das Archiv wird gefragt …\",
  busyLong: \"Noch keine Antwort. Das Archiv beantwortet eine Anfrage nach der anderen.\",
  cancel: \"Nicht mehr warten\",
  retry: \"Noch einmal\",
  show: \"Zeigen\",
  foot: \"Die Antworten des Archivs sind bewiesen, diese Seite ist nur getestet. Es wendet seine Lesart der Regeln auf die Stunden an, die es hat; das ist keine Rechtsberatung.\",

  // What can go wrong
  tooOften: \"Zu viele Anfragen. Warten Sie einige Sekunden.\",
  noDriver: \"Es gibt keinen Fahrer mit dieser Nummer.\",
  otherReply: (status, line) => `Das Archiv hat unerwartet geantwortet: ${status} ${line}`,

  // A month
  monthBefore: \"Vormonat\",
  monthAfter: \"Folgemonat\",
  wholeMonth: \"Monat\",
  examinedAll: \"Dieser Monat ist ganz geprüft.\",
  notExamined: \"Nicht geprüft\",
  notFrom: (a, b) => `${a} bis ${b}`,
  openEnd: (a) => `ab ${a}`,
  unknown: \"Ab dann ist nicht bekannt, was war.\",
  crew: \"Ein zweiter Fahrer war dabei. Fahren zu zweit wird nicht geprüft.\",
  beforeBase: (d) => `Vor ${d}, ab dem geprüft wird, wurde nichts angesehen.`,
  restart: (d) => `Die Prüfung beginnt wieder am nächsten Montag, ${d}, ohne Rücksicht auf das, was vorher war.`,
  unknownGap: (a, b, l) => `Unbekannt sind ${l}, von ${a} bis ${b}.`,
  noLooks: \"Wo nichts geprüft ist, wird kein Verstoß gezeigt, ob es einen gab oder nicht.\",
  gaps: \"Unbekannte Stunden\",
  noGaps: \"In diesem Monat fehlt keine Stunde, bis zum Ende dessen, was bekannt ist.\",
  isWithdrawn: \"zurückgezogen\",

  // Breaches. No sentence has a subject: none says who is to blame
  breaches: \"Verstöße\",
  noBreach: \"In dem, was von diesem Monat geprüft ist, wurde kein Verstoß gefunden.\",
  nothingExamined: \"Von diesem Monat wurde nichts geprüft, also kann kein Verstoß gezeigt werden.\",
  evidence: \"Warum?\",
  article: (a, kind) => `Verordnung (EG) Nr. 561/2006, Artikel ${a.replace(/\\((\\w+)\\)/, \" Absatz $1\")} (${kind})`,
  B1: (a) => `${length(270 + a)} Lenkzeit ohne volle Fahrtunterbrechung von 45 Minuten (oder von 15 und danach 30). Die Grenze ist 4 h 30.`,
  B2: (a) => `Die nächste Ruhezeit von 9 h oder mehr begann ${length(a)} zu spät. Sie muss innerhalb von 15 h ab dem Beginn des Tages beginnen.`,
  B3: (a) => `${3 + a}. tägliche Ruhezeit seit der letzten wöchentlichen, von der weniger als 11 h innerhalb von 24 h ab dem Beginn des Tages lagen. Die Grenze ist 3.`,
  B4: (a) => `${length(600 + a)} Lenkzeit an einem Tag, von einer Ruhezeit von 9 h oder mehr bis zur nächsten. Die Grenze ist 10 h.`,
  B5: (a) => `${length(540 + a)} Lenkzeit an einem Tag, nach zwei anderen Tagen der Woche mit mehr als 9 h. Die Grenze sind zwei solche Tage in einer Woche.`,
  B6: (a) => `${length(3360 + a)} Lenkzeit in einer Woche. Die Grenze ist 56 h.`,
  B7: (a) => `${length(5400 + a)} Lenkzeit in zwei aufeinanderfolgenden Wochen. Die Grenze ist 90 h.`,
  B8: (a) => `Die wöchentliche Ruhezeit begann ${length(a)} zu spät. Sie muss innerhalb von sechs mal 24 h nach dem Ende der letzten beginnen.`,
  B9: () => \"In zwei aufeinanderfolgenden Wochen fehlt eine wöchentliche Ruhezeit: nötig sind zwei von 24 h oder mehr, davon eine von 45 h oder mehr, und jede Ruhezeit zählt einmal. Um einen Urlaub zählt ein Kontrolleur vielleicht anders.\",
  B10: (a) => `Eine wöchentliche Ruhezeit war um ${length(a)} kürzer als 45 h, und das wurde nicht bis zum Ende der dritten Woche danach am Stück ausgeglichen.`,
  short: { B1: \"Fahrtunterbrechung\", B2: \"Tägliche Ruhezeit\", B3: \"Reduzierte Ruhezeiten\", B4: \"Tageslenkzeit\", B5: \"Verlängerte Tage\", B6: \"Wochenlenkzeit\", B7: \"Lenkzeit in zwei Wochen\", B8: \"Wöchentliche Ruhezeit\", B9: \"Wochenruhen von zwei Wochen\", B10: \"Nicht ausgeglichene Ruhezeit\" },
  since: \"gezählt seit\",
  at: \"Grenze erreicht\",
  late: (l) => `${l} zu spät`,
  lacking: (l) => `${l} fehlen`,
  overBy: (l) => `${l} darüber`,

  // What shows a breach
  ev: { break: \"volle Unterbrechung\", drive: \"Lenken\", rest: \"Ruhe\", day: \"Tag\", limit: \"Ende der 24 h\", weekly: \"Wochenruhe\", reduced: \"reduzierte Ruhe\", week: \"Woche\", date: \"Tag\", from: \"Wochen ab\", owes: \"auszugleichen\", main: \"Hauptruhe\" },
  evHead: [\"\", \"von\", \"bis\", \"Dauer\", \"Summe\"],
  evHeadFormal: [\"\", \"von, UTC (Ortszeit)\", \"bis, UTC (Ortszeit)\", \"Dauer\", \"Summe\"],
  longest: (within, all) => within === all ? `Die längste Ruhezeit innerhalb dieser 24 h hatte ${within}.` : `Von der längsten Ruhezeit lagen ${within} innerhalb dieser 24 h (von ${all}).`,
  knownTo: (at) => `Bekannt und geprüft bis ${at}. Was danach kommt, ist noch nicht im Archiv.`,
  knownBefore: (at) => `Bekannt bis ${at}, vor diesem Monat.`,
  open: \"nicht bekannt\",
  within: (l) => `davon ${l} innerhalb der 24 h`,
  inWeeks: (w) => `kann zählen für die Woche ab ${w}`,
  room: (l) => `${l} konnten ausgleichen`,
  atRest: \"durchgehend Ruhe\",
  byHand: \"von Hand\",
  byHandHelp: \"Von Hand: zum Teil oder ganz von Hand eingetragen.\",

  // The chart, and the days in numbers
  chart: \"Diagramm\",
  chartNote: (ahead) => `Die Stunden sind UTC, wie auf der Karte; Ortszeit ist UTC${ahead}.`,
  rest: \"Ruhe\",
  available: \"Bereitschaft\",
  work: \"andere Arbeit\",
  drive: \"Lenken\",
  withCrew: \"mit zweitem Fahrer\",
  notKnown: \"unbekannt\",
  unseen: \"nicht geprüft\",
  mark: \"Verstoß\",
  sum: \"gelenkt\",
  sheet: \"Jeder Tag in Zahlen\",
  sheetColumns: [\"Tag (UTC)\", \"Ruhe\", \"Bereitschaft\", \"Andere Arbeit\", \"Lenken\", \"Zweiter Fahrer\", \"Unbekannt\"],
  notYet: (a, b) => (a === b.slice(0, a.length) ? `${b}: noch nicht` : `${a} bis ${b}: noch nicht`),

  // Rest to be made up
  debts: \"Auszugleichende Ruhezeit\",
  noDebts: \"Keine reduzierte wöchentliche Ruhezeit ist bekannt, die noch auszugleichen ist.\",
  debt: (week, n, by) => `${n} für die Woche ab ${week}: am Stück, neben einer Ruhezeit von 9 h oder mehr, vor ${by}.`,
  debtLate: (week, n, by) => `${n} für die Woche ab ${week} waren vor ${by} zu nehmen. Bis dahin wurden sie nicht genommen.`,
  debtBroken: (week, n, by) => `${n} für die Woche ab ${week}, vor ${by}: Es ist nicht bekannt, ob sie genommen wurden, denn die Stunden danach sind nicht bekannt.`,
  debtPaid: (n) => `${n} frühere ausgeglichen`,
  debtWas: (week, n, at) => `${n} für die Woche ab ${week}: ausgeglichen mit der Ruhezeit vom ${at}.`,

  // What is left
  left: \"Was noch geht\",
  colHeld: \"Bekannt bis\",
  startAt: \"Beginn des Lenkens (Ortszeit)\",
  leftAssume: \"Angenommen ist Ruhe von der letzten bekannten Stunde bis zum Beginn. Was seitdem gefahren wurde, ist nicht dabei.\",
  leftStale: (n) => `Nur bis ${n} Tage vor dem Beginn bekannt: nicht verlässlich`,
  noLeft: \"Noch keine Kartendatei.\",
  leftBreak: \"bis zu einer vollen Unterbrechung von 45 Min.\",
  leftDay: \"Lenken an diesem Tag\",
  leftDay9: \"Lenken an diesem Tag (die zwei 10-Stunden-Tage der Woche sind verbraucht)\",
  leftWeek: \"Lenken in dieser Woche\",
  leftTwo: \"Lenken in dieser und der letzten Woche\",
  leftRest: (t) => `spätester Beginn einer täglichen Ruhezeit von 9 h (von 11 h: ${t})`,
  leftShort: \"spätester Beginn einer täglichen Ruhezeit von 9 h (für eine von 11 h ist es zu spät)\",
  leftLong: \"spätester Beginn der täglichen Ruhezeit von 11 h: die drei kurzen sind verbraucht\",
  leftWeekly: \"spätester Beginn der Wochenruhe\",
  leftUsed: (r, e) => `Reduzierte tägliche Ruhen: ${r} von 3 · Tage über 9 h: ${e} von 2`,
  driven: (n) => `gelenkt ${n}`,
  of: \"von\",
};
"
}

/// The text at `/shared/words-en.js`.
fn shared_words_en_js() -> &'static str {
    "// The English sentences of both pages. words-de.js has the same names in the same order.
const NB = \"\\u00a0\";
const two = (n) => String(n).padStart(2, \"0\");
export const many = (n, one, more) => `${n}${NB}${n === 1 ? one : more}`;
const hours = (n) => `${Math.floor(n / 60)}${NB}h${n % 60 ? `${NB}${two(n % 60)}` : \"\"}`;
const length = (n) => (n >= 60 ? hours(n) : `${n}${NB}min`);
const ordinal = (n) => n + ((Math.floor(n / 10) % 10 !== 1 && [\"th\", \"st\", \"nd\", \"rd\"][n % 10]) || \"th\");
const DAYS = [\"Sun\", \"Mon\", \"Tue\", \"Wed\", \"Thu\", \"Fri\", \"Sat\"];
const MONTHS = [\"January\", \"February\", \"March\", \"April\", \"May\", \"June\", \"July\", \"August\", \"September\", \"October\", \"November\", \"December\"];

export const WORDS = {
  // Times and lengths
  lengthOf: length,
  days: DAYS,
  date: (y, m, d, w) => `${DAYS[w]} ${d}${NB}${MONTHS[m - 1].slice(0, 3)} ${y}`,
  shortDate: (y, m, d, w) => `${DAYS[w]} ${d}${NB}${MONTHS[m - 1].slice(0, 3)}`,
  month: (y, m) => `${MONTHS[m - 1]} ${y}`,
  local: \"local\",
  to: \"to\",
  zoneNote: (zone, ahead) => `Times are local (${zone}, UTC${ahead}), with UTC, as on the card, beside them where it counts. Days and weeks of the rules begin at 00:00 UTC.`,

  // The page
  language: \"Language\",
  cards: \"Card files\",
  logOut: \"Log out\",
  loggedOut: \"You are logged out.\",
  busy: \"Asking the archive …\",
  busyLong: \"Still waiting. The archive answers one request after another.\",
  cancel: \"Stop waiting\",
  retry: \"Try again\",
  show: \"Show\",
  foot: \"The archive's replies are proved, this page is only tested. It applies its reading of the rules to the hours that it has; this is no legal advice.\",

  // What can go wrong
  tooOften: \"Too many requests. Wait a few seconds, and try again.\",
  noDriver: \"There is no driver with this number.\",
  otherReply: (status, line) => `The archive gave an unexpected reply: ${status} ${line}`,

  // A month
  monthBefore: \"Month before\",
  monthAfter: \"Month after\",
  wholeMonth: \"Month\",
  examinedAll: \"This month is examined as a whole.\",
  notExamined: \"Not examined\",
  notFrom: (a, b) => `${a} to ${b}`,
  openEnd: (a) => `from ${a} on`,
  unknown: \"It isn't known what happened from then on.\",
  crew: \"There was a second driver. Driving with a second driver isn't examined.\",
  beforeBase: (d) => `Before ${d}, from which this driver is examined, nothing was looked at.`,
  restart: (d) => `The examination begins again on the next Monday, ${d}, without regard to what came before.`,
  unknownGap: (a, b, l) => `Unknown are the ${l} from ${a} to ${b}.`,
  noLooks: \"Where nothing is examined no breach is shown, whether there was one or not.\",
  gaps: \"Unknown hours\",
  noGaps: \"No hour of this month is missing, up to the end of what is known.\",
  isWithdrawn: \"withdrawn\",

  // Breaches. No sentence has a subject: none says who is to blame
  breaches: \"Breaches\",
  noBreach: \"No breach was found in what was examined of this month.\",
  nothingExamined: \"Nothing of this month was examined, so no breach can be shown.\",
  evidence: \"Why?\",
  article: (a, kind) => `Regulation (EC) No 561/2006, Article ${a} (${kind})`,
  B1: (a) => `${length(270 + a)} of driving without a full break of 45 minutes (or of 15 and then 30). The limit is 4 h 30.`,
  B2: (a) => `The next rest of 9 h or more began ${length(a)} too late. It has to begin within 15 h of the start of the day.`,
  B3: (a) => `${ordinal(3 + a)} daily rest since the last weekly rest of which less than 11 h lay within 24 h of the start of the day. The limit is 3.`,
  B4: (a) => `${length(600 + a)} of driving in one day, from one rest of 9 h or more to the next. The limit is 10 h.`,
  B5: (a) => `${length(540 + a)} of driving in one day, after two other days of the week with more than 9 h. The limit is two such days in a week.`,
  B6: (a) => `${length(3360 + a)} of driving in one week. The limit is 56 h.`,
  B7: (a) => `${length(5400 + a)} of driving in two consecutive weeks. The limit is 90 h.`,
  B8: (a) => `The weekly rest began ${length(a)} too late. It has to begin within six times 24 h of the end of the last one.`,
  B9: () => \"Two consecutive weeks have a weekly rest too few: they need two of 24 h or more, one of them of 45 h or more, and each rest counts once. Around leave an officer may count otherwise.\",
  B10: (a) => `A weekly rest was ${length(a)} short of 45 h, and this wasn't made up in one piece by the end of the third week after it.`,
  short: { B1: \"Break\", B2: \"Daily rest\", B3: \"Reduced daily rests\", B4: \"Daily driving\", B5: \"Extended days\", B6: \"Weekly driving\", B7: \"Driving in two weeks\", B8: \"Weekly rest\", B9: \"Weekly rests of two weeks\", B10: \"Rest not made up\" },
  since: \"counted since\",
  at: \"limit reached\",
  late: (l) => `${l} late`,
  lacking: (l) => `${l} lacking`,
  overBy: (l) => `${l} over`,

  // What shows a breach
  ev: { break: \"full break\", drive: \"driving\", rest: \"rest\", day: \"day\", limit: \"24 h end\", weekly: \"weekly rest\", reduced: \"reduced rest\", week: \"week\", date: \"day\", from: \"weeks from\", owes: \"to make up\", main: \"main rest\" },
  evHead: [\"\", \"from\", \"to\", \"length\", \"sum\"],
  evHeadFormal: [\"\", \"from, UTC (local)\", \"to, UTC (local)\", \"length\", \"sum\"],
  longest: (within, all) => within === all ? `The longest rest within these 24 h had ${within}.` : `Of the longest rest within these 24 h, ${within} lay in them (of ${all}).`,
  knownTo: (at) => `Known and examined to ${at}. What comes after it isn't in the archive yet.`,
  knownBefore: (at) => `Known to ${at}, before this month.`,
  open: \"not known\",
  within: (l) => `of which ${l} within the 24 h`,
  inWeeks: (w) => `may count for the week from ${w}`,
  room: (l) => `${l} could make up`,
  atRest: \"at rest throughout\",
  byHand: \"by hand\",
  byHandHelp: \"By hand: entered by hand, in part or whole.\",

  // The chart, and the days in numbers
  chart: \"Chart\",
  chartNote: (ahead) => `Hours are UTC, as on the card; local time is UTC${ahead}.`,
  rest: \"rest\",
  available: \"available\",
  work: \"other work\",
  drive: \"driving\",
  withCrew: \"with a second driver\",
  notKnown: \"unknown\",
  unseen: \"not examined\",
  mark: \"breach\",
  sum: \"driven\",
  sheet: \"Each day in numbers\",
  sheetColumns: [\"Day (UTC)\", \"Rest\", \"Available\", \"Other work\", \"Driving\", \"Second driver\", \"Unknown\"],
  notYet: (a, b) => (a === b.slice(0, a.length) ? `${b}: not yet` : `${a} to ${b}: not yet`),

  // Rest to be made up
  debts: \"Rest to be made up\",
  noDebts: \"No reduced weekly rest is known that still has to be made up.\",
  debt: (week, n, by) => `${n} for the week from ${week}: in one piece, beside a rest of 9 h or more, before ${by}.`,
  debtLate: (week, n, by) => `${n} for the week from ${week} had to be taken before ${by}. It wasn't taken by then.`,
  debtBroken: (week, n, by) => `${n} for the week from ${week}, before ${by}: it isn't known whether it was taken, since the hours after it aren't known.`,
  debtPaid: (n) => many(n, \"earlier one made up\", \"earlier ones made up\"),
  debtWas: (week, n, at) => `${n} for the week from ${week}: made up with the rest of ${at}.`,

  // What is left
  left: \"What is left\",
  colHeld: \"Known to\",
  startAt: \"Start of driving (local time)\",
  leftAssume: \"Assumes rest from the last known hour until the start. Whatever was driven since isn't in it.\",
  leftStale: (n) => `Known only to ${n} days before the start: don't rely on it`,
  noLeft: \"No card file yet.\",
  leftBreak: \"until a full break of 45 min\",
  leftDay: \"of driving in the day\",
  leftDay9: \"of driving in the day (10 h twice a week, both used)\",
  leftWeek: \"of driving this week\",
  leftTwo: \"of driving in this week and the last\",
  leftRest: (t) => `latest start of a daily rest of 9 h (of 11 h: ${t})`,
  leftShort: \"latest start of a daily rest of 9 h (it is too late for one of 11 h)\",
  leftLong: \"latest start of the daily rest of 11 h: the three short rests are used\",
  leftWeekly: \"latest start of the weekly rest\",
  leftUsed: (r, e) => `Reduced daily rests: ${r} of 3 · days over 9 h: ${e} of 2`,
  driven: (n) => `driven ${n}`,
  of: \"of\",
};
"
}
