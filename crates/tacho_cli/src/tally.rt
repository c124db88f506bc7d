ghost use Rattle.std.specs.Prelude.{◌≡◌, ◌+◌, ◌-◌, ◌<◌, ◌^◌, ◌∷◌, ◌++◌, [], ℕ, List, false};
ghost use Rattle.tacho_desk.specs.Told.{answer_of};
ghost use Rattle.tacho_cli.specs.Files.{FileAnswer, ends, import_status, tally_line};
ghost use Rattle.tacho_cli.specs.Tally.{IsTally};

use arrayvec::ArrayString;
use itoa::Buffer;
use tacho_desk::{Fault, Text};
use tacho_state::StoreFault;

/// The line of a tally. Allocates no memory.
pub(crate) type TallyLine = ArrayString<96>;

/// How many files were added, repeated and refused.
#[derive(Drop)]
pub(crate) struct Tally {
    added: usize,
    repeated: usize,
    refused: usize,
    /// True if no further file is to be begun.
    pub(crate) ended: bool,
}

impl Tally {
    /// Returns the tally of no files.
    pub(crate) fn new() -> Tally
        ensures tally { IsTally result [] }
        ensures ended { result.ended ≡ false }
        ensures count { result.added + result.repeated + result.refused ≡ 0 }
    {
        Tally {
            added: 0,
            repeated: 0,
            refused: 0,
            ended: false,
        }
    }

    /// Counts an answer.
    pub(crate) fn count(&mut self, answer: &Result<Text, Fault>)
        requires { self.old.added + self.old.repeated + self.old.refused < 2 ^ 64 - 1 }
        ensures tally { (files : List FileAnswer) (name : List ℕ) → IsTally self.old files
            → IsTally self.new (files ++ record { name = name; answer = answer_of answer.now } ∷ []) }
        ensures ended { self.old.ended ≡ false → self.new.ended ≡ ends (answer_of answer.now) }
        ensures count { self.new.added + self.new.repeated + self.new.refused ≡ self.old.added + self.old.repeated + self.old.refused + 1 }
    {
        match answer {
            Ok(Text::Added(_)) => self.added += 1,
            Ok(_) => self.repeated += 1,
            Err(fault) => {
                self.refused += 1;
                self.ended = self.ended || is_end(fault);
            }
        }
    }

    /// The last line of an import: `2 added, 1 repeated, 1 refused`.
    pub(crate) fn line(&self) -> TallyLine
        ensures { (files : List FileAnswer) → IsTally self.now files → result.bytes ≡ tally_line files }
    {
        let mut digits = Buffer::new();
        let mut line = TallyLine::new();
        line.push_str(digits.format(self.added));
        line.push_str(" added, ");
        line.push_str(digits.format(self.repeated));
        line.push_str(" repeated, ");
        line.push_str(digits.format(self.refused));
        line.push_str(" refused\n");
        line
    }

    /// The program's status after these files.
    pub(crate) fn status(&self) -> u8
        ensures { (files : List FileAnswer) → IsTally self.now files → result ≡ import_status files }
    {
        match (self.ended, self.refused) {
            (true, _) => 3,
            (false, 0) => 0,
            _ => 1,
        }
    }
}

/// Returns true if no further file is begun after this fault: memory ran out, or the store failed.
fn is_end(fault: &Fault) -> bool
    ensures { result ≡ ends (Err fault.now) }
{
    match fault {
        Fault::Memory => true,
        Fault::Store(StoreFault::Store) => true,
        _ => false,
    }
}
