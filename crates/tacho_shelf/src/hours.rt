ghost use Rattle.std.specs.Prelude.{◌≡◌, ◌++◌, IfOk, OnOk};
ghost use Rattle.tacho_state.specs.Batch.{batch_of};
ghost use Rattle.tacho_state.specs.State.{entered_spans};

use std::alloc::{AllocError, Global};
use std::marker::Model;
use tacho_state::EntryLine;
use tacho_time::{Mark, Span};

/// Hours that were entered. Withdrawn hours stay listed, and give nothing.
#[derive(Drop)]
pub(crate) struct Hours {
    pub(crate) line: EntryLine,
    pub(crate) withdrawn: bool,
}

impl Model for Hours {
    ghost use Rattle.tacho_state.specs.State.{Entry};

    ghost Value = { Entry };

    ghost view = { λ h. record {
      start = h.line.start;
      past = h.line.past;
      activity = h.line.activity;
      author = h.line.author;
      note = h.line.note;
      withdrawn = h.withdrawn;
    } };
}

impl Hours {
    ghost use Rattle.std.specs.Prelude.{◌≡◌, true};
    ghost use Rattle.tacho_state.specs.State.{entry_span};

    /// Returns the span that they give unless they are withdrawn; the driver is alone (single).
    fn span(&self) -> Span
        ensures { result ≡ entry_span self.now }
    {
        Span {
            start: self.line.start(),
            past: self.line.past(),
            mark: Mark {
                activity: self.line.activity(),
                crew: false,
            },
        }
    }

    /// Withdraws the hours.
    pub(crate) fn withdraw(&mut self)
        ensures { self.new ≡ record self.old { withdrawn = true } }
    {
        self.withdrawn = true;
    }
}

/// Makes the hours of a batch's lines.
pub(crate) fn hours_of(alloc: Global, lines: &[EntryLine]) -> Result<Vec<Hours>, AllocError>
    ensures { IfOk result (λ hours. hours.items ≡ batch_of lines.now) }
{
    let mut all = Vec::new(alloc);
    for line in lines {
        let line = line.copy(alloc)?;
        all.push(Hours {
            line,
            withdrawn: false,
        })?;
    }
    Ok(all)
}

/// Adds the spans of the hours that aren't withdrawn.
pub(crate) fn add_spans(spans: &mut Vec<Span>, entries: &[Hours]) -> Result<(), AllocError>
    ensures { OnOk result (spans.new.items ≡ spans.old.items ++ entered_spans entries.now) }
{
    for hours in entries {
        if !hours.withdrawn {
            spans.push(hours.span())?;
        }
    }
    Ok(())
}
