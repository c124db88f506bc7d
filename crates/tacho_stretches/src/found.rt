use crate::examination::Examined;
use crate::stretch::Stretch;
use std::alloc::Global;
use tacho_pass::Found;

/// What a pass has found of the spans that it has taken. It is empty at first, and is passed to every call.
#[derive(Drop)]
pub struct FoundStretches {
    pub(crate) alloc: Global,
    /// The stretches that are followed by another.
    pub(crate) done: Vec<Stretch>,
    /// What the examination has found so far.
    pub(crate) found: Found,
    /// The examination, once it has reached its horizon. The pass then looks for the next Monday.
    pub(crate) examined: Option<Examined>,
}

impl FoundStretches {
    ghost use Rattle.tacho_stretches.specs.Pass.{HasNothing};

    /// Returns a `FoundStretches` with nothing in it.
    pub fn empty(alloc: Global) -> FoundStretches
        ensures { HasNothing result }
    {
        FoundStretches {
            alloc,
            done: Vec::new(alloc),
            found: Found::empty(alloc),
            examined: None,
        }
    }
}
