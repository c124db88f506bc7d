ghost use Rattle.std.specs.Prelude.{◌≡◌};
ghost use Rattle.tacho_sheet.specs.Words.{activity_of_text, left_out_of};

use crate::fault::LeftOut;
use tacho_time::Activity;

/// Reads the name of an activity.
pub(crate) fn read_activity(word: &[u8]) -> Option<Activity>
    ensures { result ≡ activity_of_text word.now }
{
    if word == b"rest".as_slice() {
        Some(Activity::Rest)
    } else if word == b"available".as_slice() {
        Some(Activity::Available)
    } else if word == b"work".as_slice() {
        Some(Activity::Work)
    } else if word == b"drive".as_slice() {
        Some(Activity::Drive)
    } else {
        None
    }
}

/// Reads the name of an activity that is left out.
pub(crate) fn read_left_out(word: &[u8]) -> Option<LeftOut>
    ensures { result ≡ left_out_of word.now }
{
    if word == b"crew".as_slice() {
        Some(LeftOut::Crew)
    } else if word == b"ferry".as_slice() {
        Some(LeftOut::Ferry)
    } else if word == b"out".as_slice() {
        Some(LeftOut::Out)
    } else if word == b"derogation".as_slice() {
        Some(LeftOut::Derogation)
    } else {
        None
    }
}
