ghost use Rattle.std.specs.Prelude.{◌≡◌, ◌≢◌, ◌+◌, ◌≤◌};
ghost use Rattle.tacho_law.specs.Limits.{latest};

/// How many days so far have one key, such as their week.
#[derive(Clone, Copy)]
pub(crate) struct Tally {
    pub(crate) key: u32,
    pub(crate) count: u32,
}

/// Returns the tally with one more day. The count starts again if the key differs.
pub(crate) fn counted(tally: Tally, key: u32) -> Tally
    requires { tally.count ≤ latest }
    ensures key { result.key ≡ key }
    ensures same { tally.key ≡ key → result.count ≡ tally.count + 1 }
    ensures other { tally.key ≢ key → result.count ≡ 1 }
{
    let before = if tally.key == key { tally.count } else { 0 };
    Tally {
        key,
        count: before + 1,
    }
}
