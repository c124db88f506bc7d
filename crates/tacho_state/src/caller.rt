/// Who calls an archive.
#[derive(Clone, Copy, Debug, PartialEq, Eq)]
pub enum Caller {
    /// The office, which acts for all drivers.
    Office,
    /// A driver, by number, who acts for themselves.
    Driver(u32),
}
