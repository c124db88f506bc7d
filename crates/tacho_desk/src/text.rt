use tacho_sheet::DoneLine;

/// What a task answers when it was done.
#[derive(Drop)]
pub enum Text {
    /// The line of a command that added a driver, a download or entries. Allocates no memory.
    Added(DoneLine),
    /// The line of a command that added nothing. Allocates no memory.
    Line(DoneLine),
    /// A text that is always the same. Allocates no memory.
    Fixed(&'static [u8]),
    /// A text.
    Long(String),
    /// The bytes of a file.
    File(Vec<u8>),
}

impl Text {
    ghost use Rattle.std.specs.Prelude.{◌≡◌};
    ghost use Rattle.tacho_desk.specs.Told.{bytes_of, told_text};

    /// The bytes of the text.
    pub fn bytes(&self) -> &[u8]
        ensures { result.now ≡ bytes_of (told_text self.now) }
    {
        match self {
            Text::Added(line) => line.as_slice(),
            Text::Line(line) => line.as_slice(),
            Text::Fixed(text) => text,
            Text::Long(text) => text.as_bytes(),
            Text::File(bytes) => bytes.as_slice(),
        }
    }
}
