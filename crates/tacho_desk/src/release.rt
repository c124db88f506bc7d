ghost use Rattle.std.specs.Prelude.{◌≡◌};
ghost use Rattle.tacho_desk.specs.Version.{program_line as line, version_text as text};

/// The version of the program, the schema of the archives that it makes, and the logic in which it is proved, a line each. The first is that
/// of the file VERSION. The last is what `rt version` prints after the kit's name: kits of several names have the same logic.
const LINES: &[u8] = b"tacho 1.1.0\nschema 2\nlogic dac8208d650f15bf\n";

/// The version of the program, the schema of the archives that it makes, and the logic in which it is proved, a line each.
pub fn version_text() -> &'static [u8]
    ensures { result.now ≡ text }
{
    LINES
}

/// The length of the first line.
const LENGTH: usize = 12;

/// The version of the program, as a line.
pub fn program_line() -> &'static [u8]
    ensures { result.now ≡ line }
{
    &LINES[..LENGTH]
}
