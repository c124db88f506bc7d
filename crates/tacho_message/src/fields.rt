ghost use Rattle.std.specs.Prelude.{◌≡◌, ◌≤◌, All, length, map, true};
ghost use Rattle.std.specs.Str.{all_ascii_digits};
ghost use Rattle.std.specs.Str.Parse.{digits_value};
ghost use Rattle.httparse.specs.Spans.{header_bytes, IsHeaderWithin};
ghost use Rattle.tacho_message.specs.Fields.{values_under, same_name, AreValues, WithValue, length_told};

use httparse::spans::HeaderSpan;

/// The values of the fields with one name.
#[derive(Clone, Copy)]
pub enum Values<'b> {
    /// There is no such field.
    None,
    /// There is exactly one.
    One(&'b [u8]),
    /// There are several.
    Many,
}

impl<'b> Values<'b> {
    /// Adds one more value.
    fn and(self, value: &'b [u8]) -> Values<'b>
        ensures { WithValue value.now self.entry result }
    {
        match self {
            Values::None => Values::One(value),
            Values::One(_) => Values::Many,
            Values::Many => Values::Many,
        }
    }
}

/// True if two names are equal, ignoring the case of ASCII letters.
fn is_named(name: &[u8], wanted: &[u8]) -> bool
    ensures { result ≡ same_name name.now wanted.now }
{
    name.eq_ignore_ascii_case(wanted)
}

/// Finds the values of the fields with a name, ignoring the case of ASCII letters.
pub fn values_of<'b>(buffer: &'b [u8], fields: &[HeaderSpan], name: &[u8]) -> Values<'b>
    requires { All (IsHeaderWithin (length buffer.now)) fields.now }
    ensures { AreValues (values_under name.now (map (header_bytes buffer.now) fields.now)) result }
{
    let mut found = Values::None;
    for field in fields {
        if is_named(field.name.of(buffer), name) {
            found = found.and(field.value.of(buffer));
        }
    }
    found
}

/// True if all bytes of a text are digits.
fn are_digits(text: &[u8]) -> bool
    ensures { result ≡ all_ascii_digits text.now }
{
    for digit in text {
        if !digit.is_ascii_digit() {
            return false;
        }
    }
    true
}

/// The number that digits give.
fn number_of_digits(text: &[u8]) -> u64
    requires digits { all_ascii_digits text.now ≡ true }
    requires short { length text.now ≤ 12 }
    ensures { result ≡ digits_value 10 text.now }
{
    let mut value: u64 = 0;
    for digit in text {
        value = value * 10 + u64::from(*digit - b'0');
    }
    value
}

/// The length that the value of a field `content-length` gives: 1 to 12 digits.
pub fn length_of(text: &[u8]) -> Option<u64>
    ensures { result ≡ length_told text.now }
{
    if text.is_empty() || text.len() > 12 || !are_digits(text) {
        return None;
    }
    Some(number_of_digits(text))
}
