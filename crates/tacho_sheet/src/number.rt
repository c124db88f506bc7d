ghost use Rattle.std.specs.Prelude.{MatchOption};
ghost use Rattle.tacho_sheet.specs.Number.{IsNumberText, HasNoNumber};

/// Reads a decimal number from 1 to `most`, without leading zeros.
pub fn read_number(text: &[u8], most: u32) -> Option<u32>
    ensures { MatchOption result (HasNoNumber most text.now) (IsNumberText most text.now) }
{
    if text.is_empty() {
        return None;
    }
    if text[0] == b'0' {
        return None;
    }
    if text[0] == b'+' {
        return None;
    }
    let Ok(digits) = str::from_utf8(text) else {
        return None;
    };
    let Ok(number) = digits.parse::<u32>() else {
        return None;
    };
    if number > most {
        return None;
    }
    Some(number)
}
