ghost use Rattle.std.specs.Prelude.{◌≡◌};
ghost use Rattle.std.specs.Str.{all_ascii_digits};
ghost use Rattle.es_plan.specs.Numbers.{number_of};

/// Whether there are digits alone.
fn are_digits(text: &str) -> bool
    ensures { result ≡ all_ascii_digits text.now }
{
    for byte in text.as_bytes() {
        if !byte.is_ascii_digit() {
            return false;
        }
    }
    true
}

/// The number that decimal digits write, which may begin with zeros; `None` where there are other
/// characters, no digit, or it is more than `most`.
pub fn number_of(text: &str, most: u32) -> Option<u32>
    ensures { result ≡ number_of most text.now }
{
    if !are_digits(text) {
        return None;
    }
    match text.parse::<u32>() {
        Ok(number) if number <= most => Some(number),
        _ => None,
    }
}
