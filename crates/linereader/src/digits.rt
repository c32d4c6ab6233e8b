// The digits of a number: the number with one digit more.
#![tactic(auto, unfolding(crate::specs::Reading::is_digit, crate::specs::Reading::with_digit, crate::specs::Reading::is_next_digit))]

ghost use Rattle.std.specs.Prelude.{◌≡◌, cond, Some, None};
ghost use Rattle.linereader.specs.Reading.{with_digit, is_next_digit};

// The number with one digit more, where a byte is its next digit. Flag and number, and no Option: the promise is of every number, also of one without a
// digit yet.
pub(crate) fn digit_behind(begun: bool, number: u64, byte: u8) -> Option<u64>
    ensures { result ≡ cond (is_next_digit begun number byte) (Some (with_digit number byte)) None }
{
    if !byte.is_ascii_digit() {
        return None;
    }
    if begun && number == 0 {
        return None;
    }
    let digit = u64::from(byte - b'0');
    number.checked_mul(10)?.checked_add(digit)
}
