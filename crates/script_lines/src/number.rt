// The numbers of errors.
ghost use Rattle.std.specs.Prelude.{◌≡◌, ℕ, ◌<◌, IfSome, Some, decimal, bytes_eq};
ghost use Rattle.script_lines.specs.Spelling.{IsError};

use itoa::Buffer;

// Whether a number is written so, without leading zeros.
fn is_decimal(number: u16, digits: &[u8]) -> bool
    ensures { result ≡ bytes_eq (decimal number) digits.now }
{
    Buffer::new().format(number).as_bytes() == digits
}

// The number that is written so in decimal, without leading zeros or a sign; none above 65,535.
pub(crate) fn error_number(digits: &[u8]) -> Option<u16>
    ensures found { IfSome result (λ n. IsError n × (digits.now ≡ decimal n)) }
    ensures only { (n : ℕ) → IsError n → digits.now ≡ decimal n → result ≡ Some n }
{
    let number: u16 = std::str::from_utf8(digits).ok()?.parse().ok()?;
    is_decimal(number, digits).then_some(number)
}
