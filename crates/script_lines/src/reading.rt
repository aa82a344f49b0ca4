// Scripts are read line by line.
ghost use Rattle.std.specs.Prelude.{◌≡◌, ℕ, ◌++◌, ◌∷◌, List, IfSome, IsNone, Some, true};
ghost use Rattle.script_lines.specs.Spelling.{Begins, IsLine, line_text, plain};

use crate::line::Line;
use crate::number::error_number;

// The bytes before the first newline, and those after it; none where there is no newline.
fn cut(script: &[u8]) -> Option<(&[u8], &[u8])>
    ensures found { IfSome result (λ x. (script.now ≡ x.0.now ++ 10 ∷ x.1.now) × (plain x.0.now ≡ true)) }
    ensures none { IsNone result → plain script.now ≡ true }
{
    for (i, byte) in script.iter().enumerate() {
        if *byte == b'\n' {
            return Some((&script[..i], &script[i + 1..]));
        }
    }
    None
}

// The line that is spelled so, if there is one.
fn line(bytes: &[u8]) -> Option<Line>
    ensures found { IfSome result (λ l. IsLine l × (bytes.now ≡ line_text l)) }
    ensures only { (l : Line) → IsLine l → bytes.now ≡ line_text l → result ≡ Some l }
{
    match bytes {
        b"chain" => Some(Line::Chain),
        b"drain" => Some(Line::Drain),
        b"drop" => Some(Line::Drop),
        [b'n', b'e', b'w', b' ', digits @ ..] => Some(Line::New(error_number(digits)?)),
        [b'a', b'l', b'l', b' ', digits @ ..] => Some(Line::All(error_number(digits)?)),
        [b'r', b'a', b'i', b's', b'e', b' ', digits @ ..] => {
            Some(Line::Raise(error_number(digits)?))
        }
        _ => None,
    }
}

// The first line of a script, and what comes after it; none where the script begins with no line.
pub fn next_line(script: &[u8]) -> Option<(Line, &[u8])>
    ensures found { IfSome result (λ x. Begins script.now x.0 x.1.now) }
    ensures none { IsNone result → (l : Line) (after : List ℕ) → Begins script.now l after → ⊥ }
{
    let (bytes, after) = cut(script)?;
    Some((line(bytes)?, after))
}
