// Files of lines.
ghost use Rattle.std.specs.Prelude.{◌≡◌, ℕ, ◌++◌, ◌∷◌, List, IfOk, IfErr, IfSome, IfNone, Ok, Err};
ghost use Rattle.std.specs.Str.{bytes_eq};
ghost use Rattle.cases.specs.Spelling.{line_text, spelling};
ghost use Rattle.cases.specs.Valid.{AreLines, Gives, IsBad, IsLine, NoNewline, ReadAs, Same};
ghost use Rattle.cases.specs.declared.reader.ReadError.TheVariants.{Memory};
ghost use Rattle.cases.specs.declared.line.Line.{Line as Written};

use crate::fields::cut;
use crate::line::Line;
use crate::reading::statement;
use crate::writing::put_line;
use std::alloc::{AllocError, AllocFailed, Global};

// Why a file was not read.
#[derive(Clone, Copy, Debug, PartialEq, Eq)]
pub enum ReadError {
    Memory,
    // the number of the first line that is none, counted from 1
    Line(usize),
}

impl From<AllocError> for ReadError {
    ghost from_gives = { λ _ e. e ≡ Memory };

    fn from(_e: AllocError) -> ReadError {
        ReadError::Memory
    }
}

impl<T: Drop> From<AllocFailed<T>> for ReadError {
    ghost from_gives = { λ _ e. e ≡ Memory };

    fn from(_e: AllocFailed<T>) -> ReadError {
        ReadError::Memory
    }
}

// What a line may say, or what else it may be. It is lenient: another may say the same.
fn guess(heap: Global, bytes: &[u8]) -> Result<Option<Line>, AllocError>
    ensures reads { (l : Written) → IsLine l → bytes.now ≡ line_text l → IfOk result (λ o. Gives o l) }
    ensures valid { NoNewline bytes.now → IfOk result (λ o. IfSome o IsLine) }
{
    match bytes {
        [b'#', text @ ..] => Ok(Some(Line::Comment(Vec::from_slice(heap, text)?))),
        [b'c', b'a', b's', b'e', b' ', name @ ..] => {
            Ok(Some(Line::Case(Vec::from_slice(heap, name)?)))
        }
        _ => Ok(statement(bytes).map(Line::Statement)),
    }
}

// Whether a line is spelled by these bytes.
fn is_spelled(heap: Global, line: &Line, bytes: &[u8]) -> Result<bool, AllocError>
    ensures { IfOk result (λ b. b ≡ bytes_eq (line_text line.now) bytes.now) }
{
    let mut again = Vec::new(heap);
    put_line(&mut again, line)?;
    Ok(again.as_slice() == bytes)
}

// The line that these bytes spell, if they spell one.
fn line(heap: Global, bytes: &[u8]) -> Result<Option<Line>, AllocError>
    requires { NoNewline bytes.now }
    ensures found { IfOk result (λ o. IfSome o (λ l. IsLine l × (bytes.now ≡ line_text l))) }
    ensures only { (l : Written) → IsLine l → bytes.now ≡ line_text l → IfOk result (λ o. Gives o l) }
{
    let Some(line) = guess(heap, bytes)? else {
        return Ok(None);
    };
    if is_spelled(heap, &line, bytes)? {
        Ok(Some(line))
    } else {
        Ok(None)
    }
}

// The first line of a text, and what comes after it; none where the text begins with no line.
fn next_line(heap: Global, text: &[u8]) -> Result<Option<(Line, &[u8])>, AllocError>
    ensures found { IfOk result (λ o. IfSome o (λ x. IsLine x.0 × (text.now ≡ line_text x.0 ++ 10 ∷ x.1.now))) }
    ensures none { IfOk result (λ o. IfNone o ((l : Written) (after : List ℕ) → IsLine l → text.now ≡ line_text l ++ 10 ∷ after → ⊥)) }
{
    let (bytes, after) = cut(text, b'\n');
    if bytes.len() == text.len() {
        return Ok(None);
    }
    let Some(line) = line(heap, bytes)? else {
        return Ok(None);
    };
    Ok(Some((line, after)))
}

// The lines of a file, one after the other.
fn all(heap: Global, text: &[u8]) -> Result<Vec<Line>, ReadError>
    ensures found { IfOk result (λ v. AreLines v.items × (text.now ≡ spelling v.items)) }
    ensures bad { (n : ℕ) → result ≡ Err (ReadError.Line n) → (front : List Written) × (rest : List ℕ) × IsBad text.now n front rest }
{
    let mut lines = Vec::new(heap);
    let mut rest = text;
    while !rest.is_empty() {
        let Some((line, after)) = next_line(heap, rest)? else {
            return Err(ReadError::Line(lines.len() + 1));
        };
        lines.push(line)?;
        rest = after;
    }
    Ok(lines)
}

// The lines of a file.
#[tactic(auto, using(crate::proofs::Once::found_is))]
pub fn read(heap: Global, text: &[u8]) -> Result<Vec<Line>, ReadError>
    // What is read is spelled so.
    ensures found { IfOk result (λ v. AreLines v.items × (text.now ≡ spelling v.items)) }
    // What is spelled so is read, unless memory runs out.
    ensures only { (lines : List Written) → AreLines lines → text.now ≡ spelling lines → ReadAs result lines }
    // The first bad line is named.
    ensures bad { (n : ℕ) → result ≡ Err (ReadError.Line n) → (front : List Written) × (rest : List ℕ) × IsBad text.now n front rest }
{
    all(heap, text)
}
