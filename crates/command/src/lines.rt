// The lines that are printed.
ghost use Rattle.std.specs.Prelude.{◌≡◌, IfOk, string_bytes};
ghost use Rattle.command.specs.Lines.{line_with, refusal_head, refusal_line, refusal_lines};

use std::alloc::{AllocError, Global};
use text_base::{Bytes, Refusal};

/// A line of a word or two, and a name. It fails where memory is wanted, and for nothing else.
pub fn line_with(alloc: Global, words: &str, name: &str) -> Result<Bytes, AllocError>
    ensures { IfOk result (λ text. text ≡ line_with words.now name.now) }
{
    let line = format!(in alloc; "{words}{name}\n")?;
    Ok(Bytes::from_vec(line.into_bytes()))
}

fn refusal_head(
    alloc: Global,
    file: &str,
    line: u32,
    number: u32,
    cause: &str,
) -> Result<String, AllocError>
    ensures { IfOk result (λ text. string_bytes text ≡ refusal_head file.now line number cause.now) }
{
    format!(in alloc; "{file}:{line}: {number} {cause} ")
}

fn refusal_line(alloc: Global, file: &str, refusal: &Refusal) -> Result<Bytes, AllocError>
    ensures { IfOk result (λ text. text ≡ refusal_line file.now refusal.now) }
{
    let number = refusal.cause.number();
    let cause = refusal.cause.text();
    let head = refusal_head(alloc, file, refusal.place.line, number, cause)?;
    let mut text = Bytes::from_vec(head.into_bytes());
    text.extend(refusal.name.as_slice())?;
    text.push(b'\n')?;
    Ok(text)
}

/// A line `file:line: number cause name` for each refusal. It fails for want of memory alone.
pub fn refusal_text(alloc: Global, file: &str, refusals: &[Refusal]) -> Result<Bytes, AllocError>
    ensures { IfOk result (λ text. text ≡ refusal_lines file.now refusals.now) }
{
    let mut text = Bytes::new(alloc);
    for refusal in refusals {
        let line = refusal_line(alloc, file, refusal)?;
        text.extend(line.as_slice())?;
    }
    Ok(text)
}
