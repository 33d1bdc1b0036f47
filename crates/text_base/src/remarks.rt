// Comments, kept as the lines that are written for them.
ghost use Rattle.std.specs.Prelude.{◌≡◌, ◌∷◌, ◌++◌, ◌↔◌, [], List, ℕ, true, OnOk, OnErr, IsTrue};
ghost use Rattle.text_base.specs.Remarks.{remark_text, remarks_text, is_writable_remark, are_writable_remarks};

use crate::Bytes;
use std::alloc::{AllocError, Global};
use std::marker::Model;

// Appends the line of a comment. After want of memory a part of it may stand there.
fn write_line(lines: &mut Bytes, marked: bool, text: &[u8]) -> Result<(), AllocError>
    ensures ok { OnOk result (lines.new ≡ lines.old ++ remark_text (record { marked = marked; text = text.now })) }
    ensures err { OnErr result ((more : List ℕ) × (lines.new ≡ lines.old ++ more)) }
{
    if marked {
        lines.push(b'!')?;
    }
    lines.extend(text)?;
    lines.push(b'\n')
}

/// Comments that can be written, in order. They are kept as their written lines (ISO/IEC 1539:1991 section 3.3.1.1): `!`
/// and the text of a marked one, the blanks of another, and LF. Contracts see the list of them.
#[derive(Debug, Drop)]
pub struct Remarks {
    lines: Bytes,
}

impl Model for Remarks {
    ghost use Rattle.std.specs.Prelude.{◌≡◌, List, true};
    ghost use Rattle.text_base.specs.Remarks.{Remark, remarks_text, remarks_in, are_writable_remarks};

    ghost Value = { List Remark };

    ghost view = { λ remarks. remarks_in remarks.lines };

    ghost invariant = { λ remarks. (remarks_text (remarks_in remarks.lines) ≡ remarks.lines) × (are_writable_remarks (remarks_in remarks.lines) ≡ true) };
}

impl Remarks {
    /// No comments. It takes no memory yet.
    pub fn new(alloc: Global) -> Remarks
        ensures { result ≡ [] }
    {
        Remarks {
            lines: Bytes::new(alloc),
        }
    }

    /// Puts a comment last: whether it is marked, and its text, which has no LF and, where it is not marked, blanks alone.
    /// It fails for want of memory alone, and then they are as before.
    pub fn push(&mut self, marked: bool, text: &[u8]) -> Result<(), AllocError>
        requires { is_writable_remark (record { marked = marked; text = text.now }) ≡ true }
        ensures ok { OnOk result (self.new ≡ self.old ++ record { marked = marked; text = text.now } ∷ []) }
        ensures err { OnErr result (self.new ≡ self.old) }
    {
        let before = self.lines.as_slice().len();
        let outcome = write_line(&mut self.lines, marked, text);
        if outcome.is_err() {
            self.lines.truncate(before);
        }
        outcome
    }

    /// Puts comments last. It fails for want of memory alone, and then they are as before.
    pub fn extend(&mut self, more: &Remarks) -> Result<(), AllocError>
        ensures ok { OnOk result (self.new ≡ self.old ++ more.now) }
        ensures err { OnErr result (self.new ≡ self.old) }
    {
        self.lines.extend(more.lines.as_slice())
    }

    /// Whether there is no comment.
    pub fn is_empty(&self) -> bool
        ensures { IsTrue result ↔ (self.now ≡ []) }
    {
        self.lines.as_slice().is_empty()
    }

    /// Lends the written lines.
    pub fn as_slice(&self) -> &[u8]
        ensures lines { result.now ≡ remarks_text self.now }
        ensures writable { are_writable_remarks self.now ≡ true }
    {
        self.lines.as_slice()
    }
}
