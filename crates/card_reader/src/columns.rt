// The columns of a line (X3.9 section 3.2).
ghost use Rattle.std.specs.Prelude.{◌≡◌, ◌-◌, take, drop};
ghost use Rattle.text_base.specs.Lines as layout;
ghost use Rattle.text_base.specs.declared.limits.TheConstants.{LAST_COLUMN};

use crate::lines::{behind, first};
use text_base::chars::is_digit;
use text_base::limits::LAST_COLUMN;

/// How many columns of a line have characters of a statement: 7 to 72.
pub const FIELD: usize = LAST_COLUMN - 6;

const BLANK: u8 = b' ';

/// Whether there are blanks alone, or nothing.
pub fn is_blank(line: &[u8]) -> bool
    ensures { result ≡ layout.is_blank line.now }
{
    line.iter().all(|byte| *byte == BLANK)
}

/// Whether the line has C, c, * or ! in column 1.
pub fn is_marked(line: &[u8]) -> bool
    ensures { result ≡ layout.is_marked line.now }
{
    match line {
        [] => false,
        [mark, ..] => *mark == b'C' || *mark == b'c' || *mark == b'*' || *mark == b'!',
    }
}

/// Whether the line is a comment: it has a mark in column 1, or nothing but blanks in columns 1 to 72.
pub fn is_comment(line: &[u8]) -> bool
    ensures { result ≡ layout.is_comment line.now }
{
    is_marked(line) || is_blank(first(LAST_COLUMN, line))
}

/// The byte in column 6, which is a blank where the line is shorter.
pub fn column_6(line: &[u8]) -> u8
    ensures { result ≡ layout.column_6 line.now }
{
    if line.len() > 5 { line[5] } else { BLANK }
}

/// Whether a line of a statement is an initial line: column 6 has a blank or 0.
pub fn is_initial(line: &[u8]) -> bool
    ensures { result ≡ layout.is_initial line.now }
{
    let column = column_6(line);
    column == BLANK || column == b'0'
}

/// Columns 1 to 5.
pub fn label_field(line: &[u8]) -> &[u8]
    ensures { result.now ≡ layout.label_field line.now }
{
    first(5, line)
}

/// The statement label of an initial line, 0 where it has none.
pub fn label_of(line: &[u8]) -> u32
    ensures { result ≡ layout.label_of line.now }
{
    let field = label_field(line);
    let mut label = 0;
    for byte in field {
        if is_digit(*byte) {
            label = label * 10 + u32::from(*byte - 48);
        }
    }
    label
}

/// What the line has in columns 7 to 72.
pub fn statement_text(line: &[u8]) -> &[u8]
    ensures { result.now ≡ take (LAST_COLUMN - 6) (drop 6 line.now) }
{
    first(FIELD, behind(6, line))
}

/// Columns 7 to 72 of the line, padded with blanks.
pub fn statement_field(line: &[u8]) -> [u8; FIELD]
    ensures { result ≡ layout.statement_field line.now }
{
    let text = statement_text(line);
    let mut field = [BLANK; FIELD];
    let (front, _) = field.split_at_mut(text.len());
    front.copy_from_slice(text);
    field
}

/// Whether the line is one of a statement that has something other than a blank after column 72.
pub fn is_cut(line: &[u8]) -> bool
    ensures { result ≡ layout.is_cut line.now }
{
    !is_comment(line) && !is_blank(behind(LAST_COLUMN, line))
}
