// Kept text: the characters of a statement that are read as they stand (X3.9 sections 4.8 and 13.5.2).
ghost use Rattle.std.specs.Prelude.{◌≡◌, ◌==◌, not, true, false, replicate};
ghost use Rattle.text_base.specs.Chars.{is_digit};
ghost use Rattle.text_base.specs.Kept as kept;
ghost use Rattle.card_reader.specs.Scan.{scan_of};

use text_base::chars::{is_digit, to_upper};
use text_base::limits::GREATEST_COUNT;

/// With these characters a FORMAT statement begins.
const FORMAT: [u8; 7] = *b"FORMAT(";

/// What the characters of a statement so far say of those that follow: which of them are kept text (X3.9 sections 4.8
/// and 13.5.2).
#[derive(Clone, Copy, Debug)]
pub struct Scan {
    /// How many characters of `FORMAT(` it begins with, 8 where it begins otherwise or has no label.
    matched: u32,
    /// Whether a character constant is open.
    inside: bool,
    /// How many characters of an nH text are still to come.
    left: u32,
    /// The number that stands last, if there is one.
    count: Option<u32>,
}

impl Scan {
    /// Before the first character of a statement with this label.
    pub fn start(label: u32) -> Scan
        ensures { scan_of result ≡ kept.scan_start label }
    {
        Scan {
            matched: if label == 0 { 8 } else { 0 },
            inside: false,
            left: 0,
            count: None,
        }
    }

    /// Behind the keyword of a FORMAT and its parenthesis (X3.9 section 13.1).
    pub fn in_format() -> Scan
        ensures { scan_of result ≡ record { matched = 7; inside = false; left = 0; count = None } }
    {
        Scan {
            matched: 7,
            inside: false,
            left: 0,
            count: None,
        }
    }

    /// Whether a character constant is open.
    pub fn is_inside(self) -> bool
        ensures { result ≡ (scan_of self).inside }
    {
        self.inside
    }

    /// Whether characters of an nH text are still to come.
    pub fn is_counting(self) -> bool
        ensures { result ≡ not ((scan_of self).left == 0) }
    {
        self.left != 0
    }

    /// The mark of a character: 1 where it belongs to kept text.
    pub fn mark(self, byte: u8) -> u8
        ensures { result ≡ kept.mark_of (scan_of self) byte }
    {
        if self.inside || self.left != 0 || byte == b'\'' {
            1
        } else {
            0
        }
    }

    /// After one more character.
    pub fn after(self, byte: u8) -> Scan
        ensures { scan_of result ≡ kept.scan_after (scan_of self) byte }
    {
        if self.inside {
            return Scan {
                inside: byte != b'\'',
                ..self
            };
        }
        if self.left != 0 {
            return Scan {
                left: self.left - 1,
                ..self
            };
        }
        if byte == b'\'' {
            return Scan {
                matched: more_matched(self.matched, byte),
                inside: true,
                left: self.left,
                count: None,
            };
        }
        if byte == b' ' {
            return self;
        }
        self.after_plain(byte)
    }

    /// After some blanks.
    pub(crate) fn after_blanks(self, count: u32) -> Scan
        ensures { scan_of result ≡ kept.scan_all (scan_of self) (replicate count 32) }
    {
        if self.inside {
            self
        } else {
            let left = self.left.saturating_sub(count);
            Scan { left, ..self }
        }
    }

    /// After a character of plain text that is no apostrophe and no blank.
    fn after_plain(self, byte: u8) -> Scan
        ensures { scan_of result ≡ kept.scan_plain (scan_of self) byte }
    {
        let matched = more_matched(self.matched, byte);
        if is_digit(byte) {
            let count = more_count(self.count, byte);
            return Scan {
                matched,
                count,
                ..self
            };
        }
        if self.matched == 7 && (byte == b'H' || byte == b'h') {
            return Scan {
                left: self.count.unwrap_or(0),
                count: None,
                ..self
            };
        }
        Scan {
            matched,
            count: None,
            ..self
        }
    }
}

/// A number with one more digit.
fn more_count(count: Option<u32>, digit: u8) -> Option<u32>
    requires { is_digit digit ≡ true }
    ensures { result ≡ kept.more_count count digit }
{
    let value = u64::from(digit - 48);
    match count {
        None => Some(u32::from(digit - 48)),
        Some(count) => Some((u64::from(count) * 10 + value).min(u64::from(GREATEST_COUNT)) as u32),
    }
}

/// How many characters of `FORMAT(` the statement begins with, after one more that isn't blank.
fn more_matched(matched: u32, byte: u8) -> u32
    ensures { result ≡ kept.more_matched matched byte }
{
    if matched > 7 {
        8
    } else if matched == 7 {
        7
    } else if FORMAT[matched as usize] == to_upper(byte) {
        matched + 1
    } else {
        8
    }
}
