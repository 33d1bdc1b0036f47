// Tables: texts of rows and fields, in the notation that the README gives.
use crate::help::shown;
use std::alloc::{AllocError, Global};
use std::mem;
use std::process::Abort;
use std::test::Fail;
use text_base::Bytes;

/// A row of a table: its number, from 1, and its fields.
#[derive(Drop)]
pub struct Row {
    pub number: usize,
    fields: Vec<Bytes>,
}

impl Row {
    /// The bytes of a field, counted from 0.
    pub fn field(&self, index: usize) -> &[u8] {
        match self.fields.get(index) {
            Some(field) => field.as_slice(),
            None => b"",
        }
    }

    /// Ends the test unless a field is these bytes.
    pub fn check(&self, rt: &impl Abort, index: usize, said: &[u8]) {
        let wanted = self.field(index);
        assert!(rt;
            said == wanted,
            "row {}, field {}: {:?} in place of {:?}",
            self.number,
            index,
            shown(said),
            shown(wanted)
        );
    }

    /// The number that the digits of a field are.
    pub fn number_at(&self, index: usize) -> u64 {
        let mut number = 0u64;
        for byte in self.field(index) {
            number = with_digit(number, *byte);
        }
        number
    }
}

fn with_digit(number: u64, byte: u8) -> u64 {
    let digit = byte.saturating_sub(b'0');
    number.saturating_mul(10).saturating_add(digit as u64)
}

fn hex_digit(byte: u8) -> u8 {
    match byte {
        b'0'..=b'9' => byte - b'0',
        b'A'..=b'F' => byte - b'A' + 10,
        _ => 0,
    }
}

// What the reader of a table has seen last.
#[derive(Copy, Clone)]
enum Seen {
    RowEnd,
    Remark,
    Plain,
    FieldMark,
    Backslash,
    Hex,
    HexDigit(u8),
    Count(u64),
}

#[derive(Drop)]
struct Reader {
    alloc: Global,
    rows: Vec<Row>,
    fields: Vec<Bytes>,
    field: Bytes,
    seen: Seen,
    // A piece that is repeated: where it starts, and how often it stands.
    piece: Option<(usize, u64)>,
}

impl Reader {
    fn new(alloc: Global) -> Reader {
        Reader {
            alloc,
            rows: Vec::new(alloc),
            fields: Vec::new(alloc),
            field: Bytes::new(alloc),
            seen: Seen::RowEnd,
            piece: None,
        }
    }

    fn end_field(&mut self) -> Result<(), AllocError> {
        let field = mem::replace(&mut self.field, Bytes::new(self.alloc));
        Ok(self.fields.push(field)?)
    }

    fn end_row(&mut self) -> Result<(), AllocError> {
        self.end_field()?;
        let fields = mem::replace(&mut self.fields, Vec::new(self.alloc));
        let number = self.rows.len().saturating_add(1);
        Ok(self.rows.push(Row { number, fields })?)
    }

    // The blank before the mark is no part of the field.
    fn end_marked_field(&mut self) -> Result<(), AllocError> {
        if let Some((b' ', rest)) = self.field.as_slice().split_last() {
            let count = rest.len();
            self.field.truncate(count);
        }
        self.end_field()
    }

    fn end_piece(&mut self, start: usize, count: u64) -> Result<(), AllocError> {
        let piece = match self.field.as_slice().get(start..) {
            Some(piece) => Bytes::from_slice(self.alloc, piece)?,
            None => Bytes::new(self.alloc),
        };
        self.field.truncate(start);
        for _ in 0..count {
            self.field.extend(piece.as_slice())?;
        }
        Ok(())
    }

    // What follows a byte that no backslash stands before.
    fn plain(&mut self, byte: u8) -> Result<Seen, AllocError> {
        match (byte, self.piece) {
            (b'\n', _) => {
                self.end_row()?;
                return Ok(Seen::RowEnd);
            }
            (b'~', _) => {
                self.end_marked_field()?;
                return Ok(Seen::FieldMark);
            }
            (b'\\', _) => return Ok(Seen::Backslash),
            (b'}', Some((start, count))) => {
                self.piece = None;
                self.end_piece(start, count)?;
            }
            _ => self.field.push(byte)?,
        }
        Ok(Seen::Plain)
    }

    // What follows the first byte behind a backslash.
    fn escaped(&mut self, byte: u8) -> Result<Seen, AllocError> {
        match byte {
            b'x' => return Ok(Seen::Hex),
            b'0'..=b'9' => return Ok(Seen::Count(with_digit(0, byte))),
            b'n' => self.field.push(b'\n')?,
            b'r' => self.field.push(b'\r')?,
            b'\n' => {}
            _ => self.field.push(byte)?,
        }
        Ok(Seen::Plain)
    }

    fn after(&mut self, byte: u8) -> Result<Seen, AllocError> {
        match (self.seen, byte) {
            (Seen::RowEnd, b'#') => Ok(Seen::Remark),
            (Seen::RowEnd | Seen::Remark, b'\n') => Ok(Seen::RowEnd),
            (Seen::Remark, _) => Ok(Seen::Remark),
            (Seen::FieldMark, b' ') => Ok(Seen::Plain),
            (Seen::RowEnd | Seen::Plain | Seen::FieldMark, _) => self.plain(byte),
            (Seen::Backslash, _) => self.escaped(byte),
            (Seen::Hex, _) => Ok(Seen::HexDigit(hex_digit(byte) % 16)),
            (Seen::HexDigit(high), _) => {
                self.field.push(high % 16 * 16 + hex_digit(byte) % 16)?;
                Ok(Seen::Plain)
            }
            (Seen::Count(count), b'{') => {
                self.piece = Some((self.field.as_slice().len(), count));
                Ok(Seen::Plain)
            }
            (Seen::Count(count), _) => Ok(Seen::Count(with_digit(count, byte))),
        }
    }
}

fn have_width(rows: &[Row], width: usize) -> bool {
    for row in rows {
        if row.fields.len() != width {
            return false;
        }
    }
    true
}

/// The rows of a table, which has so many rows, each of so many fields.
pub fn rows_of(alloc: Global, table: &str, count: usize, width: usize) -> Result<Vec<Row>, Fail> {
    let mut reader = Reader::new(alloc);
    for byte in table.as_bytes() {
        reader.seen = reader.after(*byte)?;
    }
    let rows = reader.rows;
    let is_right = rows.len() == count && have_width(&rows, width);
    let right = if is_right { Some(rows) } else { None };
    Ok(right.ok_or("the table has other numbers of rows or fields")?)
}

#[test]
fn tables_are_read(rt: HostRuntime) -> Result<(), Fail> {
    let table = r"
# a remark
a ~ b\n\x4A\\\~ ~

 c\
d ~ \3{x\r}} ~ 12
";
    let rows = rows_of(rt.alloc(), table, 2, 3)?;
    let wanted = [
        [b"a".as_slice(), b"b\nJ\\~", b""],
        [b" cd", b"x\rx\rx\r}", b"12"],
    ];
    for (row, fields) in rows.iter().zip(wanted) {
        row.check(&rt, 0, fields[0]);
        row.check(&rt, 1, fields[1]);
        row.check(&rt, 2, fields[2]);
    }
    assert_eq!(rt; rows.len(), 2);
    Ok(())
}
