// The report: what stands in the source, in numbers.
ghost use Rattle.std.specs.Prelude.{◌≡◌, ◌++◌, codes, decimal, IfOk, OnOk};
ghost use Rattle.project_set.specs.Report.{report_text};

use std::alloc::{AllocError, Global};
use std::marker::Model;
use text_base::Bytes;

/// The numbers of a report: source units, webs of jumps, webs whose jumps are kept, array segments, and
/// statement lines with something after column 72.
#[derive(Debug, Drop)]
pub struct Counts {
    units: usize,
    webs: usize,
    kept: usize,
    arrays: usize,
    cut: usize,
}

impl Model for Counts {
    ghost use Rattle.project_set.specs.Report.{Counts};

    ghost Value = { Counts };

    ghost view = { λ c. record { units = c.units; webs = c.webs; kept = c.kept; arrays = c.arrays; cut = c.cut } };
}

impl Counts {
    /// The numbers of so many units, of whose files so many lines are cut off at column 72. A program of this language has
    /// no jump and no array segment.
    pub fn of(units: usize, cut: u32) -> Counts
        ensures { result ≡ record { units = units; webs = 0; kept = 0; arrays = 0; cut = cut } }
    {
        Counts {
            units,
            webs: 0,
            kept: 0,
            arrays: 0,
            cut: cut as usize,
        }
    }
}

/// The text of the numbers. It fails for want of memory alone.
pub fn report(alloc: Global, counts: &Counts) -> Result<Bytes, AllocError>
    ensures { IfOk result (λ text. text ≡ report_text counts.now) }
{
    let mut out = Bytes::new(alloc);
    write_count(alloc, &mut out, b"UNITS ", counts.units)?;
    write_count(alloc, &mut out, b"WEBS ", counts.webs)?;
    write_count(alloc, &mut out, b"KEPT ", counts.kept)?;
    write_count(alloc, &mut out, b"ARRAYS ", counts.arrays)?;
    write_count(alloc, &mut out, b"CUT ", counts.cut)?;
    Ok(out)
}

/// Appends a line of a word and a number.
fn write_count(alloc: Global, out: &mut Bytes, word: &[u8], count: usize) -> Result<(), AllocError>
    ensures { OnOk result (out.new ≡ out.old ++ word.now ++ decimal count ++ codes "\n") }
{
    let text = format!(in alloc; "{count}")?;
    out.extend(word)?;
    out.extend(text.as_bytes())?;
    out.push(b'\n')
}
