// Lines.
ghost use Rattle.std.specs.Prelude.{◌≡◌, ◌*◌, ◌++◌, min, replicate, OnOk};
ghost use Rattle.text_base.specs.declared.limits.TheConstants.{MOST_INDENTED};
ghost use Rattle.tree90.specs.Printed.{line};

use std::alloc::AllocError;
use text_base::Bytes;
use text_base::limits::MOST_INDENTED;

// The most blanks that a line begins with.
const BLANKS: [u8; MOST_INDENTED] = [b' '; MOST_INDENTED];

/// Appends a line of some words and what follows them. It fails for want of memory alone.
pub fn write_line(
    out: &mut Bytes,
    level: usize,
    words: &[u8],
    rest: &[u8],
) -> Result<(), AllocError>
    ensures { OnOk result (out.new ≡ out.old ++ line level (words.now ++ rest.now)) }
{
    indent(out, level)?;
    out.extend(words)?;
    out.extend(rest)?;
    out.push(b'\n')
}

/// Appends the blanks that a line of this level begins with. It fails for want of memory alone.
#[tactic(auto, using(crate::proofs::Lists::blanks))]
pub fn indent(out: &mut Bytes, level: usize) -> Result<(), AllocError>
    ensures { OnOk result (out.new ≡ out.old ++ replicate (min (2 * level) MOST_INDENTED) 32) }
{
    out.extend(&BLANKS[..blanks(level)])
}

/// How many blanks a line of this level begins with.
pub fn blanks(level: usize) -> usize
    ensures { result ≡ min (2 * level) MOST_INDENTED }
{
    level.saturating_mul(2).min(BLANKS.len())
}
