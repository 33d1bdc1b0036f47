// What is found at statements.
ghost use Rattle.std.specs.Prelude.{◌≡◌, ◌++◌, map, OnOk};
ghost use Rattle.std.specs.Option.{option_map};
ghost use Rattle.implicit_types.specs.Findings.{finding, better, first_lowest};
ghost use Rattle.implicit_types.specs.Views.{shown_finding, shown_findings};

use sqlite_items::Items;
use std::alloc::AllocError;
use text_base::Cause;

/// A cause, and the name that shows what it is about.
#[derive(Clone, Copy)]
pub struct Finding<'a> {
    pub cause: Cause,
    pub name: &'a [u8],
}

/// What is found at a statement, from left to right, which contracts see as the list.
pub type Findings<'a> = Items<Finding<'a>>;

/// Adds a finding, where it is one.
#[tactic(auto, using(crate::proofs::TypingLemmas::joining))]
pub fn add<'a>(
    findings: &mut Findings<'a>,
    cause: Cause,
    name: &'a [u8],
    found: bool,
) -> Result<(), AllocError>
    ensures { OnOk result (shown_findings findings.new ≡ shown_findings findings.old ++ finding cause name.entry.now found) }
{
    if found {
        findings.push(Finding { cause, name })?;
    }
    Ok(())
}

// Of two findings the one with the lower cause; of equal ones the first.
fn better<'a>(kept: Option<Finding<'a>>, next: Finding<'a>) -> Option<Finding<'a>>
    ensures { option_map shown_finding result ≡ better (option_map shown_finding kept.entry) (shown_finding next.entry) }
{
    match kept {
        Some(finding) if next.cause.number() >= finding.cause.number() => Some(finding),
        _ => Some(next),
    }
}

/// The finding with the lowest cause; of equal ones the first.
#[tactic(auto, using(std::proofs::lemmas::Grind::common_steps, crate::proofs::TypingLemmas::keeps_lowest))]
pub fn lowest<'a>(findings: &[Finding<'a>]) -> Option<Finding<'a>>
    ensures { option_map shown_finding result ≡ first_lowest (map shown_finding findings.now) }
{
    let mut kept = None;
    for finding in findings {
        kept = better(kept, *finding);
    }
    kept
}
