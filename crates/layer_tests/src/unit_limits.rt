// The limits on units, and files that end anywhere.
use crate::help::{answered, check};
use crate::tables::units::{EDITOR, STOCK};
use crate::units::told;
use command::Status;
use std::alloc::{AllocError, Global};
use std::process::Abort;
use std::test::Fail;
use text_base::Bytes;

// Adds lines.
fn add(out: &mut Bytes, lines: &[&str]) -> Result<(), AllocError> {
    for line in lines {
        out.extend(line.as_bytes())?;
        out.push(b'\n')?;
    }
    Ok(())
}

// Adds a DO or, at every other depth, an IF.
fn add_opening(alloc: Global, out: &mut Bytes, depth: u32) -> Result<(), AllocError> {
    if depth % 2 == 0 {
        let label = depth.saturating_add(10000);
        let line = format!(in alloc; "      DO {label} I = 1, 2")?;
        add(out, &[line.as_str()])
    } else {
        add(out, &["      IF (L) THEN"])
    }
}

// Adds what ends it.
fn add_closing(alloc: Global, out: &mut Bytes, depth: u32) -> Result<(), AllocError> {
    if depth % 2 == 0 {
        let label = depth.saturating_add(10000);
        let line = format!(in alloc; "{label} CONTINUE")?;
        add(out, &[line.as_str()])
    } else {
        add(out, &["      END IF"])
    }
}

// Adds so many constructs, each inside the one before, with lines inside the innermost one.
fn add_nested(
    alloc: Global,
    out: &mut Bytes,
    count: u32,
    inside: &[&str],
) -> Result<(), AllocError> {
    for depth in 0..count {
        add_opening(alloc, out, depth)?;
    }
    add(out, inside)?;
    for closed in 1..=count {
        add_closing(alloc, out, count.saturating_sub(closed))?;
    }
    Ok(())
}

fn nested(alloc: Global, count: u32, inside: &[&str]) -> Result<Bytes, AllocError> {
    let mut lines = Bytes::new(alloc);
    add_nested(alloc, &mut lines, count, inside)?;
    Ok(lines)
}

// A line so many times, and others behind it.
fn repeated(alloc: Global, count: u32, line: &str, rest: &[&str]) -> Result<Bytes, AllocError> {
    let mut lines = Bytes::new(alloc);
    for _ in 0..count {
        add(&mut lines, &[line])?;
    }
    add(&mut lines, rest)?;
    Ok(lines)
}

// Adds jumps to so many different labels, from 10000 on.
fn add_jumps(alloc: Global, out: &mut Bytes, count: u32) -> Result<(), AllocError> {
    for number in 0..count {
        let label = number.saturating_add(10000);
        let line = format!(in alloc; "      GO TO {label}")?;
        add(out, &[line.as_str()])?;
    }
    Ok(())
}

// Jumps to so many different labels, and lines behind them.
fn jumps(alloc: Global, count: u32, rest: &[&str]) -> Result<Bytes, AllocError> {
    let mut lines = Bytes::new(alloc);
    add_jumps(alloc, &mut lines, count)?;
    add(&mut lines, rest)?;
    Ok(lines)
}

// Ends the test unless nothing is refused of the lines with END behind them.
fn check_accepted(rt: &impl Abort, alloc: Global, mut lines: Bytes) -> Result<(), Fail> {
    add(&mut lines, &["      END"])?;
    let said = told(rt, alloc, lines.as_slice())?;
    assert!(rt; said.as_slice().starts_with(b"unit 0 "));
    Ok(())
}

// Ends the test unless this is refused of the lines with END behind them.
fn check_refused(
    rt: &impl Abort,
    alloc: Global,
    mut lines: Bytes,
    wanted: &[u8],
) -> Result<(), Fail> {
    add(&mut lines, &["      END"])?;
    check(rt, told(rt, alloc, lines.as_slice())?.as_slice(), wanted);
    Ok(())
}

#[test]
fn constructs_nest_to_100(rt: HostRuntime) -> Result<(), Fail> {
    let alloc = rt.alloc();
    check_accepted(&rt, alloc, nested(alloc, 100, &["      I = 1"])?)?;
    check_refused(&rt, alloc, nested(alloc, 101, &[])?, b"101: 8 DEPTH")?;
    let deeper = nested(alloc, 103, &["      ELSE IF (L) THEN"])?;
    let said = b"101: 8 DEPTH; 102: 8 DEPTH; 103: 8 DEPTH; 104: 12 ELSEIF";
    check_refused(&rt, alloc, deeper, said)
}

#[test]
fn arms_and_ended_constructs_do_not_nest(rt: HostRuntime) -> Result<(), Fail> {
    let alloc = rt.alloc();
    let inside = [
        "      IF (L) THEN",
        "      ELSE IF (M) THEN",
        "      ELSE",
        "      END IF",
        "      IF (L) THEN",
        "      END IF",
    ];
    let mut twice = nested(alloc, 99, &inside)?;
    add_nested(alloc, &mut twice, 100, &[])?;
    check_accepted(&rt, alloc, twice)
}

#[test]
fn depth_is_counted_behind_what_is_refused(rt: HostRuntime) -> Result<(), Fail> {
    let alloc = rt.alloc();
    // an END IF that ends nothing
    let inside = [
        "      DO 20 I = 1, 2",
        "      END IF",
        "      IF (L) THEN",
        "      END IF",
        "   20 CONTINUE",
    ];
    let lines = nested(alloc, 99, &inside)?;
    check_refused(&rt, alloc, lines, b"101: 12 ENDIF; 102: 8 DEPTH")?;
    // a block IF as terminal statement, which ends its DO
    let inside = ["      DO 20 I = 1, 2", "   20 IF (L) THEN", "      END IF"];
    let lines = nested(alloc, 99, &inside)?;
    check_refused(&rt, alloc, lines, b"101: 12 IF")?;
    // of a refused condition too, which the construct holds
    let inside = ["      IF (I .EQ. 1.5) THEN", "      END IF"];
    let lines = nested(alloc, 100, &inside)?;
    check_refused(&rt, alloc, lines, b"101: 8 DEPTH")?;
    // DO WHILE, which is left out
    let lines = nested(alloc, 100, &["      DO WHILE (L)"])?;
    check_refused(&rt, alloc, lines, b"101: 8 WHILE")
}

#[test]
fn loops_that_share_a_terminal_statement_nest_to_100(rt: HostRuntime) -> Result<(), Fail> {
    let alloc = rt.alloc();
    let line = "      DO 20 I = 1, 2";
    let lines = repeated(
        alloc,
        100,
        line,
        &["   20 CONTINUE", line, "   20 CONTINUE"],
    )?;
    check_accepted(&rt, alloc, lines)?;
    let lines = repeated(alloc, 101, line, &["   20 CONTINUE"])?;
    check_refused(&rt, alloc, lines, b"101: 8 DEPTH")?;
    let lines = repeated(alloc, 102, line, &["   20 STOP"])?;
    let said = b"101: 8 DEPTH; 102: 8 DEPTH; 103: 12 STOP";
    check_refused(&rt, alloc, lines, said)
}

#[test]
fn of_a_deep_loop_without_terminal_statement_the_depth_is_refused(
    rt: HostRuntime,
) -> Result<(), Fail> {
    let alloc = rt.alloc();
    let lines = repeated(alloc, 101, "      DO 20 I = 1, 2", &[])?;
    let mut wanted = Bytes::new(alloc);
    for number in 1..=100u32 {
        wanted.extend(format!(in alloc; "{number}: 12 20; ")?.as_bytes())?;
    }
    wanted.extend(b"101: 8 DEPTH")?;
    check_refused(&rt, alloc, lines, wanted.as_slice())
}

#[test]
fn jumps_name_2000_labels(rt: HostRuntime) -> Result<(), Fail> {
    let alloc = rt.alloc();
    let again = "      GO TO 10000";
    check_accepted(&rt, alloc, jumps(alloc, 2000, &[again, again])?)?;
    check_refused(&rt, alloc, jumps(alloc, 2001, &[])?, b"2002: 8 LABELS")?;
    let mut two_units = jumps(alloc, 1500, &["      END"])?;
    add_jumps(alloc, &mut two_units, 2000)?;
    check_accepted(&rt, alloc, two_units)?;
    let mut two_units = jumps(alloc, 2001, &["      END"])?;
    add_jumps(alloc, &mut two_units, 1)?;
    check_refused(&rt, alloc, two_units, b"2002: 8 LABELS")
}

#[test]
fn all_jumps_name_labels(rt: HostRuntime) -> Result<(), Fail> {
    let alloc = rt.alloc();
    let ten = [
        "      IF (L) GO TO 1",
        "      GO TO (2, 3, 2), I",
        "      IF (I) 4, 5, 6",
        "      READ (5, 90, ERR=7, END=8) I",
        "      OPEN (7, ERR=9)",
        "      IF (L) WRITE (6, 90, ERR=10) I",
    ];
    let others = [
        "   90 FORMAT (I5)",
        "      DO 91 I = 1, 2",
        "   91 PRINT 92, I",
        "      GO TO 001",
    ];
    let mut lines = jumps(alloc, 1990, &ten)?;
    add(&mut lines, &others)?;
    check_accepted(&rt, alloc, lines)?;
    for one_more in ["      CLOSE (7, ERR=11)", "      REWIND (7, ERR=11)"] {
        let mut lines = jumps(alloc, 1990, &ten)?;
        add(&mut lines, &[one_more])?;
        check_refused(&rt, alloc, lines, b"1998: 8 LABELS")?;
    }
    Ok(())
}

#[test]
fn of_an_end_with_an_open_if_the_labels_are_refused(rt: HostRuntime) -> Result<(), Fail> {
    let alloc = rt.alloc();
    let lines = jumps(alloc, 2000, &["      IF (L) THEN"])?;
    check_refused(&rt, alloc, lines, b"2002: 12 END")?;
    let lines = jumps(alloc, 2001, &["      IF (L) THEN"])?;
    check_refused(&rt, alloc, lines, b"2003: 8 LABELS")
}

// The top call converts or refuses the file of these bytes.
fn check_answered(rt: &impl Abort, alloc: Global, bytes: &[u8]) -> Result<(), Fail> {
    let status = answered(rt, alloc, bytes, 80)?.status;
    assert!(rt;
        status == Status::Done || status == Status::Refused,
        "{} bytes: {status:?}",
        bytes.len()
    );
    Ok(())
}

// Each prefix of the file is answered.
fn check_prefixes(rt: &impl Abort, alloc: Global, bytes: &[u8]) -> Result<(), Fail> {
    for (end, _) in bytes.iter().enumerate() {
        check_answered(rt, alloc, &bytes[..end])?;
    }
    check_answered(rt, alloc, bytes)
}

#[test]
fn the_editor_that_ends_anywhere_is_answered(rt: HostRuntime) -> Result<(), Fail> {
    check_prefixes(&rt, rt.alloc(), EDITOR.as_bytes())
}

#[test]
fn the_stock_list_that_ends_anywhere_is_answered(rt: HostRuntime) -> Result<(), Fail> {
    check_prefixes(&rt, rt.alloc(), STOCK.as_bytes())
}
