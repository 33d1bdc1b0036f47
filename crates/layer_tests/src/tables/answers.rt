// What is answered for the words of a command.

/// The words, each with a stroke behind it; the read, the write and the call of the sink that fail, 0 for
/// none; the most bytes that one call of the sink takes; the status and its number; what is printed; the
/// outputs that stand, each with a stroke behind it. The file t.f is converted, r.f is refused, and no other
/// is there.
pub const ANSWERS: &str = r"
# words of another form
one/t.f/t.f/ ~ 0 ~ 0 ~ 0 ~ 2 ~ Usage 2 ~ USAGE: modern one FILE OUT\n ~
 ~ 0 ~ 0 ~ 0 ~ 2 ~ Usage 2 ~ USAGE: modern one FILE OUT\n ~
one/ ~ 0 ~ 0 ~ 0 ~ 2 ~ Usage 2 ~ USAGE: modern one FILE OUT\n ~
one/t.f/ ~ 0 ~ 0 ~ 0 ~ 2 ~ Usage 2 ~ USAGE: modern one FILE OUT\n ~
one/a/b/c/ ~ 0 ~ 0 ~ 0 ~ 2 ~ Usage 2 ~ USAGE: modern one FILE OUT\n ~
one/o.map/o/ ~ 0 ~ 0 ~ 0 ~ 2 ~ Usage 2 ~ USAGE: modern one FILE OUT\n ~
one/o.report/o/ ~ 0 ~ 0 ~ 0 ~ 2 ~ Usage 2 ~ USAGE: modern one FILE OUT\n ~
one/-t.f/o/ ~ 0 ~ 0 ~ 0 ~ 2 ~ Usage 2 ~ USAGE: modern one FILE OUT\n ~
one/t.f/-o/ ~ 0 ~ 0 ~ 0 ~ 2 ~ Usage 2 ~ USAGE: modern one FILE OUT\n ~
one//o/ ~ 0 ~ 0 ~ 0 ~ 2 ~ Usage 2 ~ USAGE: modern one FILE OUT\n ~
one/t.f// ~ 0 ~ 0 ~ 0 ~ 2 ~ Usage 2 ~ USAGE: modern one FILE OUT\n ~
two/a/b/ ~ 0 ~ 0 ~ 0 ~ 2 ~ Usage 2 ~ USAGE: modern one FILE OUT\n ~

# a file that is absent, or that can't be read
one/gone.f/o/ ~ 0 ~ 0 ~ 0 ~ 1 ~ Missing 4 ~ MISSING gone.f\n ~
one/gone.f/o/ ~ 0 ~ 0 ~ 0 ~ 2 ~ Missing 4 ~ MISSING gone.f\n ~
one/gone.f/o/ ~ 0 ~ 0 ~ 0 ~ 7 ~ Missing 4 ~ MISSING gone.f\n ~
one/gone.f/o/ ~ 0 ~ 0 ~ 0 ~ 100 ~ Missing 4 ~ MISSING gone.f\n ~
one/t.f/o/ ~ 1 ~ 0 ~ 0 ~ 1 ~ ReadFault 3 ~ READ FAULT t.f\n ~
one/t.f/o/ ~ 1 ~ 0 ~ 0 ~ 2 ~ ReadFault 3 ~ READ FAULT t.f\n ~
one/t.f/o/ ~ 1 ~ 0 ~ 0 ~ 7 ~ ReadFault 3 ~ READ FAULT t.f\n ~
one/t.f/o/ ~ 1 ~ 0 ~ 0 ~ 100 ~ ReadFault 3 ~ READ FAULT t.f\n ~
one/gone.f/o/ ~ 1 ~ 0 ~ 0 ~ 1 ~ ReadFault 3 ~ READ FAULT gone.f\n ~
one/gone.f/o/ ~ 1 ~ 0 ~ 0 ~ 2 ~ ReadFault 3 ~ READ FAULT gone.f\n ~
one/gone.f/o/ ~ 1 ~ 0 ~ 0 ~ 7 ~ ReadFault 3 ~ READ FAULT gone.f\n ~
one/gone.f/o/ ~ 1 ~ 0 ~ 0 ~ 100 ~ ReadFault 3 ~ READ FAULT gone.f\n ~

# a call of the sink that fails
one/t.f/o/ ~ 0 ~ 0 ~ 0 ~ 2 ~ Done 0 ~ UNITS 1\nWEBS 0\nKEPT 0\nARRAYS 0\nCUT 0\n ~ o/o.map/o.report/
one/r.f/o/ ~ 0 ~ 0 ~ 0 ~ 7 ~ Refused 1 ~ r.f:0: 99 NotBuilt 0\n ~
one/t.f/o/ ~ 0 ~ 0 ~ 2 ~ 2 ~ WriteFault 6 ~ UNWRITE FAULT output\n ~ o/o.map/o.report/
one/r.f/o/ ~ 0 ~ 0 ~ 1 ~ 7 ~ WriteFault 6 ~ WRITE FAULT output\n ~
one/gone.f/o/ ~ 0 ~ 0 ~ 2 ~ 7 ~ Missing 4 ~ MISSING ~
one/gone.f/o/ ~ 0 ~ 0 ~ 1 ~ 1 ~ Missing 4 ~  ~
one/-/o/ ~ 0 ~ 0 ~ 2 ~ 5 ~ Usage 2 ~ USAGE ~
one/-/o/ ~ 0 ~ 0 ~ 1 ~ 100 ~ Usage 2 ~  ~

# a write that fails
one/t.f/o/ ~ 0 ~ 1 ~ 0 ~ 2 ~ WriteFault 6 ~ WRITE FAULT o\n ~
one/t.f/o/ ~ 0 ~ 2 ~ 0 ~ 2 ~ WriteFault 6 ~ WRITE FAULT o.map\n ~ o/
one/t.f/o/ ~ 0 ~ 3 ~ 0 ~ 2 ~ WriteFault 6 ~ WRITE FAULT o.report\n ~ o/o.map/
one/t.f/o/ ~ 0 ~ 0 ~ 2 ~ 2 ~ WriteFault 6 ~ UNWRITE FAULT output\n ~ o/o.map/o.report/
";
