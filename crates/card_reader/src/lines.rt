// The lines of a file (X3.9 section 3.2).
ghost use Rattle.std.specs.Prelude.{◌≡◌, ◌<◌, ◌∷◌, length, take, drop, ◌==◌, not, true};
ghost use Rattle.std.specs.List.{list_all, position, position_or_len};
ghost use Rattle.text_base.specs.Lines as layout;

const LINE_FEED: u8 = 10;

const RETURN: u8 = 13;

/// The first `count` bytes, or all where there are fewer.
pub fn first(count: usize, bytes: &[u8]) -> &[u8]
    ensures { result.now ≡ take count bytes.now }
{
    if count < bytes.len() {
        bytes.split_at(count).0
    } else {
        bytes
    }
}

/// What stands behind the first `count` bytes.
pub fn behind(count: usize, bytes: &[u8]) -> &[u8]
    ensures { result.now ≡ drop count bytes.now }
{
    if count < bytes.len() {
        bytes.split_at(count).1
    } else {
        &[]
    }
}

/// How many bytes stand before the first LF, if there is one.
fn place_of_feed(bytes: &[u8]) -> Option<usize>
    ensures { result ≡ position (λ c. c == 10) bytes.now }
{
    bytes.iter().position(|byte| *byte == LINE_FEED)
}

/// How many bytes stand before the first LF, or in all where there is none.
fn length_of_line(bytes: &[u8]) -> usize
    ensures { result ≡ position_or_len (λ c. c == 10) bytes.now }
{
    place_of_feed(bytes).unwrap_or(bytes.len())
}

/// The first line of what is left of a file, and what is left behind it.
fn cut_line(rest: &[u8]) -> (&[u8], &[u8])
    ensures line { 0 < length rest.now → layout.cut rest.now ≡ result.0.now ∷ layout.cut result.1.now }
    ensures shorter { 0 < length rest.now → length result.1.now < length rest.now }
    ensures feedless { list_all (λ c. not (c == 10)) result.0.now ≡ true }
{
    let count = length_of_line(rest);
    (first(count, rest), behind(1, behind(count, rest)))
}

/// The line without the CR at its end.
fn without_return(line: &[u8]) -> &[u8]
    ensures line { result.now ≡ layout.without_return line.now }
    ensures feedless { list_all (λ c. not (c == 10)) line.now ≡ true → list_all (λ c. not (c == 10)) result.now ≡ true }
{
    if !line.is_empty() && line[line.len() - 1] == RETURN {
        first(line.len() - 1, line)
    } else {
        line
    }
}

/// The first line of what is left of a file, without a CR at its end, and what is left behind it.
pub fn next_line(rest: &[u8]) -> (&[u8], &[u8])
    ensures line { 0 < length rest.now → layout.lines rest.now ≡ result.0.now ∷ layout.lines result.1.now }
    ensures shorter { 0 < length rest.now → length result.1.now < length rest.now }
    ensures feedless { list_all (λ c. not (c == 10)) result.0.now ≡ true }
{
    let (line, after) = cut_line(rest);
    (without_return(line), after)
}
