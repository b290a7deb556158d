//! What a text has of some lines.

/// Whether the text has these lines, in this order, maybe with others between.
pub(crate) fn has_in_order(text: &str, lines: &str) -> bool {
    let mut rest = lines.as_bytes();
    for line in text.lines() {
        if let Some(behind) = behind_line(rest, line.as_bytes()) {
            rest = behind;
        }
    }
    rest.is_empty()
}

/// What stands behind the first line; `None` where that is another one.
fn behind_line<'a>(lines: &'a [u8], line: &[u8]) -> Option<&'a [u8]> {
    lines.strip_prefix(line)?.strip_prefix(b"\n")
}

/// Whether the text has one of these lines.
pub(crate) fn has_any(text: &str, lines: &str) -> bool {
    text.lines().any(|line| has_line(lines, line))
}

fn has_line(lines: &str, wanted: &str) -> bool {
    lines.lines().any(|line| line == wanted)
}

/// Whether the text is this number, with a line feed or without.
pub(crate) fn is_number(text: &str, number: usize) -> bool {
    text.trim_end().parse::<usize>() == Ok(number)
}
