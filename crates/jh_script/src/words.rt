//! The lines of a text, and the words of a line.
ghost use Rattle.std.specs.Prelude.{◌≡◌, ◌<◌, ◌≤◌, ◌==◌, not, length, position, drop, IfSome, MatchOption, [], ◌∷◌};
ghost use Rattle.std.specs.Str.Lines.{lines, strip_carriage_return};
ghost use Rattle.std.specs.Str.{bytes_eq};
ghost use Rattle.jh_script.specs.Words.{is_gap, words};

/// The first line without its end, and what stands behind it.
pub fn next_line(text: &[u8]) -> Option<(&[u8], &[u8])>
    ensures lines { MatchOption result (lines text.now ≡ [])
        (λ x. lines text.now ≡ x.0.now ∷ lines x.1.now) }
    ensures shorter { IfSome result (λ x. length x.1.now < length text.now) }
{
    if text.is_empty() {
        return None;
    }
    let Some(end) = line_end(text) else {
        return Some((text, &[]));
    };
    let (line, _) = text.split_at(end);
    Some((without_carriage_return(line), behind(text, end + 1)))
}

/// Where the first line feed stands.
fn line_end(text: &[u8]) -> Option<usize>
    ensures value { result ≡ position (λ byte. byte == 10) text.now }
    ensures within { IfSome result (λ at. at < length text.now) }
{
    text.iter().position(|byte| *byte == b'\n')
}

/// What stands behind so many bytes.
pub(crate) fn behind(text: &[u8], count: usize) -> &[u8]
    requires { count ≤ length text.now }
    ensures { result.now ≡ drop count text.now }
{
    let (_, rest) = text.split_at(count);
    rest
}

/// The line without a carriage return at its end.
fn without_carriage_return(line: &[u8]) -> &[u8]
    ensures { result.now ≡ strip_carriage_return line.now }
{
    match line {
        [front @ .., b'\r'] => front,
        _ => line,
    }
}

/// The first word, and what stands behind it; `gaps` are the bytes that part words.
pub fn next_word<'a>(gaps: &[u8], text: &'a [u8]) -> Option<(&'a [u8], &'a [u8])>
    ensures words { MatchOption result (words gaps.now text.now ≡ [])
        (λ x. words gaps.now text.now ≡ x.0.now ∷ words gaps.now x.1.now) }
    ensures shorter { IfSome result (λ x. length x.1.now < length text.now) }
{
    let Some(start) = word_start(gaps, text) else {
        return None;
    };
    let word = behind(text, start);
    let Some(end) = word_end(gaps, word) else {
        return Some((word, &[]));
    };
    Some(word.split_at(end))
}

/// Where the first byte stands that parts no words.
fn word_start(gaps: &[u8], text: &[u8]) -> Option<usize>
    ensures value { result ≡ position (λ byte. not (is_gap gaps.now byte)) text.now }
    ensures within { IfSome result (λ at. at < length text.now) }
{
    text.iter().position(|byte| !gaps.contains(byte))
}

/// Where the first byte stands that parts words.
fn word_end(gaps: &[u8], text: &[u8]) -> Option<usize>
    ensures value { result ≡ position (is_gap gaps.now) text.now }
    ensures within { IfSome result (λ at. at < length text.now) }
{
    text.iter().position(|byte| gaps.contains(byte))
}

/// Whether the word is the name, byte for byte.
pub fn is_word(word: &[u8], name: &str) -> bool
    ensures { result ≡ bytes_eq word.now name.now }
{
    word == name.as_bytes()
}
