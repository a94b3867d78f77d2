// The words of a request line. What is read of a line's start answers what stands behind it, or nothing where the line is no request.
ghost use Rattle.std.specs.Prelude.{◌<◌, ◌≤◌, length};
ghost use Rattle.std.specs.Option.{ForSome};

// The value of a hex digit.
fn hex_value(digit: u8) -> Option<u8> {
    match digit {
        b'0'..=b'9' => Some(digit - b'0'),
        b'a'..=b'f' => Some(digit - b'a' + 10),
        b'A'..=b'F' => Some(digit - b'A' + 10),
        _ => None,
    }
}

// The bytes that hex digits stand for, two to a byte, at the start of `text`.
fn decode<'a>(digits: &[u8], text: &'a mut [u8]) -> Option<&'a [u8]>
    ensures { ForSome result (λ bytes. length bytes.now ≤ length text.old) }
{
    let (pairs, rest) = digits.as_chunks::<2>();
    if !rest.is_empty() || text.len() < pairs.len() {
        return None;
    }
    for (i, [high, low]) in pairs.iter().enumerate() {
        text[i] = hex_value(*high)? << 4 | hex_value(*low)?;
    }
    Some(&text[..pairs.len()])
}

// A text from a word: its hex digits, or `-` for the empty one.
pub fn decode_word<'a>(word: &[u8], text: &'a mut [u8]) -> Option<&'a [u8]>
    ensures { ForSome result (λ bytes. length bytes.now ≤ length text.old) }
{
    match word {
        b"-" => decode(b"", text),
        _ => decode(word, text),
    }
}

// A line's first word, and what stands behind the blank at its end; there is none where the line ends with the word.
pub fn split_word(line: &[u8]) -> (&[u8], Option<&[u8]>) {
    match line.iter().position(|byte| *byte == b' ') {
        Some(end) => (&line[..end], Some(&line[end + 1..])),
        None => (line, None),
    }
}

// The number whose digits a line begins with. One of more than eighteen digits is none.
pub fn number(line: &[u8]) -> Option<(usize, &[u8])>
    ensures { ForSome result (λ read. read.0 < 1000000000000000000) }
{
    let mut value = 0;
    let mut rest = line;
    while let [digit @ b'0'..=b'9', behind @ ..] = rest {
        if 99_999_999_999_999_999 < value {
            return None;
        }
        value = value * 10 + (*digit - b'0') as usize;
        rest = behind;
    }
    if rest.len() == line.len() {
        return None;
    }
    Some((value, rest))
}

// A number of 32 bits.
pub fn small_number(line: &[u8]) -> Option<(u32, &[u8])>
    ensures { ForSome result (λ read. read.0 < 4294967296) }
{
    let (value, rest) = number(line)?;
    Some((u32::try_from(value).ok()?, rest))
}
