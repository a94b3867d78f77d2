// One request line and its answer.
use crate::context_lines::{self, Wanted};
use crate::text_lines::{self, Asked};
use replay_lines::output::Output;
use replay_lines::words;

// The answer about the text whose digits a word has; nothing, as of all that follow, where the line is no request.
fn answer_hex(
    asked: Asked,
    ceiling: u32,
    word: &[u8],
    text: &mut [u8],
    out: &mut Output,
) -> Option<()> {
    let text = words::decode_word(word, text)?;
    text_lines::answer_text(asked, ceiling, text, out);
    Some(())
}

// `statement INDEX HEX`, from the index on.
fn answer_index(line: &[u8], ceiling: u32, text: &mut [u8], out: &mut Output) -> Option<()> {
    let (index, rest) = words::number(line)?;
    let digits = rest.strip_prefix(b" ")?;
    answer_hex(Asked::Statement(index), ceiling, digits, text, out)
}

// `print HEX` or `print HEX N`, from the digits on, where N is a 32-bit number. Where N follows, the empty text is `-`.
fn answer_page(line: &[u8], ceiling: u32, text: &mut [u8], out: &mut Output) -> Option<()> {
    let (word, rest) = words::split_word(line);
    let Some(behind) = rest else {
        return answer_hex(Asked::Print, ceiling, word, text, out);
    };
    match words::small_number(behind)? {
        (room, []) if !word.is_empty() => {
            answer_hex(Asked::PrintIn(room as usize), ceiling, word, text, out)
        }
        _ => None,
    }
}

// A request's first word says what is asked. What begins with `line` is what a program writes: `mfl`, and `ground` with each of its words.
fn answer_request(line: &[u8], ceiling: u32, text: &mut [u8], out: &mut Output) -> Option<()> {
    let (word, behind) = words::split_word(line);
    let rest = behind.unwrap_or(b"");
    match word {
        b"tokens" => answer_hex(Asked::Tokens, ceiling, rest, text, out),
        b"count" => answer_hex(Asked::Count, ceiling, rest, text, out),
        b"print" => answer_page(rest, ceiling, text, out),
        b"statement" => answer_index(rest, ceiling, text, out),
        b"profile" => answer_hex(Asked::Profile, ceiling, rest, text, out),
        b"resolve" => context_lines::answer_resolve(Wanted::Words, rest, ceiling, text, out),
        b"line" => answer_hex(Asked::Line, ceiling, rest, text, out),
        b"line-profile" => answer_hex(Asked::ProfileLine, ceiling, rest, text, out),
        b"line-ground" => {
            let wanted = Wanted::Lines(print_lines::Asked::Ground);
            context_lines::answer_resolve(wanted, rest, ceiling, text, out)
        }
        b"line-effects" => {
            let wanted = Wanted::Lines(print_lines::Asked::Effects);
            context_lines::answer_resolve(wanted, rest, ceiling, text, out)
        }
        b"line-notes" => {
            let wanted = Wanted::Lines(print_lines::Asked::Notes);
            context_lines::answer_resolve(wanted, rest, ceiling, text, out)
        }
        _ => None,
    }
}

// A request, under the ceiling that stands before it, `under N`, a 32-bit number, or under 64. No second ceiling may follow.
fn answer_words(line: &[u8], text: &mut [u8], out: &mut Output) -> Option<()> {
    match words::split_word(line) {
        (b"under", rest) => {
            let (ceiling, behind) = words::small_number(rest?)?;
            answer_request(behind.strip_prefix(b" ")?, ceiling, text, out)
        }
        _ => answer_request(line, 64, text, out),
    }
}

// The answer to a line, with its newline.
pub fn answer(line: &[u8], text: &mut [u8], out: &mut Output) {
    if answer_words(line, text, out).is_none() {
        out.put_all(b"malformed: not a request");
    }
    out.put(b'\n');
}
