// What is asked about a text alone, and the answer: its tokens, Count, Statement, Print and the profile.
use crate::statements;
use read_forms::Refusal;
use replay_lines::lexed;
use replay_lines::output::Output;

// What is asked about a text; `PrintIn` has the bytes of the output. `Line` and `ProfileLine` are what `mfl` and `mfl --profile` write.
#[derive(Clone, Copy)]
pub enum Asked {
    Tokens,
    Count,
    Statement(usize),
    Print,
    PrintIn(usize),
    Profile,
    Line,
    ProfileLine,
}

fn answer_count(text: &[u8], ceiling: u32, out: &mut Output) {
    match read_text::count_under(text, ceiling) {
        Ok(count) => {
            out.put_all(b"ok");
            out.put_number(count);
        }
        Err(r) => out.put_refused(r.fault as usize, r.place),
    }
}

fn answer_statement(text: &[u8], index: usize, ceiling: u32, out: &mut Output) {
    let value = read_values::value_under(text, index, ceiling);
    match value.found {
        Ok(statement) => {
            out.put_all(b"ok");
            statements::put_statement(out, &value, statement);
        }
        Err(r) => out.put_refused(r.fault as usize, r.place),
    }
}

fn answer_profile(text: &[u8], ceiling: u32, out: &mut Output) {
    match read_profile::profile_under(text, ceiling) {
        Ok(()) => out.put_all(b"ok"),
        Err(r) => out.put_refused(r.fault as usize, r.place),
    }
}

// Print into so many bytes of the page. It is larger than any canonical text, so where it has fewer than are asked for the answer is the same.
fn print_in(text: &[u8], page: &mut [u8], room: usize, ceiling: u32) -> Result<usize, Refusal> {
    let n = room.min(page.len());
    print_render::print_under(
        text,
        &tokens::CLASSES,
        &labels::LABELS,
        &labels::KEYWORDS,
        &mut page[..n],
        ceiling,
    )
}

// The canonical text in hex digits; the words for the empty one are the caller's.
fn answer_print(text: &[u8], room: usize, ceiling: u32, empty: &[u8], out: &mut Output) {
    let mut page = io::large_buffer();
    match print_in(text, &mut page, room, ceiling) {
        Ok(0) => out.put_all(empty),
        Ok(length) => put_written(out, &page[..length.min(page.len())]),
        Err(r) => out.put_refused(r.fault as usize, r.place),
    }
}

// Bytes that a program writes, in hex digits.
pub fn put_written(out: &mut Output, bytes: &[u8]) {
    out.put_all(b"ok ");
    out.put_hex(bytes);
}

fn answer_line(text: &[u8], ceiling: u32, out: &mut Output) {
    let mut page = io::large_buffer();
    let line = print_answers::print_line(
        text,
        &tokens::CLASSES,
        &labels::LABELS,
        &labels::KEYWORDS,
        &mut page,
        ceiling,
    );
    put_written(out, &page[..line.count.min(page.len())]);
}

fn answer_profile_line(text: &[u8], ceiling: u32, out: &mut Output) {
    let mut page = io::large_buffer();
    let line = print_answers::profile_line(text, &mut page, ceiling);
    put_written(out, &page[..line.count.min(page.len())]);
}

pub fn answer_text(asked: Asked, ceiling: u32, text: &[u8], out: &mut Output) {
    match asked {
        Asked::Tokens => lexed::answer_tokens(text, out),
        Asked::Count => answer_count(text, ceiling, out),
        Asked::Statement(index) => answer_statement(text, index, ceiling, out),
        Asked::Print => answer_print(text, 65536, ceiling, b"ok", out),
        Asked::PrintIn(room) => answer_print(text, room, ceiling, b"ok -", out),
        Asked::Profile => answer_profile(text, ceiling, out),
        Asked::Line => answer_line(text, ceiling, out),
        Asked::ProfileLine => answer_profile_line(text, ceiling, out),
    }
}
