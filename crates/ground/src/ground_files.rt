// What `ground` reads and tells around its call: the text, notes that were not asked for, and what is wrong with a context file.
use print_lines::Asked;
use show_contexts::context_file::Malformed;
use show_contexts::context_messages;
use show_pages::pages::{self, Page};
use std::io::Error;

// The notes, for a person. What Resolve gives is never as much as is left out here, so that nothing has to be known of it.
fn tell_notes(rt: &HostRuntime, page: &mut [u8], text: &[u8], notes: &[[u8; 2]], count: usize) {
    if 16384 < text.len() || 257 < count || notes.len() < count {
        return;
    }
    let n = print_lines::put_notes(text, &notes[..count], b"ground: note: ", page);
    show_input::tell_bytes(rt, pages::part(page, 0, n))
}

// Where the notes are not what was asked for, they are told on standard error, so that none is lost.
pub fn tell_unasked(
    rt: &HostRuntime,
    asked: Asked,
    page: &mut [u8],
    text: &[u8],
    notes: &[[u8; 2]],
    count: usize,
) {
    match asked {
        Asked::Notes => {}
        Asked::Ground | Asked::Effects => tell_notes(rt, page, text, notes, count),
    }
}

// A context file that is malformed.
pub fn tell_malformed(rt: &HostRuntime, path: &[u8], file: &[u8], malformed: Malformed) {
    let mut buffer = io::large_buffer();
    let mut page = Page::new(&mut buffer);
    page.put_str("ground: failed: ");
    page.put_all(path);
    page.put_str(": ");
    context_messages::put_malformed(&mut page, file, malformed);
    show_input::write_message(rt, &page)
}

// The text from the file that an argument names, or from standard input where there is none.
pub fn read_text<'a>(
    rt: &HostRuntime,
    index: usize,
    name: &mut [u8],
    text: &'a mut [u8],
) -> Result<&'a [u8], Error> {
    if show_input::argument_count(rt) <= index {
        return show_input::read_input(rt, b"ground: ", text);
    }
    let path = show_input::argument(rt, b"ground: ", index, name)?;
    show_input::read_file(rt, b"ground: ", path, text)
}
