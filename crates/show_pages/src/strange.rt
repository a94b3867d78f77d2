// Bytes that no word, number or mark has, by the names that people know them by: what an editor put into a file without showing it.
ghost use Rattle.std.specs.Prelude.{◌≤◌, ◌<◌, IfSome};

use crate::pages::{self, Page};
use crate::{places, visible};

// Whether a byte is a control, but for blanks and the end of a line, or beyond ASCII.
fn is_strange(byte: u8) -> bool {
    !matches!(byte, b'\t' | b'\n' | b'\r' | b' '..=b'~')
}

// The offset of the first strange byte from one offset to another.
pub fn find_strange(text: &[u8], from: usize, to: usize) -> Option<usize>
    ensures { IfSome result (λ n. (from ≤ n) × (n < to)) }
{
    let n = pages::part(text, from, to)
        .iter()
        .position(|byte| is_strange(*byte))?;
    Some(from + n)
}

// Whether a text starts as one in UTF-16 does.
fn is_wide(text: &[u8]) -> bool {
    text.starts_with(&[255, 254]) || text.starts_with(&[254, 255])
}

fn put_beyond(page: &mut Page, rest: &[u8]) {
    page.put_str(if rest.starts_with(&[239, 187, 191]) {
        "a byte-order mark (EF BB BF); save the file as UTF-8 without one"
    } else if rest.starts_with(&[194, 160]) {
        "a no-break space (C2 A0), which looks like a blank; put a blank in its place"
    } else {
        "a character beyond ASCII, which may stand in a comment alone"
    });
}

fn put_control(page: &mut Page, byte: u8) {
    if byte == 0 {
        page.put_str("a zero byte, as a file in UTF-16 has them; save the file as UTF-8");
    } else {
        page.put_str("a control character, ");
        visible::put_code(page, byte);
    }
}

// What the strange byte at a place is.
pub fn put_strange(page: &mut Page, text: &[u8], place: usize) {
    match pages::part(text, place, text.len()) {
        [] => {}
        _ if is_wide(text) => page.put_str("a file in UTF-16; save the file as UTF-8"),
        [byte @ ..128, ..] => put_control(page, *byte),
        rest => put_beyond(page, rest),
    }
}

// The strange byte at a place, with its line.
pub fn put_found(page: &mut Page, text: &[u8], place: usize) {
    places::put_place(page, text, place);
    put_strange(page, text, place);
    page.put(b'\n');
    places::put_marked(page, text, place);
}
