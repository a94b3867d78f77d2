// Bytes as a person can see them. What a terminal would obey, what does not show and what is no character is shown by its number, as `\x1b`. Of the
// characters beyond ASCII those are left as they are that stand on one column or two and run from left to right: Latin, Greek, Cyrillic and Armenian
// letters, signs, and the scripts of China, Japan and Korea.
ghost use Rattle.std.specs.Prelude.{◌≤◌, ◌<◌, length};
ghost use Rattle.std.specs.Iterator.{at_most};

use crate::pages::Page;

// Whether a byte goes on a character that another one began.
pub fn is_inside(byte: u8) -> bool {
    (128..192).contains(&byte)
}

// A character of one byte that shows; the tab is one, as the mark's line has a tab below it.
fn is_plain(byte: u8) -> bool {
    byte == b'\t' || (b' '..=b'~').contains(&byte)
}

// A character of two bytes that shows: none of C1's controls, no no-break space, no soft hyphen, and no accent for the letter before it.
fn is_pair(first: u8, second: u8) -> bool {
    match first {
        194 => 160 < second && second != 173,
        195..=203 => true,
        205 => 175 < second,
        206..=213 => true,
        _ => false,
    }
}

// A sign of those from U+2000 on: of the first 128, dashes, quotes and points alone.
fn is_sign(second: u8, third: u8) -> bool {
    if second == 128 {
        (144..168).contains(&third)
    } else {
        129 < second
    }
}

// A character of three bytes that shows: no blank, no surrogate, and nothing that turns the direction or has no width.
fn is_triple(first: u8, second: u8, third: u8) -> bool {
    match first {
        225 => 183 < second,
        226 => is_sign(second, third),
        227 => second != 128 || third != 128,
        228..=236 => true,
        237 => second < 160,
        239 => second == 188 || second == 189,
        _ => false,
    }
}

// How many bytes the first character has, where it is shown as it is; else 0.
fn shown_bytes(rest: &[u8]) -> usize
    ensures { result ≤ length rest.now }
{
    match rest {
        [first, ..] if is_plain(*first) => 1,
        [first, second, ..] if is_inside(*second) && is_pair(*first, *second) => 2,
        [first, second, third, ..]
            if is_inside(*second) && is_inside(*third) && is_triple(*first, *second, *third) => {
            3
        }
        _ => 0,
    }
}

// The characters of a text, each as its bytes; a byte that is shown by its number stands by itself.
#[derive(Drop)]
pub struct Characters<'a>(pub &'a [u8]);

impl<'a> Iterator for Characters<'a> {
    type Item = &'a [u8];

    ghost remaining = { λ s. at_most (length s.0.now) };

    fn next(&mut self) -> Option<&'a [u8]> {
        if self.0.is_empty() {
            return None;
        }
        let (first, others) = self.0.split_at(shown_bytes(self.0).max(1));
        self.0 = others;
        Some(first)
    }
}

// How many columns a character is shown on: four where it is by its number. From U+3000 on one stands on two.
pub fn columns_of(character: &[u8]) -> usize {
    match character {
        _ if shown_bytes(character) == 0 => 4,
        [first, ..] if 226 < *first => 2,
        _ => 1,
    }
}

// A digit of base sixteen.
fn digit_of(number: u8) -> u8
    requires { number < 16 }
{
    if number < 10 {
        b'0' + number
    } else {
        b'a' - 10 + number
    }
}

// A byte by its number, `\x1b`.
pub fn put_code(page: &mut Page, byte: u8) {
    page.put_str("\\x");
    page.put(digit_of(byte / 16));
    page.put(digit_of(byte % 16));
}

// A character, or a byte by its number.
pub fn put_character(page: &mut Page, character: &[u8]) {
    match character {
        [byte, ..] if shown_bytes(character) == 0 => put_code(page, *byte),
        _ => page.put_all(character),
    }
}
