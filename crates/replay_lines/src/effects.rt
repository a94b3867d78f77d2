// What a text resolves to, in words: the ground text in hex digits, the effects, the notes. One of which there is nothing is `-`.
use crate::output::Output;

// `ok` and the ground text.
pub fn put_ground(out: &mut Output, ground: &[u8]) {
    out.put_all(b"ok ");
    if ground.is_empty() {
        out.put(b'-');
    }
    out.put_hex(ground);
}

// The effects, `P:C:F:O:Q` each, or the notes, `R:I`.
pub fn put_entries<const N: usize>(out: &mut Output, entries: &[[u8; N]]) {
    if entries.is_empty() {
        out.put_all(b" -");
    }
    for (i, entry) in entries.iter().enumerate() {
        out.put(if i == 0 { b' ' } else { b',' });
        for (k, number) in entry.iter().enumerate() {
            if 0 < k {
                out.put(b':');
            }
            out.put_digits(*number as usize);
        }
    }
}
