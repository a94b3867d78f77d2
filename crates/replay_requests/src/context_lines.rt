// `resolve HEX MARKS BLOCK LISTS`, where the lengths of what is lent may follow, `G,E,N,W`; `line-ground`, `line-effects` and `line-notes` with a text
// and a context; and their answers.
use crate::text_lines;
use print_lines::Asked;
use replay_lines::contexts::Run;
use replay_lines::output::Output;
use replay_lines::{contexts, effects, words};

// What is asked of a text in a context: Resolve's answer in words, or what `ground` writes.
#[derive(Clone, Copy)]
pub enum Wanted {
    Words,
    Lines(Asked),
}

// How many bytes of ground text, effects, notes and numbers to work with are lent.
#[derive(Clone, Copy)]
struct Lent {
    ground: usize,
    effects: usize,
    notes: usize,
    work: usize,
}

// The first of a buffer's entries, as many as are asked for and there.
fn lend<T>(buffer: &mut [T], count: usize) -> &mut [T] {
    let n = count.min(buffer.len());
    &mut buffer[..n]
}

fn share<T>(buffer: &[T], count: usize) -> &[T] {
    &buffer[..count.min(buffer.len())]
}

// Resolve with so much of each buffer. Each is longer than its full size, so where it has less than is asked for the answer is the same.
fn answer_lent(
    text: &[u8],
    block: &[u8],
    lists: &[u32],
    ceiling: u32,
    lent: Lent,
    out: &mut Output,
) {
    let mut ground = io::large_buffer();
    let mut effects = [[0; 5]; 4096];
    let mut notes = [[0; 2]; 512];
    let mut work = [0; 8192];
    match resolve_call::resolve_under(
        text,
        block,
        lists,
        lend(&mut ground, lent.ground),
        lend(&mut effects, lent.effects),
        lend(&mut notes, lent.notes),
        lend(&mut work, lent.work),
        ceiling,
    ) {
        Err(r) => out.put_refused(r.fault as usize, r.place),
        Ok(lengths) => {
            effects::put_ground(out, share(&ground, lengths.ground));
            effects::put_entries(out, share(&effects, lengths.effects));
            effects::put_entries(out, share(&notes, lengths.notes));
        }
    }
}

// What is lent, by what stands behind the context: all of full size where nothing does, or four numbers joined by `,` behind a blank.
fn read_lent(line: &[u8]) -> Option<Lent> {
    if line.is_empty() {
        return Some(Lent {
            ground: 16384,
            effects: 2048,
            notes: 257,
            work: resolve_call::WORKING,
        });
    }
    let (ground, rest) = contexts::marked(line, b' ')?;
    let (effects, rest) = contexts::marked(rest, b',')?;
    let (notes, rest) = contexts::marked(rest, b',')?;
    let (work, rest) = contexts::marked(rest, b',')?;
    if !rest.is_empty() {
        return None;
    }
    Some(Lent {
        ground: ground as usize,
        effects: effects as usize,
        notes: notes as usize,
        work: work as usize,
    })
}

// What `ground` writes of a text in a context.
fn answer_written(
    asked: Asked,
    text: &[u8],
    block: &[u8],
    lists: &[u32],
    ceiling: u32,
    out: &mut Output,
) {
    let mut page = [0; 262144];
    let mut ground = io::large_buffer();
    let mut effects = [[0; 5]; 2048];
    let mut notes = [[0; 2]; 512];
    let mut work = [0; 8192];
    let lines = resolve_lines::resolve_lines(
        asked,
        text,
        block,
        lists,
        &mut ground,
        &mut effects,
        &mut notes,
        &mut work,
        &mut page,
        ceiling,
    );
    text_lines::put_written(out, share(&page, lines.count));
}

// The answer about a text in the context that a line begins with. A context of more than 16,384 numbers is none. It is kept out of its
// caller, since LLVM would put the caller's search for a blank before the loop that reserves its large frame, and lose the blank's place there.
#[inline(never)]
fn answer_context(
    wanted: Wanted,
    line: &[u8],
    ceiling: u32,
    text: &[u8],
    out: &mut Output,
) -> Option<()> {
    let mut block = io::large_buffer();
    let mut run = Run::new();
    let (names, rest) = contexts::read_context(line, &mut block, &mut run)?;
    match wanted {
        Wanted::Words => answer_lent(text, names, run.numbers(), ceiling, read_lent(rest)?, out),
        Wanted::Lines(asked) => {
            if !rest.is_empty() {
                return None;
            }
            answer_written(asked, text, names, run.numbers(), ceiling, out);
        }
    }
    Some(())
}

// The answer to a line from its text on. The empty text is `-`.
pub fn answer_resolve(
    wanted: Wanted,
    line: &[u8],
    ceiling: u32,
    text: &mut [u8],
    out: &mut Output,
) -> Option<()> {
    let (word, rest) = words::split_word(line);
    let context = rest?;
    if word.is_empty() {
        return None;
    }
    let text = words::decode_word(word, text)?;
    answer_context(wanted, context, ceiling, text, out)
}
