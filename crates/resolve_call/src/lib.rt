// Resolve: a text and a context give the ground text, the covariate effects and the notes.
#![tactic(auto)]

ghost use Rattle.std.specs.Prelude.{◌≡◌, ◌≤◌, length};
ghost use Rattle.tokens.specs.Class.{class_table};
ghost use Rattle.labels.specs.Table.{label_table, keyword_table};
ghost use Rattle.resolving.specs.Handed.{resolve_handed};
ghost use Rattle.resolving.specs.Call.{resolving_call, Leaves, lengths_of, work_after, effect_numbers};
ghost use Rattle.resolve_settling.specs.Answers.{Answers, Packed, resolved_as, effects_in, rooms, lent};
ghost use Rattle.reading_laws.specs.Admitted.{Admitted};
ghost use Rattle.resolve_settling.specs.Attempts.{AttemptAs};

use labels::{Keywords, Labels};
use read_forms::Fault;
use resolve_merging::Bench;
use resolve_settling::Resolved;
use tokens::Classes;

// How many elements the working buffer has to have: as many as there are effects at most.
pub const WORKING: usize = 2048;

// A text with at most so many bytes is short: it is tried first with small buffers, which take less time to make.
pub const SHORT: usize = 1024;

// A buffer of full size, with one value all over. Its contract names its length alone: where it is used, goals would show each of its numbers.
fn filled<T: Copy, const N: usize>(value: T) -> [T; N]
    ensures { length result ≡ N }
{
    [value; N]
}

// The answer of a text, if small buffers have room for it.
fn resolve_short(
    text: &[u8],
    classes: &Classes,
    labels: &Labels,
    keys: &Keywords,
    block: &[u8],
    lists: &[u32],
    ground: &mut [u8],
    room: usize,
    notes: &mut [[u8; 2]],
    work: &mut [u32],
    limit: u32,
) -> Option<Resolved>
    requires { (classes.now ≡ class_table) × (labels.now ≡ label_table) × (keys.now ≡ keyword_table)
        × Admitted limit text.now × (2048 ≤ length work.old) }
    ensures { AttemptAs (resolve_handed limit block.now lists.now text.now)
        ground.old room notes.old
        ground.new notes.new work.new result }
{
    let mut lets = [0; 128];
    let mut dropped = [0; 256];
    let mut made = [0; 2048];
    let tally = match resolve_taking::take_text(
        text,
        classes,
        labels,
        keys,
        block,
        lists,
        limit,
        &mut lets,
        work,
        &mut dropped,
        &mut made,
    )? {
        Ok(tally) => tally,
        Err(refusal) => return Some(Err(refusal)),
    };
    if resolve_settling::FEW_TERMS < tally.terms {
        return None;
    }
    resolve_settling::settle_few(
        block,
        lists,
        labels,
        keys,
        resolve_context::read_layout(lists),
        tally,
        &dropped,
        &mut made,
        ground,
        room,
        notes,
        work,
    )
}

// The answer of any text. All that is made on the way is in buffers of full size, so that the working buffer has to hold the effects alone; none of
// them can be too short, which the other answers would say.
fn resolve_long(
    text: &[u8],
    classes: &Classes,
    labels: &Labels,
    keys: &Keywords,
    block: &[u8],
    lists: &[u32],
    ground: &mut [u8],
    room: usize,
    notes: &mut [[u8; 2]],
    work: &mut [u32],
    limit: u32,
) -> Resolved
    requires { (classes.now ≡ class_table) × (labels.now ≡ label_table) × (keys.now ≡ keyword_table)
        × Admitted limit text.now × (2048 ≤ length work.old) }
    ensures { Answers (resolve_handed limit block.now lists.now text.now)
        ground.old room notes.old
        ground.new notes.new work.new result }
{
    let mut lets: [u32; 1024] = filled(0);
    let mut dropped = [0; 256];
    let mut bench: Bench = filled(0);
    let mut made: [u8; 16384] = filled(0);
    let Some(taken) = resolve_taking::take_text(
        text,
        classes,
        labels,
        keys,
        block,
        lists,
        limit,
        &mut lets,
        &mut bench,
        &mut dropped,
        &mut made,
    ) else {
        return resolve_settling::refuse(Fault::TooLarge, 0);
    };
    let tally = taken?;
    let Some(resolved) = resolve_settling::settle(
        block,
        lists,
        labels,
        keys,
        resolve_context::read_layout(lists),
        tally,
        &dropped,
        &mut made,
        ground,
        room,
        notes,
        &mut bench,
    ) else {
        return resolve_settling::refuse(Fault::TooLarge, 0);
    };
    resolve_outputs::put_first(work, &bench, effect_count(resolved));
    resolved
}

// The answer, with a working buffer that is long enough.
fn resolve_in(
    text: &[u8],
    block: &[u8],
    lists: &[u32],
    ground: &mut [u8],
    room: usize,
    notes: &mut [[u8; 2]],
    work: &mut [u32],
    limit: u32,
) -> Resolved
    requires { 2048 ≤ length work.old }
    ensures { Answers (resolve_handed limit block.now lists.now text.now)
        ground.old room notes.old
        ground.new notes.new work.new result }
{
    read_forms::admit(text, limit)?;
    let classes = tokens::CLASSES;
    let labels = labels::LABELS;
    let keys = labels::KEYWORDS;
    if SHORT < text.len() {
        return resolve_long(
            text, &classes, &labels, &keys, block, lists, ground, room, notes, work, limit,
        );
    }
    match resolve_short(
        text, &classes, &labels, &keys, block, lists, ground, room, notes, work, limit,
    ) {
        Some(resolved) => resolved,
        None => resolve_long(
            text, &classes, &labels, &keys, block, lists, ground, room, notes, work, limit,
        ),
    }
}

// Resolve under a limit for counts, with the effects packed at the start of the working buffer instead of in an output: `room` is how many there
// is room for. A working buffer that is too short is left as it was.
pub fn resolve_packed(
    text: &[u8],
    block: &[u8],
    lists: &[u32],
    ground: &mut [u8],
    room: usize,
    notes: &mut [[u8; 2]],
    work: &mut [u32],
    limit: u32,
) -> Resolved
    ensures result_value { resolved_as result ≡ lengths_of (resolving_call limit block.now lists.now text.now
        (rooms ground.old room notes.old) (length work.old)) }
    ensures packed { Packed (resolving_call limit block.now lists.now text.now
        (rooms ground.old room notes.old) (length work.old))
        ground.old notes.old work.old ground.new notes.new work.new }
{
    if work.len() < WORKING {
        return resolve_settling::refuse(Fault::TooShort, 0);
    }
    resolve_in(text, block, lists, ground, room, notes, work, limit)
}

// How many effects an answer tells of.
pub fn effect_count(resolved: Resolved) -> usize
    ensures { result ≡ effects_in (resolved_as resolved) }
{
    match resolved {
        Ok(n) => n.effects,
        Err(_) => 0,
    }
}

// What a call leaves of its working buffer: zeros, unless it is too short.
pub fn finish(work: &mut [u32])
    ensures { work.new ≡ work_after work.old }
{
    if WORKING <= work.len() {
        resolve_outputs::clear(work);
    }
}

// Resolve under a limit for counts. The working buffer is zero afterwards, whatever comes of it, unless it is too short.
pub fn resolve_under(
    text: &[u8],
    block: &[u8],
    lists: &[u32],
    ground: &mut [u8],
    effects: &mut [[u8; 5]],
    notes: &mut [[u8; 2]],
    work: &mut [u32],
    limit: u32,
) -> Resolved
    ensures { Leaves (resolving_call limit block.now lists.now text.now
        (lent ground.old effects.old notes.old) (length work.old)) (λ a. a) (resolved_as result) effect_numbers
        ground.old ground.new effects.old effects.new
        notes.old notes.new work.old work.new }
{
    let room = effects.len();
    let resolved = resolve_packed(text, block, lists, ground, room, notes, work, limit);
    let count = effect_count(resolved);
    resolve_outputs::put_effects(effects, work, count);
    finish(work);
    resolved
}

// Resolve.
pub fn resolve(
    text: &[u8],
    block: &[u8],
    lists: &[u32],
    ground: &mut [u8],
    effects: &mut [[u8; 5]],
    notes: &mut [[u8; 2]],
    work: &mut [u32],
) -> Resolved
    ensures { Leaves (resolving_call 64 block.now lists.now text.now
        (lent ground.old effects.old notes.old) (length work.old)) (λ a. a) (resolved_as result) effect_numbers
        ground.old ground.new effects.old effects.new
        notes.old notes.new work.old work.new }
{
    resolve_under(text, block, lists, ground, effects, notes, work, 64)
}
