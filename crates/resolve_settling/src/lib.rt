// What is merged, grounded and put out: the last part of Resolve, where all that the statements bring is there.
#![tactic(auto)]

ghost use Rattle.std.specs.Prelude.{◌≡◌, ◌+◌, ◌≤◌, length};
ghost use Rattle.labels.specs.Table.{label_table, keyword_table};
ghost use Rattle.reading.specs.Answer.{refused};
ghost use Rattle.resolving.specs.Resolve as definition;
ghost use Rattle.resolving.specs.Handed.{handed_context};
ghost use Rattle.resolve_context.specs.Lists.{Stands};
ghost use Rattle.resolve_outputs.specs.Entries.{additive_note};
ghost use Rattle.read_forms.specs.Faults.{number_of};
ghost use Rattle.resolve_settling.specs.Answers.{resolved_as};
ghost use Rattle.resolve_settling.specs.Stages.{grounded};
ghost use Rattle.resolve_settling.specs.Attempts.{StaysWritten, EffectsGrouped, AttemptAs, Roomy};

use labels::{Keywords, Labels};
use read_forms::{Fault, Refusal};
use resolve_context::Layout;
use resolve_merging::Bench;
use resolve_statements::Tally;

// How many bytes the ground text has, and how many effects and notes there are.
#[derive(Clone, Copy)]
pub struct Lengths {
    pub ground: usize,
    pub effects: usize,
    pub notes: usize,
}

// The three lengths, or why the text is refused.
pub type Resolved = Result<Lengths, Refusal>;

pub fn refuse(fault: Fault, place: usize) -> Resolved
    ensures { resolved_as result ≡ refused (number_of fault) place }
{
    Err(Refusal { fault, place })
}

// How many notes there are: one for each statement that is dropped, and one if some effect is additive.
fn note_count(dropped: usize, additive: bool) -> usize
    requires { dropped ≤ 256 }
    ensures { result ≡ dropped + length (additive_note additive) }
{
    if additive {
        return dropped + 1;
    }
    dropped
}

// The answer of grouped effects, where what stays stands in `made` already: the groups are written behind it, and all is put out if there is room. None,
// where it needs more room here than there is: the way with full sizes then answers.
fn put_made(
    block: &[u8],
    lists: &[u32],
    labels: &Labels,
    keys: &Keywords,
    layout: Layout,
    tally: Tally,
    dropped: &[u8],
    count: usize,
    groups: usize,
    made: &mut [u8],
    ground: &mut [u8],
    room: usize,
    notes: &mut [[u8; 2]],
    work: &[u32],
    listed: &[u32],
) -> Option<Resolved>
    requires { (labels.now ≡ label_table) × (keys.now ≡ keyword_table) × Stands block.now lists.now layout
        × EffectsGrouped (handed_context block.now lists.now) tally dropped.now work.now listed.now count groups made.old }
    ensures { ((g : EffectsGrouped (handed_context block.now lists.now) tally dropped.now work.now
        listed.now count groups made.old)
        → AttemptAs (grounded (handed_context block.now lists.now) g.what) ground.old room notes.old
        ground.new notes.new work.now result) × Roomy made.old result }
{
    if 256 < tally.stays + groups {
        return Some(refuse(Fault::TooLarge, 0));
    }
    let end = resolve_groups::put_groups(
        block,
        lists,
        labels,
        keys,
        layout,
        work,
        listed,
        count,
        groups,
        tally.stays,
        made,
        tally.ground,
    );
    if 16384 < end {
        return Some(refuse(Fault::TooLarge, 0));
    }
    if made.len() < end {
        return None;
    }
    let additive = resolve_merging::additive(work, count);
    let remarks = note_count(tally.dropped, additive);
    if ground.len() < end {
        return Some(refuse(Fault::TooShort, 0));
    }
    if room < count {
        return Some(refuse(Fault::TooShort, 0));
    }
    if notes.len() < remarks {
        return Some(refuse(Fault::TooShort, 0));
    }
    resolve_outputs::put_first(ground, made, end);
    resolve_outputs::put_notes(notes, dropped, tally.dropped, additive);
    Some(Ok(Lengths {
        ground: end,
        effects: count,
        notes: remarks,
    }))
}

// Up to some 30 terms, scans take less time than the table of `resolve_merging` does. (`resolve_merging_few` can do 64.)
pub const FEW_TERMS: usize = 32;

// The answer of what the statements bring, where that is few terms: they are merged and grouped by scans.
pub fn settle_few(
    block: &[u8],
    lists: &[u32],
    labels: &Labels,
    keys: &Keywords,
    layout: Layout,
    tally: Tally,
    dropped: &[u8],
    made: &mut [u8],
    ground: &mut [u8],
    room: usize,
    notes: &mut [[u8; 2]],
    work: &mut [u32],
) -> Option<Resolved>
    requires { (labels.now ≡ label_table) × (keys.now ≡ keyword_table) × Stands block.now lists.now layout
        × StaysWritten (handed_context block.now lists.now) tally dropped.now work.old made.old × (2048 ≤ length work.old)
        × (tally.terms ≤ 32) }
    ensures { ((b : StaysWritten (handed_context block.now lists.now) tally dropped.now work.old
        made.old)
        → AttemptAs (definition.merge_and_ground (handed_context block.now lists.now) b.there.what) ground.old room
        notes.old ground.new notes.new work.new result) × Roomy made.old result }
{
    let mut listed = [0; 128];
    match resolve_merging_few::settle_few(work, tally.terms, &mut listed) {
        Err(again) => Some(refuse(Fault::ForcedTwice, again.statement as usize)),
        Ok(united) => put_made(
            block,
            lists,
            labels,
            keys,
            layout,
            tally,
            dropped,
            united.effects,
            united.groups,
            made,
            ground,
            room,
            notes,
            work,
            &listed,
        ),
    }
}

// The same for any number of terms: they stand on a bench that has room behind them for the table and the groups of `resolve_merging`.
fn settle_many(
    block: &[u8],
    lists: &[u32],
    labels: &Labels,
    keys: &Keywords,
    layout: Layout,
    tally: Tally,
    dropped: &[u8],
    made: &mut [u8],
    ground: &mut [u8],
    room: usize,
    notes: &mut [[u8; 2]],
    bench: &mut Bench,
) -> Option<Resolved>
    requires { (labels.now ≡ label_table) × (keys.now ≡ keyword_table) × Stands block.now lists.now layout
        × StaysWritten (handed_context block.now lists.now) tally dropped.now bench.old made.old }
    ensures { ((b : StaysWritten (handed_context block.now lists.now) tally dropped.now bench.old
        made.old)
        → AttemptAs (definition.merge_and_ground (handed_context block.now lists.now) b.there.what) ground.old room
        notes.old ground.new notes.new bench.new result) × Roomy made.old result }
{
    if resolve_merging::TERMS < tally.terms {
        return Some(refuse(Fault::TooLarge, 0));
    }
    let count = match resolve_merging::settle(bench, tally.terms) {
        Ok(count) => count,
        Err(again) => {
            return Some(refuse(Fault::ForcedTwice, again.statement as usize));
        }
    };
    let Some(groups) = resolve_merging::group(bench, count) else {
        return Some(refuse(Fault::TooLarge, 0));
    };
    let work = &bench[..];
    put_made(
        block,
        lists,
        labels,
        keys,
        layout,
        tally,
        dropped,
        count,
        groups,
        made,
        ground,
        room,
        notes,
        work,
        &work[resolve_merging::GROUPS..],
    )
}

// The answer of what the statements bring: which way they are merged goes by their number alone.
pub fn settle(
    block: &[u8],
    lists: &[u32],
    labels: &Labels,
    keys: &Keywords,
    layout: Layout,
    tally: Tally,
    dropped: &[u8],
    made: &mut [u8],
    ground: &mut [u8],
    room: usize,
    notes: &mut [[u8; 2]],
    bench: &mut Bench,
) -> Option<Resolved>
    requires { (labels.now ≡ label_table) × (keys.now ≡ keyword_table) × Stands block.now lists.now layout
        × StaysWritten (handed_context block.now lists.now) tally dropped.now bench.old made.old }
    ensures { ((b : StaysWritten (handed_context block.now lists.now) tally dropped.now bench.old
        made.old)
        → AttemptAs (definition.merge_and_ground (handed_context block.now lists.now) b.there.what) ground.old room
        notes.old ground.new notes.new bench.new result) × Roomy made.old result }
{
    if FEW_TERMS < tally.terms {
        return settle_many(
            block, lists, labels, keys, layout, tally, dropped, made, ground, room, notes, bench,
        );
    }
    settle_few(
        block, lists, labels, keys, layout, tally, dropped, made, ground, room, notes, bench,
    )
}
