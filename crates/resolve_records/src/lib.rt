// Resolve with its effects as records: a lent slice of structs at the edge, over the call that leaves them packed. A function that has such a slice
// calls a law of `record_laws`; all work is in functions over numbers.
#![tactic(auto)]

ghost use Rattle.std.specs.Prelude.{◌≡◌, ◌++◌, map, ◌≤◌, length, drop};
ghost use Rattle.resolving.specs.Resolve.{ground_text};
ghost use Rattle.resolving.specs.Call.{resolving_call, lengths_of, output_of, work_after, note_numbers};
ghost use Rattle.resolve_settling.specs.Answers.{Packed, resolved_as, lengths_as, rooms, lent};
ghost use Rattle.resolve_records.specs.Records.{record_of, unpacked};
ghost use Rattle.resolve_records.specs.Words.{lengths_word, resolved_word, effects_told, Small};
ghost use Rattle.resolve_records.specs.Stored.{work_says, answer_of, ground_of, effects_of, notes_of, work_of};

use record_laws::{PackedCall, Packing, Unpacks};
use resolve_settling::{Lengths, Resolved};

// An effect: its parameter and its covariate, each the index of its name's first entry in its list, its form by its place in the family, its
// operator (0 `*`, 1 `+`), and whether it is optional (0 or 1).
#[repr(C)]
#[derive(Clone, Copy)]
pub struct Effect {
    pub parameter: u8,
    pub covariate: u8,
    pub form: u8,
    pub operator: u8,
    pub optional: u8,
}

// Effects that are packed, each in one number.
pub struct Effects;

impl Packing for Effects {
    type Record = Effect;

    ghost unpack = { unpacked };

    fn unpacked(n: u32) -> Effect {
        Effect {
            parameter: (n / 2048 % 64) as u8,
            covariate: (n / 32 % 64) as u8,
            form: (n / 4 % 8) as u8,
            operator: (n / 2 % 2) as u8,
            optional: (n % 2) as u8,
        }
    }
}

// An effect says by itself that it is packed so.
impl Unpacks for Effect {
    ghost unpack = { unpacked };

    fn unpacked(n: u32) -> Effect {
        Effects::unpacked(n)
    }
}

// The effects of a packed run; those behind them are left as they were.
pub fn store_effects(effects: &mut [Effect], packed: &[u32])
    requires { length packed.now ≤ length effects.old }
    ensures { effects.new ≡ map unpacked packed.now ++ drop (length packed.now) effects.old }
{
    record_laws::store_by::<Effects>(effects, packed);
}

fn lengths_word(n: Lengths) -> u64
    requires { (n.ground ≤ 16384) × ((n.effects ≤ 2048) × (n.notes ≤ 257)) }
    ensures { result ≡ lengths_word (lengths_as n) }
{
    n.ground as u64 + n.effects as u64 * 65536 + n.notes as u64 * 1099511627776
}

// An answer as one number.
fn resolved_word(resolved: Resolved) -> u64
    requires { Small (resolved_as resolved) }
    ensures { result ≡ resolved_word (resolved_as resolved) }
{
    match resolved {
        Ok(n) => lengths_word(n),
        Err(refusal) => words::refusal_word(refusal),
    }
}

// How many effects such a number tells of.
pub fn effects_told(word: u64) -> usize
    ensures { result ≡ effects_told word }
{
    (word / 65536 % 65536) as usize
}

// Resolve, its answer as one number and its effects packed at the start of the working buffer.
pub fn resolve_word(
    text: &[u8],
    block: &[u8],
    lists: &[u32],
    ground: &mut [u8],
    room: usize,
    notes: &mut [[u8; 2]],
    work: &mut [u32],
    limit: u32,
) -> u64
    ensures { (result ≡ resolved_word (lengths_of (resolving_call limit block.now lists.now text.now
        (rooms ground.old room notes.old) (length work.old))))
        × Packed (resolving_call limit block.now lists.now text.now
        (rooms ground.old room notes.old) (length work.old))
        ground.old notes.old work.old ground.new notes.new work.new }
{
    let resolved = resolve_call::resolve_packed(
        text, block, lists, ground, room, notes, work, limit,
    );
    resolved_word(resolved)
}

// Resolve as a call whose work leaves its records packed.
pub struct Resolving;

impl PackedCall for Resolving {
    type First = u8;

    type Second = u8;

    type Third = u32;

    type Output = u8;

    type Record = Effect;

    type Note = [u8; 2];

    ghost unpack = { unpacked };

    ghost counted = { effects_told };

    ghost finished = { work_after };

    ghost says = { work_says };

    ghost answer_of = { answer_of };

    ghost output_of = { ground_of };

    ghost records_of = { effects_of };

    ghost notes_of = { notes_of };

    ghost work_of = { work_of };

    fn pack(
        text: &[u8],
        block: &[u8],
        lists: &[u32],
        ground: &mut [u8],
        room: usize,
        notes: &mut [[u8; 2]],
        work: &mut [u32],
        limit: u32,
    ) -> u64 {
        resolve_word(text, block, lists, ground, room, notes, work, limit)
    }

    fn count(word: u64) -> usize {
        effects_told(word)
    }

    fn store(effects: &mut [Effect], packed: &[u32]) {
        store_effects(effects, packed);
    }

    fn finish(work: &mut [u32]) {
        resolve_call::finish(work);
    }
}

#[cfg(test)]
mod tests {
    use super::*;

    // An effect is stored by its own packing as by that beside it: parameter 1, covariate 2, form 3, `+`, and not optional.
    #[test]
    fn effects_are_stored_by_their_own_packing(rt: HostRuntime) {
        let mut effects = [Effect::unpacked(0); 2];
        record_laws::store(&mut effects, &[2048 + 64 + 12 + 2]);
        assert_eq!(rt; effects[0].parameter, 1);
        assert_eq!(rt; effects[0].covariate, 2);
        assert_eq!(rt; effects[0].form, 3);
        assert_eq!(rt; effects[0].operator, 1);
        assert_eq!(rt; effects[0].optional, 0);
        assert_eq!(rt; effects[1].parameter, 0);
    }
}
