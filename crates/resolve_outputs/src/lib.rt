// What Resolve writes: a ground text that was made elsewhere, effects and notes; and into the working buffer packed effects that were made elsewhere,
// and zeros.
#![tactic(auto)]

ghost use Rattle.std.specs.Prelude.{◌≡◌, cond, [], ◌∷◌, ◌++◌, map, ◌+◌, ◌≤◌, ◌<◌, length, take, drop, replicate, set};
ghost use Rattle.resolving.specs.Call.{effect_numbers};
ghost use Rattle.resolve_merging.specs.Packing.{effect_of};
ghost use Rattle.resolve_outputs.specs.Entries.{dropped_at, additive_note};

// The five numbers of an effect.
fn effect_numbers(packed: u32) -> [u8; 5]
    ensures { result ≡ effect_numbers (effect_of packed) }
{
    [
        (packed / 2048 % 64) as u8,
        (packed / 32 % 64) as u8,
        (packed / 4 % 8) as u8,
        (packed / 2 % 2) as u8,
        (packed % 2) as u8,
    ]
}

// The first so many effects of a packed run.
pub fn put_effects(effects: &mut [[u8; 5]], work: &[u32], count: usize)
    requires { (count ≤ length effects.old) × (count ≤ length work.now) }
    ensures { effects.new ≡ map effect_numbers (map effect_of (take count work.now)) ++ drop count effects.old }
{
    for i in 0..count {
        effects[i] = effect_numbers(work[i]);
    }
}

// A note for each statement that is dropped.
fn put_dropped(notes: &mut [[u8; 2]], dropped: &[u8], count: usize)
    requires { (count ≤ length notes.old) × (count ≤ length dropped.now) }
    ensures { notes.new ≡ map dropped_at (take count dropped.now) ++ drop count notes.old }
{
    for i in 0..count {
        notes[i] = [0, dropped[i]];
    }
}

// The note that some effect is additive, if one is.
fn put_additive(notes: &mut [[u8; 2]], at: usize, additive: bool)
    requires { at + length (additive_note additive) ≤ length notes.old }
    ensures { notes.new ≡ cond additive (set notes.old at (1 ∷ 0 ∷ [])) notes.old }
{
    if additive {
        notes[at] = [1, 0];
    }
}

// The notes: those of dropped statements, and last that some effect is additive.
pub fn put_notes(notes: &mut [[u8; 2]], dropped: &[u8], count: usize, additive: bool)
    requires { (count + length (additive_note additive) ≤ length notes.old) × (count ≤ length dropped.now) }
    ensures { notes.new ≡ (map dropped_at (take count dropped.now) ++ additive_note additive)
        ++ drop (count + length (additive_note additive)) notes.old }
{
    put_dropped(notes, dropped, count);
    put_additive(notes, count, additive);
}

// The first so many elements of what was made elsewhere: bytes of a text, or packed effects as they are. No `copy_from_slice`: it needs memmove, and
// the library that C calls needs memcpy and memset alone (include/dumachik.h).
pub fn put_first<T: Copy>(out: &mut [T], made: &[T], count: usize)
    requires { (count ≤ length out.old) × (count ≤ length made.now) }
    ensures { out.new ≡ take count made.now ++ drop count out.old }
{
    for i in 0..count {
        out[i] = made[i];
    }
}

// Zeros all over a buffer.
pub fn clear(work: &mut [u32])
    ensures { work.new ≡ replicate (length work.old) 0 }
{
    work.fill(0);
}
