// Laws of functions over a lent slice of records, for any record. Each is a generic function that is proved once: a function of its shape, in a crate
// that knows its record, is a call of it, and has what it says.
#![tactic(auto)]

ghost use Rattle.std.specs.Prelude.{◌≡◌, ℕ, List, ◌++◌, map, ◌≤◌, ◌/◌, ◌%◌, length, drop};
ghost use Rattle.std.specs.Fn.{FnOnceReturnsAt, FnOnceReturnsAtMut};
ghost use Rattle.record_laws.specs.Call.{Of, Says, Enough};

use std::marker::PhantomData;

// Records that can be packed, each in one number.
pub trait Unpacks: Copy {
    // What a packed number stands for.
    ghost unpack: { ℕ → Self };

    fn unpacked(packed: u32) -> Self
        ensures { result ≡ unpack packed };
}

// How records are packed, each in one number. It is no trait of the record, which may be a type of another crate, or packed in several ways.
pub trait Packing {
    type Record: Copy;

    // What a packed number stands for.
    ghost unpack: { ℕ → Self.Record };

    fn unpacked(packed: u32) -> Self::Record
        ensures { result ≡ unpack packed };
}

// The packing that records say of themselves.
struct OwnPacking<R>(PhantomData<R>);

impl<R: Unpacks> Packing for OwnPacking<R> {
    type Record = R;

    ghost unpack = { R.unpack };

    fn unpacked(packed: u32) -> R {
        R::unpacked(packed)
    }
}

// The records of a packed run, by any packing; those behind them are left as they were.
pub fn store_by<U: Packing>(records: &mut [U::Record], packed: &[u32])
    requires { length packed.now ≤ length records.old }
    ensures { records.new ≡ map U.unpack packed.now ++ drop (length packed.now) records.old }
{
    for (i, number) in packed.iter().enumerate() {
        records[i] = U::unpacked(*number);
    }
}

// The records of a packed run, by their own packing.
pub fn store<R: Unpacks>(records: &mut [R], packed: &[u32])
    requires { length packed.now ≤ length records.old }
    ensures { records.new ≡ map R.unpack packed.now ++ drop (length packed.now) records.old }
{
    store_by::<OwnPacking<R>>(records, packed);
}

// A slice that is lent on for a call comes back with what the call left in it.
pub fn lend<R, X, F: FnOnce(&mut [R]) -> X>(records: &mut [R], f: F) -> X
    requires { (s : _) → s.now ≡ records.old → F.pre f s }
    ensures { FnOnceReturnsAtMut F.FnOnce f records.old result records.new }
{
    f(records)
}

// A slice that is lent on for a call that only reads it comes back as it was.
pub fn share<R, X, F: FnOnce(&[R]) -> X>(records: &mut [R], f: F) -> X
    requires { (s : _) → s.now ≡ records.old → F.pre f s }
    ensures told { FnOnceReturnsAt F.FnOnce f records.old result }
    ensures kept { records.new ≡ records.old }
{
    f(records)
}

// A call whose work leaves its records packed at the start of a working buffer: what it is handed, the functions that it consists of, and what
// it answers and leaves.
pub trait PackedCall {
    // The types of the elements: of the three slices that are read, and of the output, the records and the notes.
    type First;

    type Second;

    type Third;

    type Output;

    type Record;

    type Note;

    // What a packed number stands for, how many records a word tells of, and what is left of the working buffer.
    ghost unpack: { ℕ → Self.Record };

    ghost counted: { ℕ → ℕ };

    ghost finished: { List ℕ → List ℕ };

    // What the work says of its answer, and of the output, the notes and the working buffer that it leaves.
    ghost says: { Says Self.First Self.Second Self.Third Self.Output Self.Note };

    // What the call answers, and what it leaves in each buffer.
    ghost answer_of: { Of Self.First Self.Second Self.Third Self.Output Self.Record Self.Note ℕ };

    ghost output_of: { Of Self.First Self.Second Self.Third Self.Output Self.Record Self.Note (List Self.Output) };

    ghost records_of: { Of Self.First Self.Second Self.Third Self.Output Self.Record Self.Note (List Self.Record) };

    ghost notes_of: { Of Self.First Self.Second Self.Third Self.Output Self.Record Self.Note (List Self.Note) };

    ghost work_of: { Of Self.First Self.Second Self.Third Self.Output Self.Record Self.Note (List ℕ) };

    fn pack(
        a: &[Self::First],
        b: &[Self::Second],
        c: &[Self::Third],
        output: &mut [Self::Output],
        room: usize,
        notes: &mut [Self::Note],
        work: &mut [u32],
        limit: u32,
    ) -> u64
        ensures { says a.now b.now c.now output.old room notes.old work.old limit
            result output.new notes.new work.new };

    fn count(word: u64) -> usize
        ensures { result ≡ counted word };

    fn store(records: &mut [Self::Record], packed: &[u32])
        requires { length packed.now ≤ length records.old }
        ensures { records.new ≡ map unpack packed.now ++ drop (length packed.now) records.old };

    fn finish(work: &mut [u32])
        ensures { work.new ≡ finished work.old };
}

// Such a call: its work, then as many records stored as its word tells of, then the working buffer finished, and the word. What the work says has to
// be enough for what the call says.
pub fn call<C: PackedCall>(
    a: &[C::First],
    b: &[C::Second],
    c: &[C::Third],
    output: &mut [C::Output],
    records: &mut [C::Record],
    notes: &mut [C::Note],
    work: &mut [u32],
    limit: u32,
) -> u64
    requires { Enough C.unpack C.counted C.finished C.answer_of C.output_of C.records_of C.notes_of C.work_of C.says }
    ensures told { result ≡ C.answer_of a.now b.now c.now output.old records.old notes.old work.old limit }
    ensures output_after { output.new ≡ C.output_of a.now b.now c.now output.old records.old notes.old work.old limit }
    ensures records_after { records.new ≡ C.records_of a.now b.now c.now output.old records.old notes.old work.old limit }
    ensures notes_after { notes.new ≡ C.notes_of a.now b.now c.now output.old records.old notes.old work.old limit }
    ensures work_after { work.new ≡ C.work_of a.now b.now c.now output.old records.old notes.old work.old limit }
{
    let room = records.len();
    let word = C::pack(a, b, c, output, room, notes, work, limit);
    let n = C::count(word);
    C::store(records, &work[..n]);
    C::finish(work);
    word
}

#[cfg(test)]
mod tests {
    use super::*;

    #[derive(Clone, Copy)]
    struct Pair {
        left: u8,
        right: u8,
    }

    // A byte is no type of this crate, and a number may have two of them: what is packed, and how, is said by a type beside the record.
    struct Low;

    impl Packing for Low {
        type Record = u8;

        ghost unpack = { λ n. n % 256 };

        fn unpacked(n: u32) -> u8 {
            (n % 256) as u8
        }
    }

    struct High;

    impl Packing for High {
        type Record = u8;

        ghost unpack = { λ n. n / 256 % 256 };

        fn unpacked(n: u32) -> u8 {
            (n / 256 % 256) as u8
        }
    }

    #[test]
    fn any_record_is_stored_by_any_packing(rt: HostRuntime) {
        let mut bytes = [9; 3];
        store_by::<Low>(&mut bytes, &[513, 7]);
        assert_eq!(rt; bytes, [1, 7, 9]);
        store_by::<High>(&mut bytes, &[513]);
        assert_eq!(rt; bytes, [2, 7, 9]);
    }

    // A type of this crate says by itself how it is packed, and its records are stored by that, with no other name.
    impl Unpacks for Pair {
        ghost unpack = { λ n. record { left = n % 256; right = n / 256 % 256 } };

        fn unpacked(n: u32) -> Pair {
            Pair {
                left: (n % 256) as u8,
                right: (n / 256 % 256) as u8,
            }
        }
    }

    #[test]
    fn records_are_stored_by_their_own_packing(rt: HostRuntime) {
        let mut pairs = [Pair { left: 1, right: 2 }; 3];
        store(&mut pairs, &[513, 7]);
        assert_eq!(rt; pairs[0].left, 1);
        assert_eq!(rt; pairs[0].right, 2);
        assert_eq!(rt; pairs[1].left, 7);
        assert_eq!(rt; pairs[1].right, 0);
        assert_eq!(rt; pairs[2].right, 2);
    }

    // One record is written where the slice is lent, and read where it is shared.
    #[test]
    fn a_lent_slice_comes_back(rt: HostRuntime) {
        let mut pairs = [Pair { left: 1, right: 2 }; 3];
        lend(&mut pairs, |s| s[1] = Pair { left: 7, right: 9 });
        let (left, right) = share(&mut pairs, |s| (s[1].left, s[1].right));
        assert_eq!(rt; left, 7);
        assert_eq!(rt; right, 9);
        assert_eq!(rt; pairs[0].left, 1);
    }
}
