// Bytes, or elements of any type, written into the caller's buffer. Two places write, and only where the buffer has room: `put` tests it for its one,
// and `copy_all` is called where it was tested for all of a slice. On a buffer with no room the same calls tell how long an answer is.
// The buffer and the index travel apart. Tried as a struct over the lent buffer: each method would also have to promise that the same buffer is lent
// still, or its caller knows nothing of what stands there in the end, and a byte put would load and store the index.
#![tactic(auto)]

ghost use Rattle.std.specs.Prelude.{◌+◌, ◌≤◌, ◌≡◌, [], ◌∷◌, length};
ghost use Rattle.counts.specs.Decimal.{digits_of};
ghost use Rattle.print_writing.specs.Written.{patch, Room, Written};

// One element, and the index behind it.
pub fn put<T: Copy>(out: &mut [T], at: usize, item: T) -> usize
    requires { Room at (item ∷ []) }
    ensures { Written out.old at (item ∷ []) out.new result }
{
    let next = at + 1;
    if at < out.len() {
        out[at] = item;
    }
    next
}

// All elements of a slice into a buffer that has room for them. No `copy_from_slice`: it needs memmove of another library, and the library that C calls
// needs memcpy and memset alone (include/dumachik.h).
fn copy_all<T: Copy>(out: &mut [T], at: usize, items: &[T])
    requires { at + length items.now ≤ length out.old }
    ensures { out.new ≡ patch at out.old items.now }
{
    for (i, item) in items.iter().enumerate() {
        out[at + i] = *item;
    }
}

// The elements of a slice one by one, as far as there is room, and the index behind them all.
fn put_each<T: Copy>(out: &mut [T], at: usize, items: &[T]) -> usize
    requires { Room at items.now }
    ensures { Written out.old at items.now out.new result }
{
    let mut next = at;
    for item in items {
        next = put(out, next, *item);
    }
    next
}

// All elements of a slice, and the index behind them. Most often there is room for all, so the room is tested once and not for every element.
pub fn put_all<T: Copy>(out: &mut [T], at: usize, items: &[T]) -> usize
    requires { Room at items.now }
    ensures { Written out.old at items.now out.new result }
{
    let end = at + items.len();
    if end <= out.len() {
        copy_all(out, at, items);
        return end;
    }
    put_each(out, at, items)
}

// A number in decimal, the tens before the last digit, and the index behind it.
pub fn put_number(out: &mut [u8], at: usize, n: usize) -> usize
    requires { Room at (digits_of n) }
    ensures { Written out.old at (digits_of n) out.new result }
{
    if n < 10 {
        return put(out, at, b'0' + n as u8);
    }
    let next = put_number(out, at, n / 10);
    put(out, next, b'0' + (n % 10) as u8)
}
