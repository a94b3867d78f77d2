// A context in a request line, `MARKS BLOCK LISTS`: its name bytes, and its lists as the run of numbers that Resolve takes. Any numbers may stand
// there, so that every damaged context can be asked for.
ghost use Rattle.std.specs.Prelude.{◌≤◌};

use crate::words;

// The numbers of a context: five counts and two marks, and the lists behind them.
#[derive(Drop)]
pub struct Run {
    numbers: [u32; 16384],
    len: usize,
    ghost fits: { len ≤ 16384 },
}

impl Run {
    pub fn new() -> Run {
        Run {
            numbers: [0; 16384],
            len: 7,
        }
    }

    pub fn numbers(&self) -> &[u32] {
        &self.numbers[..self.len]
    }

    // A number behind those that are there, if it finds room.
    fn push(&mut self, number: u32) -> Option<()> {
        if self.len == self.numbers.len() {
            return None;
        }
        self.numbers[self.len] = number;
        self.len += 1;
        Some(())
    }

    // A count or a mark.
    fn set(&mut self, place: usize, number: u32) {
        if place < 7 {
            self.numbers[place] = number;
        }
    }
}

// A number behind a mark.
pub fn marked(line: &[u8], mark: u8) -> Option<(u32, &[u8])> {
    words::small_number(line.strip_prefix(&[mark])?)
}

// A number, behind those that are there.
fn take_number<'a>(line: &'a [u8], run: &mut Run) -> Option<&'a [u8]> {
    let (number, rest) = words::small_number(line)?;
    run.push(number)?;
    Some(rest)
}

fn take_marked<'a>(line: &'a [u8], mark: u8, run: &mut Run) -> Option<&'a [u8]> {
    let (number, rest) = marked(line, mark)?;
    run.push(number)?;
    Some(rest)
}

// An offset and a length, `O+L`.
fn take_pair<'a>(line: &'a [u8], run: &mut Run) -> Option<&'a [u8]> {
    let rest = take_number(line, run)?;
    take_marked(rest, b'+', run)
}

// A binding of a template, `O+L=O+L`, of which the first pair was read: its variable.
fn take_variable<'a>(line: &'a [u8], run: &mut Run) -> Option<&'a [u8]> {
    let rest = take_marked(line, b'=', run)?;
    take_marked(rest, b'+', run)
}

// An entry of a list: a pair, and more of a binding (in the third list) and of a declared covariate, `O+L:K` (in the fourth).
fn take_entry<'a>(line: &'a [u8], list: usize, run: &mut Run) -> Option<&'a [u8]> {
    let rest = take_pair(line, run)?;
    match list {
        2 => take_variable(rest, run),
        3 => take_marked(rest, b':', run),
        _ => Some(rest),
    }
}

// The entries of a list that has some. No line has so many that counting them ends.
fn take_entries<'a>(line: &'a [u8], list: usize, run: &mut Run) -> Option<&'a [u8]> {
    let mut rest = line;
    for count in 1..=1000000 {
        rest = take_entry(rest, list, run)?;
        match rest.strip_prefix(b",") {
            Some(others) => rest = others,
            None => {
                run.set(list, count);
                return Some(rest);
            }
        }
    }
    None
}

// A list and how many entries it has, none where its end is there at once. The first stands behind a blank, each other behind a `/`.
fn take_list<'a>(line: &'a [u8], list: usize, run: &mut Run) -> Option<&'a [u8]> {
    let rest = line.strip_prefix(if list == 0 { b" " } else { b"/" })?;
    match rest {
        [] | [b' ' | b'/', ..] => Some(rest),
        _ => take_entries(rest, list, run),
    }
}

// The five lists.
fn take_lists<'a>(line: &'a [u8], run: &mut Run) -> Option<&'a [u8]> {
    let mut rest = line;
    for list in 0..5 {
        rest = take_list(rest, list, run)?;
    }
    Some(rest)
}

// A mark, 0 or 1.
fn mark(byte: u8) -> Option<u32> {
    match byte {
        b'0' => Some(0),
        b'1' => Some(1),
        _ => None,
    }
}

// The context that a line begins with: its name bytes, the run of its lists, and what stands behind it.
pub fn read_context<'a, 'b>(
    line: &'a [u8],
    block: &'b mut [u8],
    run: &mut Run,
) -> Option<(&'b [u8], &'a [u8])> {
    let [first, second, b' ', rest @ ..] = line else {
        return None;
    };
    run.set(5, mark(*first)?);
    run.set(6, mark(*second)?);
    let end = rest.iter().position(|byte| *byte == b' ')?;
    if end == 0 {
        return None;
    }
    let names = words::decode_word(&rest[..end], block)?;
    let behind = take_lists(&rest[end..], run)?;
    Some((names, behind))
}
