// What the arguments ask for.
ghost use Rattle.std.specs.Prelude.{◌≤◌};

use print_lines::Asked;
use show_input::Ceiling;

// What is asked for, under which ceiling for counts, and the index of the context file's name.
#[derive(Clone, Copy)]
pub struct Wish {
    pub asked: Asked,
    pub ceiling: u32,
    pub first: usize,
}

pub fn usage(rt: &HostRuntime) {
    show_input::tell_bytes(
        rt,
        b"ground: failed: usage: ground [--ceiling N] [--effects | --notes] CONTEXT [FILE]\n  writes the ground text of FILE, or of standard input, in the context of the file CONTEXT; its effects or its notes; or `refused NUMBER PLACE`\n  --ceiling N: the largest count that the text may have, 64 otherwise\n  ground --version: which product and which kit this is\n",
    )
}

// What a first argument asks for; a file's name, which is asked for its ground text, does not start with a hyphen.
fn asked_by(word: &[u8]) -> Option<Asked> {
    if word.eq_ignore_ascii_case(b"--effects") {
        Some(Asked::Effects)
    } else if word.eq_ignore_ascii_case(b"--notes") {
        Some(Asked::Notes)
    } else if word.starts_with(b"-") {
        None
    } else {
        Some(Asked::Ground)
    }
}

// The index of the first file's name, by that of the word that asks: an option stands before it.
fn first_file(asked: Asked, index: usize) -> usize
    requires { index ≤ 3 }
    ensures { result ≤ 4 }
{
    match asked {
        Asked::Ground => index,
        Asked::Effects | Asked::Notes => index + 1,
    }
}

// Whether an argument starts with a hyphen.
fn is_hyphened(rt: &HostRuntime, index: usize, count: usize, name: &mut [u8]) -> bool {
    index < count && show_input::argument_or_empty(rt, index, name).starts_with(b"-")
}

// Whether the names of one or two files follow from an index on.
fn has_files(rt: &HostRuntime, index: usize, count: usize, name: &mut [u8]) -> bool
    requires { index ≤ 4 }
{
    index < count
        && count - index <= 2
        && !is_hyphened(rt, index, count, name)
        && !is_hyphened(rt, index + 1, count, name)
}

// What the arguments behind a ceiling ask for, or nothing where they are not as they should be.
pub fn asked_for(
    rt: &HostRuntime,
    ceiling: Ceiling,
    count: usize,
    name: &mut [u8],
) -> Option<Wish> {
    let index = ceiling.behind;
    if count <= index || 3 < index {
        return None;
    }
    let asked = asked_by(show_input::argument_or_empty(rt, index, name))?;
    let first = first_file(asked, index);
    if !has_files(rt, first, count, name) {
        return None;
    }
    Some(Wish {
        asked,
        ceiling: ceiling.limit,
        first,
    })
}
