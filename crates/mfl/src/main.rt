// Reads a search space from a file or from standard input and writes its canonical text and a newline, or `refused`, the fault's number and
// its place. Where it is refused a person also gets the cause on standard error. Nothing is written on standard output before all was read.
// With `--profile` it writes `ok` where the space fits the PK-only profile. What is written is made by `print_answers`, whose contracts say it.
#![tactic(auto)]

use read_forms::{Fault, Refusal};
use show_input::Ceiling;
use show_pages::pages::Page;
use show_texts::{profile_messages, text_messages};

// What is asked about a text.
#[derive(Clone, Copy)]
enum Asked {
    Print,
    Profile,
}

// The message for a person.
fn explain(rt: &HostRuntime, text: &[u8], buffer: &mut [u8], refusal: Refusal, ceiling: u32) {
    let mut page = Page::new(buffer);
    page.put_str("mfl: ");
    match refusal.fault {
        Fault::OutsideProfile | Fault::SecondStatement | Fault::CountAboveTen => {
            profile_messages::put_fault(&mut page, text, refusal);
        }
        _ => text_messages::put_fault(&mut page, text, refusal, ceiling),
    }
    show_input::write_message(rt, &page)
}

fn answer_print(rt: &HostRuntime, text: &[u8], ceiling: u32) {
    let mut page = io::large_buffer();
    let line = print_answers::print_line(
        text,
        &tokens::CLASSES,
        &labels::LABELS,
        &labels::KEYWORDS,
        &mut page,
        ceiling,
    );
    show_input::write_page(rt, b"mfl: ", page.get(..line.count));
    if let Err(refusal) = line.answer {
        explain(rt, text, &mut page, refusal, ceiling);
    }
}

fn answer_profile(rt: &HostRuntime, text: &[u8], ceiling: u32) {
    let mut page = io::large_buffer();
    let line = print_answers::profile_line(text, &mut page, ceiling);
    show_input::write_page(rt, b"mfl: ", page.get(..line.count));
    if let Err(refusal) = line.answer {
        explain(rt, text, &mut page, refusal, ceiling);
    }
}

fn answer(rt: &HostRuntime, asked: Asked, text: &[u8], ceiling: u32) {
    match asked {
        Asked::Print => answer_print(rt, text, ceiling),
        Asked::Profile => answer_profile(rt, text, ceiling),
    }
}

fn usage(rt: &HostRuntime) {
    show_input::tell_bytes(
        rt,
        b"mfl: failed: usage: mfl [--ceiling N] [--profile] [FILE]\n  writes the canonical text of FILE, or of standard input, or `refused NUMBER PLACE`\n  --ceiling N: the largest count that the text may have, 64 otherwise\n  --profile: writes `ok` where the text fits the PK-only profile, or `refused NUMBER PLACE`\n  mfl --version: which product and which kit this is\n",
    )
}

// A file of this name, unless it starts as an option does. A failure is told where the file is read.
fn answer_file(rt: &HostRuntime, asked: Asked, path: &[u8], ceiling: u32, text: &mut [u8]) {
    if path.starts_with(b"-") {
        usage(rt)
    } else if let Ok(text) = show_input::read_file(rt, b"mfl: ", path, text) {
        answer(rt, asked, text, ceiling)
    }
}

// The file that the argument at an index names, or standard input where it is the argument behind the last. More than one is none. The text's
// buffer holds more than the 16,384 bytes that a text may have: an input that is too long is refused, and not cut.
fn answer_named(rt: &HostRuntime, asked: Asked, index: usize, ceiling: u32, name: &mut [u8]) {
    let mut text = io::large_buffer();
    let count = show_input::argument_count(rt);
    if count <= index {
        if let Ok(text) = show_input::read_input(rt, b"mfl: ", &mut text) {
            answer(rt, asked, text, ceiling)
        }
    } else if index < count - 1 {
        usage(rt)
    } else if let Ok(path) = show_input::argument(rt, b"mfl: ", index, name) {
        answer_file(rt, asked, path, ceiling, &mut text)
    }
}

// What the words behind a ceiling ask for.
fn answer_words(rt: &HostRuntime, ceiling: Ceiling, name: &mut [u8]) {
    let index = ceiling.behind;
    if !show_input::is_word(rt, index, name, b"--profile") {
        answer_named(rt, Asked::Print, index, ceiling.limit, name)
    } else if 3 < index {
        usage(rt)
    } else {
        answer_named(rt, Asked::Profile, index + 1, ceiling.limit, name)
    }
}

fn main(rt: HostRuntime) {
    let mut name = io::buffer();
    if show_input::is_word(&rt, 1, &mut name, b"--version") {
        return show_input::write_version(&rt, b"mfl: ");
    }
    match show_input::ceiling_words(&rt, &mut name) {
        Some(ceiling) => answer_words(&rt, ceiling, &mut name),
        None => usage(&rt),
    }
}
