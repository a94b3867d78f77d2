// Resolves a search space in the context of a model: reads the context from a file, the text from a file or from standard input, and writes
// the ground text and a newline, or `refused`, the fault's number and its place. A word asks for the effects or for the notes as lines. Where
// the text is refused a person also gets the cause on standard error, and where it is not, the notes. What is written on standard output is made
// by `resolve_lines`, whose contract says it.
#![tactic(auto)]

mod asked;
mod ground_files;

use crate::asked::Wish;
use print_lines::Asked;
use read_forms::{Fault, Refusal};
use show_contexts::context_names::Context;
use show_contexts::{context_file, context_messages};
use show_input::Ceiling;
use show_pages::pages::Page;
use show_refusals::{ground_messages, warnings};

// A context with the file that it was read from, by its name.
#[derive(Clone, Copy)]
struct Given<'a, 'b> {
    path: &'a [u8],
    file: &'a [u8],
    context: Context<'b>,
}

// The message for a person: what is wrong with the context has its file's name before it.
fn explain(
    rt: &HostRuntime,
    buffer: &mut [u8],
    text: &[u8],
    given: Given,
    refusal: Refusal,
    ceiling: u32,
) {
    let mut page = Page::new(buffer);
    page.put_str("ground: ");
    if refusal.fault == Fault::WrongContext {
        page.put_all(given.path);
        page.put_str(": ");
        context_messages::put_wrong(&mut page, given.context, given.file);
    } else {
        ground_messages::put_fault(&mut page, text, given.context, refusal, ceiling);
    }
    show_input::write_message(rt, &page)
}

// What is lawful and yet lost: behind the notes where they are asked for, and for a person otherwise. It stays out of its caller, whose frame would
// hold the tables of the warnings too, on every way.
#[inline(never)]
fn warn(
    rt: &HostRuntime,
    buffer: &mut [u8],
    asked: Asked,
    text: &[u8],
    given: Given,
    effects: &[[u8; 5]],
) {
    let word: &[u8] = match asked {
        Asked::Notes => b"warning: ",
        Asked::Ground | Asked::Effects => b"ground: warning: ",
    };
    let mut page = Page::new(buffer);
    warnings::put_warnings(&mut page, text, given.context, given.file, effects, word);
    match asked {
        Asked::Notes => show_input::write_page(rt, b"ground: ", page.whole()),
        Asked::Ground | Asked::Effects => show_input::write_message(rt, &page),
    }
}

// The answer about a text in a context. The page has room for 2,048 effects and 257 notes in words, which is more than anything else has.
fn answer(rt: &HostRuntime, wish: Wish, text: &[u8], given: Given) {
    let asked = wish.asked;
    let ceiling = wish.ceiling;
    let mut page = [0; 262144];
    let mut ground = io::large_buffer();
    let mut effects = [[0; 5]; 2048];
    let mut notes = [[0; 2]; 512];
    let mut work = [0; 8192];
    let lines = resolve_lines::resolve_lines(
        asked,
        text,
        given.context.block,
        given.context.lists,
        &mut ground,
        &mut effects,
        &mut notes,
        &mut work,
        &mut page,
        ceiling,
    );
    show_input::write_page(rt, b"ground: ", page.get(..lines.count));
    let answer = lines.answer;
    match answer {
        Err(refusal) => explain(rt, &mut page, text, given, refusal, ceiling),
        Ok(n) => {
            ground_files::tell_unasked(rt, asked, &mut page, text, &notes, n.notes);
            let effects = effects.get(..n.effects).unwrap_or(&[]);
            warn(rt, &mut page, asked, text, given, effects)
        }
    }
}

// The answer about a text, where the context's file was read. It stays out of its caller too, which has the buffers of what is read alone.
#[inline(never)]
fn answer_context<'a>(rt: &HostRuntime, wish: Wish, text: &[u8], path: &'a [u8], file: &'a [u8]) {
    let mut block = io::large_buffer();
    let mut run = [0; 66000];
    match context_file::take_context(file, &mut block, &mut run) {
        Ok(taken) => {
            let context = taken.context(&block, &run);
            answer(
                rt,
                wish,
                text,
                Given {
                    path,
                    file,
                    context,
                },
            )
        }
        Err(malformed) => ground_files::tell_malformed(rt, path, file, malformed),
    }
}

// The context's file, whose name is there, and then the text. A file that fills its buffer may go on beyond it. A failure is told where a file
// is read.
fn answer_named(rt: &HostRuntime, wish: Wish, path: &[u8]) {
    let mut name = io::buffer();
    let mut file = io::large_buffer();
    let mut text = io::large_buffer();
    let Ok(file) = show_input::read_file(rt, b"ground: ", path, &mut file) else {
        return;
    };
    let next = wish.first.saturating_add(1);
    let Ok(text) = ground_files::read_text(rt, next, &mut name, &mut text) else {
        return;
    };
    if 65535 < file.len() {
        show_input::tell_failed(rt, b"ground: ");
        show_input::tell_bytes(rt, path);
        show_input::tell_bytes(rt, b": more than 65535 bytes, the most of a context file\n")
    } else {
        answer_context(rt, wish, text, path, file)
    }
}

// What the words behind a ceiling ask for: the name of the context's file is an argument, and the text's may follow.
fn answer_words(rt: &HostRuntime, ceiling: Ceiling, name: &mut [u8]) {
    let count = show_input::argument_count(rt);
    match asked::asked_for(rt, ceiling, count, name) {
        None => asked::usage(rt),
        Some(wish) => {
            if let Ok(path) = show_input::argument(rt, b"ground: ", wish.first, name) {
                answer_named(rt, wish, path)
            }
        }
    }
}

fn main(rt: HostRuntime) {
    let mut name = io::buffer();
    if show_input::is_word(&rt, 1, &mut name, b"--version") {
        return show_input::write_version(&rt, b"ground: ");
    }
    match show_input::ceiling_words(&rt, &mut name) {
        Some(ceiling) => answer_words(&rt, ceiling, &mut name),
        None => asked::usage(&rt),
    }
}
