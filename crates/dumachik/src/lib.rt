// The calls for programs in other languages. A slice is a pointer and a length; an answer is one number (`word`).
#![tactic(auto)]

ghost use Rattle.std.specs.Prelude.{◌≡◌, length};
ghost use Rattle.tokens.specs.Lex.{tokens};
ghost use Rattle.tokens.specs.Next.{scanned};
ghost use Rattle.canonical.specs.Print.{print_text, length_of, fitting, output};
ghost use Rattle.canonical.specs.Numbers.{all_numbering};
ghost use Rattle.reading.specs.Calls.{counting};
ghost use Rattle.numbers_statement.specs.Answers.{numbering};
ghost use Rattle.resolving.specs.Call.{resolving_call, Leaves};
ghost use Rattle.resolve_settling.specs.Answers.{lent};
ghost use Rattle.resolve_records.specs.Records.{record_of};
ghost use Rattle.resolve_records.specs.Words.{resolved_word};
ghost use Rattle.profiling.specs.Profile.{profile_text};
ghost use Rattle.dumachik.specs.Scan.{stray_at};
ghost use Rattle.words.specs.Word.{word};
ghost use Rattle.read_profile.specs.Answers.{yes_as_zero};

use resolve_records::{Effect, Resolving};

// The offset of the first byte that starts no token, or the text's length where there is none.
#[unsafe(no_mangle)]
pub extern "C" fn mfl_scan(text: &[u8]) -> usize
    ensures { result ≡ stray_at (length text.now) (scanned (tokens text.now)) }
{
    match tokens::scan_text(text) {
        None => text.len(),
        Some(at) => at,
    }
}

// Count: the number of statements of a text.
#[unsafe(no_mangle)]
pub extern "C" fn mfl_count(text: &[u8], ceiling: u32) -> u64
    ensures { result ≡ word (counting ceiling text.now) }
{
    words::word_of(read_text::count_under(text, ceiling))
}

// Statement: the numbers of the statement at an index in `out`, and how many they are.
#[unsafe(no_mangle)]
pub extern "C" fn mfl_statement(text: &[u8], index: u32, out: &mut [u32], ceiling: u32) -> u64
    ensures value { result ≡ word (length_of (fitting (length out.old) (numbering ceiling text.now index))) }
    ensures out_after { out.new ≡ output (fitting (length out.old) (numbering ceiling text.now index)) out.old }
{
    words::word_of(numbers_statement::numbers_under(text, index, ceiling, out))
}

// Statement of every index at once: the numbers of all statements in `out`, one statement after the other, those of each behind how many they
// are; and how many all are.
#[unsafe(no_mangle)]
pub extern "C" fn mfl_statements(text: &[u8], out: &mut [u32], ceiling: u32) -> u64
    ensures value { result ≡ word (length_of (fitting (length out.old) (all_numbering ceiling text.now))) }
    ensures out_after { out.new ≡ output (fitting (length out.old) (all_numbering ceiling text.now)) out.old }
{
    words::word_of(numbers_all::all_numbers_under(text, ceiling, out))
}

// Print: the canonical text's bytes in `out`, and their number.
#[unsafe(no_mangle)]
pub extern "C" fn mfl_print(text: &[u8], out: &mut [u8], ceiling: u32) -> u64
    ensures value { result ≡ word (length_of (fitting (length out.old) (print_text ceiling text.now))) }
    ensures out_after { out.new ≡ output (fitting (length out.old) (print_text ceiling text.now)) out.old }
{
    words::word_of(print_render::print_under(
        text,
        &tokens::CLASSES,
        &labels::LABELS,
        &labels::KEYWORDS,
        out,
        ceiling,
    ))
}

// The PK-only profile: 0 where a text fits it.
#[unsafe(no_mangle)]
pub extern "C" fn mfl_profile(text: &[u8], ceiling: u32) -> u64
    ensures { result ≡ word (yes_as_zero (profile_text ceiling text.now)) }
{
    read_profile::word_of(read_profile::profile_under(text, ceiling))
}

// Resolve: the ground text in `ground`, the effects in `effects` and the notes in `notes`, and how many each has. The effects come packed at the
// start of the working buffer, and are stored as records before it is cleared.
#[unsafe(no_mangle)]
pub extern "C" fn mfl_resolve(
    text: &[u8],
    block: &[u8],
    lists: &[u32],
    ground: &mut [u8],
    effects: &mut [Effect],
    notes: &mut [[u8; 2]],
    work: &mut [u32],
    ceiling: u32,
) -> u64
    ensures { Leaves (resolving_call ceiling block.now lists.now text.now
        (lent ground.old effects.old notes.old) (length work.old)) resolved_word result record_of
        ground.old ground.new effects.old effects.new
        notes.old notes.new work.old work.new }
{
    record_laws::call::<Resolving>(text, block, lists, ground, effects, notes, work, ceiling)
}
