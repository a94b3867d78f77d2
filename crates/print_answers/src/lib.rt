// What `mfl` writes of a text, put into its page from the start on. What the page has no room for is counted and not written, so that the
// program can tell it.
#![tactic(auto)]

ghost use Rattle.std.specs.Prelude.{◌≡◌, ◌≤◌, length};
ghost use Rattle.tokens.specs.Class.{class_table};
ghost use Rattle.labels.specs.Table.{label_table, keyword_table};
ghost use Rattle.canonical.specs.Print.{print_text, length_of};
ghost use Rattle.profiling.specs.Profile.{profile_text};
ghost use Rattle.print_writing.specs.Written.{Written};
ghost use Rattle.read_forms.specs.Faults.{answered, same};
ghost use Rattle.read_profile.specs.Answers.{profiled_as};
ghost use Rattle.lines.specs.Line.{print_line, profile_line};

use labels::{Keywords, Labels};
use read_forms::Refusal;
use tokens::Classes;

// How many bytes there are to write, and what Print answered.
#[derive(Clone, Copy)]
pub struct PrintedLine {
    pub count: usize,
    pub answer: Result<usize, Refusal>,
}

// How many bytes there are to write, and what the profile says.
#[derive(Clone, Copy)]
pub struct ProfiledLine {
    pub count: usize,
    pub answer: Result<(), Refusal>,
}

// The canonical text and a newline, or a refusal's line. No canonical text is longer than 16,384 bytes.
pub fn print_line(
    text: &[u8],
    classes: &Classes,
    labels: &Labels,
    keys: &Keywords,
    page: &mut [u8],
    limit: u32,
) -> PrintedLine
    requires { (classes.now ≡ class_table) × (labels.now ≡ label_table) × (keys.now ≡ keyword_table) × (16384 ≤ length page.old) }
    ensures written { Written page.old 0 (print_line limit text.now) page.new result.count }
    ensures answer_value { answered same result.answer ≡ length_of (print_text limit text.now) }
{
    match print_render::print_under(text, classes, labels, keys, page, limit) {
        Ok(length) => PrintedLine {
            count: print_writing::put(page, length, b'\n'),
            answer: Ok(length),
        },
        Err(refusal) => PrintedLine {
            count: print_lines::put_refused(page, refusal),
            answer: Err(refusal),
        },
    }
}

// `ok` and a newline where the text fits the profile, or a refusal's line.
pub fn profile_line(text: &[u8], page: &mut [u8], limit: u32) -> ProfiledLine
    ensures written { Written page.old 0 (profile_line limit text.now) page.new result.count }
    ensures answer_value { profiled_as result.answer ≡ profile_text limit text.now }
{
    match read_profile::profile_under(text, limit) {
        Ok(()) => ProfiledLine {
            count: print_writing::put_all(page, 0, b"ok\n"),
            answer: Ok(()),
        },
        Err(refusal) => ProfiledLine {
            count: print_lines::put_refused(page, refusal),
            answer: Err(refusal),
        },
    }
}
