// What `ground` writes of a text in a context, put into its page from the start on. What the page has no room for is counted and not written,
// so that the program can tell it.
#![tactic(auto)]

ghost use Rattle.std.specs.Prelude.{◌≡◌, length};
ghost use Rattle.resolving.specs.Handed.{handed_context};
ghost use Rattle.resolving.specs.Call.{resolving_call, Leaves, effect_numbers};
ghost use Rattle.resolve_settling.specs.Answers.{resolved_as, lent};
ghost use Rattle.print_writing.specs.Written.{Written};
ghost use Rattle.lines.specs.Ground.{ground_lines};
ghost use Rattle.print_lines.specs.Asked.{asked_as};

use print_lines::Asked;
use resolve_settling::Resolved;

// How many bytes there are to write, and what Resolve answered.
#[derive(Clone, Copy)]
pub struct ResolvedLines {
    pub count: usize,
    pub answer: Resolved,
}

// The ground text, the effects or the notes as lines, or a refusal's line; and all that Resolve leaves in its outputs.
pub fn resolve_lines(
    asked: Asked,
    text: &[u8],
    block: &[u8],
    lists: &[u32],
    ground: &mut [u8],
    effects: &mut [[u8; 5]],
    notes: &mut [[u8; 2]],
    work: &mut [u32],
    page: &mut [u8],
    limit: u32,
) -> ResolvedLines
    ensures written { Written page.old 0
        (ground_lines (asked_as asked) (handed_context block.now lists.now) text.now
        (resolving_call limit block.now lists.now text.now
        (lent ground.old effects.old notes.old) (length work.old)))
        page.new result.count }
    ensures leaves { Leaves (resolving_call limit block.now lists.now text.now
        (lent ground.old effects.old notes.old) (length work.old)) (λ a. a) (resolved_as result.answer) effect_numbers
        ground.old ground.new effects.old effects.new
        notes.old notes.new work.old work.new }
{
    match resolve_call::resolve_under(text, block, lists, ground, effects, notes, work, limit) {
        Err(refusal) => ResolvedLines {
            count: print_lines::put_refused(page, refusal),
            answer: Err(refusal),
        },
        Ok(n) => {
            let count = print_lines::put_asked(
                asked,
                text,
                block,
                lists,
                &ground[..n.ground],
                &effects[..n.effects],
                &notes[..n.notes],
                page,
            );
            ResolvedLines {
                count,
                answer: Ok(n),
            }
        }
    }
}
