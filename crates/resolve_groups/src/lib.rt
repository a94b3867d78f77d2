// The ground COVARIATEs that stand for groups of effects.
#![tactic(auto)]

ghost use Rattle.std.specs.Prelude.{◌≡◌, map, ◌≤◌, take};
ghost use Rattle.labels.specs.Table.{label_table, keyword_table};
ghost use Rattle.print_writing.specs.Written.{Written};
ghost use Rattle.canonical.specs.Lines.{rest_of};
ghost use Rattle.resolving.specs.Ground.{ground_effects};
ghost use Rattle.resolving.specs.Handed.{handed_context};
ghost use Rattle.resolve_context.specs.Lists.{Stands};
ghost use Rattle.resolve_merging.specs.Packing.{effect_of};
ghost use Rattle.resolve_groups.specs.Known.{GroupsKnown};

use labels::{Keywords, Labels};
use resolve_context::Layout;

// The ground COVARIATEs of the groups of so many effects, where other statements stay before them. A group is listed by two numbers: its
// own, and its forms.
pub fn put_groups(
    block: &[u8],
    lists: &[u32],
    labels: &Labels,
    keys: &Keywords,
    layout: Layout,
    work: &[u32],
    listed: &[u32],
    count: usize,
    groups: usize,
    before: usize,
    out: &mut [u8],
    at: usize,
) -> usize
    requires { (labels.now ≡ label_table) × (keys.now ≡ keyword_table) × Stands block.now lists.now layout
        × GroupsKnown (handed_context block.now lists.now) work.now listed.now count groups × (before ≤ 256) × (at ≤ 4294967296) }
    ensures { Written out.old at
        (rest_of before (ground_effects (handed_context block.now lists.now) (map effect_of (take count work.now))))
        out.new result }
{
    let mut next = at;
    for j in 0..groups {
        let group = listed[2 * j];
        let packed = listed[2 * j + 1];
        next = print_statements::put_joint(before + j, out, next);
        next = resolve_grounding::put_group(
            block,
            lists,
            labels,
            keys,
            layout,
            (group / 2048 % 64) as usize,
            (group / 32 % 64) as usize,
            packed,
            group / 2 % 2,
            group % 2,
            out,
            next,
        );
    }
    next
}
