// Merging and grouping on a lent buffer of packed terms. A table has a number for each pair, which tells what a term has to know of the
// others, so each pass goes over the terms once. The table is never cleared as a whole: the terms set the numbers of their own pairs to 0,
// and only those are read.
#![tactic(auto)]

ghost use Rattle.std.specs.Prelude.{◌≡◌, true, map, ◌≤◌, ◌<◌, eqb, length, take, get_or, set};
ghost use Rattle.read_packs.specs.Packs.{places, Snug};
ghost use Rattle.text.specs.Lists.{any};
ghost use Rattle.resolve_merging.specs.Packing.{effect_of, pair_of, group_number};
ghost use Rattle.resolve_merging.specs.Flags.{flagged, with_flag, byte_at, with_byte};
ghost use Rattle.resolve_merging.specs.Runs.{remaining_in, united_in, groups_in};
ghost use Rattle.resolve_merging.specs.Tables.{place, entry, Tallied, Anew, Agree, zeros};
ghost use Rattle.resolve_merging.specs.Passes.{step_of, forcing, forced_by, gone_by, entered_by, shown_by, Sifted, Moved, Left, Looked};
ghost use Rattle.resolve_merging.specs.Grouping.{GroupedOne, GroupNumbers, Listed, index_of, Unnumbered, indexed, Numbered, Ready, Collected, Formed};
ghost use Rattle.resolve_merging.specs.Steps as steps;
ghost use Rattle.resolve_merging.specs.Sieves as passes;
ghost use Rattle.resolve_merging.specs.Outcomes.{Plain, Settles, group_at, forms_at, Groups};

// At most so many terms or effects, from 0 on.
pub const TERMS: usize = 2048;

// The table, from here on: a number for each of 4,096 pairs.
pub const TABLE: usize = 2048;

// The groups, from here on, two numbers each: the group's and its forms, as `read_packs` has modes.
pub const GROUPS: usize = 6144;

pub const MOST_GROUPS: usize = 256;

// What stands from here on is not ours.
pub const END: usize = 6656;

// Such a buffer. It stays one run of numbers, not a struct of terms, table and groups: `Settles`, `Tables.entry` and `Outcomes.group_at` speak of it so.
pub type Bench = [u32; END];

// A statement that forces a pair which an earlier one forces: nothing is merged then.
#[derive(Clone, Copy)]
pub struct ForcedAgain {
    pub statement: u32,
}

// Whether a number below 32 is in a set.
fn has_flag(set: u32, k: u32) -> bool
    requires { k < 32 }
    ensures { result ≡ flagged «set» k }
{
    (set >> k) % 2 == 1
}

// The set with it.
fn with_flag(set: u32, k: u32) -> u32
    requires { k < 32 }
    ensures { result ≡ with_flag «set» k }
{
    if has_flag(set, k) {
        return set;
    }
    set + (1 << k)
}

// Where a term's pair has its number.
fn place_of(w: u32) -> usize
    ensures { result ≡ place w }
{
    TABLE + (w / 32 % 4096) as usize
}

// What a term makes of its pair's number.
trait Step {
    ghost which: { steps.Step };

    fn stepped(w: u32, v: u32) -> u32
        ensures { result ≡ step_of which w v };
}

// 0.
struct Clear;

impl Step for Clear {
    ghost which = { steps.Clear };

    fn stepped(_w: u32, _v: u32) -> u32 {
        0
    }
}

// 1, if it is explicit.
struct Explicit;

impl Step for Explicit {
    ghost which = { steps.Explicit };

    fn stepped(w: u32, v: u32) -> u32 {
        if w / 131072 % 2 == 1 { 1 } else { v }
    }
}

// One flag more, for its form and operator, if it is mandatory.
struct Mandatory;

impl Step for Mandatory {
    ghost which = { steps.Mandatory };

    fn stepped(w: u32, v: u32) -> u32 {
        if w % 2 == 0 { with_flag(v, w % 32) } else { v }
    }
}

// Its pair's number in the table after the term at an index.
fn touch<S: Step>(work: &mut Bench, i: usize)
    requires { i < length work.old }
    ensures { let before = work.old in
        let w = get_or before i 0 in
        work.new ≡ set before (place w) (step_of S.which w (entry before (pair_of w))) }
{
    let w = work[i];
    let at = place_of(w);
    work[at] = S::stepped(w, work[at]);
}

// The same for the first so many terms, one after the other.
fn tally<S: Step>(work: &mut Bench, n: usize)
    requires { n ≤ 2048 }
    ensures { Tallied (step_of S.which) (take n work.old) work.old work.new }
{
    for i in 0..n {
        touch::<S>(work, i);
    }
}

// The table from 0 on, for the pairs of these terms.
fn tally_anew<S: Step>(work: &mut Bench, n: usize)
    requires { n ≤ 2048 }
    ensures { let run = take n work.old in
        Anew (step_of S.which) run work.old work.new }
{
    tally::<Clear>(work, n);
    tally::<S>(work, n);
}

// Which terms a pass leaves out.
trait Pass {
    ghost which: { passes.Pass };

    // Whether a term goes.
    fn gone(w: u32, v: u32) -> bool
        ensures { result ≡ gone_by which w v };

    // Its pair's number after it.
    fn entered(w: u32, v: u32) -> u32
        ensures { result ≡ entered_by which w v };

    // The term as it stays.
    fn shown(w: u32) -> u32
        ensures { result ≡ shown_by which w };
}

// Those that an explicit one overrides.
struct Overridden;

impl Pass for Overridden {
    ghost which = { passes.Overridden };

    fn gone(w: u32, v: u32) -> bool {
        w / 131072 % 2 != 1 && v == 1
    }

    fn entered(_w: u32, v: u32) -> u32 {
        v
    }

    fn shown(w: u32) -> u32 {
        w
    }
}

// Optional ones that are mandatory too.
struct AlsoMandatory;

impl Pass for AlsoMandatory {
    ghost which = { passes.AlsoMandatory };

    fn gone(w: u32, v: u32) -> bool {
        w % 2 != 0 && has_flag(v, w % 32 - 1)
    }

    fn entered(_w: u32, v: u32) -> u32 {
        v
    }

    fn shown(w: u32) -> u32 {
        w
    }
}

// Repeats.
struct Repeated;

impl Pass for Repeated {
    ghost which = { passes.Repeated };

    fn gone(w: u32, v: u32) -> bool {
        has_flag(v, w % 32)
    }

    fn entered(w: u32, v: u32) -> u32 {
        with_flag(v, w % 32)
    }

    fn shown(w: u32) -> u32 {
        w % 131072
    }
}

// One term of a pass, moved to an index unless it goes, and the index behind it.
fn sift_one<P: Pass>(work: &mut Bench, i: usize, at: usize) -> usize
    requires { (i < length work.old) × (at ≤ i) }
    ensures { Moved P.which work.old work.new i at result }
{
    let w = work[i];
    let from = place_of(w);
    let v = work[from];
    work[from] = P::entered(w, v);
    if P::gone(w, v) {
        return at;
    }
    work[at] = P::shown(w);
    at + 1
}

// A pass: what stays of the first so many terms, from 0 on, and how many they are.
fn sift<P: Pass>(work: &mut Bench, n: usize) -> usize
    requires { n ≤ 2048 }
    ensures { Sifted P.which work.old work.new n result }
{
    let mut to = 0;
    for i in 0..n {
        to = sift_one::<P>(work, i, to);
    }
    to
}

// The terms that no explicit one overrides, from 0 on, and how many they are.
fn remain(work: &mut Bench, n: usize) -> usize
    requires { n ≤ 2048 }
    ensures { Left (remaining_in (take n work.old)) n work.old work.new result }
{
    tally_anew::<Explicit>(work, n);
    sift::<Overridden>(work, n)
}

// Whether a term forces its pair, which an earlier statement forces.
fn forced_by(w: u32, v: u32) -> bool
    ensures { result ≡ forced_by w v }
{
    w % 2 == 0 && v != 0 && v <= w / 262144
}

// The pair's number after it: the last statement that forces it, counted from 1.
fn forcing_by(w: u32, v: u32) -> u32
    ensures { result ≡ forcing w v }
{
    if w % 2 != 0 {
        return v;
    }
    w / 262144 + 1
}

// The lowest statement that forces a pair again, where the table has 0 for each pair of the terms.
fn first_forced(work: &mut Bench, n: usize) -> Option<u32>
    requires { (n ≤ 2048) × Agree (take n work.old) (entry work.old) zeros }
    ensures { Looked (take n work.old) work.old work.new result }
{
    for i in 0..n {
        let w = work[i];
        let at = place_of(w);
        let v = work[at];
        if forced_by(w, v) {
            return Some(w / 262144);
        }
        work[at] = forcing_by(w, v);
    }
    None
}

// The same whatever the table has.
fn forced_again(work: &mut Bench, n: usize) -> Option<u32>
    requires { n ≤ 2048 }
    ensures { Looked (take n work.old) work.old work.new result }
{
    tally::<Clear>(work, n);
    first_forced(work, n)
}

// The merged effects of the first so many terms that remain, from 0 on, and how many they are.
fn unite(work: &mut Bench, n: usize) -> usize
    requires { n ≤ 2048 }
    ensures { Left (united_in (take n work.old)) n work.old work.new result }
{
    tally_anew::<Mandatory>(work, n);
    let k = sift::<AlsoMandatory>(work, n);
    tally::<Clear>(work, k);
    sift::<Repeated>(work, k)
}

// Merging as document 01 has it: the number of merged effects, unless a statement forces a pair again.
pub fn settle(work: &mut Bench, n: usize) -> Result<usize, ForcedAgain>
    requires { n ≤ 2048 }
    ensures { Settles n work.old work.new result }
{
    let left = remain(work, n);
    match forced_again(work, left) {
        Some(statement) => Err(ForcedAgain { statement }),
        None => Ok(unite(work, left)),
    }
}

// Whether one of the first so many effects is additive.
pub fn additive(work: &[u32], m: usize) -> bool
    requires { m ≤ length work.now }
    ensures { result ≡ any (λ e. eqb e.operator 1) (map effect_of (take m work.now)) }
{
    work[..m].iter().any(|e| *e / 2 % 2 == 1)
}

// An effect's group.
pub fn group_of(e: u32) -> u32
    ensures { result ≡ group_number e }
{
    e / 32 % 4096 * 32 + e % 4
}

// One effect's group written behind those before it, unless it stands there or there is no room; and how many there are.
fn next_group(work: &mut Bench, i: usize, k: usize) -> usize
    requires { (i < length work.old) × (k ≤ 256) }
    ensures { GroupedOne work.old work.new i k result }
{
    let e = work[i];
    let at = place_of(e);
    let v = work[at];
    if has_flag(v, e % 4) {
        return k;
    }
    work[at] = with_flag(v, e % 4);
    if k == MOST_GROUPS {
        return k + 1;
    }
    work[GROUPS + 2 * k] = group_of(e);
    k + 1
}

// The groups of the first so many effects, and how many they are, or 257 if they are more; where the table has 0 for each of their pairs.
fn list_groups(work: &mut Bench, m: usize) -> usize
    requires { (m ≤ 2048) × Agree (take m work.old) (entry work.old) zeros }
    ensures { Listed (take m work.old) work.old work.new result }
{
    let mut k = 0;
    for i in 0..m {
        k = next_group(work, i, k);
        if MOST_GROUPS < k {
            return k;
        }
    }
    k
}

// One of four numbers below 256.
fn byte_at(bytes: u32, k: u32) -> u32
    requires { k < 4 }
    ensures { result ≡ byte_at «bytes» k }
{
    (bytes >> (8 * k)) % 256
}

// One of them put in, where there was 0.
fn with_byte(bytes: u32, k: u32, x: u32) -> u32
    requires { (k < 4) × (x < 256) × (byte_at «bytes» k ≡ 0) }
    ensures { result ≡ with_byte «bytes» k x }
{
    bytes + (x << (8 * k))
}

// A group's index put into the table, and no forms beside its number.
fn number_group(work: &mut Bench, j: usize)
    requires { (j < 256) × (index_of work.old (group_at work.old j) ≡ 0) }
    ensures { work.new ≡ indexed work.old j }
{
    let g = work[GROUPS + 2 * j];
    let at = place_of(g);
    work[at] = with_byte(work[at], g % 4, j as u32);
    work[GROUPS + 2 * j + 1] = 0;
}

// The same for so many groups.
fn number_groups(work: &mut Bench, k: usize)
    requires { (k ≤ 256) × Unnumbered k work.old }
    ensures { Numbered k work.old work.new }
{
    for j in 0..k {
        number_group(work, j);
    }
}

// An effect's form put to those of its group.
fn collect_form(work: &mut Bench, i: usize)
    requires { let work = work.now in
        let at = index_of work (get_or work i 0) in
        (i < length work) × (at < 256) × Snug (forms_at work at) × (length (places (forms_at work at)) ≤ 7) }
    ensures { Collected work.old work.new (get_or work.old i 0) }
{
    let e = work[i];
    let from = place_of(e);
    let j = byte_at(work[from], e % 4) as usize;
    let at = GROUPS + 2 * j + 1;
    work[at] = read_packs::with_place(work[at], e / 4 % 8);
}

// The forms of so many groups, from the first so many effects, each of which has its group's index.
fn collect_forms(work: &mut Bench, m: usize, k: usize)
    requires { (m ≤ 2048) × (k ≤ 256) × Ready m k work.old }
    ensures { Formed m k work.old work.new }
{
    for i in 0..m {
        collect_form(work, i);
    }
}

// The forms of each of so many groups, beside its number.
fn list_forms(work: &mut Bench, m: usize, k: usize)
    requires { let work = work.now in
        (m ≤ 2048) × (k ≤ 256) × Plain (take m work) × GroupNumbers (groups_in (take m work)) work k }
    ensures { Formed m k work.old work.new }
{
    tally::<Clear>(work, m);
    number_groups(work, k);
    collect_forms(work, m, k);
}

// The groups of the first so many effects with their forms, unless there are more than 256.
pub fn group(work: &mut Bench, m: usize) -> Option<usize>
    requires { (m ≤ 2048) × Plain (take m work.old) }
    ensures { Groups m work.old work.new result }
{
    tally::<Clear>(work, m);
    let k = list_groups(work, m);
    if MOST_GROUPS < k {
        return None;
    }
    list_forms(work, m, k);
    Some(k)
}
