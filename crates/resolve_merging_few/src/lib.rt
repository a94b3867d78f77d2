// Merging and grouping of few terms by scans, so that no table is needed. The answers are those of `resolve_merging`.
#![tactic(auto)]

ghost use Rattle.std.specs.Prelude.{◌≡◌, ◌||◌, [], ◌*◌, ◌≤◌, ◌<◌, ℕ, Bool, length, take, get_or};
ghost use Rattle.std.proofs.Math.Seq.{slice};
ghost use Rattle.read_packs.specs.Packs.{Joined};
ghost use Rattle.text.specs.Lists.{any};
ghost use Rattle.resolve_merging.specs.Packing.{group_number};
ghost use Rattle.resolve_merging.specs.Runs.{remaining_in, forced_in};
ghost use Rattle.resolve_merging.specs.Passes.{found_as, Left};
ghost use Rattle.resolve_merging.specs.Outcomes.{Settles};
ghost use Rattle.resolve_merging_few.specs.Scans.{passes_by, forced_at};
ghost use Rattle.resolve_merging_few.specs.Sought as sought;
ghost use Rattle.resolve_merging_few.specs.Sieves as passes;
ghost use Rattle.resolve_merging_few.specs.Passes.{gone_by, stay_by, Moved, twins_gone};
ghost use Rattle.resolve_merging_few.specs.Listing.{IndexFoundAs, Formed, AllFormed, OneUnited};
ghost use Rattle.resolve_merging_few.specs.Merging.{AllUnited, outcome_of, ListedBy};

use resolve_merging::{ForcedAgain, group_of};

// How many merged effects there are, and how many groups of them.
#[derive(Clone, Copy)]
pub struct United {
    pub effects: usize,
    pub groups: usize,
}

// Whether a term forces the pair of another, of a later statement.
fn forces_before(w: u32, u: u32) -> bool
    ensures { result ≡ passes_by (sought.ForcesBefore w) u }
{
    u / 262144 < w / 262144 && u % 2 == 0 && u / 32 % 4096 == w / 32 % 4096
}

// Whether some term passes a test, of those that stay so far, which are the first, or of those from an index on.
fn stands_among<F: Fn(u32) -> bool>(work: &[u32], at: usize, i: usize, n: usize, test: F) -> bool
    requires { F.IsAlwaysCallable test × (at ≤ length work.now) × (i ≤ n) × (n ≤ length work.now) }
    ensures { (p : ℕ → Bool) → ((x : ℕ) (b : Bool) → F.post test x b → b ≡ p x)
        → result ≡ (any p (take at work.now) || any p (slice i n work.now)) }
{
    work[..at].iter().any(|u| test(*u)) || work[i..n].iter().any(|u| test(*u))
}

// Which terms a pass leaves out: whether the term at an index goes, where the first so many stay so far.
trait Pass {
    ghost which: { passes.Pass };

    fn gone(work: &[u32], at: usize, i: usize, n: usize) -> bool
        requires { (at ≤ i) × (i < n) × (n ≤ length work.now) }
        ensures { let run = work.now in result ≡ gone_by which (take at run) (slice i n run) (get_or run i 0) };
}

// Those that an explicit one of their pair overrides.
struct Overridden;

impl Pass for Overridden {
    ghost which = { passes.Overridden };

    fn gone(work: &[u32], at: usize, i: usize, n: usize) -> bool {
        let w = work[i];
        let explicit = w / 32 % 4096 + 4096;
        w / 131072 % 2 != 1 && stands_among(work, at, i, n, |u| u / 32 % 8192 == explicit)
    }
}

// Optional ones that are mandatory too.
struct AlsoMandatory;

impl Pass for AlsoMandatory {
    ghost which = { passes.AlsoMandatory };

    fn gone(work: &[u32], at: usize, i: usize, n: usize) -> bool {
        let w = work[i];
        w % 2 != 0 && stands_among(work, at, i, n, |u| u % 131072 == w % 131072 - 1)
    }
}

// One term of a pass, moved behind those that stay so far unless it goes, and how many stay.
fn sift_one<P: Pass>(work: &mut [u32], at: usize, i: usize, n: usize) -> usize
    requires { (at ≤ i) × (i < n) × (n ≤ length work.old) }
    ensures { Moved P.which work.old work.new at i n result }
{
    if P::gone(work, at, i, n) {
        return at;
    }
    work[at] = work[i];
    at + 1
}

// A pass: what stays of the first so many terms, from 0 on, and how many they are. Whatever is looked for stays itself, so it is found among
// those that stay so far and those that are left.
fn sift<P: Pass>(work: &mut [u32], n: usize) -> usize
    requires { (n ≤ 64) × (n ≤ length work.old) }
    ensures { Left (stay_by P.which [] (take n work.old)) n work.old work.new result }
{
    let mut at = 0;
    for i in 0..n {
        at = sift_one::<P>(work, at, i, n);
    }
    at
}

// The terms that no explicit one overrides, from 0 on, and how many they are: all, if none is explicit.
fn remain(work: &mut [u32], n: usize) -> usize
    requires { (n ≤ 64) × (n ≤ length work.old) }
    ensures { Left (remaining_in (take n work.old)) n work.old work.new result }
{
    if work[..n].iter().any(|w| *w / 131072 % 2 == 1) {
        return sift::<Overridden>(work, n);
    }
    n
}

// Whether a term forces its pair, which an earlier statement forces.
fn forced(work: &[u32], i: usize) -> bool
    requires { i < length work.now }
    ensures { result ≡ forced_at (take i work.now) (get_or work.now i 0) }
{
    let w = work[i];
    w % 2 == 0 && work[..i].iter().any(|u| forces_before(w, *u))
}

// The lowest statement that forces a pair again.
fn forced_again(work: &[u32], n: usize) -> Option<u32>
    requires { n ≤ length work.now }
    ensures { found_as result ≡ forced_in (take n work.now) }
{
    for i in 0..n {
        if forced(work, i) {
            return Some(work[i] / 262144);
        }
    }
    None
}

// The terms without optional ones that are mandatory too, from 0 on, and how many they are: all, if none is mandatory.
fn drop_twins(work: &mut [u32], n: usize) -> usize
    requires { (n ≤ 64) × (n ≤ length work.old) }
    ensures { Left (twins_gone (take n work.old)) n work.old work.new result }
{
    if work[..n].iter().any(|w| *w % 2 == 0) {
        return sift::<AlsoMandatory>(work, n);
    }
    n
}

// Where a group stands among so many. They stay two numbers each, not structs: `GroupsListed` speaks of them so, on the bench of `resolve_merging` too.
fn group_index(listed: &[u32], k: usize, g: u32) -> Option<usize>
    requires { (k ≤ 64) × (2 * k ≤ length listed.now) }
    ensures { IndexFoundAs listed.now k g result }
{
    for j in 0..k {
        if listed[2 * j] == g {
            return Some(j);
        }
    }
    None
}

// One form more, unless it stands there already. Where eight stand there, which are the numbers from 16^7 on, each form does.
fn with_form(forms: u32, form: u32) -> u32
    requires { Formed forms × (form < 8) }
    ensures { Joined forms form result }
{
    if forms < 268435456 {
        return read_packs::with_place(forms, form);
    }
    forms
}

// The effect of a term. If its form stands in its group already, it is a repeat and goes; else it is moved behind those that stay so far, and its
// form is put to its group, which is put behind the others if it is new. How many effects and groups there are then.
fn unite_one(work: &mut [u32], listed: &mut [u32], so_far: United, i: usize) -> United
    requires { (so_far.effects ≤ i) × (i < 64) × (i < length work.old) × (so_far.groups < 64) × (128 ≤ length listed.old)
        × AllFormed listed.old so_far.groups }
    ensures { OneUnited work.old work.new listed.old listed.new so_far.effects so_far.groups i result }
{
    let United { effects, groups } = so_far;
    let e = work[i] % 131072;
    let g = group_of(e);
    let form = e / 4 % 8;
    if let Some(j) = group_index(listed, groups, g) {
        let forms = listed[2 * j + 1];
        let longer = with_form(forms, form);
        if longer == forms {
            return so_far;
        }
        listed[2 * j + 1] = longer;
        work[effects] = e;
        return United {
            effects: effects + 1,
            groups,
        };
    }
    listed[2 * groups] = g;
    listed[2 * groups + 1] = form + 1;
    work[effects] = e;
    United {
        effects: effects + 1,
        groups: groups + 1,
    }
}

// The effects of the first so many terms without repeats, from 0 on, and their groups, two numbers each from 0 on: the group's and its forms, as
// `read_packs` has modes. How many there are.
fn unite_all(work: &mut [u32], n: usize, listed: &mut [u32]) -> United
    requires { (n ≤ 64) × (n ≤ length work.old) × (128 ≤ length listed.old) }
    ensures { AllUnited n work.old work.new listed.new result }
{
    let mut united = United {
        effects: 0,
        groups: 0,
    };
    for i in 0..n {
        united = unite_one(work, listed, united, i);
    }
    united
}

// Merging as document 01 has it: the number of merged effects, and of their groups, unless a statement forces a pair again.
pub fn settle_few(work: &mut [u32], n: usize, listed: &mut [u32]) -> Result<United, ForcedAgain>
    requires { (n ≤ 64) × (n ≤ length work.old) × (128 ≤ length listed.old) }
    ensures { Settles n work.old work.new (outcome_of result) × ListedBy work.new listed.new result }
{
    let left = remain(work, n);
    if let Some(statement) = forced_again(work, left) {
        return Err(ForcedAgain { statement });
    }
    let once = drop_twins(work, left);
    Ok(unite_all(work, once, listed))
}
