// What the statement at an index brings, added to what those before it brought.
#![tactic(auto)]

ghost use Rattle.std.specs.Prelude.{◌≡◌, false, List, ℕ, ◌≤◌, ◌<◌};
ghost use Rattle.tokens.specs.Class.{class_table};
ghost use Rattle.labels.specs.Table.{label_table, keyword_table};
ghost use Rattle.reading.specs.Statement.{Covariate};
ghost use Rattle.read_forms.specs.Forms.{modes_in, op_as, operand_in, feature_in, statement_in};
ghost use Rattle.read_parts.specs.Apart.{apart};
ghost use Rattle.read_parts.specs.Meaning.{OperandFits, PartsFit};
ghost use Rattle.resolving.specs.Brought.{bring as bring·spec, bring_feature};
ghost use Rattle.resolving.specs.Handed.{handed_context};
ghost use Rattle.resolve_context.specs.Lists.{Stands};
ghost use Rattle.resolve_symbols.specs.Lets.{LetsFit};
ghost use Rattle.resolve_operands.specs.Entries.{meaning_in};
ghost use Rattle.read_space.specs.Fit.{Fit};
ghost use Rattle.resolve_features.specs.Stays.{is_covariate, Short};
ghost use Rattle.resolve_features.specs.Terms.{SmallForms};
ghost use Rattle.resolve_statements.specs.Tallies.{Noted, BringAs, PrintsAs, NoneStays};

use labels::{Keywords, Labels};
use read_forms::{CovariateOp, Fault, Feature, Modes, Operand, Statement};
use resolve_context::Layout;
use tokens::Classes;

// How much the statements so far bring: how many terms, how many statements stay and how many bytes they have, and how many are dropped.
#[derive(Clone, Copy)]
pub struct Tally {
    pub terms: usize,
    pub stays: usize,
    pub ground: usize,
    pub dropped: usize,
}

// One more is dropped.
fn note(tally: Tally, dropped: &mut [u8], index: usize) -> Tally
    requires { (index < 256) × (tally.dropped ≤ 256) }
    ensures { Noted tally index dropped.old dropped.new result }
{
    Tally {
        dropped: print_writing::put(dropped, tally.dropped, index as u8),
        ..tally
    }
}

// What a COVARIATE adds, or a fault.
fn bring_terms(
    text: &[u8],
    classes: &Classes,
    block: &[u8],
    lists: &[u32],
    layout: Layout,
    lets: &[u32],
    n: usize,
    index: usize,
    optional: bool,
    parameters: Operand,
    covariates: Operand,
    effects: Modes,
    op: CovariateOp,
    tally: Tally,
    terms: &mut [u32],
    dropped: &mut [u8],
) -> Result<Tally, Fault>
    requires { (classes.now ≡ class_table) × Stands block.now lists.now layout × LetsFit text.now lets.now n
        × OperandFits text.now parameters × OperandFits text.now covariates × SmallForms (modes_in effects) × (index < 256)
        × (tally.terms ≤ 4294967296) × (tally.dropped ≤ 256) }
    ensures bring_as { BringAs (bring_feature (handed_context block.now lists.now)
        (meaning_in text.now lets.now n (handed_context block.now lists.now))
        (Covariate optional (operand_in text.now parameters) (operand_in text.now covariates) (modes_in effects) (op_as op)))
        index tally terms.old dropped.old terms.new dropped.new result }
    ensures none_stays { NoneStays tally result }
{
    match resolve_features::bring_covariate(
        text,
        classes,
        block,
        lists,
        layout,
        lets,
        n,
        index,
        optional,
        parameters,
        covariates,
        effects,
        op,
        terms,
        tally.terms,
    )? {
        Some(next) => Ok(Tally {
            terms: next,
            ..tally
        }),
        None => Ok(note(tally, dropped, index)),
    }
}

// What another feature adds. Its ground statement is written where `out` has room, and only measured where it has none.
fn bring_other(
    text: &[u8],
    classes: &Classes,
    labels: &Labels,
    keys: &Keywords,
    block: &[u8],
    lists: &[u32],
    layout: Layout,
    lets: &[u32],
    n: usize,
    index: usize,
    feature: Feature,
    tally: Tally,
    dropped: &mut [u8],
    out: &mut [u8],
) -> Result<Tally, Fault>
    requires { (classes.now ≡ class_table) × (labels.now ≡ label_table) × (keys.now ≡ keyword_table)
        × Stands block.now lists.now layout × LetsFit text.now lets.now n
        × PartsFit text.now (apart (Statement.Feature feature)) × Short text.now feature × (is_covariate feature ≡ false) × (index < 256)
        × (tally.ground ≤ 4294967296) × (tally.stays ≤ 256) × (tally.dropped ≤ 256) }
    ensures by_index { (terms : List ℕ) → BringAs (bring_feature (handed_context block.now lists.now)
        (meaning_in text.now lets.now n (handed_context block.now lists.now))
        (feature_in text.now feature))
        index tally terms dropped.old terms dropped.new result }
    ensures prints_as { PrintsAs (bring_feature (handed_context block.now lists.now)
        (meaning_in text.now lets.now n (handed_context block.now lists.now))
        (feature_in text.now feature)) tally out.old out.new result }
{
    match resolve_features::ground_feature(
        text,
        classes,
        labels,
        keys,
        block,
        lists,
        layout,
        lets,
        n,
        feature,
        tally.stays,
        out,
        tally.ground,
    )? {
        Some(next) => Ok(Tally {
            stays: tally.stays + 1,
            ground: next,
            ..tally
        }),
        None => Ok(note(tally, dropped, index)),
    }
}

// What the statement at an index adds, or a fault.
pub fn bring_one(
    text: &[u8],
    classes: &Classes,
    labels: &Labels,
    keys: &Keywords,
    block: &[u8],
    lists: &[u32],
    layout: Layout,
    lets: &[u32],
    n: usize,
    index: usize,
    statement: Statement,
    tally: Tally,
    terms: &mut [u32],
    dropped: &mut [u8],
    out: &mut [u8],
) -> Result<Tally, Fault>
    requires { (classes.now ≡ class_table) × (labels.now ≡ label_table) × (keys.now ≡ keyword_table)
        × Stands block.now lists.now layout × LetsFit text.now lets.now n
        × Fit text.now statement × (index < 256)
        × (tally.terms ≤ 4294967296) × (tally.ground ≤ 4294967296) × (tally.stays ≤ 256) × (tally.dropped ≤ 256) }
    ensures bring_as { BringAs (bring·spec (handed_context block.now lists.now)
        (meaning_in text.now lets.now n (handed_context block.now lists.now))
        (statement_in text.now statement))
        index tally terms.old dropped.old terms.new dropped.new result }
    ensures prints_as { PrintsAs (bring·spec (handed_context block.now lists.now)
        (meaning_in text.now lets.now n (handed_context block.now lists.now))
        (statement_in text.now statement)) tally out.old out.new result }
{
    match statement {
        Statement::Let { .. } => Ok(tally),
        Statement::Feature(feature) => match feature {
            Feature::Covariate {
                optional,
                parameters,
                covariates,
                effects,
                op,
            } => bring_terms(
                text, classes, block, lists, layout, lets, n, index, optional, parameters,
                covariates, effects, op, tally, terms, dropped,
            ),
            _ => bring_other(
                text, classes, labels, keys, block, lists, layout, lets, n, index, feature, tally,
                dropped, out,
            ),
        },
    }
}
