// What statements bring: a ground statement, effects, or nothing but the note that it is dropped; or a fault.
#![tactic(auto)]

ghost use Rattle.std.specs.Prelude.{◌≡◌, true, false, List, ◌++◌, ℕ, ◌+◌, ◌*◌, ◌≤◌, ◌<◌, length};
ghost use Rattle.tokens.specs.Class.{class_table};
ghost use Rattle.tokens.specs.Spelling.{spell_all};
ghost use Rattle.labels.specs.Label.{keywords};
ghost use Rattle.labels.specs.Table.{label_table, keyword_table};
ghost use Rattle.canonical.specs.Canonical.{taken_shapes};
ghost use Rattle.read_forms.specs.Forms.{modes_in, op_as, operand_in, feature_in};
ghost use Rattle.reading.specs.Statement.{Covariate};
ghost use Rattle.read_forms.specs.Items.{name_in};
ghost use Rattle.read_parts.specs.Apart.{apart};
ghost use Rattle.read_forms.specs.Fits.{InText};
ghost use Rattle.read_parts.specs.Meaning.{PartsFit, OperandFits, parts_in};
ghost use Rattle.print_writing.specs.Written.{Room, Written};
ghost use Rattle.canonical.specs.Lines.{joint_of};
ghost use Rattle.text.specs.Lists.{place_in, same_bytes};
ghost use Rattle.resolving.specs.Context.{covariates as covariates·spec};
ghost use Rattle.resolving.specs.Effects.{operator_number, optional_number};
ghost use Rattle.resolving.specs.Brought.{is_explicit, bring_feature};
ghost use Rattle.resolving.specs.Handed.{is_handed, handed_context};
ghost use Rattle.resolve_context.specs.Lists.{Stands};
ghost use Rattle.resolve_symbols.specs.Lets.{LetsFit};
ghost use Rattle.resolve_operands.specs.Entries.{meaning_in};
ghost use Rattle.resolve_grounding.specs.Whole.{all_whole};
ghost use Rattle.resolve_terms.specs.Terms.{head_number};
ghost use Rattle.resolve_features.specs.Stays.{is_covariate, AloneAs, alone_bytes, Short, StayAs, VariablesAs, is_some};
ghost use Rattle.resolve_features.specs.Terms.{SmallForms, CovariateAs};

use labels::{Family, Keywords, Labels};
use read_forms::{CovariateOp, Fault, Feature, Modes, Name, Operand, Statement};
use resolve_context::Layout;
use tokens::Classes;

// A feature whose one argument is modes: its keyword's place, their family and the modes.
fn alone_of(feature: Feature) -> Option<(usize, Family, Modes)>
    ensures { AloneAs feature result }
{
    match feature {
        Feature::Absorption(m) => Some((0, Family::AbsorptionMode, m)),
        Feature::Elimination(m) => Some((1, Family::EliminationMode, m)),
        Feature::Lagtime(m) => Some((4, Family::LagtimeMode, m)),
        Feature::DirectEffect(m) => Some((7, Family::PdMode, m)),
        Feature::EffectComp(m) => Some((8, Family::PdMode, m)),
        Feature::Metabolite(m) => Some((10, Family::MetaboliteMode, m)),
        _ => None,
    }
}

// A statement of modes alone, made whole. It is written piece by piece: no `Parts` are made and taken apart again.
fn put_alone(
    labels: &Labels,
    keys: &Keywords,
    keyword: usize,
    family: Family,
    modes: Modes,
    out: &mut [u8],
    at: usize,
) -> usize
    requires { (labels.now ≡ label_table) × (keys.now ≡ keyword_table) × (keyword < length keywords) × Room at (alone_bytes keyword family modes) }
    ensures { Written out.old at (alone_bytes keyword family modes) out.new result }
{
    let inside = print_statements::put_head(keys, keyword, false, out, at);
    let whole = resolve_grounding::whole_modes(family, modes);
    let last = print_parts::put_modes(labels, family, whole, out, inside);
    print_writing::put(out, last, b')')
}

// A statement with its modes made whole, behind the `;` where others stand before it.
fn put_whole(
    text: &[u8],
    classes: &Classes,
    labels: &Labels,
    keys: &Keywords,
    feature: Feature,
    before: usize,
    out: &mut [u8],
    at: usize,
) -> usize
    requires { (classes.now ≡ class_table) × (labels.now ≡ label_table) × (keys.now ≡ keyword_table)
        × PartsFit text.now (apart (Statement.Feature feature))
        × Room at (joint_of before ++ spell_all (taken_shapes (all_whole (parts_in text.now (apart (Statement.Feature feature)))))) }
    ensures { Written out.old at
        (joint_of before ++ spell_all (taken_shapes (all_whole (parts_in text.now (apart (Statement.Feature feature))))))
        out.new result }
{
    let next = print_statements::put_joint(before, out, at);
    match alone_of(feature) {
        Some((keyword, family, modes)) => {
            put_alone(labels, keys, keyword, family, modes, out, next)
        }
        None => {
            let parts = resolve_grounding::whole_parts(read_parts::parts_of(Statement::Feature(
                feature,
            )));
            print_statements::put_parts(text, classes, labels, keys, parts, out, next)
        }
    }
}

// Whether a name is a covariate of the model.
fn is_covariate(text: &[u8], block: &[u8], lists: &[u32], layout: Layout, name: Name) -> bool
    requires { Stands block.now lists.now layout × InText text.now name }
    ensures { result ≡ is_some (place_in (same_bytes (name_in text.now name).spelling)
        (covariates·spec (handed_context block.now lists.now))) }
{
    resolve_context::index_of(
        block,
        lists,
        resolve_context::covariates(layout),
        read_forms::spelling(text, name),
    )
    .is_some()
}

// A statement of parameters and modes: the index behind what was written of it; nothing, where it is dropped, since its parameters are fewer than
// `least`; or a fault.
fn stay_variables<'a>(
    text: &'a [u8],
    classes: &Classes,
    labels: &Labels,
    keys: &Keywords,
    block: &[u8],
    lists: &[u32],
    lets: &[u32],
    n: usize,
    star: &'a [u8],
    least: usize,
    keyword: usize,
    optional: bool,
    parameters: Operand,
    family: Family,
    modes: Modes,
    named: bool,
    before: usize,
    out: &mut [u8],
    at: usize,
) -> Result<Option<usize>, Fault>
    requires { (classes.now ≡ class_table) × (labels.now ≡ label_table) × (keys.now ≡ keyword_table)
        × (is_handed block.now lists.now ≡ true) × LetsFit text.now lets.now n × OperandFits text.now parameters
        × (keyword < length keywords) × (at ≤ 4294967296) }
    ensures { VariablesAs text.now block.now lists.now lets.now n star.now least
        keyword optional parameters family modes named before out.old at out.new result }
{
    let mut list = [0; 64];
    let count = resolve_operands::parameters_of(
        text, classes, block, lists, lets, n, star, parameters, &mut list,
    )?;
    if count < least {
        return Ok(None);
    }
    let next = print_statements::put_joint(before, out, at);
    let whole = resolve_grounding::whole_modes(family, modes);
    let layout = resolve_context::read_layout(lists);
    Ok(Some(resolve_grounding::put_variables(
        block,
        lists,
        labels,
        keys,
        keyword,
        optional,
        layout.parameters,
        &list[..count],
        family,
        whole,
        named,
        out,
        next,
    )))
}

// What a feature other than COVARIATE comes to, where so many statements stay before it: its ground statement was written, and this is the index
// behind it; it is dropped; or a fault.
pub fn ground_feature(
    text: &[u8],
    classes: &Classes,
    labels: &Labels,
    keys: &Keywords,
    block: &[u8],
    lists: &[u32],
    layout: Layout,
    lets: &[u32],
    n: usize,
    feature: Feature,
    before: usize,
    out: &mut [u8],
    at: usize,
) -> Result<Option<usize>, Fault>
    requires { (classes.now ≡ class_table) × (labels.now ≡ label_table) × (keys.now ≡ keyword_table) × Stands block.now lists.now layout
        × LetsFit text.now lets.now n × PartsFit text.now (apart (Statement.Feature feature)) × Short text.now feature
        × (is_covariate feature ≡ false) × (at ≤ 4294967296) }
    ensures { StayAs (bring_feature (handed_context block.now lists.now)
        (meaning_in text.now lets.now n (handed_context block.now lists.now))
        (feature_in text.now feature)) before out.old at out.new result }
{
    match feature {
        Feature::Allometry { covariate, .. } => {
            if !is_covariate(text, block, lists, layout, covariate) {
                return Err(Fault::UnknownName);
            }
        }
        Feature::Iiv {
            optional,
            parameters,
            effects,
        } => return stay_variables(
            text,
            classes,
            labels,
            keys,
            block,
            lists,
            lets,
            n,
            b"PK",
            1,
            11,
            optional,
            parameters,
            Family::VariabilityEffect,
            effects,
            true,
            before,
            out,
            at,
        ),
        Feature::Iov {
            optional,
            parameters,
            effects,
        } => return stay_variables(
            text,
            classes,
            labels,
            keys,
            block,
            lists,
            lets,
            n,
            b"IIV",
            1,
            12,
            optional,
            parameters,
            Family::VariabilityEffect,
            effects,
            true,
            before,
            out,
            at,
        ),
        Feature::Covariance {
            optional,
            level,
            parameters,
        } => return stay_variables(
            text,
            classes,
            labels,
            keys,
            block,
            lists,
            lets,
            n,
            b"IIV",
            2,
            13,
            optional,
            parameters,
            Family::VariabilityLevel,
            level,
            false,
            before,
            out,
            at,
        ),
        _ => {}
    }
    // Called at one place, so that the compiler makes it part of this function.
    Ok(Some(put_whole(text, classes, labels, keys, feature, before, out, at)))
}

fn is_named(operand: Operand) -> bool
    ensures { (s : List ℕ) → result ≡ is_explicit (operand_in s operand) }
{
    match operand {
        Operand::Wildcard => false,
        Operand::Symbol(_) => false,
        Operand::Names(_) => true,
    }
}

fn mark_of(is: bool) -> u32
    ensures { result ≡ optional_number is }
{
    is as u32
}

fn sign_of(op: CovariateOp) -> u32
    ensures { result ≡ operator_number (op_as op) }
{
    match op {
        CovariateOp::Multiply => 0,
        CovariateOp::Add => 1,
    }
}

// What all terms of a COVARIATE have in common: its index, whether it is explicit, its operator and its `?`.
fn head_of(index: usize, explicit: bool, op: CovariateOp, optional: bool) -> u32
    requires { index < 256 }
    ensures { result ≡ head_number index explicit (op_as op) optional }
{
    index as u32 * 262144 + mark_of(explicit) * 131072 + sign_of(op) * 2 + mark_of(optional)
}

// What a COVARIATE brings: its terms were put behind the others, and this is the index behind them; it is dropped; or a fault.
pub fn bring_covariate(
    text: &[u8],
    classes: &Classes,
    block: &[u8],
    lists: &[u32],
    layout: Layout,
    lets: &[u32],
    n: usize,
    index: usize,
    optional: bool,
    parameters: Operand,
    covariates: Operand,
    effects: Modes,
    op: CovariateOp,
    terms: &mut [u32],
    at: usize,
) -> Result<Option<usize>, Fault>
    requires { (classes.now ≡ class_table) × Stands block.now lists.now layout × LetsFit text.now lets.now n
        × OperandFits text.now parameters × OperandFits text.now covariates × SmallForms (modes_in effects) × (index < 256) × (at ≤ 4294967296) }
    ensures { CovariateAs (bring_feature (handed_context block.now lists.now)
        (meaning_in text.now lets.now n (handed_context block.now lists.now))
        (Covariate optional (operand_in text.now parameters) (operand_in text.now covariates) (modes_in effects) (op_as op)))
        index terms.old at terms.new result }
{
    let mut first = [0; 64];
    let own = resolve_operands::parameters_of(
        text, classes, block, lists, lets, n, b"PK", parameters, &mut first,
    )?;
    let mut second = [0; 64];
    let others = resolve_operands::covariates_of(
        text,
        classes,
        block,
        lists,
        lets,
        n,
        covariates,
        &mut second,
    )?;
    if own == 0 {
        return Ok(None);
    }
    if others == 0 {
        return Ok(None);
    }
    if resolve_terms::any_against(block, lists, layout, &second[..others], effects) {
        return Err(Fault::WrongKind);
    }
    let head = head_of(index, is_named(parameters), op, optional);
    Ok(Some(resolve_terms::put_terms(
        block,
        lists,
        layout,
        &first[..own],
        &second[..others],
        effects,
        head,
        terms,
        at,
    )))
}
