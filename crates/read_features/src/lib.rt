// A feature by its keyword and its arguments: the keyword first, then the number of arguments, each argument from left to right, and last
// the `?`.
#![tactic(auto)]

ghost use Rattle.std.specs.Prelude.{◌≡◌, List, ℕ, ◌≤◌, ◌<◌};
ghost use Rattle.tokens.specs.Class.{class_table};
ghost use Rattle.labels.specs.declared.Family.TheVariants.{CovariateEffect};
ghost use Rattle.labels.specs.Table.{label_table, keyword_table};
ghost use Rattle.reading.specs.Statement.{Name as Name·spec, a_number};
ghost use Rattle.reading.specs.Argument.{modes_of};
ghost use Rattle.reading.specs.Feature.{PERIPHERALS, TRANSITS, COVARIATE, ALLOMETRY, INDIRECTEFFECT, IIV, IOV, COVARIANCE};
ghost use Rattle.reading.specs.Feature.{modes_only, optionally, transits_of, operator_of, name_of, build_feature};
ghost use Rattle.reading.specs.Feature.{mandatory as mandatory·spec, explicit as explicit·spec};
ghost use Rattle.read_forms.specs.Items.{name_in};
ghost use Rattle.read_forms.specs.Forms.{arg_in, args_in, modes_in, operand_in, transits_in, op_as, some_in, feature_in};
ghost use Rattle.read_forms.specs.Fits.{InText, Fits, AllFit};
ghost use Rattle.read_forms.specs.declared.Fault.TheVariants.{WrongNumber};
ghost use Rattle.read_forms.specs.Faults.{answered};
ghost use Rattle.read_features.specs.Answers.{eta_in, second_in, fourth_in, effects_of, covariate_with, eta_of, family_of, feature_with, Builds, BuildsKnown};

use labels::{Family, Keywords, Labels};
use read_forms::{
    Arg, Args, CovariateOp, Fault, Feature, Modes, Name, Operand, Refusal, TransitCounts,
};
use tokens::Classes;

// The arguments of IIV and IOV.
#[derive(Clone, Copy)]
struct Variability {
    parameters: Operand,
    effects: Modes,
}

// The features of one argument, which is modes, and no `?`.
#[derive(Clone, Copy)]
enum Alone {
    Absorption,
    Elimination,
    Lagtime,
    DirectEffect,
    EffectComp,
    Metabolite,
}

// The number of arguments, refused at the keyword.
fn wrong_number(at: usize) -> Refusal
    ensures { result ≡ record { fault = WrongNumber; place = at } }
{
    Refusal {
        fault: Fault::WrongNumber,
        place: at,
    }
}

// A feature that takes no `?`.
fn mandatory(feature: Feature, optional: bool, at: usize) -> Result<Feature, Refusal>
    ensures { (s : List ℕ) (k : Name·spec) → k.place ≡ at → answered (feature_in s) result ≡ mandatory·spec k optional (feature_in s feature) }
{
    if optional {
        return Err(Refusal {
            fault: Fault::NotOptional,
            place: at,
        });
    }
    Ok(feature)
}

// The family of the modes of a feature that has no other argument.
fn family_of(alone: Alone) -> Family
    ensures { result ≡ family_of alone }
{
    match alone {
        Alone::Absorption => Family::AbsorptionMode,
        Alone::Elimination => Family::EliminationMode,
        Alone::Lagtime => Family::LagtimeMode,
        Alone::DirectEffect => Family::PdMode,
        Alone::EffectComp => Family::PdMode,
        Alone::Metabolite => Family::MetaboliteMode,
    }
}

fn feature_with(alone: Alone, modes: Modes) -> Feature
    ensures { (s : List ℕ) → feature_in s result ≡ feature_with alone (modes_in modes) }
{
    match alone {
        Alone::Absorption => Feature::Absorption(modes),
        Alone::Elimination => Feature::Elimination(modes),
        Alone::Lagtime => Feature::Lagtime(modes),
        Alone::DirectEffect => Feature::DirectEffect(modes),
        Alone::EffectComp => Feature::EffectComp(modes),
        Alone::Metabolite => Feature::Metabolite(modes),
    }
}

// A feature of one argument, which is modes, and no `?`.
fn modes_alone(
    text: &[u8],
    classes: &Classes,
    labels: &Labels,
    alone: Alone,
    args: Args,
    optional: bool,
    at: usize,
) -> Result<Feature, Refusal>
    requires { (classes.now ≡ class_table) × (labels.now ≡ label_table) × AllFit text.now args }
    ensures { (k : Name·spec) → k.place ≡ at → answered (feature_in text.now) result ≡ modes_only (family_of alone) (feature_with alone) k optional (args_in text.now args) }
{
    if args.count != 1 {
        return Err(wrong_number(at));
    }
    let modes = read_checks::modes_of(text, classes, labels, family_of(alone), args.first)?;
    mandatory(feature_with(alone, modes), optional, at)
}

// Modes as the second argument, which may be left out.
fn second_modes(
    text: &[u8],
    classes: &Classes,
    labels: &Labels,
    family: Family,
    args: Args,
) -> Result<Option<Modes>, Refusal>
    requires { (classes.now ≡ class_table) × (labels.now ≡ label_table) × AllFit text.now args }
    ensures { answered (some_in modes_in) result ≡ optionally (modes_of family) (second_in text.now args) }
{
    if args.count == 1 {
        return Ok(None);
    }
    let modes = read_checks::modes_of(text, classes, labels, family, args.second)?;
    Ok(Some(modes))
}

fn peripherals(
    text: &[u8],
    classes: &Classes,
    labels: &Labels,
    args: Args,
    optional: bool,
    at: usize,
    limit: u32,
) -> Result<Feature, Refusal>
    requires { (classes.now ≡ class_table) × (labels.now ≡ label_table) × AllFit text.now args }
    ensures { Builds text.now limit PERIPHERALS optional at args result }
{
    if args.count == 0 || 2 < args.count {
        return Err(wrong_number(at));
    }
    let counts = read_checks::counts_of(text, classes, args.first, limit)?;
    let kind = second_modes(text, classes, labels, Family::PeripheralKind, args)?;
    mandatory(Feature::Peripherals { counts, kind }, optional, at)
}

// Counts or N as the first argument. N takes no second one.
fn transits_of(
    text: &[u8],
    classes: &Classes,
    args: Args,
    limit: u32,
) -> Result<TransitCounts, Refusal>
    requires { (classes.now ≡ class_table) × AllFit text.now args }
    ensures { answered (transits_in text.now) result ≡ transits_of limit (arg_in text.now args.first) (second_in text.now args) }
{
    if !read_checks::is_n(text, args.first) {
        let counts = read_checks::counts_of(text, classes, args.first, limit)?;
        return Ok(TransitCounts::Counts(counts));
    }
    if args.count == 1 {
        return Ok(TransitCounts::N);
    }
    Err(Refusal {
        fault: Fault::WrongArgument,
        place: read_checks::place_of(args.second),
    })
}

fn transits(
    text: &[u8],
    classes: &Classes,
    labels: &Labels,
    args: Args,
    optional: bool,
    at: usize,
    limit: u32,
) -> Result<Feature, Refusal>
    requires { (classes.now ≡ class_table) × (labels.now ≡ label_table) × AllFit text.now args }
    ensures { Builds text.now limit TRANSITS optional at args result }
{
    if args.count == 0 || 2 < args.count {
        return Err(wrong_number(at));
    }
    let counts = transits_of(text, classes, args, limit)?;
    let depot = second_modes(text, classes, labels, Family::DepotMode, args)?;
    mandatory(Feature::Transits { counts, depot }, optional, at)
}

// Effects that are not the mandatory `*`.
fn explicit(arg: Arg, modes: Modes, optional: bool) -> Result<Modes, Refusal>
    ensures { (s : List ℕ) → answered modes_in result ≡ explicit·spec optional (arg_in s arg) (modes_in modes) }
{
    if optional {
        return Ok(modes);
    }
    match modes {
        Modes::Wildcard => Err(Refusal {
            fault: Fault::WrongArgument,
            place: read_checks::place_of(arg),
        }),
        Modes::List(_) => Ok(modes),
    }
}

// An argument as the effects of COVARIATE.
fn effects_of(
    text: &[u8],
    classes: &Classes,
    labels: &Labels,
    arg: Arg,
    optional: bool,
) -> Result<Modes, Refusal>
    requires { (classes.now ≡ class_table) × (labels.now ≡ label_table) × Fits text.now arg }
    ensures { answered modes_in result ≡ effects_of optional (arg_in text.now arg) }
{
    let modes = read_checks::modes_of(text, classes, labels, Family::CovariateEffect, arg)?;
    explicit(arg, modes, optional)
}

// The operator as the fourth argument, which may be left out.
fn operator(args: Args) -> Result<CovariateOp, Refusal>
    ensures { (s : List ℕ) → answered op_as result ≡ operator_of (fourth_in s args) }
{
    if args.count == 3 {
        return Ok(CovariateOp::Multiply);
    }
    read_checks::op_of(args.fourth)
}

// COVARIATE of parameters and covariates that are read.
fn covariate_with(
    text: &[u8],
    classes: &Classes,
    labels: &Labels,
    parameters: Operand,
    covariates: Operand,
    args: Args,
    optional: bool,
) -> Result<Feature, Refusal>
    requires { (classes.now ≡ class_table) × (labels.now ≡ label_table) × AllFit text.now args }
    ensures { answered (feature_in text.now) result ≡ covariate_with optional (operand_in text.now parameters) (operand_in text.now covariates) (arg_in text.now args.third) (fourth_in text.now args) }
{
    let effects = effects_of(text, classes, labels, args.third, optional)?;
    let op = operator(args)?;
    Ok(Feature::Covariate {
        optional,
        parameters,
        covariates,
        effects,
        op,
    })
}

fn covariate(
    text: &[u8],
    classes: &Classes,
    labels: &Labels,
    args: Args,
    optional: bool,
    at: usize,
) -> Result<Feature, Refusal>
    requires { (classes.now ≡ class_table) × (labels.now ≡ label_table) × AllFit text.now args }
    ensures { (limit : ℕ) → Builds text.now limit COVARIATE optional at args result }
{
    if args.count < 3 || 4 < args.count {
        return Err(wrong_number(at));
    }
    let parameters = read_checks::operand_of(args.first)?;
    let covariates = read_checks::operand_of(args.second)?;
    covariate_with(
        text, classes, labels, parameters, covariates, args, optional,
    )
}

// A number as the second argument, which may be left out.
fn reference(args: Args) -> Result<Option<Name>, Refusal>
    ensures { (s : List ℕ) → answered (some_in (name_in s)) result ≡ optionally (name_of a_number) (second_in s args) }
{
    if args.count == 1 {
        return Ok(None);
    }
    let name = read_checks::number_of(args.second)?;
    Ok(Some(name))
}

fn allometry(args: Args, optional: bool, at: usize) -> Result<Feature, Refusal>
    ensures { (s : List ℕ) (limit : ℕ) → Builds s limit ALLOMETRY optional at args result }
{
    if args.count == 0 || 2 < args.count {
        return Err(wrong_number(at));
    }
    let covariate = read_checks::word_of(args.first)?;
    let reference = reference(args)?;
    let feature = Feature::Allometry {
        covariate,
        reference,
    };
    mandatory(feature, optional, at)
}

fn indirect_effect(
    text: &[u8],
    classes: &Classes,
    labels: &Labels,
    args: Args,
    optional: bool,
    at: usize,
) -> Result<Feature, Refusal>
    requires { (classes.now ≡ class_table) × (labels.now ≡ label_table) × AllFit text.now args }
    ensures { (limit : ℕ) → Builds text.now limit INDIRECTEFFECT optional at args result }
{
    if args.count != 2 {
        return Err(wrong_number(at));
    }
    let mode = read_checks::modes_of(text, classes, labels, Family::PdMode, args.first)?;
    let production = read_checks::modes_of(
        text,
        classes,
        labels,
        Family::ProductionMode,
        args.second,
    )?;
    mandatory(Feature::IndirectEffect { mode, production }, optional, at)
}

// The arguments of IIV and IOV.
fn eta(
    text: &[u8],
    classes: &Classes,
    labels: &Labels,
    args: Args,
    at: usize,
) -> Result<Variability, Refusal>
    requires { (classes.now ≡ class_table) × (labels.now ≡ label_table) × AllFit text.now args }
    ensures { (k : Name·spec) → k.place ≡ at → answered (eta_in text.now) result ≡ eta_of k (args_in text.now args) }
{
    if args.count != 2 {
        return Err(wrong_number(at));
    }
    let parameters = read_checks::operand_of(args.first)?;
    let effects = read_checks::modes_of(
        text,
        classes,
        labels,
        Family::VariabilityEffect,
        args.second,
    )?;
    Ok(Variability {
        parameters,
        effects,
    })
}

fn iiv(
    text: &[u8],
    classes: &Classes,
    labels: &Labels,
    args: Args,
    optional: bool,
    at: usize,
) -> Result<Feature, Refusal>
    requires { (classes.now ≡ class_table) × (labels.now ≡ label_table) × AllFit text.now args }
    ensures { (limit : ℕ) → Builds text.now limit IIV optional at args result }
{
    let eta = eta(text, classes, labels, args, at)?;
    Ok(Feature::Iiv {
        optional,
        parameters: eta.parameters,
        effects: eta.effects,
    })
}

fn iov(
    text: &[u8],
    classes: &Classes,
    labels: &Labels,
    args: Args,
    optional: bool,
    at: usize,
) -> Result<Feature, Refusal>
    requires { (classes.now ≡ class_table) × (labels.now ≡ label_table) × AllFit text.now args }
    ensures { (limit : ℕ) → Builds text.now limit IOV optional at args result }
{
    let eta = eta(text, classes, labels, args, at)?;
    Ok(Feature::Iov {
        optional,
        parameters: eta.parameters,
        effects: eta.effects,
    })
}

fn covariance(
    text: &[u8],
    classes: &Classes,
    labels: &Labels,
    args: Args,
    optional: bool,
    at: usize,
) -> Result<Feature, Refusal>
    requires { (classes.now ≡ class_table) × (labels.now ≡ label_table) × AllFit text.now args }
    ensures { (limit : ℕ) → Builds text.now limit COVARIANCE optional at args result }
{
    if args.count != 2 {
        return Err(wrong_number(at));
    }
    let level = read_checks::modes_of(text, classes, labels, Family::VariabilityLevel, args.first)?;
    let parameters = read_checks::operand_of(args.second)?;
    Ok(Feature::Covariance {
        optional,
        level,
        parameters,
    })
}

// The first seven keywords of the table.
fn build_early(
    text: &[u8],
    classes: &Classes,
    labels: &Labels,
    keyword: usize,
    args: Args,
    optional: bool,
    at: usize,
    limit: u32,
) -> Result<Feature, Refusal>
    requires classes_value { (classes.now ≡ class_table) × (labels.now ≡ label_table) × AllFit text.now args }
    requires keyword_bound { keyword < 7 }
    ensures { BuildsKnown text.now limit keyword optional at args result }
{
    match keyword {
        0 => modes_alone(text, classes, labels, Alone::Absorption, args, optional, at),
        1 => modes_alone(
            text,
            classes,
            labels,
            Alone::Elimination,
            args,
            optional,
            at,
        ),
        2 => peripherals(text, classes, labels, args, optional, at, limit),
        3 => transits(text, classes, labels, args, optional, at, limit),
        4 => modes_alone(text, classes, labels, Alone::Lagtime, args, optional, at),
        5 => covariate(text, classes, labels, args, optional, at),
        _ => allometry(args, optional, at),
    }
}

// The other keywords of the table, of which LET is no feature's.
fn build_late(
    text: &[u8],
    classes: &Classes,
    labels: &Labels,
    keyword: usize,
    args: Args,
    optional: bool,
    at: usize,
    limit: u32,
) -> Result<Feature, Refusal>
    requires classes_value { (classes.now ≡ class_table) × (labels.now ≡ label_table) × AllFit text.now args }
    requires le_keyword { 7 ≤ keyword }
    ensures { BuildsKnown text.now limit keyword optional at args result }
{
    match keyword {
        7 => modes_alone(
            text,
            classes,
            labels,
            Alone::DirectEffect,
            args,
            optional,
            at,
        ),
        8 => modes_alone(text, classes, labels, Alone::EffectComp, args, optional, at),
        9 => indirect_effect(text, classes, labels, args, optional, at),
        10 => modes_alone(text, classes, labels, Alone::Metabolite, args, optional, at),
        11 => iiv(text, classes, labels, args, optional, at),
        12 => iov(text, classes, labels, args, optional, at),
        13 => covariance(text, classes, labels, args, optional, at),
        _ => Err(Refusal {
            fault: Fault::UnknownKeyword,
            place: at,
        }),
    }
}

// A feature by its keyword's place in the table.
pub fn build_known(
    text: &[u8],
    classes: &Classes,
    labels: &Labels,
    keyword: usize,
    args: Args,
    optional: bool,
    at: usize,
    limit: u32,
) -> Result<Feature, Refusal>
    requires { (classes.now ≡ class_table) × (labels.now ≡ label_table) × AllFit text.now args }
    ensures { BuildsKnown text.now limit keyword optional at args result }
{
    if keyword < 7 {
        return build_early(text, classes, labels, keyword, args, optional, at, limit);
    }
    build_late(text, classes, labels, keyword, args, optional, at, limit)
}

// A feature by its keyword and its arguments, with its `?`, under a limit for counts.
pub fn build(
    text: &[u8],
    classes: &Classes,
    labels: &Labels,
    keys: &Keywords,
    keyword: Name,
    args: Args,
    optional: bool,
    limit: u32,
) -> Result<Feature, Refusal>
    requires classes_value { (classes.now ≡ class_table) × (labels.now ≡ label_table) × (keys.now ≡ keyword_table) }
    requires in_text { InText text.now keyword × AllFit text.now args }
    ensures { answered (feature_in text.now) result ≡ build_feature limit (name_in text.now keyword) optional (args_in text.now args) }
{
    let Some(place) = labels::find_keyword(keys, read_forms::spelling(text, keyword)) else {
        return Err(Refusal {
            fault: Fault::UnknownKeyword,
            place: keyword.offset,
        });
    };
    build_known(
        text,
        classes,
        labels,
        place,
        args,
        optional,
        keyword.offset,
        limit,
    )
}
