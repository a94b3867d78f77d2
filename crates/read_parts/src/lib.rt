// A statement taken apart, whatever the feature: its keyword, its `?` and its arguments. The one place of the code that goes by features once
// they are read.
#![tactic(auto)]

ghost use Rattle.std.specs.Prelude.{◌≡◌};
ghost use Rattle.read_parts.specs.Apart.{some_modes_part, some_name_part, transits_part, one as one·spec, two as two·spec, feature_apart, apart};

use labels::Family;
use read_forms::{
    Counts, CovariateOp, Feature, Items, Modes, Name, Operand, Statement, TransitCounts,
};

// An argument of a statement: none where a feature has no more, or one that may be left out, and is.
#[derive(Clone, Copy)]
pub enum Part {
    Absent,
    Modes(Family, Modes),
    Counts(Counts),
    N,
    Operand(Operand),
    Name(Name),
    Values(Items),
    Op(CovariateOp),
    Omitted,
}

// A statement by its keyword's place, its `?` and its arguments: the first is there.
#[derive(Clone, Copy)]
pub struct Parts {
    pub keyword: usize,
    pub optional: bool,
    pub first: Part,
    pub second: Part,
    pub third: Part,
    pub fourth: Part,
}

// Modes that may be left out.
fn some_modes(family: Family, modes: Option<Modes>) -> Part
    ensures { result ≡ some_modes_part family modes }
{
    match modes {
        None => Part::Omitted,
        Some(m) => Part::Modes(family, m),
    }
}

// A name that may be left out.
fn some_name(name: Option<Name>) -> Part
    ensures { result ≡ some_name_part name }
{
    match name {
        None => Part::Omitted,
        Some(n) => Part::Name(n),
    }
}

fn transits(counts: TransitCounts) -> Part
    ensures { result ≡ transits_part counts }
{
    match counts {
        TransitCounts::N => Part::N,
        TransitCounts::Counts(c) => Part::Counts(c),
    }
}

fn one(keyword: usize, family: Family, modes: Modes) -> Parts
    ensures { result ≡ one·spec keyword family modes }
{
    Parts {
        keyword,
        optional: false,
        first: Part::Modes(family, modes),
        second: Part::Absent,
        third: Part::Absent,
        fourth: Part::Absent,
    }
}

fn two(keyword: usize, optional: bool, first: Part, second: Part) -> Parts
    ensures { result ≡ two·spec keyword optional first second }
{
    Parts {
        keyword,
        optional,
        first,
        second,
        third: Part::Absent,
        fourth: Part::Absent,
    }
}

// The parts of a feature.
fn feature_parts(f: Feature) -> Parts
    ensures { result ≡ feature_apart f }
{
    match f {
        Feature::Absorption(m) => one(0, Family::AbsorptionMode, m),
        Feature::Elimination(m) => one(1, Family::EliminationMode, m),
        Feature::Peripherals { counts, kind } => two(
            2,
            false,
            Part::Counts(counts),
            some_modes(Family::PeripheralKind, kind),
        ),
        Feature::Transits { counts, depot } => two(
            3,
            false,
            transits(counts),
            some_modes(Family::DepotMode, depot),
        ),
        Feature::Lagtime(m) => one(4, Family::LagtimeMode, m),
        Feature::Covariate {
            optional,
            parameters,
            covariates,
            effects,
            op,
        } => Parts {
            keyword: 5,
            optional,
            first: Part::Operand(parameters),
            second: Part::Operand(covariates),
            third: Part::Modes(Family::CovariateEffect, effects),
            fourth: Part::Op(op),
        },
        Feature::Allometry {
            covariate,
            reference,
        } => two(6, false, Part::Name(covariate), some_name(reference)),
        Feature::DirectEffect(m) => one(7, Family::PdMode, m),
        Feature::EffectComp(m) => one(8, Family::PdMode, m),
        Feature::IndirectEffect { mode, production } => two(
            9,
            false,
            Part::Modes(Family::PdMode, mode),
            Part::Modes(Family::ProductionMode, production),
        ),
        Feature::Metabolite(m) => one(10, Family::MetaboliteMode, m),
        Feature::Iiv {
            optional,
            parameters,
            effects,
        } => two(
            11,
            optional,
            Part::Operand(parameters),
            Part::Modes(Family::VariabilityEffect, effects),
        ),
        Feature::Iov {
            optional,
            parameters,
            effects,
        } => two(
            12,
            optional,
            Part::Operand(parameters),
            Part::Modes(Family::VariabilityEffect, effects),
        ),
        Feature::Covariance {
            optional,
            level,
            parameters,
        } => two(
            13,
            optional,
            Part::Modes(Family::VariabilityLevel, level),
            Part::Operand(parameters),
        ),
    }
}

// The parts of a statement.
pub fn parts_of(statement: Statement) -> Parts
    ensures { result ≡ apart statement }
{
    match statement {
        Statement::Let { name, values } => two(14, false, Part::Name(name), Part::Values(values)),
        Statement::Feature(f) => feature_parts(f),
    }
}
