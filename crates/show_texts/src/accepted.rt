// What would have been accepted, for messages: what each argument of each feature must be, and the labels and keywords that there are. These
// are those of the tables by which texts are read.
pub use crate::accepted_tables::{put_keyword, put_keywords, put_label, put_modes};
use crate::keywords::Keyword;
use labels::Family;
use show_pages::pages::Page;

// What an argument must be.
#[derive(Clone, Copy)]
pub enum Wanted {
    Modes(Family),
    Counts,
    CountsOrN,
    Parameters,
    Covariates,
    Operator,
    Covariate,
    Reference,
    Values,
}

// What an argument must be, by its feature's keyword and its own place from 0.
pub fn wanted_of(keyword: Option<Keyword>, argument: usize) -> Option<Wanted> {
    Some(match keyword? {
        Keyword::Absorption => Wanted::Modes(Family::AbsorptionMode),
        Keyword::Elimination => Wanted::Modes(Family::EliminationMode),
        Keyword::Peripherals if argument == 0 => Wanted::Counts,
        Keyword::Peripherals => Wanted::Modes(Family::PeripheralKind),
        Keyword::Transits if argument == 0 => Wanted::CountsOrN,
        Keyword::Transits => Wanted::Modes(Family::DepotMode),
        Keyword::Lagtime => Wanted::Modes(Family::LagtimeMode),
        Keyword::Covariate => match argument {
            0 => Wanted::Parameters,
            1 => Wanted::Covariates,
            2 => Wanted::Modes(Family::CovariateEffect),
            _ => Wanted::Operator,
        },
        Keyword::Allometry if argument == 0 => Wanted::Covariate,
        Keyword::Allometry => Wanted::Reference,
        Keyword::DirectEffect | Keyword::EffectComp => Wanted::Modes(Family::PdMode),
        Keyword::IndirectEffect if argument == 0 => Wanted::Modes(Family::PdMode),
        Keyword::IndirectEffect => Wanted::Modes(Family::ProductionMode),
        Keyword::Metabolite => Wanted::Modes(Family::MetaboliteMode),
        Keyword::Iiv | Keyword::Iov if argument == 0 => Wanted::Parameters,
        Keyword::Iiv | Keyword::Iov => Wanted::Modes(Family::VariabilityEffect),
        Keyword::Covariance if argument == 0 => Wanted::Modes(Family::VariabilityLevel),
        Keyword::Covariance => Wanted::Parameters,
        Keyword::Let => Wanted::Values,
    })
}

// How many arguments a feature takes, and what they are.
pub fn put_arguments(page: &mut Page, keyword: Option<Keyword>) {
    page.put_str(match keyword {
        Some(Keyword::Peripherals) => "1 or 2 arguments: counts, and then DRUG or MET",
        Some(Keyword::Transits) => "1 or 2 arguments: counts or N, and then DEPOT or NODEPOT",
        Some(Keyword::Covariate) =>
            "3 or 4 arguments: parameters, covariates, effects, and then the operator, `+` or `*`",
        Some(Keyword::Allometry) => "1 or 2 arguments: a covariate, and then its reference value",
        Some(Keyword::IndirectEffect) => "2 arguments: modes, and then PRODUCTION or DEGRADATION",
        Some(Keyword::Iiv | Keyword::Iov) => "2 arguments: parameters, and then effects",
        Some(Keyword::Covariance) => "2 arguments: IIV or IOV, and then parameters",
        _ => "1 argument: a mode, an array of modes or `*`",
    });
}

// An argument that is wanted, in words.
pub fn put_wanted(page: &mut Page, want: Option<Wanted>) {
    page.put_str(match want {
        Some(Wanted::Modes(_)) => "a mode, an array of modes or `*`; the modes are ",
        Some(Wanted::Counts) =>
            "a count such as 2, a range such as 0..2, or an array of counts such as [0,2]",
        Some(Wanted::CountsOrN) =>
            "a count such as 2, a range such as 0..2, an array of counts such as [0,2], or N",
        Some(Wanted::Parameters) => "a parameter's name, an array of names, `@SYMBOL` or `*`",
        Some(Wanted::Covariates) => "a covariate's name, an array of names, `@SYMBOL` or `*`",
        Some(Wanted::Operator) => "the operator, `+` or `*`",
        Some(Wanted::Covariate) => "a covariate's name",
        Some(Wanted::Reference) => "a number, the reference value",
        Some(Wanted::Values) => "a name, a number, or an array of them",
        None => "no argument",
    });
    if let Some(Wanted::Modes(family)) = want {
        put_modes(page, family);
    }
}
