// The keywords of a text's statements.

// In the order of the table of keywords.
#[derive(Clone, Copy, PartialEq, Eq)]
pub enum Keyword {
    Absorption,
    Elimination,
    Peripherals,
    Transits,
    Lagtime,
    Covariate,
    Allometry,
    DirectEffect,
    EffectComp,
    IndirectEffect,
    Metabolite,
    Iiv,
    Iov,
    Covariance,
    Let,
}

pub const KEYWORDS: [Keyword; 15] = [
    Keyword::Absorption,
    Keyword::Elimination,
    Keyword::Peripherals,
    Keyword::Transits,
    Keyword::Lagtime,
    Keyword::Covariate,
    Keyword::Allometry,
    Keyword::DirectEffect,
    Keyword::EffectComp,
    Keyword::IndirectEffect,
    Keyword::Metabolite,
    Keyword::Iiv,
    Keyword::Iov,
    Keyword::Covariance,
    Keyword::Let,
];

// The keyword that a word is, ignoring case.
pub fn keyword_of(word: &[u8]) -> Option<Keyword> {
    KEYWORDS.get(labels::keyword(word)?).copied()
}
