// What is read of a text: arguments, and statements made of them. A list stays in the text: a form says where it starts and how many
// entries it has.
#![tactic(auto)]

ghost use Rattle.std.specs.Prelude.{◌≡◌};
ghost use Rattle.counts.specs.Count.{count_of};
ghost use Rattle.read_forms.specs.Items.{name_in};
ghost use Rattle.read_forms.specs.Fits.{InText};
ghost use Rattle.reading.specs.Argument.{count_at as judged};
ghost use Rattle.read_forms.specs.Faults.{answered, same};
ghost use Rattle.read_forms.specs.Admission.{AdmissionAs};

use tokens::Cursor;

// A name or a symbol: the offset of its first byte, and how many it has.
#[derive(Clone, Copy)]
pub struct Name {
    pub offset: usize,
    pub length: usize,
}

// What an entry of a list is.
#[derive(Clone, Copy)]
pub enum Kind {
    Word,
    Number,
}

// An entry of an array, and a value of a LET.
#[derive(Clone, Copy)]
pub struct Item {
    pub kind: Kind,
    pub name: Name,
}

// The entries of an array, or one word or number alone: the cursor from which the first is read, and how many there are.
#[derive(Clone, Copy)]
pub struct Items {
    pub first: Cursor,
    pub count: usize,
}

// An argument before its feature says what it means, with the offset of its first byte.
#[derive(Clone, Copy)]
pub enum Arg {
    Star(usize),
    Plus(usize),
    Symbol { at: usize, name: Name },
    Word(Name),
    Number(Name),
    Range { at: usize, low: u32, high: u32 },
    Array { at: usize, items: Items },
}

// How many arguments there are, and the first four: no feature takes more.
#[derive(Clone, Copy)]
pub struct Args {
    pub count: usize,
    pub first: Arg,
    pub second: Arg,
    pub third: Arg,
    pub fourth: Arg,
}

// Why a call refuses what it is given: the paper's faults, each with its number.
#[derive(Clone, Copy, PartialEq, Eq)]
pub enum Fault {
    TooLong = 1,
    BadByte = 2,
    Unexpected = 3,
    BadCount = 4,
    Backwards = 5,
    UnknownKeyword = 6,
    NotOptional = 7,
    WrongNumber = 8,
    WrongArgument = 9,
    UnknownMode = 10,
    TooMany = 11,
    WrongContext = 12,
    SecondLet = 13,
    UnknownSymbol = 14,
    UnknownName = 15,
    WrongKind = 16,
    ForcedTwice = 17,
    TooLarge = 18,
    TooShort = 19,
    NoStatement = 20,
    CeilingTooHigh = 21,
    OutsideProfile = 22,
    SecondStatement = 23,
    CountAboveTen = 24,
}

// A refusal: its fault, and the place in the text or the index of the statement that it names.
#[derive(Clone, Copy)]
pub struct Refusal {
    pub fault: Fault,
    pub place: usize,
}

// All modes of a family, or some, packed into a number (`packs`).
#[derive(Clone, Copy)]
pub enum Modes {
    Wildcard,
    List(u32),
}

#[derive(Clone, Copy)]
pub enum Counts {
    Single(u32),
    Range(u32, u32),
    List(Items),
}

#[derive(Clone, Copy)]
pub enum TransitCounts {
    N,
    Counts(Counts),
}

#[derive(Clone, Copy)]
pub enum Operand {
    Wildcard,
    Symbol(Name),
    Names(Items),
}

#[derive(Clone, Copy)]
pub enum CovariateOp {
    Multiply,
    Add,
}

// A feature with its arguments; one that may be left out is an Option.
#[derive(Clone, Copy)]
pub enum Feature {
    Absorption(Modes),
    Elimination(Modes),
    Peripherals {
        counts: Counts,
        kind: Option<Modes>,
    },
    Transits {
        counts: TransitCounts,
        depot: Option<Modes>,
    },
    Lagtime(Modes),
    Covariate {
        optional: bool,
        parameters: Operand,
        covariates: Operand,
        effects: Modes,
        op: CovariateOp,
    },
    Allometry {
        covariate: Name,
        reference: Option<Name>,
    },
    DirectEffect(Modes),
    EffectComp(Modes),
    IndirectEffect {
        mode: Modes,
        production: Modes,
    },
    Metabolite(Modes),
    Iiv {
        optional: bool,
        parameters: Operand,
        effects: Modes,
    },
    Iov {
        optional: bool,
        parameters: Operand,
        effects: Modes,
    },
    Covariance {
        optional: bool,
        level: Modes,
        parameters: Operand,
    },
}

#[derive(Clone, Copy)]
pub enum Statement {
    Let { name: Name, values: Items },
    Feature(Feature),
}

// A name's bytes, as a part of the text.
pub fn spelling(text: &[u8], name: Name) -> &[u8]
    requires { InText text.now name }
    ensures { result.now ≡ (name_in text.now name).spelling }
{
    let start = name.offset;
    let end = start + name.length;
    &text[start..end]
}

// A number of the text as a count.
pub fn count_at(text: &[u8], name: Name, limit: u32) -> Option<u32>
    requires { InText text.now name }
    ensures { result ≡ count_of limit (name_in text.now name).spelling }
{
    counts::count_of(spelling(text, name), limit)
}

// The same, or the refusal of what is no count.
pub fn judge_count(text: &[u8], name: Name, limit: u32) -> Result<u32, Refusal>
    requires { InText text.now name }
    ensures { answered same result ≡ judged limit (name_in text.now name) }
{
    count_at(text, name, limit).ok_or(Refusal {
        fault: Fault::BadCount,
        place: name.offset,
    })
}

// What comes before reading: the ceiling for counts, and then the text's length.
pub fn admit(text: &[u8], limit: u32) -> Result<(), Refusal>
    ensures { AdmissionAs limit text.now result }
{
    if 256 < limit {
        return Err(Refusal {
            fault: Fault::CeilingTooHigh,
            place: 0,
        });
    }
    if 16384 < text.len() {
        return Err(Refusal {
            fault: Fault::TooLong,
            place: 0,
        });
    }
    Ok(())
}
