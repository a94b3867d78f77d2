// The labels of the modes and the keywords of the features: looked up ignoring case, and given by their places.
#![tactic(auto)]

ghost use Rattle.std.specs.Prelude.{◌≡◌, true, [], ◌<◌, length, get_or};
ghost use Rattle.labels.specs.Word.{same_word, find};
ghost use Rattle.labels.specs.Label.{mark_of, labels_of, keywords};
ghost use Rattle.labels.specs.Table.{label_table, keyword_table, found_as};
ghost use Rattle.labels.specs.Row.{label_at, labels_in, row_fits, rows_fit, Holds};
ghost use Rattle.labels.specs.Likely.{likely_place};

// The mode families of the grammar.
#[derive(Clone, Copy)]
pub enum Family {
    AbsorptionMode,
    EliminationMode,
    PeripheralKind,
    DepotMode,
    LagtimeMode,
    CovariateEffect,
    PdMode,
    ProductionMode,
    MetaboliteMode,
    VariabilityEffect,
    VariabilityLevel,
}

// The bytes of a row of a table. Each row has a label: its family's mark, the number of the label's bytes, these bytes, and then digits. A compiler
// makes such a row in one piece, and one with zeros in several, at every call.
pub const ROW: usize = 16;

pub type Labels = [u8; 38 * ROW];

pub type Keywords = [u8; 15 * ROW];

pub const LABELS: Labels = *b"\
    \x00\x04INST0123456789\
    \x00\x02FO0123456789ab\
    \x00\x02ZO0123456789ab\
    \x00\x09SEQ-ZO-FO01234\
    \x00\x07WEIBULL0123456\
    \x01\x02FO0123456789ab\
    \x01\x02ZO0123456789ab\
    \x01\x02MM0123456789ab\
    \x01\x09MIX-FO-MM01234\
    \x02\x04DRUG0123456789\
    \x02\x03MET0123456789a\
    \x03\x05DEPOT012345678\
    \x03\x07NODEPOT0123456\
    \x04\x03OFF0123456789a\
    \x04\x02ON0123456789ab\
    \x05\x03lin0123456789a\
    \x05\x09piece_lin01234\
    \x05\x03exp0123456789a\
    \x05\x03pow0123456789a\
    \x05\x03cat0123456789a\
    \x05\x04cat20123456789\
    \x05\x06custom01234567\
    \x06\x06LINEAR01234567\
    \x06\x04EMAX0123456789\
    \x06\x07SIGMOID0123456\
    \x06\x04STEP0123456789\
    \x06\x06LOGLIN01234567\
    \x07\x0aPRODUCTION0123\
    \x07\x0bDEGRADATION012\
    \x08\x05BASIC012345678\
    \x08\x03PSC0123456789a\
    \x09\x03EXP0123456789a\
    \x09\x03ADD0123456789a\
    \x09\x04PROP0123456789\
    \x09\x03LOG0123456789a\
    \x09\x06RE_LOG01234567\
    \x0a\x03IIV0123456789a\
    \x0a\x03IOV0123456789a\
";

// The keywords have a mark of their own, the one after the families'.
pub const KEYWORDS: Keywords = *b"\
    \x0b\x0aABSORPTION0123\
    \x0b\x0bELIMINATION012\
    \x0b\x0bPERIPHERALS012\
    \x0b\x08TRANSITS012345\
    \x0b\x07LAGTIME0123456\
    \x0b\x09COVARIATE01234\
    \x0b\x09ALLOMETRY01234\
    \x0b\x0cDIRECTEFFECT01\
    \x0b\x0aEFFECTCOMP0123\
    \x0b\x0eINDIRECTEFFECT\
    \x0b\x0aMETABOLITE0123\
    \x0b\x03IIV0123456789a\
    \x0b\x03IOV0123456789a\
    \x0b\x0aCOVARIANCE0123\
    \x0b\x03LET0123456789a\
";

// Whether two words are the same, ignoring case. The lengths are compared before the bytes: most labels differ from a word there already.
// Bytes are compared as they are before their lower cases: most words that are a label are spelled as it is.
pub fn same_word(word: &[u8], label: &[u8]) -> bool
    ensures { result ≡ same_word word.now label.now }
{
    if word.len() != label.len() {
        return false;
    }
    for i in 0..word.len() {
        let a = word[i];
        let b = label[i];
        if a != b && a.to_ascii_lowercase() != b.to_ascii_lowercase() {
            return false;
        }
    }
    true
}

// The label of a row, as a part of the table.
fn label_at(table: &[u8], row: usize) -> &[u8]
    requires { row_fits table.now row ≡ true }
    ensures { result.now ≡ label_at table.now row }
{
    let at = ROW * row;
    let count = table[at + 1] as usize;
    let start = at + 2;
    let end = start + count;
    &table[start..end]
}

// The place of a word among the labels of some rows, counted from zero.
fn find_rows(table: &[u8], first: usize, count: usize, word: &[u8]) -> Option<usize>
    requires { rows_fit table.now first count ≡ true }
    ensures { result ≡ found_as (find word.now (labels_in table.now first count)) }
{
    for place in 0..count {
        let label = label_at(table, first + place);
        if same_word(word, label) {
            return Some(place);
        }
    }
    None
}

// The rows of a family, which are those with its mark: the first, and how many.
#[derive(Clone, Copy)]
struct Rows(usize, usize);

// A look-up visits the rows of one family alone.
fn rows_of(family: Family) -> Rows
    ensures { Holds label_table (mark_of family) result.0 result.1 (labels_of family) }
{
    match family {
        Family::AbsorptionMode => Rows(0, 5),
        Family::EliminationMode => Rows(5, 4),
        Family::PeripheralKind => Rows(9, 2),
        Family::DepotMode => Rows(11, 2),
        Family::LagtimeMode => Rows(13, 2),
        Family::CovariateEffect => Rows(15, 7),
        Family::PdMode => Rows(22, 5),
        Family::ProductionMode => Rows(27, 2),
        Family::MetaboliteMode => Rows(29, 2),
        Family::VariabilityEffect => Rows(31, 5),
        Family::VariabilityLevel => Rows(36, 2),
    }
}

// The place of a mode's label in its family. The outermost caller makes the table once and lends it: a constant is built anew wherever it
// is indexed.
pub fn find_mode(labels: &Labels, family: Family, word: &[u8]) -> Option<usize>
    requires { labels.now ≡ label_table }
    ensures { result ≡ found_as (find word.now (labels_of family)) }
{
    let rows = rows_of(family);
    find_rows(labels, rows.0, rows.1, word)
}

// The place of the one keyword that a word with so many bytes and this second letter, in lower case, can be.
fn likely(count: usize, second: u8) -> usize
    ensures { result ≡ likely_place count second }
{
    match count {
        3 => match second {
            b'i' => 11,
            b'o' => 12,
            _ => 14,
        },
        7 => 4,
        8 => 3,
        9 => match second {
            b'o' => 5,
            _ => 6,
        },
        10 => match second {
            b'b' => 0,
            b'f' => 8,
            b'e' => 10,
            _ => 13,
        },
        11 => match second {
            b'l' => 1,
            _ => 2,
        },
        12 => 7,
        _ => 9,
    }
}

// The place of a keyword, in the table that the outermost caller lends. At most one row is compared: no two keywords have both their length
// and their second letter in common.
pub fn find_keyword(keys: &Keywords, word: &[u8]) -> Option<usize>
    requires { keys.now ≡ keyword_table }
    ensures { result ≡ found_as (find word.now keywords) }
{
    if word.len() < 3 {
        return None;
    }
    let place = likely(word.len(), word[1].to_ascii_lowercase());
    let label = label_at(keys, place);
    if same_word(word, label) {
        return Some(place);
    }
    None
}

// No bytes of a table.
fn no_label(table: &[u8]) -> &[u8]
    ensures { result.now ≡ [] }
{
    &table[..0]
}

// The label of a mode, as a part of the table; what is no place has no bytes.
pub fn mode_label(labels: &Labels, family: Family, place: usize) -> &[u8]
    requires { labels.now ≡ label_table }
    ensures { result.now ≡ get_or (labels_of family) place [] }
{
    let rows = rows_of(family);
    if rows.1 <= place {
        return no_label(labels);
    }
    label_at(labels, rows.0 + place)
}

// A keyword, as a part of the table.
pub fn keyword_label(keys: &Keywords, place: usize) -> &[u8]
    requires keys_value { keys.now ≡ keyword_table }
    requires place_in_bounds { place < length keywords }
    ensures { result.now ≡ get_or keywords place [] }
{
    label_at(keys, place)
}

// A single look-up, which makes the table itself.
pub fn mode(family: Family, word: &[u8]) -> Option<usize>
    ensures { result ≡ found_as (find word.now (labels_of family)) }
{
    let labels = LABELS;
    find_mode(&labels, family, word)
}

// A single look-up of a keyword.
pub fn keyword(word: &[u8]) -> Option<usize>
    ensures { result ≡ found_as (find word.now keywords) }
{
    let keys = KEYWORDS;
    find_keyword(&keys, word)
}
