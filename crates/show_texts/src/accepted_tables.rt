// The labels and the keywords of the tables, as lists.
use crate::keywords::{KEYWORDS, Keyword};
use labels::Family;
use show_pages::pages::Page;

// The label at a place of its family; nothing where the family has none there.
fn label_at(family: Family, place: usize) -> &'static [u8] {
    labels::mode_label(&labels::LABELS, family, place)
}

pub fn put_label(page: &mut Page, family: Family, place: usize) {
    page.put_all(label_at(family, place));
}

// The labels of a family. None has more than 16.
pub fn put_modes(page: &mut Page, family: Family) {
    for place in 0..16 {
        let label = label_at(family, place);
        if label.is_empty() {
            return;
        }
        if 0 < place {
            page.put_str(", ");
        }
        page.put_all(label);
    }
}

// A keyword, if there is one.
pub fn put_keyword(page: &mut Page, keyword: Option<Keyword>) {
    if let Some(keyword) = keyword {
        page.put_all(labels::keyword_label(&labels::KEYWORDS, keyword as usize));
    }
}

// All keywords.
pub fn put_keywords(page: &mut Page) {
    for (place, keyword) in KEYWORDS.iter().enumerate() {
        if 0 < place {
            page.put_str(", ");
        }
        put_keyword(page, Some(*keyword));
    }
}
