// The lists of a statement in arrays of their own.
#![tactic(auto)]

ghost use Rattle.std.specs.Prelude.{◌≡◌, true, ◌+◌, ◌≤◌, ◌<◌, length, take};
ghost use Rattle.tokens.specs.Class.{class_table};
ghost use Rattle.counts.specs.Count.{count_of};
ghost use Rattle.read_forms.specs.Items.{name_in, items_in};
ghost use Rattle.read_forms.specs.Forms.{count_or0, values_in};
ghost use Rattle.read_forms.specs.Fits.{InText, Listed};
ghost use Rattle.read_lists.specs.Lists.{items_for};

use read_forms::{Item, Items, Kind, Name};
use tokens::Classes;

fn no_items() -> [Item; 64]
    ensures { length result ≡ 64 }
{
    [Item {
        kind: Kind::Word,
        name: Name {
            offset: 0,
            length: 0,
        },
    }; 64]
}

// The entries of a list, in its order, which is that of their offsets.
pub fn items_of(text: &[u8], classes: &Classes, items: Items) -> [Item; 64]
    requires { (classes.now ≡ class_table) × Listed text.now items }
    ensures { take items.count result ≡ items_for (items_in text.now items) }
{
    let mut all = no_items();
    let mut cur = items.first;
    for i in 0..items.count {
        let entry = read_checks::entry_at(text, classes, cur);
        all[i] = Item {
            kind: entry.kind,
            name: entry.name,
        };
        cur = read_checks::after_entry(text, classes, entry);
    }
    all
}

// A count of the text as a 32-bit number; 0 for what is none.
pub fn count_or_0(text: &[u8], name: Name) -> u32
    requires { InText text.now name }
    ensures { result ≡ count_or0 (count_of 4294967295 (name_in text.now name).spelling) }
{
    read_forms::count_at(text, name, u32::MAX).unwrap_or(0)
}

fn no_counts() -> [u32; 64]
    ensures { length result ≡ 64 }
{
    [0; 64]
}

// The counts of a list, in its order.
pub fn counts_of(text: &[u8], classes: &Classes, items: Items) -> [u32; 64]
    requires { (classes.now ≡ class_table) × Listed text.now items }
    ensures { take items.count result ≡ values_in (items_in text.now items) }
{
    let mut counts = no_counts();
    let mut cur = items.first;
    for n in 0..items.count {
        let entry = read_checks::entry_at(text, classes, cur);
        counts[n] = count_or_0(text, entry.name);
        cur = read_checks::after_entry(text, classes, entry);
    }
    counts
}
