// A list of modes in one number: 8 groups of 4 bits, the first mode in the lowest, each its place in the family and 1. 0 ends the list.
#![tactic(auto)]

ghost use Rattle.std.specs.Prelude.{◌≡◌, ◌≤◌, ◌<◌, eqb, length};
ghost use Rattle.read_packs.specs.Packs.{places, Snug, Joined};

// One mode more, unless it stands there already.
pub fn with_place(packed: u32, place: u32) -> u32
    requires { Snug packed × (length (places packed) ≤ 7) × (place < 15) }
    ensures { Joined packed place result }
{
    let first = packed % 16;
    if first == 0 {
        return place + 1;
    }
    if first == place + 1 {
        return packed;
    }
    first + 16 * with_place(packed / 16, place)
}

// Whether it is one mode.
pub fn is_one(packed: u32) -> bool
    ensures { result ≡ eqb (length (places packed)) 1 }
{
    packed % 16 != 0 && packed / 16 % 16 == 0
}
