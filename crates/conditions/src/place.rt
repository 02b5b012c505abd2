// What a leaf of a definition's expression reads.
ghost use Rattle.std.specs.Prelude.{◌≡◌, ◌+◌, ◌≤◌, length};
ghost use Rattle.conditions.specs.Places.{place_in};

#[derive(Clone, Copy)]
pub enum Place {
    // An inherited attribute of the rule's left side.
    Own(u32),
    // A synthesized attribute of the right symbol at a position.
    At(u32, u32),
    // The value of the terminal at a position.
    Val(u32),
}

// What the node reads whose words begin at `k`. None for a number, an operation and a choice.
pub fn place_at(definitions: &[u32], k: usize) -> Option<Place>
    requires { k + 3 ≤ length definitions.now }
    ensures { result ≡ place_in definitions.now k }
{
    let first = definitions[k + 1];
    match definitions[k] {
        1 => Some(Place::Own(first)),
        2 => Some(Place::At(first, definitions[k + 2])),
        3 => Some(Place::Val(first)),
        _ => None,
    }
}
