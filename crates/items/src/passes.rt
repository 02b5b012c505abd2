// A set of a family made larger: the one step of every search for a least family.
ghost use Rattle.std.specs.Prelude.{◌<◌, length};
ghost use Rattle.items.specs.Passes.{Told, given};

// Gives `more` to the set at `target`; whether that changed it.
pub fn give(family: &mut [u32], target: u32, more: u32) -> bool
    requires { target < length family.old }
    ensures { Told (given target more family.old) family.old family.new result }
{
    let i = target as usize;
    let old = family[i];
    let new = sets::union(old, more);
    if new == old {
        return false;
    }
    family[i] = new;
    true
}
