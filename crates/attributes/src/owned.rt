// The inherited attributes that each nonterminal owns.
ghost use Rattle.std.specs.Prelude.{◌≡◌, List, ℕ, ◌<◌, length, replicate};
ghost use Rattle.grammar.specs.Limits.{MAX_INHERITED};
ghost use Rattle.grammar.specs.Data.Book.{owner_at};
ghost use Rattle.book.specs.Held.{OwnersIn};
ghost use Rattle.attributes.specs.Owned.{OwnedIn};

// For each nonterminal the set of the inherited attributes that it owns, of the `count` that there are.
pub fn owned(owners: &[u32], count: usize, sets: &mut [u32])
    requires { ((os : List ℕ) × OwnersIn MAX_INHERITED os owners.now × (length os ≡ count) × ((K : ℕ) → K < count → owner_at os K < 32))
        × (sets.old ≡ replicate 32 0) }
    ensures { (os : List ℕ) → OwnersIn MAX_INHERITED os owners.now → length os ≡ count → OwnedIn os count sets.new }
{
    for i in 0..count {
        let owner = owners[i] as usize;
        sets[owner] = sets::with(sets[owner], i as u32);
    }
}
