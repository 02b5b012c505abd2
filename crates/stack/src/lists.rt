// The attributes of each nonterminal as lists, by which a row's values are read.
ghost use Rattle.std.specs.Prelude.{◌≡◌, List, ℕ, replicate};
ghost use Rattle.stack.specs.Lists.{Listable, ListsIn};

// Fills five words for each nonterminal: how many of the `count` attributes it owns, and their numbers in order.
pub fn fill_lists(owners: &[u32], count: usize, lists: &mut [u32])
    requires { ((room : ℕ) × (os : List ℕ) × Listable room os owners.now count) × (lists.old ≡ replicate 160 0) }
    ensures { (room : ℕ) → (os : List ℕ) → Listable room os owners.now count → ListsIn os lists.new }
{
    for i in 0..count {
        let head = 5 * owners[i] as usize;
        let n = lists[head];
        lists[head + 1 + n as usize] = i as u32;
        lists[head] = n + 1;
    }
}
