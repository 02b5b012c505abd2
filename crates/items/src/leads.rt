// The rules that derive anything: those whose right side begins with a nonterminal. A pass over the rules goes from one to the next.
ghost use Rattle.std.specs.Prelude.{◌≡◌, ◌+◌, ◌*◌, ◌≤◌, ◌<◌, length};
ghost use Rattle.items.specs.Leads.{derives_code, Leads};

// Whether the right side of a rule begins with a nonterminal.
fn derives(rules: &[u32], rule: usize) -> bool
    requires { 10 * rule + 2 < length rules.now }
    ensures { result ≡ derives_code rules.now rule }
{
    (rules[10 * rule + 1] != 0) & (32 <= rules[10 * rule + 2])
}

// By each rule the first one from it on that derives anything, or the number of rules where there is none.
pub fn fill_leads(rules: &[u32], count: usize, leads: &mut [u8])
    requires { (10 * count ≤ length rules.now) × (count ≤ 64) × (length leads.old ≡ 65) }
    ensures { Leads rules.now count leads.new }
{
    let mut lead = count as u8;
    leads[count] = lead;
    for rule in (0..count).rev() {
        if derives(rules, rule) {
            lead = rule as u8;
        }
        leads[rule] = lead;
    }
}
