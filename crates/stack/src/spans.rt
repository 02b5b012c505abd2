// Where the synthesized attributes' definitions of each rule begin. The lines ascend by their rules, so one pass over them finds all.
ghost use Rattle.std.specs.Prelude.{◌≡◌, ◌*◌, ◌≤◌, length};
ghost use Rattle.grammar.specs.Data.Book.{Book};
ghost use Rattle.stack.specs.Spans.{Passes, LinesIn, SpansIn};

// Past the lines of one rule, from a line on.
fn past(definitions: &[u32], to: usize, rule: u32, first: usize) -> usize
    requires { (49 * to ≤ length definitions.now) × (first ≤ to) }
    ensures { Passes definitions.now to rule first result }
{
    for i in first..to {
        if definitions[49 * i] != rule {
            return i;
        }
    }
    to
}

// Fills `spans`: of the lines from `from` up to `to`, those of rule P stand from word P up to word P + 1.
pub fn fill_spans(definitions: &[u32], from: usize, to: usize, rules: u32, spans: &mut [u32])
    requires { ((b : Book) × LinesIn b definitions.now from to rules) × (length spans.old ≡ 65) }
    ensures { (b : Book) → LinesIn b definitions.now from to rules → SpansIn b definitions.now spans.new }
{
    let mut at = from;
    spans[0] = from as u32;
    for p in 0..rules {
        at = past(definitions, to, p, at);
        spans[p as usize + 1] = at as u32;
    }
}
