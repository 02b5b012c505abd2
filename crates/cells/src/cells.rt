// The cell that a move sets.
ghost use Rattle.std.specs.Prelude.{◌≡◌, ℕ, ◌+◌, ◌*◌, ◌≤◌, List, length};
ghost use Rattle.grammar.specs.Data.Book.{Book};
ghost use Rattle.cells.specs.Leaves.{Room};
ghost use Rattle.cells.specs.Cells.{cleared, LineAsked, PlanAsked, line_set, lines_set};

use super::values::value;

// The definition of a line gives its attribute's word of the top cell.
fn set_attribute(
    definitions: &[u32],
    line: usize,
    height: usize,
    inherited: &mut [u32],
    synthesized: &[u32],
)
    requires { Room height inherited.old synthesized.now × ((b : Book) × LineAsked b definitions.now height line) }
    ensures { (b : Book) → LineAsked b definitions.now height line
        → inherited.new ≡ line_set b synthesized.now height line inherited.old }
{
    let first = 49 * line;
    let dot = definitions[first + 1] - 1;
    let v = value(definitions, line, dot, height, inherited, synthesized);
    let k = definitions[first + 2] as usize;
    inherited[16 * height + k] = v;
}

// The definitions of a plan's lines, one after the other.
fn set_lines(
    definitions: &[u32],
    plan: &[u8],
    from: usize,
    count: usize,
    height: usize,
    inherited: &mut [u32],
    synthesized: &[u32],
)
    requires room { Room height inherited.old synthesized.now × (from + count ≤ length plan.now) }
    requires by_index { (b : Book) × (lines : List ℕ) × PlanAsked b definitions.now plan.now from count height lines }
    ensures { (b : Book) (lines : List ℕ) → PlanAsked b definitions.now plan.now from count height lines
        → inherited.new ≡ lines_set b synthesized.now height lines inherited.old }
{
    for line in &plan[from..from + count] {
        set_attribute(definitions, *line as usize, height, inherited, synthesized);
    }
}

// "Set the top cell's inherited values by the partial state's formulas, 0 where there is none": `count` lines of a plan, from a byte on.
pub fn set_cell(
    definitions: &[u32],
    plan: &[u8],
    from: usize,
    count: usize,
    height: usize,
    inherited: &mut [u32],
    synthesized: &[u32],
)
    requires room { Room height inherited.old synthesized.now × (from + count ≤ length plan.now) }
    requires by_index { (b : Book) × (lines : List ℕ) × PlanAsked b definitions.now plan.now from count height lines }
    ensures { (b : Book) (lines : List ℕ) → PlanAsked b definitions.now plan.now from count height lines
        → inherited.new ≡ lines_set b synthesized.now height lines (cleared (16 * height) 16 inherited.old) }
{
    let top = 16 * height;
    inherited[top..top + 16].fill(0);
    set_lines(
        definitions,
        plan,
        from,
        count,
        height,
        inherited,
        synthesized,
    );
}
