// The one-formula check (10) of all states.
// A contract asks that the arrays hold some book, and says its equation of every book that they hold.
ghost use Rattle.std.specs.Prelude.{◌≡◌, List, ℕ, ◌*◌, ◌<◌, ◌≤◌, length};
ghost use Rattle.grammar.specs.Limits.{MAX_INHERITED};
ghost use Rattle.grammar.specs.Conditions.Decides.{all_below};
ghost use Rattle.grammar.specs.Data.Book.{Book};
ghost use Rattle.grammar.specs.Formulas.FormulaCheck as grammar;
ghost use Rattle.book.specs.Held.{OwnersIn};
ghost use Rattle.agreement.specs.Progress.{NodesRoom};
ghost use Rattle.agreement.specs.Given.{GivenIn};
ghost use Rattle.agreement.specs.OneFormula.{FrontsHeld, state_right, formulas_right};
ghost use Rattle.agreement.specs.Over.{FrontsOver, OwnedOver, GivenOver, RoomOver, RoomKept};

use super::check::check_state;
use super::parts::{AllStates, Parts};
use super::single::single;
use super::work::Work;
use attributes::masks::masks;
use attributes::owned::owned;
use formulas::table::Nodes;

// 10, of the partial states of one state: nothing if each attribute is given once there, else their items, then the check.
fn state_right(all: &AllStates<'_>, state: usize, sets: &mut [u32], work: &mut Work<'_>) -> bool
    requires { ((b : Book) × (begins : List ℕ) × FrontsOver b begins all.now × OwnedOver b all.now × GivenOver b all.now
        × (state < all.now.states))
        × (9 * all.now.count ≤ length sets.old) × RoomOver all.now.lines work.old }
    ensures room { RoomKept work.old work.new }
    ensures answer { (b : Book) (begins : List ℕ) → FrontsOver b begins all.now → OwnedOver b all.now → GivenOver b all.now
        → state < all.now.states → result ≡ state_right b state }
{
    if single(
        all.kernels,
        all.bounds,
        all.fronts,
        state,
        all.given,
        all.leaders,
    ) {
        return true;
    }
    masks(
        all.definitions,
        all.lines as usize,
        all.rules,
        all.kernels,
        all.bounds,
        all.closures,
        all.nullables,
        all.reaches,
        state,
        sets,
    );
    let parts = Parts {
        definitions: all.definitions,
        lines: all.lines as usize,
        rules: all.rules,
        owned: all.owned,
        masks: sets,
        terminals: all.terminals,
    };
    check_state(&parts, work)
}

// 10, of all states.
fn states_right(all: &AllStates<'_>, sets: &mut [u32], work: &mut Work<'_>) -> bool
    requires { ((b : Book) × (begins : List ℕ) × FrontsOver b begins all.now × OwnedOver b all.now × GivenOver b all.now)
        × (9 * all.now.count ≤ length sets.old) × RoomOver all.now.lines work.old }
    ensures room { RoomKept work.old work.new }
    ensures answer { (b : Book) (begins : List ℕ) → FrontsOver b begins all.now → OwnedOver b all.now → GivenOver b all.now
        → result ≡ all_below b.states (state_right b) }
{
    for state in 0..all.states as usize {
        if !state_right(all, state, sets, work) {
            return false;
        }
    }
    true
}

// In every partial state each inherited attribute has one formula (10). `given` and `leaders` have what definitions give, as `givers` says. `table` and `nexts` are room for the nodes of formulas, 15 for each definition.
pub fn one_formula(
    owners: &[u32],
    attributes: u32,
    rules: &[u32],
    count: u32,
    definitions: &[u32],
    lines: u32,
    kernels: &[u32],
    bounds: &[u32],
    closures: &[u32],
    fronts: &[u64],
    nullables: &[u32],
    reaches: &[u32],
    terminals: u32,
    states: u32,
    given: &[u32],
    leaders: u64,
    table: &mut [u32],
    nexts: &mut [u32],
) -> bool
    requires { ((b : Book) × (begins : List ℕ) × FrontsHeld b rules.now count definitions.now lines kernels.now bounds.now closures.now
        fronts.now nullables.now begins reaches.now terminals states × OwnersIn MAX_INHERITED b.inherited_owners owners.now
        × (attributes ≡ length b.inherited_owners) × GivenIn b (grammar.definitions b) given.now leaders) × NodesRoom lines table.old nexts.old }
    ensures { (b : Book) (begins : List ℕ) → FrontsHeld b rules.now count definitions.now lines kernels.now
        bounds.now closures.now fronts.now nullables.now begins reaches.now terminals states
        → OwnersIn MAX_INHERITED b.inherited_owners owners.now → attributes ≡ length b.inherited_owners
        → GivenIn b (grammar.definitions b) given.now leaders → result ≡ formulas_right b }
{
    let mut own = [0u32; 32];
    owned(owners, attributes as usize, &mut own);
    let mut sets = [0u32; 576];
    let mut heads = [0u32; 64];
    let all = AllStates {
        rules,
        count,
        definitions,
        lines,
        owned: &own,
        given,
        leaders,
        kernels,
        bounds,
        closures,
        fronts,
        nullables,
        reaches,
        terminals,
        states,
    };
    let nodes = Nodes {
        rows: table,
        heads: &mut heads,
        nexts,
    };
    let mut work = Work {
        slots: [0; 16],
        done: [0; 128],
        nodes,
    };
    states_right(&all, &mut sets, &mut work)
}
