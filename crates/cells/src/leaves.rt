// What leaves read on the two stacks.
ghost use Rattle.std.specs.Prelude.{◌≡◌, ◌<◌};
ghost use Rattle.cells.specs.Leaves.{Room, Has, width, part_of, word_of, Readable, leaf_word};

use formulas::nodes::{Leaf, Stack};

// The words of a cell of the inherited stack or of a record of the synthesized one.
fn record<'a>(inherited: &'a [u32], synthesized: &'a [u32], stack: Stack, at: usize) -> &'a [u32]
    requires { Has inherited.now synthesized.now stack at }
    ensures { result.now ≡ part_of stack inherited.now synthesized.now at }
{
    match stack {
        Stack::Inherited => {
            let first = 16 * at;
            &inherited[first..first + 16]
        }
        Stack::Synthesized => {
            let first = 33 * at;
            &synthesized[first..first + 33]
        }
    }
}

fn word<'a>(inherited: &'a [u32], synthesized: &'a [u32], stack: Stack, at: usize, k: usize) -> u32
    requires { Has inherited.now synthesized.now stack at × (k < width stack) }
    ensures { result ≡ word_of stack inherited.now synthesized.now at k }
{
    let r = record(inherited, synthesized, stack, at);
    r[k]
}

// The value of a leaf on a stack of `height` symbols: an offset counts the symbols below the top, and the top cell stands above the top symbol.
pub fn leaf_value<'a>(
    inherited: &'a [u32],
    synthesized: &'a [u32],
    leaf: Leaf,
    height: usize,
) -> u32
    requires { Room height inherited.now synthesized.now × Readable height leaf }
    ensures { result ≡ leaf_word inherited.now synthesized.now height leaf }
{
    match leaf {
        Leaf::Attribute(stack, offset, attribute) => {
            let below = offset as usize;
            let k = attribute as usize;
            match stack {
                Stack::Inherited => word(
                    inherited,
                    synthesized,
                    Stack::Inherited,
                    height - below,
                    k,
                ),
                Stack::Synthesized => word(
                    inherited,
                    synthesized,
                    Stack::Synthesized,
                    height - 1 - below,
                    1 + k,
                ),
            }
        }
        Leaf::TokenValue(stack, offset) => {
            let below = offset as usize;
            match stack {
                Stack::Inherited => 0,
                Stack::Synthesized => word(
                    inherited,
                    synthesized,
                    Stack::Synthesized,
                    height - 1 - below,
                    0,
                ),
            }
        }
    }
}
