// The nodes of formulas, by value and as rows of four words.
ghost use Rattle.std.specs.Prelude.{◌≡◌};
ghost use Rattle.formulas.specs.Nodes.{shown, leaf_row, operator_kind, row_of};

#[derive(Clone, Copy)]
pub enum Stack {
    Inherited,
    Synthesized,
}

// "A formula leaf names a stack, and with it an offset and an attribute"; or the token's value in place of an attribute. The offset counts the
// symbols below the top.
#[derive(Clone, Copy)]
pub enum Leaf {
    Attribute(Stack, u32, u32),
    TokenValue(Stack, u32),
}

#[derive(Clone, Copy)]
pub enum Operator {
    Add,
    Sub,
    Min,
    Max,
}

// The operands of a node are numbers of nodes.
#[derive(Clone, Copy)]
pub enum Node {
    Number(u32),
    Leaf(Leaf),
    Both(Operator, u32, u32),
    Pick(u32, u32, u32),
}

#[derive(Clone, Copy, PartialEq, Eq)]
pub struct Row {
    pub kind: u32,
    pub first: u32,
    pub second: u32,
    pub third: u32,
}

fn leaf_row(leaf: Leaf) -> Row
    ensures { shown result ≡ leaf_row leaf }
{
    match leaf {
        Leaf::Attribute(Stack::Inherited, offset, attribute) => Row {
            kind: 1,
            first: offset,
            second: attribute,
            third: 0,
        },
        Leaf::Attribute(Stack::Synthesized, offset, attribute) => Row {
            kind: 2,
            first: offset,
            second: attribute,
            third: 0,
        },
        Leaf::TokenValue(Stack::Inherited, offset) => Row {
            kind: 3,
            first: offset,
            second: 0,
            third: 0,
        },
        Leaf::TokenValue(Stack::Synthesized, offset) => Row {
            kind: 4,
            first: offset,
            second: 0,
            third: 0,
        },
    }
}

fn operator_kind(operator: Operator) -> u32
    ensures { result ≡ operator_kind operator }
{
    match operator {
        Operator::Add => 5,
        Operator::Sub => 6,
        Operator::Min => 7,
        Operator::Max => 8,
    }
}

// The row of a node.
pub fn row_of(node: Node) -> Row
    ensures { shown result ≡ row_of node }
{
    match node {
        Node::Number(n) => Row {
            kind: 0,
            first: n,
            second: 0,
            third: 0,
        },
        Node::Leaf(leaf) => leaf_row(leaf),
        Node::Both(operator, x, y) => Row {
            kind: operator_kind(operator),
            first: x,
            second: y,
            third: 0,
        },
        Node::Pick(c, x, y) => Row {
            kind: 9,
            first: c,
            second: x,
            third: y,
        },
    }
}
