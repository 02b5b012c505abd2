// The nodes of an expression: its operators, its leaves, and how they stand in a book's arrays.
ghost use Rattle.std.specs.Prelude.{◌≡◌, []};
ghost use Rattle.book.specs.Layout.{node_words};
ghost use Rattle.definitions.specs.Expressions.{waiting_code};
ghost use Rattle.definitions.specs.Nodes.{operands_left, waiting_of, step_of};

// The operators, with the kinds of their nodes.
#[derive(Clone, Copy)]
pub enum Operator {
    Add = 4,
    Sub = 5,
    Min = 6,
    Max = 7,
    Pick = 8,
}

impl Operator {
    // How many operands follow the first.
    #[tactic(auto, unfolding(crate::specs::Nodes::operands_left))]
    fn operands_left(self) -> u8
        ensures { result ≡ operands_left self }
    {
        match self {
            Operator::Pick => 2,
            _ => 1,
        }
    }

    // While it waits for its operands, in one byte: the kind of its node, and 16 for each operand after the one being read.
    #[tactic(auto, unfolding(crate::specs::Nodes::operands_left, crate::specs::Expressions::waiting_code, book::specs::Layout::node_words))]
    pub fn waiting(self) -> u8
        ensures { result ≡ waiting_code (waiting_of self) }
    {
        self as u8 + 16 * self.operands_left()
    }
}

#[derive(Clone, Copy)]
pub enum Node {
    Number(u32),
    Own(u32),
    At(u32, u32),
    Val(u32),
    Operator(Operator),
}

impl Node {
    // Its words: its kind, and up to two numbers.
    #[tactic(auto, unfolding(book::specs::Layout::node_words))]
    pub fn words(self) -> [u32; 3]
        ensures { result ≡ node_words (step_of self) [] }
    {
        match self {
            Node::Number(n) => [0, n, 0],
            Node::Own(k) => [1, k, 0],
            Node::At(j, k) => [2, j, k],
            Node::Val(j) => [3, j, 0],
            Node::Operator(operator) => [operator as u32, 0, 0],
        }
    }
}

// How an expression begins: with the bracket of an operator, which stays open, or as one whole node.
#[derive(Clone, Copy)]
pub enum Beginning {
    Opens(Operator),
    Whole(Node),
}

// A beginning, and where the text goes on.
#[derive(Clone, Copy)]
pub struct BeginningRead {
    pub beginning: Beginning,
    pub at: usize,
}
