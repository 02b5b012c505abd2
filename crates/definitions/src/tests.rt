// How expressions begin, as a person reads them: by their parts, and by the short way, which may leave a text to the parts.
use super::brackets::any_begun;
use super::nodes::{Beginning, Node, Operator};
use super::short::short_begun;
use text::classes;
use text::source::Source;

#[test]
fn begun_by_parts(rt: HostRuntime) {
    let classes = classes();
    let text = Source {
        classes: &classes,
        bytes: b"(pick (at 1 s2) 4294967295 (val 3)))\n",
    };
    let pick = any_begun(&text, 0);
    assert!(rt; matches!(pick.beginning, Beginning::Opens(Operator::Pick)));
    assert_eq!(rt; pick.at, 6);
    let at = any_begun(&text, 6);
    assert!(rt; matches!(at.beginning, Beginning::Whole(Node::At(1, 2))));
    assert_eq!(rt; at.at, 15);
    let number = any_begun(&text, 16);
    assert!(rt; matches!(number.beginning, Beginning::Whole(Node::Number(4294967295))));
    assert_eq!(rt; number.at, 26);
    let misspelt = Source {
        classes: &classes,
        bytes: b"(pick(at 1 s2) 4 5))\n",
    };
    assert!(rt; misspelt.bytes.len() < any_begun(&misspelt, 0).at);
}

#[test]
fn begun_by_the_short_way(rt: HostRuntime) {
    let classes = classes();
    let text = Source {
        classes: &classes,
        bytes: b"(sub 120 (own i7)) and what else there is\n",
    };
    let sub = short_begun(&text, 0).expect(&rt, "an operator");
    assert!(rt; matches!(sub.beginning, Beginning::Opens(Operator::Sub)));
    assert_eq!(rt; sub.at, 5);
    let number = short_begun(&text, 5).expect(&rt, "a number");
    assert!(rt; matches!(number.beginning, Beginning::Whole(Node::Number(120))));
    assert_eq!(rt; number.at, 8);
    let own = short_begun(&text, 9).expect(&rt, "a place");
    assert!(rt; matches!(own.beginning, Beginning::Whole(Node::Own(7))));
    assert_eq!(rt; own.at, 17);
    assert!(rt; short_begun(&text, 18).is_none());
    assert!(rt; short_begun(&text, 41).is_none());
}
