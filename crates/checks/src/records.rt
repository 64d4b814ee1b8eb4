//! Rules from records, and their refusals at the limits.
use rules::node::{Edge, RuleNode};
use rules::records::UnknownEdge;
use rules::refusal::RecordRefusal;
use rules::rule::Rule;

// The rule node with the number, if the rule has one.
fn node(rule: &Rule, number: usize) -> Option<RuleNode> {
    rule.nodes().get(number).copied()
}

// How many rule nodes the records give.
fn count(bytes: &[u8]) -> Result<usize, RecordRefusal> {
    let mut rule = Rule::new();
    rule.set_records(bytes)?;
    Ok(rule.nodes().len())
}

#[test]
fn records_give_the_rule(rt: HostRuntime) {
    let mut rule = Rule::new();
    let root = RuleNode {
        parent: 0,
        edge: Edge::Child,
        any: true,
    };
    assert_eq!(rt; node(&rule, 0), Some(root));
    assert_eq!(rt; node(&rule, 1), None);
    assert_eq!(rt; Rule::default().nodes(), rule.nodes());
    assert_eq!(rt; rule.set_records(&[0, 0, 1, 0, 1, 0, 1, 0, 1]), Ok(()));
    let below = RuleNode {
        parent: 0,
        edge: Edge::Descendant,
        any: false,
    };
    let last = RuleNode {
        parent: 1,
        edge: Edge::Child,
        any: true,
    };
    assert_eq!(rt; node(&rule, 0), Some(root));
    assert_eq!(rt; node(&rule, 1), Some(below));
    assert_eq!(rt; node(&rule, 2), Some(last));
    assert_eq!(rt; node(&rule, 3), None);
    assert_eq!(rt;
        rule.set_records(&[0, 0, 1, 1, 0, 0]),
        Err(RecordRefusal::Bad(1))
    );
    assert_eq!(rt; node(&rule, 1), Some(below));
}

#[test]
fn sizes(rt: HostRuntime) {
    let bytes = [0; 195];
    assert_eq!(rt; count(&bytes[0..0]), Err(RecordRefusal::Size));
    assert_eq!(rt; count(&bytes[0..2]), Err(RecordRefusal::Size));
    assert_eq!(rt; count(&bytes[0..3]), Ok(1));
    assert_eq!(rt; count(&bytes[0..4]), Err(RecordRefusal::Size));
    assert_eq!(rt; count(&bytes[0..192]), Ok(64));
    assert_eq!(rt; count(&bytes), Err(RecordRefusal::Size));
    assert_eq!(rt; RecordRefusal::Size.number(), 15);
    assert_eq!(rt; RecordRefusal::Size.record(), None);
}

// The size comes before what the records hold.
#[test]
fn size_comes_first(rt: HostRuntime) {
    assert_eq!(rt; count(&[9; 195]), Err(RecordRefusal::Size));
}

#[test]
fn edges(rt: HostRuntime) {
    assert_eq!(rt; Edge::try_from(0), Ok(Edge::Child));
    assert_eq!(rt; Edge::try_from(1), Ok(Edge::Descendant));
    assert_eq!(rt; Edge::try_from(2), Err(UnknownEdge(2)));
}

#[test]
fn bad_records(rt: HostRuntime) {
    assert_eq!(rt; count(&[1, 0, 0]), Err(RecordRefusal::Bad(0)));
    assert_eq!(rt; count(&[0, 1, 0]), Err(RecordRefusal::Bad(0)));
    assert_eq!(rt; count(&[0, 0, 2]), Err(RecordRefusal::Bad(0)));
    assert_eq!(rt; count(&[0, 0, 0, 0, 2, 0]), Err(RecordRefusal::Bad(1)));
    assert_eq!(rt; count(&[0, 0, 0, 0, 0, 2]), Err(RecordRefusal::Bad(1)));
    assert_eq!(rt; count(&[0, 0, 0, 1, 0, 0]), Err(RecordRefusal::Bad(1)));
    assert_eq!(rt;
        count(&[0, 0, 0, 0, 1, 1, 2, 0, 0, 9, 9, 9]),
        Err(RecordRefusal::Bad(2))
    );
    assert_eq!(rt; RecordRefusal::Bad(2).number(), 16);
    assert_eq!(rt; RecordRefusal::Bad(2).record(), Some(2));
}
