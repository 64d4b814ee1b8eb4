//! The calls of a run, and their limits.
use labels::code::FolderCode;
use rules::rule::Rule;
use runs::refusal::Refusal;
use runs::run::Run;
use std::test::Fail;

const LABEL: FolderCode = FolderCode(7);

// Opens and closes a node.
fn leaf(run: &mut Run) -> Result<bool, Refusal> {
    run.open(&[], &LABEL)?;
    run.close()
}

// Opens so many nodes, one in the other.
fn deepen(run: &mut Run, count: u32) {
    for _ in 0..count {
        let _ = run.open(&[], &LABEL);
    }
}

#[test]
fn numbers_wait_until_they_are_taken(rt: HostRuntime) {
    let rule = Rule::new();
    let mut run = Run::new(&rule);
    assert_eq!(rt; run.open(&[], &LABEL), Ok(0));
    for _ in 0..64 {
        assert_eq!(rt; leaf(&mut run), Ok(true));
    }
    assert_eq!(rt; leaf(&mut run), Err(Refusal::WaitingFull));
    assert_eq!(rt; run.close(), Err(Refusal::WaitingFull));
    assert_eq!(rt; run.open_count(), 2);
    assert_eq!(rt; run.openings(), 66);
    assert_eq!(rt; run.waiting_count(), 64);
    let mut one = [9, 9];
    assert_eq!(rt; run.take(&mut one[..1]), 1);
    assert_eq!(rt; one, [1, 9]);
    assert_eq!(rt; run.close(), Ok(true));
    assert_eq!(rt; run.waiting_count(), 64);
    let mut rest = [0; 70];
    assert_eq!(rt; run.take(&mut rest), 64);
    assert_eq!(rt; rest[0], 2);
    assert_eq!(rt; rest[63], 65);
    assert_eq!(rt; rest[64], 0);
    assert_eq!(rt; run.take(&mut rest), 0);
    assert_eq!(rt; run.close(), Ok(true));
    assert_eq!(rt; run.close(), Err(Refusal::NothingOpen));
}

#[test]
fn levels(rt: HostRuntime) {
    let rule = Rule::new();
    let mut run = Run::new(&rule);
    deepen(&mut run, 128);
    assert_eq!(rt; run.openings(), 128);
    assert_eq!(rt; run.open(&[], &LABEL), Err(Refusal::TooDeep));
    assert_eq!(rt; run.open_count(), 128);
    assert_eq!(rt; run.openings(), 128);
    assert_eq!(rt; run.drop_open(), Ok(()));
    assert_eq!(rt; run.open(&[], &LABEL), Ok(128));
}

#[test]
fn nothing_is_open(rt: HostRuntime) {
    let rule = Rule::new();
    let mut run = Run::new(&rule);
    assert_eq!(rt; run.close(), Err(Refusal::NothingOpen));
    assert_eq!(rt; run.drop_open(), Err(Refusal::NothingOpen));
    assert_eq!(rt; run.take(&mut [0; 4]), 0);
    assert_eq!(rt; run.openings(), 0);
}

// Depth is asked before the count of openings.
#[test]
fn openings(rt: HostRuntime) {
    let rule = Rule::new();
    let mut run = Run::new(&rule);
    for _ in 0..999_872 {
        let _ = run.open(&[], &LABEL);
        let _ = run.drop_open();
    }
    deepen(&mut run, 127);
    assert_eq!(rt; run.openings(), 999_999);
    assert_eq!(rt; run.open(&[], &LABEL), Ok(999_999));
    assert_eq!(rt; run.open(&[], &LABEL), Err(Refusal::TooDeep));
    assert_eq!(rt; run.drop_open(), Ok(()));
    assert_eq!(rt; run.open(&[], &LABEL), Err(Refusal::TooMany));
    assert_eq!(rt; run.openings(), 1_000_000);
    assert_eq!(rt; run.close(), Ok(true));
}

// The rule has two rule nodes: any, and under it by a child edge one with a label.
#[test]
fn tests_beyond_the_list_are_met_by_no_label(rt: HostRuntime) {
    let mut rule = Rule::new();
    assert_eq!(rt; rule.set_records(&[0, 0, 1, 0, 0, 0]), Ok(()));
    let labels = [LABEL, LABEL, FolderCode(8)];
    let mut run = Run::new(&rule);
    // with a list of one label the child does not meet the test of rule node 1
    assert_eq!(rt; run.open(&labels, &LABEL), Ok(0));
    assert_eq!(rt; run.open(&labels[..1], &LABEL), Ok(1));
    assert_eq!(rt; run.close(), Ok(false));
    assert_eq!(rt; run.close(), Ok(false));
    // entry 2 is the label of no rule node
    assert_eq!(rt; run.open(&labels, &LABEL), Ok(2));
    assert_eq!(rt; run.open(&labels, &FolderCode(8)), Ok(3));
    assert_eq!(rt; run.close(), Ok(false));
    assert_eq!(rt; run.close(), Ok(false));
    // a child that meets the test
    assert_eq!(rt; run.open(&labels, &LABEL), Ok(4));
    assert_eq!(rt; run.open(&labels, &LABEL), Ok(5));
    assert_eq!(rt; run.close(), Ok(false));
    assert_eq!(rt; run.close(), Ok(true));
}

// While 64 numbers wait, a node that is not selected closes, and an open one can be dropped.
#[test]
fn other_calls_pass_while_numbers_wait(rt: HostRuntime) {
    let mut rule = Rule::new();
    assert_eq!(rt; rule.set_records(&[0, 0, 0]), Ok(()));
    let labels = [LABEL];
    let mut run = Run::new(&rule);
    for _ in 0..64 {
        let _ = run.open(&labels, &LABEL);
        assert_eq!(rt; run.close(), Ok(true));
    }
    assert_eq!(rt; run.open(&labels, &FolderCode(8)), Ok(64));
    assert_eq!(rt; run.open(&labels, &LABEL), Ok(65));
    assert_eq!(rt; run.close(), Err(Refusal::WaitingFull));
    assert_eq!(rt; run.drop_open(), Ok(()));
    assert_eq!(rt; run.close(), Ok(false));
    assert_eq!(rt; run.take(&mut []), 0);
    assert_eq!(rt; run.waiting_count(), 64);
}
