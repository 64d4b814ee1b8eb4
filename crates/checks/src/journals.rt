//! Journals of calls, and lists that are too short for them.
use labels::code::FolderCode;
use rules::rule::Rule;
use runs::call::{Answer, Call};
use runs::journal::{Shortage, replay};
use runs::refusal::Refusal;
use std::test::Fail;

const LABEL: FolderCode = FolderCode(7);

const JOURNAL: [Call<FolderCode>; 11] = [
    Call::Close,
    Call::Open(LABEL),
    Call::Open(LABEL),
    Call::Close,
    Call::Take(0),
    Call::Take(usize::MAX),
    Call::Open(LABEL),
    Call::Drop,
    Call::Close,
    Call::Drop,
    Call::Take(3),
];

// The answers of the journal with the rule `//*`, and an entry behind them.
const ANSWERS: [Answer; 12] = [
    Answer::Refused(Refusal::NothingOpen),
    Answer::Opened(0),
    Answer::Opened(1),
    Answer::Closed(true),
    Answer::Taken(0),
    Answer::Taken(1),
    Answer::Opened(2),
    Answer::Dropped,
    Answer::Closed(true),
    Answer::Refused(Refusal::NothingOpen),
    Answer::Taken(1),
    Answer::Dropped,
];

// Why the calls are not made to the end, with the rule `//*`.
fn shortage_of(
    calls: &[Call<FolderCode>],
    answers: &mut [Answer],
    numbers: &mut [u32],
) -> Option<Shortage> {
    let rule = Rule::new();
    match replay(&rule, &[], calls, answers, numbers) {
        Ok(_) => None,
        Err(shortage) => Some(shortage),
    }
}

#[test]
fn a_journal_is_replayed(rt: HostRuntime) {
    let rule = Rule::new();
    let mut answers = [Answer::Dropped; 12];
    let mut numbers = [9; 4];
    match replay(&rule, &[], &JOURNAL, &mut answers, &mut numbers) {
        Ok(outcome) => {
            assert_eq!(rt; outcome.handed, 2);
            assert_eq!(rt; outcome.run.openings(), 3);
            assert_eq!(rt; outcome.run.open_count(), 0);
        }
        Err(shortage) => assert_eq!(rt; Some(shortage), None),
    }
    assert_eq!(rt; numbers, [1, 0, 9, 9]);
    assert_eq!(rt; answers, ANSWERS);
}

#[test]
fn lists_too_short_for_a_journal(rt: HostRuntime) {
    let mut answers = [Answer::Dropped; 11];
    let mut numbers = [9; 1];
    let few = shortage_of(&JOURNAL, &mut answers[..10], &mut numbers);
    assert_eq!(rt; few, Some(Shortage::Answers));
    assert_eq!(rt; answers[0], Answer::Dropped);
    assert_eq!(rt; numbers, [9]);
    let short = shortage_of(&JOURNAL, &mut answers, &mut numbers);
    assert_eq!(rt;
        short,
        Some(Shortage::Numbers {
            call: 10,
            handed: 1
        })
    );
    assert_eq!(rt; numbers, [1]);
    assert_eq!(rt; answers[9], Answer::Refused(Refusal::NothingOpen));
    assert_eq!(rt; answers[10], Answer::Dropped);
}

#[test]
fn lists_that_just_suffice(rt: HostRuntime) {
    let calls = [Call::Open(LABEL), Call::Close, Call::Take(9), Call::Take(9)];
    let mut answers = [Answer::Dropped; 4];
    let mut numbers = [9; 1];
    assert_eq!(rt; shortage_of(&calls, &mut answers, &mut numbers), None);
    assert_eq!(rt; numbers, [0]);
    assert_eq!(rt; answers[3], Answer::Taken(0));
    assert_eq!(rt; shortage_of(&calls[2..], &mut answers, &mut []), None);
    assert_eq!(rt; shortage_of(&[], &mut [], &mut []), None);
}
