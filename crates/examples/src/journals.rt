//! A journal of calls, replayed.
use labels::name::Name;
use rules::rule::{NODE_LIMIT, Rule};
use runs::call::{Answer, Call};
use runs::journal::replay;
use std::io;

// How many calls the journal of the examples has.
const CALLS: usize = 11;

fn name(letter: u8) -> Name {
    Name::try_from(&[letter][..]).unwrap_or(Name::empty())
}

// Replays the calls, with the numbers into the list, and prints each call with its answer, and the numbers handed out, or why it did
// not come to that.
fn show_journal(
    rt: &impl Print,
    text: &str,
    journal: &[(&str, Call<Name>); CALLS],
    numbers: &mut [u32],
) -> io::Result<()> {
    let mut rule = Rule::new();
    let mut names = [Name::empty(); NODE_LIMIT];
    if let Err(refusal) = rule.read_text(text.as_bytes(), &mut names) {
        return println!(rt; "{text}: refused {refusal}");
    }
    let calls = journal.map(|(_, call)| call);
    let mut answers = [Answer::Dropped; CALLS];
    let room = numbers.len();
    match replay(&rule, &names, &calls, &mut answers, numbers) {
        Ok(outcome) => {
            for ((call, _), answer) in journal.iter().zip(&answers) {
                println!(rt; "{text}: {call}: {answer:?}")?;
            }
            let handed = &numbers[..outcome.handed];
            println!(rt; "{text}: handed out {handed:?}")
        }
        Err(shortage) => println!(rt; "{text}, with a list of {room} numbers: {shortage}"),
    }
}

pub fn show(rt: &impl Print) -> io::Result<()> {
    let a = name(b'a');
    let b = name(b'b');
    let calls = [
        ("open a", Call::Open(a)),
        ("open a", Call::Open(a)),
        ("open b", Call::Open(b)),
        ("close", Call::Close),
        ("close", Call::Close),
        ("take 5", Call::Take(5)),
        ("open b", Call::Open(b)),
        ("drop", Call::Drop),
        ("close", Call::Close),
        ("close", Call::Close),
        ("take 5", Call::Take(5)),
    ];
    let mut numbers = [0; 4];
    show_journal(rt, "//a[b]", &calls, &mut numbers)?;
    show_journal(rt, "//a[.//b]", &calls, &mut numbers)?;
    show_journal(rt, "//*", &calls, &mut numbers)?;
    show_journal(rt, "//*", &calls, &mut numbers[..1])
}
