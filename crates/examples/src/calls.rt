//! Calls of a run at its limits, with the rule `//*`.
use labels::code::FolderCode;
use rules::rule::Rule;
use runs::run::Run;
use std::io;

const LABEL: FolderCode = FolderCode(7);

fn show_open(rt: &impl Print, what: &str, run: &mut Run<'_>) -> io::Result<()> {
    match run.open(&[], &LABEL) {
        Ok(number) => println!(rt; "{what}: number {number}"),
        Err(refusal) => println!(rt; "{what}: refused {refusal}"),
    }
}

fn show_close(rt: &impl Print, what: &str, run: &mut Run<'_>) -> io::Result<()> {
    match run.close() {
        Ok(selected) => println!(rt; "{what}: closed, selected {selected}"),
        Err(refusal) => println!(rt; "{what}: refused {refusal}"),
    }
}

fn open_again(run: &mut Run<'_>, count: u32) {
    for _ in 0..count {
        let _ = run.open(&[], &LABEL);
    }
}

fn open_and_close(run: &mut Run<'_>, count: u32) {
    for _ in 0..count {
        let _ = run.open(&[], &LABEL);
        let _ = run.close();
    }
}

fn open_and_drop(run: &mut Run<'_>, count: u32) {
    for _ in 0..count {
        let _ = run.open(&[], &LABEL);
        let _ = run.drop_open();
    }
}

// 64 leaves wait, and the closing of the next one has to be tried again.
fn show_waiting(rt: &impl Print) -> io::Result<()> {
    let rule = Rule::new();
    let mut run = Run::new(&rule);
    open_again(&mut run, 1);
    open_and_close(&mut run, 64);
    let waiting = run.waiting_count();
    println!(rt; "//*: a root open, and 64 leaves closed under it: {waiting} numbers wait")?;
    show_open(rt, "//*: the next leaf", &mut run)?;
    show_close(rt, "//*: its closing", &mut run)?;
    let mut one = [0];
    let taken = run.take(&mut one);
    println!(rt; "//*: a taking into a list of one: {taken} taken, {one:?}")?;
    show_close(rt, "//*: the same closing", &mut run)?;
    let waiting = run.waiting_count();
    println!(rt; "//*: and then: {waiting} numbers wait")
}

fn show_depth(rt: &impl Print) -> io::Result<()> {
    let rule = Rule::new();
    let mut run = Run::new(&rule);
    open_again(&mut run, 127);
    show_open(rt, "//*: an opening with 127 nodes open", &mut run)?;
    show_open(rt, "//*: an opening with 128 nodes open", &mut run)
}

fn show_openings(rt: &impl Print) -> io::Result<()> {
    let rule = Rule::new();
    let mut run = Run::new(&rule);
    open_and_drop(&mut run, 999_999);
    show_open(rt, "//*: an opening after 999,999", &mut run)?;
    show_open(rt, "//*: an opening after 1,000,000", &mut run)
}

pub fn show(rt: &impl Print) -> io::Result<()> {
    show_waiting(rt)?;
    show_depth(rt)?;
    show_openings(rt)
}
