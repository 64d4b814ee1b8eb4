//! Folder tables.
use crate::ended::{EVENTS, show_ended};
use labels::code::FolderCode;
use sources::drain::drained;
use sources::record::{FolderTable, Record};
use std::io;

fn show_depths(rt: &impl Print, depths: [u32; 3]) -> io::Result<()> {
    let label = FolderCode(7);
    let records = depths.map(|depth| Record { depth, label });
    let mut source = FolderTable::new(&records);
    let (count, fault) = drained(&mut source, EVENTS);
    print!(rt; "depths {depths:?}: ")?;
    show_ended(rt, count, fault)
}

pub fn show(rt: &impl Print) -> io::Result<()> {
    show_depths(rt, [0, 1, 1])?;
    show_depths(rt, [0, 1, 3])?;
    show_depths(rt, [1, 1, 1])
}
