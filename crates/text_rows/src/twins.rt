use crate::changes::{Reader, tell_changes};
use crate::scripts::{Told, asked};
use crate::spelling::spelled;
use anyhow::Result;
use s3_types::let_go;
use std::alloc::{AllocError, Global};
use twin_script::{Twins, print_twins, read_twins};

/// Writes whether the bytes are two scripts and an order, or the fault.
pub fn put_twins(line: &mut String, alloc: Global, bytes: &[u8]) -> Result<(), AllocError> {
    match read_twins(alloc, bytes) {
        Ok(twins) => {
            let_go(twins);
            line.push_str("two scripts")
        }
        Err(fault) => write!(line, "{fault}"),
    }
}

fn tell_twins(
    rt: &impl Print,
    alloc: Global,
    told: Told,
    bytes: &[u8],
    twins: &Twins,
) -> Result<()> {
    println!(rt;
        "scripts of {} and {} events and an order of {} turns",
        twins.first.events.len(),
        twins.second.events.len(),
        twins.order.len()
    )?;
    match told {
        Told::Nothing => Ok(()),
        Told::Text => Ok(rt.print(print_twins(alloc, twins)?.as_str())?),
        Told::Changes(change) => tell_changes(rt, alloc, Reader::Twins, change, bytes),
    }
}

/// Shows what a row's two scripts and order are, or their fault.
pub fn show_twins(rt: &impl Print, alloc: Global, line: &str) -> Result<()> {
    let (told, row) = asked(line);
    let bytes = spelled(alloc, row)?;
    match read_twins(alloc, &bytes) {
        Ok(twins) => {
            let shown = tell_twins(rt, alloc, told, &bytes, &twins);
            let_go(twins);
            shown
        }
        Err(fault) => Ok(println!(rt; "{fault}")?),
    }
}
