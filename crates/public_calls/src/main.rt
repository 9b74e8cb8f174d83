//! The public calls that no run of the programs makes, each made once with ample memory: what each answers is printed.
#![tactic(auto)]

mod accepted;
mod composed;
mod copies;
mod declared;
mod flattened;
mod formats;
mod numbered;
mod parts;
mod reported;
mod trees;

use diag::DeriveError;

/// Prints what was answered.
fn print(rt: &HostRuntime, said: Result<String, DeriveError>) -> anyhow::Result<()> {
    println!(rt; "{}", said?)?;
    Ok(())
}

fn main(rt: HostRuntime) -> anyhow::Result<()> {
    let alloc = rt.alloc();
    print(&rt, accepted::told(alloc))?;
    print(&rt, reported::told(alloc))?;
    print(&rt, copies::told(alloc))?;
    print(&rt, trees::told(alloc))?;
    print(&rt, formats::told(alloc))?;
    print(&rt, numbered::told(alloc))?;
    print(&rt, composed::told(alloc))?;
    print(&rt, declared::told(alloc))?;
    print(&rt, parts::told(alloc))?;
    print(&rt, flattened::told(alloc))
}
