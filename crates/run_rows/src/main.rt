//! The library as its callers use it, and rows of runs of the programs: the words, the files and the input of each, and how it
//! ends.
#![tactic(auto)]

mod library_example;
mod outcome;
mod parts;
mod pets;
mod runs;

use rows::run;

fn main(rt: HostRuntime) -> anyhow::Result<()> {
    library_example::print(&rt)?;
    run(&rt, |rt, row| runs::told(rt, row))
}
