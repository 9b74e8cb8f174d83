use crate::row::Row;
use crate::tally::Tally;
use std::io::{Input, Print};

/// Makes the call of the row that the line is, and prints where the answer differs.
fn try_line<R, F>(rt: &R, told: &F, line: &str, tally: &mut Tally) -> anyhow::Result<()>
where
    R: AllocGlobal + Print,
    F: Fn(&R, &Row) -> anyhow::Result<String>,
    requires { F.IsAlwaysCallable told.now }
{
    let Some(row) = Row::from_line(rt.alloc(), line)? else {
        return Ok(());
    };
    let text = told(rt, &row)?;
    if let Some(difference) = tally.compare(rt.alloc(), &row, text.as_str())? {
        println!(rt; "{difference}")?;
    }
    Ok(())
}

/// Reads rows from the input, makes the call of each, and prints what differs, and then how many rows there were and how many
/// of them differ.
pub fn run<R, F>(rt: &R, told: F) -> anyhow::Result<()>
where
    R: AllocGlobal + Input + Print,
    F: Fn(&R, &Row) -> anyhow::Result<String>,
    requires { F.IsAlwaysCallable told }
{
    let mut tally = Tally::default();
    for line in rt.lines(rt.alloc()) {
        try_line(rt, &told, line?.as_str(), &mut tally)?;
    }
    println!(rt; "{tally}")?;
    Ok(())
}
