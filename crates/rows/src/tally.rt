ghost use Rattle.std.specs.Prelude.{◌≡◌, ◌↔◌, ◌≢◌, IfOk, IsSome};
ghost use Rattle.std.specs.String.{string_bytes};
ghost use Rattle.rows.specs.Tallies.{one_more};

use crate::row::Row;
use std::alloc::{AllocError, Global};
use std::fmt;

/// How many rows were compared, and how many of them differed.
#[derive(Debug, Default, Drop)]
pub struct Tally {
    pub rows: u64,
    pub differing: u64,
}

impl Tally {
    /// Compares what the row's call told with what it must answer. Where they differ, the line that says so. The row is
    /// counted also where memory runs out for that line.
    pub fn compare(
        &mut self,
        alloc: Global,
        row: &Row,
        told: &str,
    ) -> Result<Option<String>, AllocError>
        ensures line { IfOk result (λ line. IsSome line
            ↔ (told.now ≢ string_bytes row.now.answer)) }
        ensures rows { self.new.rows ≡ one_more self.old.rows }
        ensures differing { told.now ≢ string_bytes row.now.answer
            → self.new.differing ≡ one_more self.old.differing }
        ensures same { told.now ≡ string_bytes row.now.answer
            → self.new.differing ≡ self.old.differing }
    {
        self.rows = self.rows.saturating_add(1);
        if told == row.answer.as_str() {
            return Ok(None);
        }
        self.differing = self.differing.saturating_add(1);
        let line = format!(in alloc;
            "{} {}: {told}, and not {}",
            row.call.as_str(),
            row.given,
            row.answer.as_str()
        )?;
        Ok(Some(line))
    }
}

impl fmt::Display for Tally {
    ghost use Rattle.std.specs.Prelude.{Some};
    ghost use Rattle.rows.specs.Tallies.{text_of};

    ghost output = { λ tally. Some (text_of tally) };

    fn fmt<W: fmt::Write>(&self, f: &mut fmt::Formatter<W>) -> fmt::Result {
        write!(f, "{} rows, {} differ", self.rows, self.differing)
    }
}
