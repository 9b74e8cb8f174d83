ghost use Rattle.std.specs.Prelude.{◌≡◌, ◌≤◌, ◌⊎◌, OnOk, OnErr};
ghost use Rattle.std.specs.Io.KnownBytes.{Appends, Keeps};
ghost use Rattle.streams.specs.Faults.{CountsFault};
ghost use Rattle.streams.specs.Told.{AppendsPart};

use streams::{Failed, Sink, write_all};

/// Writes the report and then the document, and flushes both: nothing of the document is written unless the whole report
/// is. It takes no memory. Where there is no document, `out` is left alone.
pub fn deliver<O: Sink, E: Sink>(
    document: &[u8],
    report: &[u8],
    out: &mut O,
    err: &mut E,
) -> Result<(), Failed>
    ensures out { OnOk result (Appends (O.written out.old) (O.written out.new) document.now) }
    ensures err { OnOk result (Appends (E.written err.old) (E.written err.new) report.now) }
    ensures out_part { OnErr result
        (AppendsPart (O.written out.old) (O.written out.new) document.now) }
    ensures err_part { OnErr result
        (AppendsPart (E.written err.old) (E.written err.new) report.now) }
    ensures order { OnErr result (Keeps (O.written out.old) (O.written out.new)
        ⊎ Appends (E.written err.old) (E.written err.new) report.now) }
    ensures out_later { O.faults out.old ≤ O.faults out.new }
    ensures err_later { E.faults err.old ≤ E.faults err.new }
    ensures out_calm { OnOk result (O.faults out.new ≡ O.faults out.old) }
    ensures err_calm { OnOk result (E.faults err.new ≡ E.faults err.old) }
    ensures cause { OnErr result (
        CountsFault (O.faults out.old) (O.faults out.new)
        ⊎ CountsFault (E.faults err.old) (E.faults err.new)) }
{
    write_all(err, report)?;
    write_all(out, document)?;
    if !document.is_empty() {
        out.flush()?;
    }
    err.flush()
}
