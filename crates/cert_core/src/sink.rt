//! A writer of certificates as a sink for the rows of a search.

use crate::writer::CertWriter;
use cost_core::{LevelSink, SinkFault};
use std::io::Write;

/// Its kind is the number of its certificate's version, its text is what its outlet's writer holds, and a row has the
/// spelling of that version. A row is refused if a write fails or failed before. A writer that failed still takes, and
/// refuses, as many rows as an entry can have.
impl<W: Write> LevelSink for CertWriter<W> {
    ghost use Rattle.std.specs.Prelude.{ℕ};
    ghost use Rattle.chunk_core.specs.Outlets.{outlet_writer};
    ghost use Rattle.cert_core.specs.Spelling.{row_text, version_number, version_of};
    ghost use Rattle.cert_core.specs.Writers.{Stage, cert_outlet, cert_version, has_failed, row_length, rows_taken, stage};

    ghost rows_left = { λ writer. rows_taken writer };

    ghost row_length = { λ writer. row_length writer };

    ghost kind = { λ writer. version_number (cert_version writer) };

    ghost text = { λ writer. W.contents (outlet_writer (cert_outlet writer)) };

    ghost spelling = { λ kind row. row_text (version_of kind) row };

    ghost has_refused = { λ writer. has_failed writer };

    ghost Kept = { Stage };

    ghost kept = { λ writer. stage writer };

    fn level(&mut self, row: &[u64]) -> Result<(), SinkFault> {
        match CertWriter::level(self, row) {
            Ok(()) => Ok(()),
            Err(_) => Err(SinkFault),
        }
    }

    fn refused(&self) -> bool {
        self.has_failed()
    }
}
