//! Whether a newline after a piece ends it, as pieces are cut.
ghost use Rattle.std.specs.Prelude.{◌≡◌, ◌↔◌, IsTrue};
ghost use Rattle.influxdb_line_protocol.specs.code.Rules.{rules_of};
ghost use Rattle.influxdb_line_protocol.specs.format.Pieces.{IsCutPiece};
ghost use Rattle.lp_conditions.specs.LineEnds.{ends_at_newline};

use influxdb_line_protocol::Dialect;
use lp_split::split::{cut_or_track, track_on};

/// Whether a newline after a piece ends it. It does not in a string, as pieces are cut, nor after a backslash. It takes no memory.
///
/// A line can have fields that are read otherwise than pieces are cut: after `m a,b="="` a newline is in a string.
pub fn ends_at_newline(dialect: Dialect, piece: &[u8]) -> bool
    ensures cut { IsTrue result ↔ IsCutPiece (rules_of dialect) piece.now }
    ensures is { result ≡ ends_at_newline (rules_of dialect) piece.now }
{
    match cut_or_track(dialect, piece) {
        Ok(_) => false,
        Err(track) => track_on(b"\n", track).is_ok(),
    }
}
