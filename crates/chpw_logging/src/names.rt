//! Whether the names of open files still lead to them.
ghost use Rattle.std.specs.Prelude.{◌≡◌};
ghost use Rattle.chpw_logging.specs.Names.{name_state};

use chpw_control::NameState;
use chpw_journal::FileNumber;

/// Whether a name leads to a file that is open, by the one that is at its path, if one is there.
pub(crate) fn name_state(held: FileNumber, there: Option<FileNumber>) -> NameState
    ensures value { result ≡ name_state held there }
{
    match there {
        None => NameState::Gone,
        Some(there) => {
            if there.device == held.device && there.number == held.number {
                NameState::Kept
            } else {
                NameState::Elsewhere
            }
        }
    }
}
