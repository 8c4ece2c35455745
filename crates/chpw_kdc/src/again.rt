//! Whether there is something for the desk, and the word of a reason.
ghost use Rattle.std.specs.Prelude.{◌≡◌, not, ◌==◌, length, Ok};
ghost use Rattle.chpw_kdc.specs.Lines.{reason_in};
ghost use Rattle.chpw_kdc.specs.Spelling.{reason_word};

use crate::answer::Reason;
use crate::dialog::KdcDialog;

impl Reason {
    /// Its word in a line of the agent's.
    #[tactic(auto, unfolding(crate::specs::Lines::reason_in))]
    pub fn word(self) -> &'static str
        ensures word { reason_in result.now ≡ Ok self }
        ensures value { result.now ≡ reason_word self }
    {
        match self {
            Reason::Reserved => "reserved",
            Reason::Components => "components",
            Reason::Lockdown => "lockdown",
            Reason::Keys => "keys",
            Reason::Version => "version",
        }
    }
}

impl KdcDialog {
    /// Whether there is something that the desk is to be asked (`take_update`).
    pub fn has_update(&self) -> bool
        ensures value { result ≡ not (length self.now.updates == 0) }
    {
        !self.updates.is_empty()
    }
}
