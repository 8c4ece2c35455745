//! The bytes that came from the agent.
ghost use Rattle.std.specs.Prelude.{◌≡◌, OnOk, OnErr, IfErr, Ok};
ghost use Rattle.chpw_kdc.specs.Faults.{IsFault};
ghost use Rattle.chpw_kdc.specs.Answers.{SameLost, FaultsIn};
ghost use Rattle.chpw_kdc.specs.Answering.{after_bytes, after_byte, after_line, of_asked};

use crate::answer::Answer;
use crate::dialog::KdcDialog;
use crate::fault::ProtocolFault;
use crate::judging::IsOurs;
use crate::put::UnderWay;
use crate::request::LINE;

impl KdcDialog {
    /// Bytes came from the agent, in any pieces. `ours` says which names of the KDC's are the service's. After a fault
    /// the caller closes the connection, and the state is that after `lose`; whole lines before the one that is wrong
    /// count.
    pub fn hear<O: IsOurs>(&mut self, ours: &O, bytes: &[u8], now: u64) -> Result<(), ProtocolFault>
        ensures value { OnOk result (after_bytes (O.ours ours.now) now self.old bytes.now ≡ Ok self.new) }
        ensures fault { IfErr result (FaultsIn (O.ours ours.now) now self.old bytes.now self.new) }
    {
        let mut rest = bytes;
        while let [byte, others @ ..] = rest {
            if let Err(fault) = self.hear_byte(ours, *byte, now) {
                self.end_at_fault(now);
                return Err(fault);
            }
            rest = others;
        }
        Ok(())
    }

    fn hear_byte<O: IsOurs>(&mut self, ours: &O, byte: u8, now: u64) -> Result<(), ProtocolFault>
        ensures value { OnOk result (after_byte (O.ours ours.now) now self.old byte ≡ Ok self.new) }
        ensures fault { IfErr result (IsFault (after_byte (O.ours ours.now) now self.old byte)) }
        ensures lost { OnErr result (SameLost self.old self.new) }
    {
        if !self.pace.connected {
            return Err(ProtocolFault::NotConnected);
        }
        if byte == b'\n' {
            return self.hear_line(ours, now);
        }
        if self.heard.len() + 1 >= LINE {
            return Err(ProtocolFault::LineTooLong);
        }
        self.heard.push(byte)?;
        Ok(())
    }

    // The line is whole.
    fn hear_line<O: IsOurs>(&mut self, ours: &O, now: u64) -> Result<(), ProtocolFault>
        ensures value { OnOk result (after_line (O.ours ours.now) now self.old ≡ Ok self.new) }
        ensures fault { IfErr result (IsFault (after_line (O.ours ours.now) now self.old)) }
        ensures lost { OnErr result (SameLost self.old self.new) }
    {
        let answer = Answer::of(self.alloc, self.heard.as_slice())?;
        self.heard.clear();
        if answer.is_changed() {
            self.pace.is_due = true;
            return Ok(());
        }
        self.pace.hear(now);
        self.hear_answer(ours, answer, now)
    }

    fn hear_answer<O: IsOurs>(
        &mut self,
        ours: &O,
        answer: Answer,
        now: u64,
    ) -> Result<(), ProtocolFault>
        ensures value { OnOk result (of_asked (O.ours ours.now) now self.old.asked self.old answer ≡ Ok self.new) }
        ensures fault { IfErr result (IsFault (of_asked (O.ours ours.now) now self.old.asked self.old answer)) }
        ensures lost { OnErr result (SameLost self.old self.new) }
    {
        match self.asked {
            None => Err(ProtocolFault::OutOfTurn),
            Some(UnderWay::List) => self.hear_of_list(ours, answer, now),
            Some(UnderWay::Get) => self.hear_of_get(ours, answer, now),
            Some(UnderWay::Put(key)) => self.hear_of_put(key, answer, now),
        }
    }
}
