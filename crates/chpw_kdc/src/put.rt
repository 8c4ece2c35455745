//! A key on its way to the KDC, and the request under way.
ghost use Rattle.std.specs.Prelude.{◌≡◌};
ghost use Rattle.chpw_kdc.specs.Answering.{brings};

use crate::fields::KeyPair;
use crate::judging::is_same;
use chpw_record::KeyRow;
use chpw_rules::Name;

/// How many keys may be on their way to the KDC before no change adds another one: twice as many as a table has principals. A
/// comparison, which begins while there is none, brings at most one for each name of the mirror.
pub const MOST_PUTS: usize = 20_000;

/// A key on its way to the KDC.
#[derive(Drop)]
pub(crate) struct Put {
    pub name: Name,
    pub key: KeyRow,
    // That of the change which it comes from; none if it comes from a comparison.
    pub ticket: Option<u64>,
    // Since when it is: when the change came, or when the comparison began.
    pub since: u64,
}

impl Put {
    /// Whether a change put this key of the name.
    pub fn brings(&self, name: &Name, key: &KeyRow) -> bool
        ensures value { result ≡ brings name.now key.now self.now }
    {
        let keys = KeyPair {
            aes256: key.aes256,
            aes128: key.aes128,
        };
        self.ticket.is_some() && self.name.is_same(name) && is_same(&self.key, key.kvno, &keys)
    }
}

/// The request under way.
#[derive(Clone, Copy, Drop)]
pub(crate) enum UnderWay {
    /// Every name with its keys.
    List,
    /// The first of the names that are asked for alone.
    Get,
    /// That the first of the puts' names gets this key.
    Put(KeyRow),
}
