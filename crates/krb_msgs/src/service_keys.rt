//! The service's keys.

ghost use Rattle.std.specs.Prelude.{◌≡◌};
ghost use Rattle.krb_msgs.specs.ServiceKeys.{highest_kvno, is_of_etype, is_wanted, service_key};

use krb_keys::Key;

/// A key of the service, and its version.
#[derive(Clone, Copy)]
pub struct ServiceKey {
    pub kvno: u32,
    pub key: Key,
}

impl ServiceKey {
    fn is_of_etype(&self, etype: i32) -> bool
        ensures { result ≡ is_of_etype etype self.now }
    {
        self.key.etype().number() == etype
    }

    fn is_wanted(&self, etype: i32, kvno: u32) -> bool
        ensures { result ≡ is_wanted etype kvno self.now }
    {
        self.is_of_etype(etype) && self.kvno == kvno
    }
}

/// The highest kvno among the keys of an encryption type; 0 where there are none.
fn highest_kvno(keys: &[ServiceKey], etype: i32) -> u32
    ensures { result ≡ highest_kvno etype keys.now }
{
    match keys {
        [] => 0,
        [key, rest @ ..] => {
            let highest = highest_kvno(rest, etype);
            if key.is_of_etype(etype) && highest < key.kvno {
                key.kvno
            } else {
                highest
            }
        }
    }
}

/// The key that a ticket is sealed under: the first one of its encryption type and kvno, or, if it names no kvno, of
/// the highest kvno of that encryption type.
pub fn service_key(keys: &[ServiceKey], etype: i32, kvno: Option<u32>) -> Option<Key>
    ensures value { result ≡ service_key keys.now etype kvno }
{
    let wanted = match kvno {
        None => highest_kvno(keys, etype),
        Some(kvno) => kvno,
    };
    keys.iter()
        .find(|k| k.is_wanted(etype, wanted))
        .map(|k| k.key)
}
