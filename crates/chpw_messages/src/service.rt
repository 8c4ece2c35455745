//! The service: its realm, its keys, and the messages that it accepts.
ghost use Rattle.std.specs.Prelude.{◌≡◌, true, map, IfOk};
ghost use Rattle.std.specs.List.{list_all};
ghost use Rattle.krb_keys.specs.Keys.{IsProtocolKey};
ghost use Rattle.krb_msgs.specs.OneAnswer.{AreProtocolKeys};
ghost use Rattle.chpw_rules.specs.Fitting.{config_fits, service_key_fits};
ghost use Rattle.chpw_messages.specs.Service.{configured, held};
ghost use Rattle.chpw_messages.specs.declared.versions.Versions.TheVariants.{Both, Rfc3244Only};
ghost use Rattle.krb_msgs.specs.declared.private_message.Strictness.TheVariants.{Lenient, Strict};

use crate::opening::open_under;
use crate::private_reply::private_reply;
use crate::replies::error_reply;
use crate::versions::{Acceptance, Versions};
use chpw_endpoints::Endpoints;
use chpw_rules::{Config, Items, ServiceRow};
use chpw_serve::{Messages, OpenResult, Seal};
use chpw_table::Moment;
use krb_keys::key_of;
use krb_msgs::{ServiceKey, Strictness};
use krb_protocol::Refusal;
use std::alloc::{AllocError, Global};
use std::marker::Model;

/// The service kadmin/changepw of a realm (RFC 3244 section 2): it opens messages and makes
/// replies.
#[derive(Drop)]
pub struct Service {
    realm: Items<u8>,
    keys: Vec<ServiceKey>,
    accepts: Acceptance,
}

impl Model for Service {
    ghost use Rattle.chpw_messages.specs.Service.{Identity, IsRealm};

    ghost Value = { Identity };

    ghost view = { λ s. record { realm = s.realm; keys = s.keys.items; accepts = s.accepts } };

    ghost invariant = { λ s. IsRealm s.realm };
}

impl Service {
    /// The service of a configuration that fits: its realm, and its service keys in their order, each of the length of
    /// its encryption type. So a message opens to one answer ([`crate::laws::one_opening`]). It answers both versions, and its
    /// messages needn't be strict.
    pub fn of(alloc: Global, config: &Config) -> Result<Service, AllocError>
        requires fits { config_fits config.now ≡ true }
        ensures realm { IfOk result (λ s. s.realm ≡ config.now.realm) }
        ensures keys { IfOk result (λ s. map held s.keys ≡ map configured config.now.service) }
        ensures protocol { IfOk result (λ s. AreProtocolKeys s.keys) }
        ensures accepts { IfOk result (λ s. s.accepts ≡ record { versions = Both; messages = Lenient }) }
    {
        Ok(Service {
            realm: Items::of(Vec::from_slice(alloc, config.realm.as_slice())?),
            keys: service_keys(alloc, config.service.as_slice())?,
            accepts: Acceptance {
                versions: Versions::Both,
                messages: Strictness::Lenient,
            },
        })
    }

    /// The service with the same realm and keys that answers requests of RFC 3244 alone ([`crate::laws::versions`]).
    pub fn rfc3244_only(self) -> Service
        ensures value { result ≡ record self { accepts = record self.accepts { versions = Rfc3244Only } } }
    {
        let Service {
            realm,
            keys,
            accepts,
        } = self;
        Service {
            realm,
            keys,
            accepts: Acceptance {
                versions: Versions::Rfc3244Only,
                messages: accepts.messages,
            },
        }
    }

    /// The service with the same realm, keys and versions whose messages have to be strict
    /// ([`crate::laws::strict_messages`]).
    pub fn strict_messages(self) -> Service
        ensures value { result ≡ record self { accepts = record self.accepts { messages = Strict } } }
    {
        let Service {
            realm,
            keys,
            accepts,
        } = self;
        Service {
            realm,
            keys,
            accepts: Acceptance {
                versions: accepts.versions,
                messages: Strictness::Strict,
            },
        }
    }
}

fn service_keys(alloc: Global, rows: &[ServiceRow]) -> Result<Vec<ServiceKey>, AllocError>
    requires fit { list_all service_key_fits rows.now ≡ true }
    ensures value { IfOk result (λ keys. map held keys.items ≡ map configured rows.now) }
    ensures protocol { IfOk result (λ keys. AreProtocolKeys keys.items) }
{
    let mut keys = Vec::with_capacity(alloc, rows.len())?;
    for row in rows {
        keys.push(service_key(row))?;
    }
    Ok(keys)
}

fn service_key(row: &ServiceRow) -> ServiceKey
    requires fits { service_key_fits row.now ≡ true }
    ensures value { held result ≡ configured row.now }
    ensures protocol { IsProtocolKey result.key }
{
    match key_of(row.etype, row.key.as_slice()) {
        Ok(key) => ServiceKey {
            kvno: row.kvno,
            key,
        },
        Err(_) => unreachable!(),
    }
}

impl Messages for Service {
    ghost use Rattle.chpw_messages.specs.Versions.{OpensUnder};
    ghost use Rattle.chpw_messages.specs.Replies.{error_frame as krb_error_reply, private_frame as krb_priv_reply};

    ghost opens = { λ s ends bytes o. OpensUnder s.accepts s.realm s.keys ends bytes o };

    ghost error_frame = { λ s a now. krb_error_reply s.realm a now };

    ghost private_frame = { λ s seal a words. krb_priv_reply seal a words };

    fn realm(&self) -> &[u8]
        ensures value { result.now ≡ self.now.realm }
    {
        self.realm.as_slice()
    }

    fn open(
        &self,
        alloc: Global,
        ends: Endpoints,
        message: &[u8],
    ) -> Result<OpenResult, AllocError> {
        open_under(
            alloc,
            self.accepts,
            self.realm.as_slice(),
            &self.keys,
            ends,
            message,
        )
    }

    fn make_error(
        &self,
        alloc: Global,
        refusal: Refusal,
        now: Moment,
    ) -> Result<Vec<u8>, AllocError> {
        error_reply(alloc, self.realm.as_slice(), refusal, now)
    }

    fn make_private(
        &self,
        alloc: Global,
        seal: &Seal,
        code: u16,
        text: &str,
        words: [u32; 9],
    ) -> Result<Vec<u8>, AllocError> {
        private_reply(alloc, seal, code, text, words)
    }
}
