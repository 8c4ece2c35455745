//! The request that a client sends.
ghost use Rattle.std.specs.Prelude.{◌≡◌, ◌≤◌, ◌<◌, ◌≤ℤ◌, pos, true, None, length, option_map, IfOk, IfSome};
ghost use Rattle.std.specs.List.{list_all};
ghost use Rattle.chpw_rules.specs.Fitting.{config_fits, service_key_fits};
ghost use Rattle.chpw_rules.specs.Names.{is_name};
ghost use Rattle.chpw_serve.specs.InTurn.{InTurn};
ghost use Rattle.chpw_client.specs.Requests.{IsRequest};
ghost use Rattle.chpw_client.specs.Questions.{IsAskable, latest_second, question_of};
ghost use Rattle.chpw_client.specs.Configured.{IsFirstKey};
ghost use Rattle.chpw_client.specs.Words.{words_of};
ghost use Rattle.chpw_client.specs.declared.drawing.RequestWords.{RequestWords};
ghost use Rattle.krb_msgs.specs.declared.service_keys.ServiceKey.{ServiceKey};

use crate::drawing::{RequestWords, draw_words};
use crate::messages::{ap_req, drawn_key, krb_priv};
use crate::request_terms::RequestTerms;
use chpw_frame::{join_old_request, join_request};
use chpw_rules::{Config, Items, Name, ServiceRow};
use chpw_serve::Words;
use chpw_table::Moment;
use krb_der::{KerberosTime, Microseconds};
use krb_keys::{Key, key_of};
use krb_msgs::ServiceKey;
use std::alloc::{AllocError, Global};

/// The most bytes of a new password.
pub const LONGEST_PASSWORD: usize = 60_000;

/// The last second at which a request is made: its ticket ends an hour later, in the year 9999.
pub const LAST_START: i64 = 253_402_297_199;

/// A request, and what its reply is read with.
#[derive(Drop)]
pub struct SentRequest {
    /// At most 65,535 bytes.
    pub message: Items<u8>,
    pub session: Key,
    pub subkey: Key,
    /// The authenticator's time, and its microseconds.
    pub ctime: KerberosTime,
    pub cusec: Microseconds,
}

/// The request of a client to change its own password, or to set a target's (RFC 3244 section 2); if it is `old`, in
/// the earlier protocol, which has no target (draft-ietf-cat-kerb-chg-password-02 section 3).
///
/// The ticket is sealed under the configuration's first service key. Session key and subkey (etype 18), then the
/// confounders of ticket, authenticator and KRB-PRIV, are words drawn in this order, low byte first. authtime, ctime
/// and cusec are the moment, whose seconds are 0 to [`LAST_START`] and microseconds below 1,000,000; endtime is an hour
/// later. The configuration fits and has a service key, the names have 1 to 8 components of 1 to 128 bytes, and the
/// password has at most [`LONGEST_PASSWORD`] bytes: such a request fits into one message, so an error means that memory
/// ran out.
pub fn client_request<X: Words>(
    alloc: Global,
    config: &Config,
    now: Moment,
    client: &Name,
    password: &[u8],
    target: Option<&Name>,
    initial: bool,
    old: bool,
    words: &mut X,
) -> Result<SentRequest, AllocError>
    requires fits { config_fits config.now ≡ true }
    requires keys { 0 < length config.now.service }
    requires client { is_name client.now ≡ true }
    requires target { IfSome target (λ n. is_name n.now ≡ true) }
    requires own { old ≡ true → target ≡ None }
    requires password { length password.now ≤ 60000 }
    requires start { pos 0 ≤ℤ now.seconds }
    requires end { now.seconds ≤ℤ pos latest_second }
    requires micros { now.micros < 1000000 }
    ensures sent { IfOk result (λ sent. (key : ServiceKey) × (drawn : RequestWords)
        × IsFirstKey config.now.service key
        × InTurn X.gives words.old (words_of drawn) words.new
        × IsRequest (record {
          realm = config.now.realm;
          service = key;
          now = now;
          client = client.now;
          password = password.now;
          target = option_map (λ n. n.now) target.entry;
          initial = initial;
          old = old;
        }) drawn sent) }
{
    let realm = config.realm.as_slice();
    let rows = config.service.as_slice();
    let service = first_key(rows);
    let asked = RequestTerms {
        realm,
        service: &service,
        now,
        client,
        password,
        target,
        initial,
        old,
    };
    let drawn = draw_words(words);
    request_of(alloc, &asked, &drawn)
}

fn first_key(rows: &[ServiceRow]) -> ServiceKey
    requires some { 0 < length rows.now }
    requires fit { list_all service_key_fits rows.now ≡ true }
    ensures first { IsFirstKey rows.now result }
{
    match rows {
        [] => unreachable!(),
        [row, ..] => match key_of(row.etype, row.key.as_slice()) {
            Ok(key) => ServiceKey {
                kvno: row.kvno,
                key,
            },
            Err(_) => unreachable!(),
        },
    }
}

// The message, and what its reply is read with.
fn request_of(
    alloc: Global,
    asked: &RequestTerms<'_>,
    words: &RequestWords,
) -> Result<SentRequest, AllocError>
    requires askable { IsAskable (question_of asked.now) }
    ensures request { IfOk result (IsRequest (question_of asked.entry.now) words.now) }
{
    let ap = ap_req(alloc, asked, words)?;
    let tail = krb_priv(alloc, asked, words)?;
    let message = if asked.old {
        join_old_request(alloc, &ap, &tail)?
    } else {
        join_request(alloc, &ap, &tail)?
    };
    Ok(SentRequest {
        message: Items::of(message),
        session: drawn_key(words.session),
        subkey: drawn_key(words.subkey),
        ctime: KerberosTime(asked.now.seconds),
        cusec: Microseconds(asked.now.micros),
    })
}
