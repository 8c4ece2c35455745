//! What messages are answered by.
ghost use Rattle.std.specs.Prelude.{◌≡◌, IfOk, map, Ok, true};
ghost use Rattle.krb_msgs.specs.OneAnswer.{AreProtocolKeys};
ghost use Rattle.chpw_rules.specs.Fitting.{config_fits};
ghost use Rattle.chpw_messages.specs.Service.{configured, held};
ghost use Rattle.krb_msgs.specs.declared.private_message.Strictness.TheVariants.{Lenient};
ghost use Rattle.chpw_messages.specs.declared.versions.Versions.TheVariants.{Both};
ghost use Rattle.chpw_start.specs.Faults.{Sets};
ghost use Rattle.chpw_start.specs.Rules.{acceptance_asked};

use chpw_invocation::ServeOptions;
use chpw_messages::Service;
use chpw_rules::Config;
use std::alloc::{AllocError, Global};

/// What messages are answered by, until the configuration is reloaded.
#[derive(Drop)]
pub struct Rules {
    pub service: Service,
    /// The most entries of a history.
    pub max_entries: u32,
    /// The text of the configuration that set these, and that set the principals.
    pub text: Vec<u8>,
}

/// The rules of a configuration with this text, and the versions and the strictness of messages that are asked for. Only
/// want of memory is an error.
pub fn rules_of(
    alloc: Global,
    config: &Config,
    text: Vec<u8>,
    options: &ServeOptions<'_>,
) -> Result<Rules, AllocError>
    requires fits { config_fits config.now ≡ true }
    requires sets { Sets text.items (Ok config.now) }
    ensures text { IfOk result (λ r. r.text ≡ text) }
    ensures sets { IfOk result (λ r. Sets r.text.items (Ok config.now)) }
    ensures realm { IfOk result (λ r. r.service.realm ≡ config.now.realm) }
    ensures keys { IfOk result (λ r. map held r.service.keys ≡ map configured config.now.service) }
    ensures protocol { IfOk result (λ r. AreProtocolKeys r.service.keys) }
    ensures accepts { IfOk result (λ r. r.service.accepts ≡ acceptance_asked options.now) }
    ensures max_entries { IfOk result (λ r. r.max_entries ≡ config.now.max_entries) }
{
    let service = Service::of(alloc, config)?;
    Ok(Rules {
        service: service_for(service, options),
        max_entries: config.max_entries,
        text,
    })
}

// The service that answers the versions and takes the messages that are asked for.
fn service_for(service: Service, options: &ServeOptions<'_>) -> Service
    requires default { service.accepts ≡ record { versions = Both; messages = Lenient } }
    ensures value { result ≡ record service { accepts = acceptance_asked options.now } }
{
    let service = if options.rfc3244_only {
        service.rfc3244_only()
    } else {
        service
    };
    if options.strict_messages {
        service.strict_messages()
    } else {
        service
    }
}
