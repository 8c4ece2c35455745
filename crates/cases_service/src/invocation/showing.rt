//! What a command line asks for, as a text.

use chpw_invocation::{ClientOptions, Invocation, PasswordSource, ServeOptions};
use std::alloc::{AllocError, Global};

/// The command, with its options in brackets.
pub fn invocation_text(alloc: Global, asked: &Invocation<'_>) -> Result<String, AllocError> {
    match asked {
        Invocation::Drill => String::from_str(alloc, "drill"),
        Invocation::Check { config } => format!(in alloc; "check {config:?}"),
        Invocation::Serve(it) => serve_text(alloc, it),
        Invocation::Control(it) => {
            let order = (it.socket, it.command.word(), it.command.file());
            format!(in alloc; "control {order:?}")
        }
        Invocation::Client(it) => client_text(alloc, it),
        Invocation::Table(_)
        | Invocation::Import(_)
        | Invocation::ImportKdc(_)
        | Invocation::Key(_)
        | Invocation::NewJournal(_) => file_text(alloc, asked),
    }
}

// A command that makes a file or a text.
fn file_text(alloc: Global, asked: &Invocation<'_>) -> Result<String, AllocError> {
    match asked {
        Invocation::Table(it) => {
            format!(in alloc; "table {:?}", (it.config, it.journal, it.form))
        }
        Invocation::Import(it) => {
            format!(in alloc; "import {:?}", (it.keytab, it.realm, it.iterations))
        }
        Invocation::ImportKdc(it) => {
            format!(in alloc; "import kdc {:?}", (it.socket, it.config, it.iterations))
        }
        Invocation::Key(it) => {
            let who = (it.realm, it.name, it.password_file);
            let key = (it.iterations, it.kvno);
            format!(in alloc; "key {who:?} iterations, kvno {key:?}")
        }
        Invocation::NewJournal(it) => {
            format!(in alloc; "new-journal {:?}", (it.config, it.journal, it.resume))
        }
        _ => String::from_str(alloc, "another command"),
    }
}

fn client_text(alloc: Global, it: &ClientOptions<'_>) -> Result<String, AllocError> {
    let password = match it.password {
        PasswordSource::Text(text) => ("text", text),
        PasswordSource::File(file) => ("file", file),
        PasswordSource::StandardInput => ("standard input", ""),
    };
    let place = (it.config, it.seed, it.port);
    let flags = (it.no_initial, it.old);
    format!(in alloc;
        "client {place:?} {:?} no-initial, old {flags:?}",
        (it.client, password, it.target)
    )
}

fn serve_text(alloc: Global, it: &ServeOptions<'_>) -> Result<String, AllocError> {
    let files = (it.config, it.journal, it.seed);
    let others = (it.log, it.resume, it.control);
    let work = (it.port, it.workers, it.connections);
    let mut text = format!(in alloc;
        "serve {files:?} log, resume, control {others:?} port, workers, connections {work:?}"
    )?;
    let limits = (it.idle, it.clients, it.clients_per_peer, it.buffers);
    let kdc = (it.kdc, it.kdc_wait, it.require_kdc);
    let strict = (
        it.rfc3244_only,
        it.strict_messages,
        it.strict_modes,
        it.existing_journal,
    );
    let more = (it.raise, it.udp, it.listen.as_slice());
    write!(
        text,
        " limits {limits:?} kdc {kdc:?} strict {strict:?} raise, udp, addresses {more:?}"
    )?;
    Ok(text)
}
