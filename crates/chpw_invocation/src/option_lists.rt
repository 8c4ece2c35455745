//! The options of the program's commands, each in one row: its name, what it takes with the greatest number, what the help calls
//! its value, and what the help says of it, with its limits and its default.

use crate::invocation::{
    GREATEST_COUNT, GREATEST_KVNO, GREATEST_PORT, LONGEST_IDLE, LONGEST_KDC_WAIT, MOST_BUFFERS,
    MOST_CLIENTS, MOST_CLIENTS_PER_PEER, MOST_WORKERS,
};
use crate::options::{OptionKind, OptionLine};

const CONFIG: OptionLine = OptionLine {
    name: "config",
    kind: OptionKind::Required,
    value: "FILE",
    help: "The configuration, in TOML: realm, policy, rules, principals, service keys",
};

const ITERATIONS: OptionLine = OptionLine {
    name: "iterations",
    kind: OptionKind::OptionalNumber(GREATEST_COUNT),
    value: "COUNT",
    help: "The keys' iteration count, 1 to 16777216 [default: 4096]",
};

const SEED: OptionLine = OptionLine {
    name: "seed",
    kind: OptionKind::Required,
    value: "FILE",
    help: "A file whose first 32 bytes seed the random numbers; use a new seed for each run",
};

/// The options of `check`.
pub(crate) static CHECK_OPTIONS: [OptionLine; 1] = [CONFIG];

/// The options of `table`.
pub(crate) static TABLE_OPTIONS: [OptionLine; 3] = [
    CONFIG,
    OptionLine {
        name: "journal",
        kind: OptionKind::Required,
        value: "FILE",
        help: "The journal of accepted changes, which must exist",
    },
    OptionLine {
        name: "as",
        kind: OptionKind::Optional,
        value: "FORM",
        help: "lines, configuration or keys [default: lines]",
    },
];

/// The options of `import`.
pub(crate) static IMPORT_OPTIONS: [OptionLine; 5] = [
    OptionLine {
        name: "keytab",
        kind: OptionKind::Optional,
        value: "FILE",
        help: "The keytab, in MIT's format 0x0502; or --kdc",
    },
    OptionLine {
        name: "realm",
        kind: OptionKind::Optional,
        value: "REALM",
        help: "The realm of the keytab's principals, 1 to 255 bytes",
    },
    OptionLine {
        name: "kdc",
        kind: OptionKind::Optional,
        value: "SOCKET",
        help: "The socket of the agent at the KDC's database; or --keytab with --realm",
    },
    OptionLine {
        name: "config",
        kind: OptionKind::Optional,
        value: "FILE",
        help: "With --kdc: the configuration whose [kdc] says who is the service's [default: one component]",
    },
    ITERATIONS,
];

/// The options of `key`.
pub(crate) static KEY_OPTIONS: [OptionLine; 5] = [
    OptionLine {
        name: "realm",
        kind: OptionKind::Required,
        value: "REALM",
        help: "The realm, 1 to 255 bytes",
    },
    OptionLine {
        name: "name",
        kind: OptionKind::Required,
        value: "NAME",
        help: "The principal: 1 to 8 components of 1 to 128 bytes, with / between them, as alice or alice/admin",
    },
    OptionLine {
        name: "password-file",
        kind: OptionKind::Required,
        value: "FILE",
        help: "The file with the password",
    },
    ITERATIONS,
    OptionLine {
        name: "kvno",
        kind: OptionKind::OptionalNumber(GREATEST_KVNO),
        value: "N",
        help: "The key version, 1 to 4294967295 [default: 1]",
    },
];

/// The options of `new-journal`.
pub(crate) static NEW_JOURNAL_OPTIONS: [OptionLine; 3] = [
    CONFIG,
    OptionLine {
        name: "journal",
        kind: OptionKind::Required,
        value: "FILE",
        help: "The journal to make, where there is no file yet",
    },
    OptionLine {
        name: "resume",
        kind: OptionKind::Optional,
        value: "FILE",
        help: "Make this file, too, where there is none yet, so that the first 'serve --resume' has no quiet time [default: none]",
    },
];

/// The options of `serve`.
pub(crate) static SERVE_OPTIONS: [OptionLine; 23] = [
    CONFIG,
    OptionLine {
        name: "journal",
        kind: OptionKind::Required,
        value: "FILE",
        help: "The journal of accepted changes; replayed at the start, and created if it doesn't exist",
    },
    SEED,
    OptionLine {
        name: "port",
        kind: OptionKind::Number(GREATEST_PORT as u32),
        value: "N",
        help: "The port to listen at, 1 to 65535",
    },
    OptionLine {
        name: "listen",
        kind: OptionKind::Repeated,
        value: "ADDRESS",
        help: "An address of this host to listen at, IPv4 or IPv6; as often as there are addresses [default: 127.0.0.1]",
    },
    OptionLine {
        name: "workers",
        kind: OptionKind::Number(MOST_WORKERS as u32),
        value: "N",
        help: "How many messages are answered at a time, 1 to 16",
    },
    OptionLine {
        name: "connections",
        kind: OptionKind::Required,
        value: "N",
        help: "End after this many connections, 1 to 4294967295; unlimited to run until it is stopped",
    },
    OptionLine {
        name: "idle",
        kind: OptionKind::OptionalNumber(LONGEST_IDLE as u32),
        value: "SECONDS",
        help: "End a connection after this many seconds without a complete message or with an unread reply, 1 to 3600 [default: 30]",
    },
    OptionLine {
        name: "clients",
        kind: OptionKind::OptionalNumber(MOST_CLIENTS),
        value: "N",
        help: "How many connections may be open at a time, 1 to 65536 [default: 1024]",
    },
    OptionLine {
        name: "clients-per-peer",
        kind: OptionKind::OptionalNumber(MOST_CLIENTS_PER_PEER),
        value: "N",
        help: "How many of them one peer may have at a time, 1 to 65536 [default: a quarter of --clients]",
    },
    OptionLine {
        name: "buffers",
        kind: OptionKind::OptionalNumber(MOST_BUFFERS as u32),
        value: "MEBIBYTES",
        help: "How many MiB the messages and replies of all connections may hold together, 1 to 1024 [default: 32]",
    },
    OptionLine {
        name: "raise",
        kind: OptionKind::OptionalNumber(GREATEST_COUNT),
        value: "COUNT",
        help: "Raise the iteration count of new keys before serving, to 1 to 16777216; existing keys stay",
    },
    OptionLine {
        name: "log",
        kind: OptionKind::Optional,
        value: "FILE",
        help: "Append a line for each decision to this file, created if it doesn't exist; - for standard error [default: no log]",
    },
    OptionLine {
        name: "resume",
        kind: OptionKind::Optional,
        value: "FILE",
        help: "Write to this file at a clean end which requests were answered, and take it over at the next start, without a quiet time [default: none]",
    },
    OptionLine {
        name: "kdc",
        kind: OptionKind::Optional,
        value: "SOCKET",
        help: "The socket of the agent at the KDC's database: keys are written and taken there [default: none]",
    },
    OptionLine {
        name: "kdc-wait",
        kind: OptionKind::OptionalNumber(LONGEST_KDC_WAIT),
        value: "MILLISECONDS",
        help: "How many milliseconds a reply waits for the KDC at most, 1 to 60000 [default: 2000]",
    },
    OptionLine {
        name: "require-kdc",
        kind: OptionKind::Flag,
        value: "",
        help: "Refuse requests while the KDC doesn't get changes within --kdc-wait",
    },
    OptionLine {
        name: "control",
        kind: OptionKind::Optional,
        value: "SOCKET",
        help: "Accept commands of 'control' at this socket [default: none]",
    },
    OptionLine {
        name: "udp",
        kind: OptionKind::Flag,
        value: "",
        help: "Accept messages over UDP too, at the same port and addresses",
    },
    OptionLine {
        name: "rfc3244-only",
        kind: OptionKind::Flag,
        value: "",
        help: "Answer requests of the earlier protocol, version 0x0001, with 'bad version'",
    },
    OptionLine {
        name: "strict-messages",
        kind: OptionKind::Flag,
        value: "",
        help: "Refuse a KRB-PRIV without an expected sequence number or microseconds, or for another address",
    },
    OptionLine {
        name: "strict-modes",
        kind: OptionKind::Flag,
        value: "",
        help: "Don't start if other users may read, write or replace its files",
    },
    OptionLine {
        name: "existing-journal",
        kind: OptionKind::Flag,
        value: "",
        help: "Don't start if there is no journal: make one with new-journal",
    },
];

/// The options of `control`.
pub(crate) static CONTROL_OPTIONS: [OptionLine; 3] = [
    OptionLine {
        name: "socket",
        kind: OptionKind::Required,
        value: "SOCKET",
        help: "The control socket of the service",
    },
    OptionLine {
        name: "command",
        kind: OptionKind::Word,
        value: "COMMAND",
        help: "status, reload, reopen-log, stop or compact",
    },
    OptionLine {
        name: "file",
        kind: OptionKind::OptionalWord,
        value: "FILE",
        help: "For compact only: the file to save the configuration to",
    },
];

/// The options of `client`.
pub(crate) static CLIENT_OPTIONS: [OptionLine; 9] = [
    CONFIG,
    SEED,
    OptionLine {
        name: "port",
        kind: OptionKind::Number(GREATEST_PORT as u32),
        value: "N",
        help: "The service's port on 127.0.0.1, 1 to 65535",
    },
    OptionLine {
        name: "client",
        kind: OptionKind::Required,
        value: "NAME",
        help: "The client's principal: 1 to 8 components of 1 to 128 bytes, with / between them, as alice or alice/admin",
    },
    OptionLine {
        name: "password",
        kind: OptionKind::Optional,
        value: "TEXT",
        help: "The new password, at most 60000 bytes; or --password-file",
    },
    OptionLine {
        name: "password-file",
        kind: OptionKind::Optional,
        value: "FILE",
        help: "The file with the new password on its only line, or - for standard input",
    },
    OptionLine {
        name: "target",
        kind: OptionKind::Optional,
        value: "NAME",
        help: "The principal whose password is set, a name as for --client [default: the client]",
    },
    OptionLine {
        name: "no-initial",
        kind: OptionKind::Flag,
        value: "",
        help: "Make a ticket without the flag INITIAL, as one from a TGT would be",
    },
    OptionLine {
        name: "old",
        kind: OptionKind::Flag,
        value: "",
        help: "Ask in the earlier protocol, version 0x0001, for the client's own password: without --target",
    },
];
