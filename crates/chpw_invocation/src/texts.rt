//! What the help says of the program and of its commands: of each a line, and what stands below its options.

pub(crate) const ABOUT: &str = "The Kerberos change-password service kadmin/changepw (RFC 3244).";

pub(crate) const STATUSES: &str = "\
Exit status: 0 for success; 1 for a fault, with a line on standard error, or for a request that the
service refused; 2 for a bad command line, or for help. A value that begins with a dash needs the
equals sign, as in --password=-word-.";

pub(crate) const DRILL: &str = "Run a script of requests from standard input, without a network.";

pub(crate) const DRILL_MORE: &str = "\
The script has a line for each rule, principal and request. For each request a line is printed: the
result code, the error code of a KRB-ERROR or a dash, and the text. A bad line ends the drill with
status 1.

Example:
  chpw_server drill < samples/drill/changes.script";

pub(crate) const CHECK: &str = "Check a configuration, and print its first fault.";

pub(crate) const CHECK_MORE: &str = "\
Prints 'ok: principals N, rules N, service keys N' with status 0, or the first fault as kind, part and
index, such as 'C4 policy 0', with status 1; then standard error says where it is and what was
expected. Settings that nothing reads, rules whose names are no principal's, and rules for everybody are
named on standard error, too; they don't change the status.

Example:
  chpw_server check --config samples/realm.toml";

pub(crate) const TABLE: &str = "Print the current principal table.";

pub(crate) const TABLE_MORE: &str = "\
Prints the configuration's principals with the journal's changes applied: what a service would start
with. Both files are only read, and may be in use by a running service.

  --as lines          a line for each principal: 'alice kvno 3 counts 4096 4096'; at the end
                      'principals N changes N'
  --as configuration  a configuration with the current keys, to start over with an empty journal
  --as keys           a line for each key: name, kvno, etype, iterations, key, salt

The last two print keys in the clear: protect the output like the configuration.

Example:
  chpw_server table --config samples/realm.toml --journal realm.journal";

pub(crate) const SERVE: &str = "Run the service.";

pub(crate) const SERVE_MORE: &str = "\
Prints 'listening on ADDRESS:PORT' for each address before it accepts the first connection, and
'entries N changes N' at the end and whenever a history ends, when it is full or by a reload or 'control compact': how many
requests were decided, and how many of them changed a password.

Connection i is answered by worker i modulo the number of workers; with --udp each datagram counts as
a connection. No worker waits for a client: a message goes to its worker once it is complete. A client
that is silent or slow occupies only its own connection, for as long as --idle allows. When --clients
is reached, a new connection ends the one that has waited longest for its client. When --buffers
leaves no room, those connections end whose message or reply has been on its way the longest.

With --kdc SOCKET it asks the agent at the KDC's database to write each new key there, and takes users
and passwords from there. The reply to a change waits until the KDC has the new key, so that a client
can use its new password at once. If the agent doesn't answer within --kdc-wait, the reply is sent
anyway, and the log says so. With --require-kdc such a reply isn't sent, and its connection ends; and
while there is no connection to the agent, or a key has been on its way for longer, each request is
answered code 2, error 60, 'KDC out of reach', and isn't decided.

After a start that finds a journal, requests are refused for five minutes, since some may have been
answered before. With --resume FILE a clean end ('control stop') leaves in FILE which requests were
answered, and the next start removes FILE and goes on from there at once. A FILE that doesn't fit the
realm, the journal and the clock is set aside, and a line says why.

With --raise COUNT it first prints the result: 'raised COUNT', 'count not higher', 'journal failed' or
'history full'. It serves after each of them.

Example:
  chpw_server serve --config samples/realm.toml --journal realm.journal --seed /dev/urandom \\
      --port 464 --workers 4 --connections unlimited";

pub(crate) const NEW_JOURNAL: &str = "Make an empty journal for a realm.";

pub(crate) const NEW_JOURNAL_MORE: &str = "\
The journal begins with a record of the configuration's realm, and is refused from then on with a
configuration of another realm. It is readable and writable by its owner alone. Nothing is overwritten.

A start that finds a journal refuses requests for five minutes, since some may have been answered
before. --resume FILE makes FILE as a clean end would leave it that had answered none: the first
'serve --resume FILE' removes it and answers at once.

Example:
  chpw_server new-journal --config samples/realm.toml --journal realm.journal --resume realm.resume";

pub(crate) const IMPORT: &str = "Convert a keytab's keys, or a KDC's, to a configuration.";

pub(crate) const IMPORT_MORE: &str = "\
With --keytab and --realm: prints a [[service.key]] for each key of kadmin/changepw, and a
[[principal]] for each other principal of the realm. Entries that a configuration can't hold are
skipped, each with a line on standard error that says why.

With --kdc: asks the agent at the KDC's database, and prints a [[principal]] for each principal with
both AES keys that [kdc] of --config includes and doesn't exclude; without --config for each of one
component. The others are skipped, each with such a line; the last line has both numbers. If none is
left, the status is 1.

Neither contains the iteration count of its keys: give it with --iterations.

The output has keys in the clear: protect it like the keytab.

Examples:
  chpw_server import --keytab realm.keytab --realm EXAMPLE.COM >> realm.toml
  chpw_server import --kdc /run/kdc/agent.socket >> realm.toml";

pub(crate) const KEY: &str = "Make a principal's keys from a password, for a configuration.";

pub(crate) const KEY_MORE: &str = "\
Prints a [[principal]] with one key, made from the password with the usual salt: the realm followed by
the name's components. A newline at the end of the file is not part of the password.

The output has keys in the clear: protect it like the password.

Example:
  chpw_server key --realm EXAMPLE.COM --name alice --password-file alice.password >> realm.toml";

pub(crate) const CONTROL: &str = "Send a command to a running service.";

pub(crate) const CONTROL_MORE: &str = "\
Sends a line to the socket that the service was started with (serve --control), and prints the answer.
The status is 0 only if the last line of the answer is 'ok'.

  status         report the state of the service
  reload         read the configuration again
  reopen-log     reopen the log file
  stop           stop the service
  compact FILE   replace the journal by a compact one, and save the present configuration to FILE

Example:
  chpw_server control --socket control.socket status";

pub(crate) const CLIENT: &str = "Send one request to a service on this machine, without a KDC.";

pub(crate) const CLIENT_MORE: &str = "\
The ticket is made with the configuration's first service key, so no KDC is asked. Prints
'code C TEXT', or 'code C error E TEXT' if the service answered with a KRB-ERROR. The status is 0 only
for code 0, password changed.

Example:
  chpw_server client --config samples/realm.toml --seed /dev/urandom --port 464 \\
      --client alice --password-file new.password";
