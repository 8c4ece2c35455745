//! Cases of the ciphers, hashes and keys of `krb_aes` and `krb_keys`, a line of words each, listed in README.md.

mod answers;

pub use answers::answer;
