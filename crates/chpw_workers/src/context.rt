//! What workers answer their messages with.

use std::alloc::Global;

/// What all workers at a desk answer their messages with: the service's realm and keys, whether their changes are put
/// into a KDC's database, and how many entries the desk's history has room for at its start; none if no other desk follows.
#[derive(Drop)]
pub struct Context<'a, M, T> {
    pub alloc: Global,
    pub service: &'a M,
    pub has_kdc: bool,
    pub crew: &'a T,
    pub room: Option<u32>,
}
