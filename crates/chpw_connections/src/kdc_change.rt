//! What a turn leaves to be put into the KDC's database.

use chpw_record::PrincipalKey;

/// What a turn leaves to be put into the KDC's database.
#[derive(Drop)]
pub enum KdcChange {
    /// Nothing: no change was made, or there is no KDC.
    Nothing,
    /// This principal has this key now.
    Key(PrincipalKey),
    /// A change was made, and its key is not to be had: memory ran out, or the table holds it no more.
    Lost,
}
