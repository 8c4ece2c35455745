//! What the table is to learn from the KDC, and what is to be reported.

use crate::answer::Reason;
use chpw_record::KeyRow;
use chpw_rules::{Items, Name};

/// What the desk is to be asked.
#[derive(Drop)]
pub enum KdcUpdate {
    /// The KDC has this key of a name that the table lacks, or of a newer version than the table's.
    Adopt { name: Name, key: KeyRow },
    /// The newest key of the name has this version at the KDC, a higher one.
    Lift { name: Name, kvno: u32 },
    /// The KDC has the name no more.
    Remove { name: Name },
}

/// What is to be reported, once.
#[derive(Drop)]
pub enum Notice {
    /// A change was lost, or a key of the table's (`want_lost`): table and KDC are compared anew.
    Lost,
    /// The agent doesn't write this name, or doesn't give its keys.
    Refused { name: Name, reason: Reason },
    /// The KDC lacks `gone` of the `of` names that are held: more than ten, and more than a tenth. None is removed.
    TooManyGone { gone: usize, of: usize },
    /// The table has as many principals as it may: this name of the KDC's isn't adopted, nor another one until one is gone.
    TableFull { name: Name },
    /// The database, or memory, can't be had: what the agent says of it.
    Failed { text: Items<u8> },
}

/// A name that the agent refused, and why.
#[derive(Drop)]
pub struct RefusedName {
    pub name: Name,
    pub reason: Reason,
}
