//! What a processor was told of a life.

use dt_cred::Account;
use dt_trail::Told;

/// What a processor was told of a life whose note it hasn't taken.
#[derive(Drop)]
pub(crate) struct ToldOf {
    pub(crate) life: u64,
    pub(crate) told: Told<Account>,
}
