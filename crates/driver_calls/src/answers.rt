//! What a miniport answers to a request.
use ndis_base::{OidStatus, OidValue};

/// The status of a request and its value: what a query asked for; empty for a set and where the request failed.
#[derive(Drop)]
pub struct OidAnswer {
    pub status: OidStatus,
    pub value: OidValue,
}
