//! Why a driver isn't set up.

use thiserror::Error;

/// The driver refused, or memory was wanting.
#[derive(Clone, Copy, Debug, PartialEq, Eq, Error)]
pub enum AttachFault {
    #[error("the driver refused")]
    Refused,
    #[error("out of memory")]
    Memory,
}
