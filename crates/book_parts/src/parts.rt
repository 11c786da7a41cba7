//! What a book is made of.
use buffer_pools::ListPool;
use driver_tray::Tray;

/// A stack: the tray with its journal and what is on its way, its drivers by place, the places of the
/// drivers on the shelf, the seats of the filters that are attached, and each driver's pool.
pub struct BookParts<M, P, F> {
    pub tray: Tray,
    pub miniport: M,
    pub protocols: Vec<P>,
    pub filters: Vec<F>,
    pub shelf: Vec<usize>,
    pub seats: Vec<(u64, usize)>,
    pub miniport_pool: ListPool,
    pub protocol_pools: Vec<ListPool>,
    pub filter_pools: Vec<ListPool>,
}
