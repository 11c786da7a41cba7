//! The OIDs that an adapter knows, by the numbers that NDIS gives them, and what their values are made of (WDK,
//! "General Objects", "Ethernet Objects").

/// The longest payload of a frame, in bytes.
pub(crate) const OID_GEN_MAXIMUM_FRAME_SIZE: u32 = 0x0001_0106;

/// The kinds of frames that a binding receives.
pub(crate) const OID_GEN_CURRENT_PACKET_FILTER: u32 = 0x0001_010E;

/// How many frames were sent.
pub(crate) const OID_GEN_XMIT_OK: u32 = 0x0002_0101;

/// How many frames were received.
pub(crate) const OID_GEN_RCV_OK: u32 = 0x0002_0102;

/// The address that the adapter was made with.
pub(crate) const OID_802_3_PERMANENT_ADDRESS: u32 = 0x0101_0101;

/// The address that the adapter uses.
pub(crate) const OID_802_3_CURRENT_ADDRESS: u32 = 0x0101_0102;

/// A frame without its header, in bytes.
pub(crate) const MAXIMUM_FRAME_SIZE: u32 = 1500;

/// The bits of a packet filter that may be set: NDIS_PACKET_TYPE_DIRECTED (0x1), _MULTICAST (0x4), _BROADCAST
/// (0x8) and _PROMISCUOUS (0x20).
pub(crate) const SETTABLE_BITS: u32 = 0x2D;
