//! Limits of a ring of servers.

/// The most servers of a ring; their numbers are below this.
pub const MAX_SERVERS: u8 = 60;

/// The most vnodes of a server.
pub const MAX_VNODES: u8 = 16;

/// The most vnodes of a ring: their indexes are below this. Of an identifier's 256 indexes the last two are of no vnode.
pub const MAX_RING_VNODES: u32 = 254;

/// The most bytes of an address.
pub const MAX_ADDRESS_BYTES: usize = 255;

/// The fewest bytes of an address: a host, a colon and a port, of one each.
pub(crate) const MIN_ADDRESS_BYTES: usize = 3;
