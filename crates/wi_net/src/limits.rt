//! The limits of the format, by which each number of a part fits in 32 bits.

/// The most routers.
pub const ROUTER_LIMIT: u32 = 10_000;

/// The most labels, of all classes.
pub const LABEL_LIMIT: u32 = 20_000;

/// The most links.
pub const LINK_LIMIT: u32 = 20_000;

/// The most rows.
pub const ROW_LIMIT: u32 = 200_000;

/// The most members, of all rows.
pub const MEMBER_LIMIT: u32 = 400_000;

/// The most operations of a member.
pub const OPERATION_LIMIT: u32 = 8;
