//! The numbers of the model: the windows of addresses, the parts into which they fall, and the limits.
#![tactic(auto)]

/// The identifier of class 0, as an address. It is no address that is ever mapped.
pub const CLASS_BASE: u32 = 0x1000_0000;

/// How many addresses the identifier of a class stands from that of the class before.
pub const CLASS_BYTES: u32 = 64;

/// The address of the image window's first byte.
pub const IMAGE_BASE: u32 = 0x2000_0000;

/// How many bytes the image window has: the boot objects together have no more.
pub const IMAGE_LENGTH: u32 = 67_108_864;

/// The address of the zygote window's first byte.
pub const ZYGOTE_BASE: u32 = 0x3000_0000;

/// How many bytes the zygote window has: what forks have moved there has no more.
pub const ZYGOTE_LENGTH: u32 = 268_435_456;

/// The address of the first region's first byte.
pub const REGION_BASE: u32 = 0x4000_0000;

/// How many bytes a region has.
pub const REGION_BYTES: u32 = 262_144;

/// How many regions the window of regions has: twice as many as a process may use.
pub const REGION_COUNT: u32 = 1_024;

/// The address of the first byte of the first slot for a large object.
pub const LARGE_BASE: u32 = 0x8000_0000;

/// How many bytes a slot for a large object has.
pub const LARGE_SLOT_BYTES: u32 = 1_048_576;

/// How many slots the window of large objects has, each for one object.
pub const LARGE_SLOT_COUNT: u32 = 512;

/// How many bytes a page has.
pub const PAGE_BYTES: u32 = 4_096;

/// How many bytes a card has.
pub const CARD_BYTES: u32 = 1_024;

/// The least bytes of a large object: an array of primitives with so many, or more, is large.
pub const LEAST_LARGE: u32 = 12_288;

/// The most bytes that an array of primitives may have.
pub const MOST_ARRAY_BYTES: u32 = 1_048_576;

/// The most bytes that an instance or an array of references may have.
pub const MOST_OBJECT_BYTES: u32 = 262_144;

/// The most regions that a process may be given to use.
pub const MOST_REGIONS: u32 = 512;

/// The regions that a process may use where the command line gives no number.
pub const DEFAULT_REGIONS: u32 = 64;

/// The most classes that a process may have.
pub const CLASS_LIMIT: u32 = 65_536;

/// The most fields that a class may declare.
pub const FIELD_LIMIT: usize = 4_096;

/// The bound of the numbers that objects have: each is below it.
pub const NUMBER_LIMIT: u32 = 268_435_456;

/// The most bytes that a line of a script may have, without the byte that ends it.
pub const LINE_LIMIT: usize = 4_096;

/// The most bytes of a script that are read.
pub const INPUT_LIMIT: usize = 268_435_456;

/// The most bytes of a script that are taken at once.
pub const PIECE_BYTES: usize = 4_096;

/// The most bytes that a name may have.
pub const NAME_LIMIT: usize = 128;
