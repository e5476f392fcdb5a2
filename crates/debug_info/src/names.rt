//! Names of attributes (DWARF 5, section 7.5.4).

/// `DW_AT_location`
pub(crate) const LOCATION: u64 = 0x02;
/// `DW_AT_name`
pub(crate) const NAME: u64 = 0x03;
/// `DW_AT_byte_size`
pub(crate) const BYTE_SIZE: u64 = 0x0B;
/// `DW_AT_bit_offset`, of version 3, as clang writes it
pub(crate) const OLD_BIT_PLACE: u64 = 0x0C;
/// `DW_AT_bit_size`
pub(crate) const BIT_SIZE: u64 = 0x0D;
/// `DW_AT_low_pc`
pub(crate) const LOW: u64 = 0x11;
/// `DW_AT_high_pc`
pub(crate) const HIGH: u64 = 0x12;
/// `DW_AT_const_value`
pub(crate) const CONSTANT_VALUE: u64 = 0x1C;
/// `DW_AT_upper_bound`
pub(crate) const UPPER_BOUND: u64 = 0x2F;
/// `DW_AT_abstract_origin`
pub(crate) const ORIGIN: u64 = 0x31;
/// `DW_AT_count`
pub(crate) const COUNT: u64 = 0x37;
/// `DW_AT_data_member_location`
pub(crate) const MEMBER_PLACE: u64 = 0x38;
/// `DW_AT_declaration`
pub(crate) const DECLARATION: u64 = 0x3C;
/// `DW_AT_encoding`
pub(crate) const ENCODING: u64 = 0x3E;
/// `DW_AT_frame_base`
pub(crate) const FRAME_BASE: u64 = 0x40;
/// `DW_AT_specification`
pub(crate) const SPECIFICATION: u64 = 0x47;
/// `DW_AT_type`
pub(crate) const TYPE: u64 = 0x49;
/// `DW_AT_ranges`
pub(crate) const RANGES: u64 = 0x55;
/// `DW_AT_endianity`
pub(crate) const BYTE_ORDER: u64 = 0x65;
/// `DW_AT_data_bit_offset`
pub(crate) const BIT_PLACE: u64 = 0x6B;
/// `DW_AT_str_offsets_base`
pub(crate) const STRING_OFFSETS: u64 = 0x72;
/// `DW_AT_addr_base`
pub(crate) const ADDRESSES: u64 = 0x73;
/// `DW_AT_rnglists_base`
pub(crate) const RANGE_LISTS: u64 = 0x74;
/// `DW_AT_loclists_base`
pub(crate) const LOCATION_LISTS: u64 = 0x8C;
