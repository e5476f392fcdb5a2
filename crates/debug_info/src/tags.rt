//! Names of the standard's numbers (DWARF 5, sections 7.5.3 and 7.5.4).

/// `DW_TAG_array_type`
pub(crate) const ARRAY: u64 = 0x01;
/// `DW_TAG_enumeration_type`
pub(crate) const ENUMERATION: u64 = 0x04;
/// `DW_TAG_formal_parameter`
pub(crate) const PARAMETER: u64 = 0x05;
/// `DW_TAG_lexical_block`
pub(crate) const BLOCK: u64 = 0x0B;
/// `DW_TAG_member`
pub(crate) const MEMBER: u64 = 0x0D;
/// `DW_TAG_pointer_type`
pub(crate) const POINTER: u64 = 0x0F;
/// `DW_TAG_structure_type`
pub(crate) const STRUCTURE: u64 = 0x13;
/// `DW_TAG_subroutine_type`
pub(crate) const FUNCTION_TYPE: u64 = 0x15;
/// `DW_TAG_typedef`
pub(crate) const TYPE_NAME: u64 = 0x16;
/// `DW_TAG_union_type`
pub(crate) const UNION: u64 = 0x17;
/// `DW_TAG_inlined_subroutine`
pub(crate) const INLINED: u64 = 0x1D;
/// `DW_TAG_subrange_type`
pub(crate) const RANGE: u64 = 0x21;
/// `DW_TAG_base_type`
pub(crate) const BASE: u64 = 0x24;
/// `DW_TAG_const_type`
pub(crate) const CONSTANT: u64 = 0x26;
/// `DW_TAG_enumerator`
pub(crate) const ENUMERATOR: u64 = 0x28;
/// `DW_TAG_subprogram`
pub(crate) const FUNCTION: u64 = 0x2E;
/// `DW_TAG_variable`
pub(crate) const VARIABLE: u64 = 0x34;
/// `DW_TAG_volatile_type`
pub(crate) const VOLATILE: u64 = 0x35;
/// `DW_TAG_restrict_type`
pub(crate) const RESTRICT: u64 = 0x37;
/// `DW_TAG_atomic_type`
pub(crate) const ATOMIC: u64 = 0x47;
