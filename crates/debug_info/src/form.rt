//! Forms: how values of attributes are written (DWARF 5, sections 7.5.5 and 7.5.6).

/// How the bytes of a value are laid out.
#[derive(Clone, Copy)]
pub(crate) enum Layout {
    /// There are none: the entry has the attribute, or its abbreviation tells the value.
    Nothing,
    /// A number of so many bytes: 1, 2, 3, 4, 8 or 16.
    Bytes(u8),
    /// A number of 8 bytes in a unit in the 64-bit format, else of 4.
    Offset,
    /// An unsigned number in LEB128.
    Unsigned,
    /// A signed number in LEB128.
    Signed,
    /// A text, with its zero byte.
    Text,
    /// A number of so many bytes, 1, 2 or 4, and as many bytes as it says.
    Block(u8),
    /// A number in LEB128, and as many bytes as it says.
    LongBlock,
}

/// What the number or the bytes of a value stand for.
#[derive(Clone, Copy)]
pub(crate) enum Meaning {
    /// A number, or that the entry has the attribute.
    Number,
    /// The value that the abbreviation tells.
    Constant,
    /// An address.
    Address,
    /// The number of an address in `.debug_addr`.
    AddressNumber,
    /// A text in `.debug_info` itself.
    Here,
    /// A text in `.debug_str`, by its place.
    Strings,
    /// A text in `.debug_line_str`, by its place.
    LineStrings,
    /// A text in `.debug_str`, by its number in `.debug_str_offsets`.
    StringNumber,
    /// An entry of the same unit, by its place from the unit's first byte on.
    InUnit,
    /// An entry, by its place in the section.
    InSection,
    /// Bytes: an expression, or a value.
    Block,
    /// A place in another section.
    Place,
    /// The number of a list of ranges or of locations.
    ListNumber,
    /// Something that isn't read.
    Other,
}

/// How a value of this form is laid out; `None` if the form isn't known.
pub(crate) fn layout_of(form: u64) -> Option<Layout> {
    let layout = match form {
        // flag_present, implicit_const
        0x19 | 0x21 => Layout::Nothing,
        // data1, flag, ref1, strx1, addrx1
        0x0B | 0x0C | 0x11 | 0x25 | 0x29 => Layout::Bytes(1),
        // data2, ref2, strx2, addrx2
        0x05 | 0x12 | 0x26 | 0x2A => Layout::Bytes(2),
        // strx3, addrx3
        0x27 | 0x2B => Layout::Bytes(3),
        // data4, ref4, ref_sup4, strx4, addrx4
        0x06 | 0x13 | 0x1C | 0x28 | 0x2C => Layout::Bytes(4),
        // addr, data8, ref8, ref_sig8, ref_sup8
        0x01 | 0x07 | 0x14 | 0x20 | 0x24 => Layout::Bytes(8),
        // data16
        0x1E => Layout::Bytes(16),
        // strp, ref_addr, sec_offset, strp_sup, line_strp
        0x0E | 0x10 | 0x17 | 0x1D | 0x1F => Layout::Offset,
        // udata, ref_udata, strx, addrx, loclistx, rnglistx
        0x0F | 0x15 | 0x1A | 0x1B | 0x22 | 0x23 => Layout::Unsigned,
        // sdata
        0x0D => Layout::Signed,
        // string
        0x08 => Layout::Text,
        // block1, block2, block4
        0x0A => Layout::Block(1),
        0x03 => Layout::Block(2),
        0x04 => Layout::Block(4),
        // block, exprloc
        0x09 | 0x18 => Layout::LongBlock,
        _ => return None,
    };
    Some(layout)
}

/// What a value of this form stands for.
pub(crate) fn meaning_of(form: u64) -> Meaning {
    match form {
        // data1, data2, data4, data8, flag, flag_present, sdata, udata
        0x0B | 0x05 | 0x06 | 0x07 | 0x0C | 0x19 | 0x0D | 0x0F => Meaning::Number,
        // implicit_const
        0x21 => Meaning::Constant,
        // addr
        0x01 => Meaning::Address,
        // addrx, addrx1 to addrx4
        0x1B | 0x29 | 0x2A | 0x2B | 0x2C => Meaning::AddressNumber,
        // string
        0x08 => Meaning::Here,
        // strp
        0x0E => Meaning::Strings,
        // line_strp
        0x1F => Meaning::LineStrings,
        // strx, strx1 to strx4
        0x1A | 0x25 | 0x26 | 0x27 | 0x28 => Meaning::StringNumber,
        // ref1, ref2, ref4, ref8, ref_udata
        0x11 | 0x12 | 0x13 | 0x14 | 0x15 => Meaning::InUnit,
        // ref_addr
        0x10 => Meaning::InSection,
        // block1, block2, block4, block, exprloc
        0x0A | 0x03 | 0x04 | 0x09 | 0x18 => Meaning::Block,
        // sec_offset
        0x17 => Meaning::Place,
        // loclistx, rnglistx
        0x22 | 0x23 => Meaning::ListNumber,
        _ => Meaning::Other,
    }
}
