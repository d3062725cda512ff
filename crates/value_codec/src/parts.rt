//! Parts of frames, written and padded.

ghost use Rattle.std.specs.Prelude.{◌≡◌, ◌≤◌, ◌++◌, ◌<◌, OnOk, replicate};
ghost use Rattle.std.specs.Int.{w128, cast_unsigned};
ghost use Rattle.byteorder.specs.Endian.{little_bytes};
ghost use Rattle.value_types.specs.Sizes as sizes;
ghost use Rattle.value_codec.specs.Spelling.{part, counted, word, signed_word, index_bytes};

use byteorder::{ByteOrder, LittleEndian};
use std::alloc::AllocError;
use value_types::Layout;

/// Returns the number of zeros after a part of `size` bytes.
pub(crate) fn padding(layout: Layout, size: usize) -> usize
    ensures value { result ≡ sizes.padding layout size }
    ensures few { result < 4 }
{
    if layout.aligned {
        (4 - size % 4) % 4
    } else {
        0
    }
}

/// Appends zeros.
fn put_zeros(out: &mut Vec<u8>, count: usize) -> Result<(), AllocError>
    requires { count < 4 }
    ensures { OnOk result (out.new.items ≡ out.old.items ++ replicate count 0) }
{
    let zeros = [0u8; 3];
    out.extend_from_slice(&zeros[..count])
}

/// Appends bytes and the zeros after them.
pub(crate) fn put_part(out: &mut Vec<u8>, layout: Layout, bytes: &[u8]) -> Result<(), AllocError>
    ensures { OnOk result (out.new.items ≡ out.old.items ++ part layout bytes.now) }
{
    out.extend_from_slice(bytes)?;
    put_zeros(out, padding(layout, bytes.len()))
}

/// Appends the lowest `count` bytes of a number and the zeros after them.
pub(crate) fn put_number(
    out: &mut Vec<u8>,
    layout: Layout,
    count: usize,
    number: i128,
) -> Result<(), AllocError>
    requires { count ≤ 8 }
    ensures { OnOk result (out.new.items ≡ out.old.items ++ part layout (little_bytes count (cast_unsigned w128 number))) }
{
    let mut field = [0u8; 16];
    LittleEndian::write_i128(&mut field, number);
    put_part(out, layout, &field[..count])
}

/// Appends a number of four bytes.
pub(crate) fn put_word(out: &mut Vec<u8>, number: u32) -> Result<(), AllocError>
    ensures { OnOk result (out.new.items ≡ out.old.items ++ word number) }
{
    let mut field = [0u8; 4];
    LittleEndian::write_u32(&mut field, number);
    out.extend_from_slice(&field)
}

/// Appends the index of a component.
pub(crate) fn put_index(out: &mut Vec<u8>, index: u32) -> Result<(), AllocError>
    ensures { OnOk result (out.new.items ≡ out.old.items ++ index_bytes index) }
{
    put_word(out, index)
}

/// Appends a signed number of four bytes.
pub(crate) fn put_signed_word(out: &mut Vec<u8>, number: i32) -> Result<(), AllocError>
    ensures { OnOk result (out.new.items ≡ out.old.items ++ signed_word number) }
{
    let mut field = [0u8; 4];
    LittleEndian::write_i32(&mut field, number);
    out.extend_from_slice(&field)
}

/// Appends the length of bytes, the bytes, and the zeros after them.
pub(crate) fn put_counted(out: &mut Vec<u8>, layout: Layout, bytes: &[u8]) -> Result<(), AllocError>
    ensures { OnOk result (out.new.items ≡ out.old.items ++ counted layout bytes.now) }
{
    let mut size = [0u8; 8];
    LittleEndian::write_u64(&mut size, bytes.len() as u64);
    out.extend_from_slice(&size[..4])?;
    out.extend_from_slice(bytes)?;
    put_zeros(out, padding(layout, bytes.len() % 4 + 4))
}
