//! Bytes as characters of an XML document.
ghost use Rattle.std.specs.Prelude.{◌≡◌, ◌++◌, ◌<◌, OnOk};
ghost use Rattle.std.specs.List.{flat_map};
ghost use Rattle.value_types.specs.ValueText.{hex_byte, hex_digit};
ghost use Rattle.charts.specs.Escapes as escape;

use std::alloc::AllocError;
use std::str::from_utf8;

/// Returns whether XML takes the bytes from 80 on of a text as they are (docs/chart.md).
fn is_wide(text: &[u8]) -> bool
    ensures { result ≡ escape.is_wide text.now }
{
    match from_utf8(text) {
        Ok(_) => !text.contains(&239),
        Err(_) => false,
    }
}

/// Returns the hexadecimal digit of a number below 16.
fn hex_digit(n: u8) -> u8
    requires { n < 16 }
    ensures { result ≡ hex_digit n }
{
    if n < 10 { 48 + n } else { 87 + n }
}

/// Appends the two digits of a byte.
fn push_hex_byte(out: &mut Vec<u8>, byte: u8) -> Result<(), AllocError>
    ensures { OnOk result (out.new.items ≡ out.old.items ++ hex_byte byte) }
{
    out.extend_from_slice(&[hex_digit(byte / 16), hex_digit(byte % 16)])
}

/// Appends a byte as XML takes it.
fn push_xml_byte(out: &mut Vec<u8>, wide: bool, byte: u8) -> Result<(), AllocError>
    ensures { OnOk result (out.new.items ≡ out.old.items ++ escape.xml_byte wide byte) }
{
    match byte {
        60 => out.extend_from_slice(b"&lt;"),
        62 => out.extend_from_slice(b"&gt;"),
        38 => out.extend_from_slice(b"&amp;"),
        _ if byte < 32 || (byte > 126 && !(wide && byte > 127)) => {
            out.extend_from_slice(b"\\x")?;
            push_hex_byte(out, byte)
        }
        _ => {
            out.push(byte)?;
            Ok(())
        }
    }
}

/// Appends a text as characters of XML.
pub fn push_shown(out: &mut Vec<u8>, text: &[u8]) -> Result<(), AllocError>
    ensures { OnOk result (out.new.items ≡ out.old.items ++ escape.shown text.now) }
{
    let wide = is_wide(text);
    for byte in text {
        push_xml_byte(out, wide, *byte)?;
    }
    Ok(())
}
