//! Explorations that list a thousand ways.

use super::texts::text_of;
use std::alloc::Global;
use std::test::Fail;

/// Returns the 64-bit FNV-1a hash of bytes.
fn hash_of(bytes: &[u8]) -> u64 {
    let mut hash = 14_695_981_039_346_656_037u64;
    for byte in bytes {
        hash = (hash ^ u64::from(*byte)).wrapping_mul(1_099_511_628_211);
    }
    hash
}

/// Returns the length and the hash of the text of an exploration, and whether it ends with `1000 ways and more`.
fn shown(alloc: Global, name: &str) -> Result<String, Fail> {
    let text = text_of(alloc, name, 10_000, 1_000)?;
    let text = text.as_slice();
    let is_cut = text.ends_with(b"\n1000 ways and more\n");
    Ok(format!(in alloc; "{} {} {is_cut}", text.len(), hash_of(text))?)
}

#[test]
fn promises_at_a_close(rt: HostRuntime) -> Result<(), Fail> {
    let shown = shown(rt.alloc(), "close-with-promises")?;
    assert_eq!(rt; shown.as_str(), "38464 1843477684584299965 true");
    Ok(())
}

#[test]
fn compressed_requests(rt: HostRuntime) -> Result<(), Fail> {
    let shown = shown(rt.alloc(), "compression")?;
    assert_eq!(rt; shown.as_str(), "48813 16146129502995929144 true");
    Ok(())
}
