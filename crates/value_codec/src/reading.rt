//! Parts of a payload, read from left to right.

ghost use Rattle.std.specs.Prelude.{◌≡◌, length, IfOk};
ghost use Rattle.std.specs.Str.{is_utf8};
ghost use Rattle.value_codec.specs.declared.fault.Refusal.TheVariants as refusal;
ghost use Rattle.value_codec.specs.Reading as reading;
ghost use Rattle.value_codec.specs.Reading.{Gives};

use crate::fault::{Fault, Refusal};
use crate::parts::padding;
use byteorder::{ByteOrder, LittleEndian};
use ipdl_base::Rule;
use value_types::Layout;

/// The byte before the fields of a struct.
pub(crate) const STRUCT_BYTE: u8 = 0x53;

/// Returns that a rule is broken at the first of the bytes.
pub(crate) fn broken(rule: Rule, bytes: &[u8]) -> Refusal
    ensures { result ≡ refusal.Broken (reading.at rule bytes.now) }
{
    Refusal::Broken(Fault {
        rule: rule.number,
        left: bytes.len(),
    })
}

/// Returns that the payload ends too early.
pub(crate) fn short() -> Refusal
    ensures { result ≡ refusal.Broken reading.short }
{
    Refusal::Broken(Fault {
        rule: Rule::SHORT_PAYLOAD.number,
        left: 0,
    })
}

/// Takes `count` zeros.
#[tactic(auto, unfolding(crate::specs::Reading::zeros))]
pub(crate) fn zeros(count: usize, bytes: &[u8]) -> Result<&[u8], Refusal>
    ensures { Gives (λ rest. rest.now) result (reading.zeros count bytes.now) }
{
    let mut left = count;
    let mut rest = bytes;
    while left > 0 {
        match rest {
            [] => return Err(short()),
            [0, following @ ..] => rest = following,
            [_, ..] => return Err(broken(Rule::BAD_PADDING, rest)),
        }
        left -= 1;
    }
    Ok(rest)
}

/// Takes a number in four bytes.
pub(crate) fn word(bytes: &[u8]) -> Result<(u32, &[u8]), Refusal>
    ensures { Gives (λ x. (x.0, x.1.now)) result (reading.word_at bytes.now) }
{
    if bytes.len() < 4 {
        return Err(short());
    }
    Ok((LittleEndian::read_u32(bytes), &bytes[4..]))
}

/// Takes `count` bytes and the zeros after them.
#[tactic(auto, unfolding(crate::specs::Reading::field_at))]
pub(crate) fn field(layout: Layout, count: usize, bytes: &[u8]) -> Result<(&[u8], &[u8]), Refusal>
    ensures read { Gives (λ x. (x.0.now, x.1.now)) result (reading.field_at layout count bytes.now) }
    ensures size { IfOk result (λ x. length x.0.now ≡ count) }
{
    if bytes.len() < count {
        return Err(short());
    }
    let (front, rest) = bytes.split_at(count);
    let rest = zeros(padding(layout, count), rest)?;
    Ok((front, rest))
}

/// Takes a byte that is 0 or 1.
#[tactic(auto, unfolding(crate::specs::Reading::flag_at))]
pub(crate) fn flag(layout: Layout, bytes: &[u8]) -> Result<(bool, &[u8]), Refusal>
    ensures { Gives (λ x. (x.0, x.1.now)) result (reading.flag_at layout bytes.now) }
{
    match bytes {
        [] => Err(short()),
        [0, rest @ ..] => {
            let rest = zeros(padding(layout, 1), rest)?;
            Ok((false, rest))
        }
        [1, rest @ ..] => {
            let rest = zeros(padding(layout, 1), rest)?;
            Ok((true, rest))
        }
        [_, ..] => Err(broken(Rule::BAD_TAG, bytes)),
    }
}

/// Takes the byte before the fields of a struct.
#[tactic(auto, unfolding(crate::specs::Reading::struct_at))]
pub(crate) fn struct_byte(layout: Layout, bytes: &[u8]) -> Result<&[u8], Refusal>
    ensures { Gives (λ rest. rest.now) result (reading.struct_at layout bytes.now) }
{
    match bytes {
        [] => Err(short()),
        [STRUCT_BYTE, rest @ ..] => zeros(padding(layout, 1), rest),
        [_, ..] => Err(broken(Rule::BAD_TAG, bytes)),
    }
}

/// Returns whether bytes are UTF-8.
fn is_text(bytes: &[u8]) -> bool
    ensures { result ≡ is_utf8 bytes.now }
{
    std::str::from_utf8(bytes).is_ok()
}

/// Returns whether bytes are allowed, where text may be required.
fn may_stand(wants_text: bool, bytes: &[u8]) -> bool
    ensures { result ≡ reading.may_stand wants_text bytes.now }
{
    if wants_text { is_text(bytes) } else { true }
}

/// Takes a length and that number of bytes, which must be text if `wants_text`.
#[tactic(auto, unfolding(crate::specs::Reading::counted_at))]
pub(crate) fn counted(
    layout: Layout,
    wants_text: bool,
    bytes: &[u8],
) -> Result<(&[u8], &[u8]), Refusal>
    ensures { Gives (λ x. (x.0.now, x.1.now)) result (reading.counted_at layout wants_text bytes.now) }
{
    let (count, rest) = word(bytes)?;
    let count = count as usize;
    if rest.len() < count {
        return Err(short());
    }
    let (front, following) = rest.split_at(count);
    if !may_stand(wants_text, front) {
        return Err(broken(Rule::BAD_TEXT, rest));
    }
    let following = zeros(padding(layout, 4 + count), following)?;
    Ok((front, following))
}

/// Returns whether an id may be that of an actor: it is positive, or 0 if null is allowed.
fn is_id(nullable: bool, id: i32) -> bool
    ensures { result ≡ reading.is_id nullable id }
{
    0 < id || (nullable && id == 0)
}

/// Takes an id.
#[tactic(auto, unfolding(crate::specs::Reading::id_at))]
pub(crate) fn id(nullable: bool, bytes: &[u8]) -> Result<(i32, &[u8]), Refusal>
    ensures { Gives (λ x. (x.0, x.1.now)) result (reading.id_at nullable bytes.now) }
{
    let (number, rest) = word(bytes)?;
    let id = number.cast_signed();
    if is_id(nullable, id) {
        Ok((id, rest))
    } else {
        Err(broken(Rule::BAD_VALUE, bytes))
    }
}
