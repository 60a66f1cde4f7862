// The fields of changes, written.
ghost use Rattle.std.specs.Prelude.{◌≡◌, ◌<◌, ◌≤◌, ◌^◌, length, IfSome, true};
ghost use Rattle.std.specs.Str.{IsUtf8};
ghost use Rattle.kms_world.specs.Name.{is_name};
ghost use Rattle.kms_record.specs.Fields.{u8_bytes, u16_bytes, u32_bytes, u64_bytes, text_bytes, option_bytes, secret_kind_number, container_kind_number, media_number, cause_number, token_bytes, mark_bytes, IsShort, IsToken};
ghost use Rattle.kms_record.specs.Window.{shown};

use crate::window::Window;
use kms_world::{Bytes, Cause, ContainerKind, Media, Name, SecretKind, Text};

/// A number of one byte.
#[tactic(auto, unfolding(crate::specs::Fields::u8_bytes))]
pub fn byte(out: &mut Window, number: u8)
    ensures { out.new ≡ shown out.old (u8_bytes number) }
{
    out.put(&[number]);
}

/// A number of two bytes.
#[tactic(auto, unfolding(crate::specs::Fields::u16_bytes))]
pub fn short_number(out: &mut Window, number: u16)
    ensures { out.new ≡ shown out.old (u16_bytes number) }
{
    out.put(&number.to_be_bytes());
}

/// A number of four bytes.
#[tactic(auto, unfolding(crate::specs::Fields::u32_bytes))]
pub fn long_number(out: &mut Window, number: u32)
    ensures spelled { out.new ≡ shown out.old (u32_bytes number) }
    ensures fits { number < 2 ^ 32 }
{
    out.put(&number.to_be_bytes());
}

/// A number of eight bytes: an id's count, or a time.
#[tactic(auto, unfolding(crate::specs::Fields::u64_bytes))]
pub fn number(out: &mut Window, number: u64)
    ensures { out.new ≡ shown out.old (u64_bytes number) }
{
    out.put(&number.to_be_bytes());
}

// A text's length in two bytes, and its bytes.
#[tactic(auto, using(crate::proofs::WindowLaws::shown_twice), unfolding(crate::specs::Fields::text_bytes, crate::specs::Fields::u16_bytes))]
fn bytes_with_length(out: &mut Window, text: &[u8])
    requires { length text.now < 2 ^ 16 }
    ensures { out.new ≡ shown out.old (text_bytes text.now) }
{
    out.put(&(text.len() as u16).to_be_bytes());
    out.put(text);
}

/// A name of a project or a user.
pub fn name(out: &mut Window, name: &Name)
    requires { length name.now ≤ 64 }
    ensures spelled { out.new ≡ shown out.old (text_bytes name.now) }
    ensures is_name { is_name name.now ≡ true }
{
    bytes_with_length(out, name.as_bytes());
}

/// A text of at most 255 bytes.
pub fn text(out: &mut Window, text: &Text)
    requires { IsShort text.now }
    ensures spelled { out.new ≡ shown out.old (text_bytes text.now) }
    ensures utf8 { IsUtf8 text.now }
{
    bytes_with_length(out, text.as_str().as_bytes());
}

/// A token of 100 to 26,764 bytes.
#[tactic(auto, using(crate::proofs::WindowLaws::shown_twice), unfolding(crate::specs::Fields::token_bytes))]
pub fn token(out: &mut Window, token: &Bytes)
    requires { IsToken token.now }
    ensures { out.new ≡ shown out.old (token_bytes token.now) }
{
    let bytes = token.as_slice();
    long_number(out, bytes.len() as u32);
    out.put(bytes);
}

/// Yes or no.
#[tactic(auto, unfolding(crate::specs::Fields::mark_bytes, crate::specs::Fields::u8_bytes))]
pub fn mark(out: &mut Window, mark: bool)
    ensures { out.new ≡ shown out.old (mark_bytes mark) }
{
    match mark {
        true => byte(out, 1),
        false => byte(out, 0),
    }
}

/// Maybe a text of at most 255 bytes.
#[tactic(auto, using(crate::proofs::WindowLaws::shown_twice), unfolding(crate::specs::Fields::u8_bytes))]
pub fn optional_text(out: &mut Window, value: &Option<Text>)
    requires { IfSome value.now IsShort }
    ensures spelled { out.new ≡ shown out.old (option_bytes text_bytes value.now) }
    ensures utf8 { IfSome value.now IsUtf8 }
{
    match value {
        None => byte(out, 0),
        Some(value) => {
            byte(out, 1);
            text(out, value);
        }
    }
}

/// Maybe a length in bits.
#[tactic(auto, using(crate::proofs::WindowLaws::shown_twice), unfolding(crate::specs::Fields::u8_bytes))]
pub fn optional_bit_length(out: &mut Window, bits: Option<u16>)
    ensures { out.new ≡ shown out.old (option_bytes u16_bytes bits) }
{
    match bits {
        None => byte(out, 0),
        Some(bits) => {
            byte(out, 1);
            short_number(out, bits);
        }
    }
}

/// Maybe a time.
#[tactic(auto, using(crate::proofs::WindowLaws::shown_twice), unfolding(crate::specs::Fields::u8_bytes))]
pub fn optional_time(out: &mut Window, time: Option<u64>)
    ensures { out.new ≡ shown out.old (option_bytes u64_bytes time) }
{
    match time {
        None => byte(out, 0),
        Some(time) => {
            byte(out, 1);
            number(out, time);
        }
    }
}

/// The kind of a secret.
pub fn secret_kind(out: &mut Window, kind: SecretKind)
    ensures { out.new ≡ shown out.old (u8_bytes (secret_kind_number kind)) }
{
    match kind {
        SecretKind::Symmetric => byte(out, 0),
        SecretKind::Public => byte(out, 1),
        SecretKind::Private => byte(out, 2),
        SecretKind::Passphrase => byte(out, 3),
        SecretKind::Certificate => byte(out, 4),
        SecretKind::Opaque => byte(out, 5),
    }
}

/// The kind of a container.
pub fn container_kind(out: &mut Window, kind: ContainerKind)
    ensures { out.new ≡ shown out.old (u8_bytes (container_kind_number kind)) }
{
    match kind {
        ContainerKind::Generic => byte(out, 0),
        ContainerKind::Rsa => byte(out, 1),
        ContainerKind::Certificate => byte(out, 2),
    }
}

/// The media type of a payload.
pub fn media(out: &mut Window, media: Media)
    ensures { out.new ≡ shown out.old (u8_bytes (media_number media)) }
{
    match media {
        Media::TextPlain => byte(out, 0),
        Media::OctetStream => byte(out, 1),
    }
}

/// Why an order failed.
pub fn cause(out: &mut Window, cause: Cause)
    ensures { out.new ≡ shown out.old (u8_bytes (cause_number cause)) }
{
    match cause {
        Cause::Unsupported => byte(out, 0),
        Cause::QuotaReached => byte(out, 1),
        Cause::IdsSpent => byte(out, 2),
    }
}
