//! Checks of a JSON value at a path.
ghost use Rattle.std.specs.Prelude.{◌≡◌, true, List, ℕ, ◌+◌, ◌*◌, length, map, Ok, Some, None, option_map, ◌<◌, ◌≤◌, ◌^◌, IfOk};
ghost use Rattle.std.specs.List.{list_any};
ghost use Rattle.std.specs.Str.{bytes_eq};
ghost use Rattle.serde_json.specs.View.{view, items_view, members_view};
ghost use Rattle.serde_json.specs.Find.{get_member};
ghost use Rattle.soc_desc.specs.Checks.{Gives, object, object_of, unknown, required, optional, number_within, number_of, hex_of, digit, digits_after, is_in, at_key, known, refuse_unknown};

use crate::fault::DescFault;
use crate::path::Path;
use serde_json::{Map, Value};
use std::alloc::Global;

/// Numbers from `least` to `most` that are `rest` more than a multiple of `step`.
#[derive(Clone, Copy)]
pub struct Range {
    pub least: u64,
    pub most: u64,
    pub step: u64,
    pub rest: u64,
}

/// An object, whatever its keys.
pub fn object<'v>(
    alloc: Global,
    path: &Path,
    value: &'v Value,
) -> Result<&'v Map<String, Value>, DescFault>
    ensures { Gives (λ m. members_view m.now.entries) result (object path.now (view value.now)) }
{
    match value.as_object() {
        Some(members) => Ok(members),
        None => Err(DescFault::Kind(path.copy(alloc)?)),
    }
}

/// An object that has no keys but these.
pub fn object_of<'v>(
    alloc: Global,
    path: &Path,
    value: &'v Value,
    keys: &[&str],
) -> Result<&'v Map<String, Value>, DescFault>
    ensures { Gives (λ m. members_view m.now.entries) result
        (object_of (map (λ k. k.now) keys.now) path.now (view value.now)) }
{
    let members = object(alloc, path, value)?;
    known(alloc, path, members, keys)
}

/// The members, if they have no keys but these.
pub fn known<'v>(
    alloc: Global,
    path: &Path,
    members: &'v Map<String, Value>,
    keys: &[&str],
) -> Result<&'v Map<String, Value>, DescFault>
    ensures { Gives (λ m. members_view m.now.entries) result
        (known (map (λ k. k.now) keys.now) path.now (members_view members.now.entries)) }
{
    match unknown(members, keys) {
        None => Ok(members),
        Some(key) => Err(DescFault::Unknown(path.key(alloc, key)?)),
    }
}

fn unknown<'v>(members: &'v Map<String, Value>, keys: &[&str]) -> Option<&'v str>
    ensures { option_map (λ k. k.now) result ≡ unknown (map (λ k. k.now) keys.now) (members_view members.now.entries) }
{
    for (key, _value) in members.iter() {
        if !is_one_of(key.as_str(), keys) {
            return Some(key.as_str());
        }
    }
    None
}

fn is_one_of(key: &str, keys: &[&str]) -> bool
    ensures { result ≡ list_any (bytes_eq key.now) (map (λ k. k.now) keys.now) }
{
    for one in keys {
        if key == *one {
            return true;
        }
    }
    false
}

/// The value of a key.
pub fn find<'v>(members: &'v Map<String, Value>, key: &str) -> Option<&'v Value>
    ensures { option_map (λ v. view v.now) result ≡ get_member key.now (members_view members.now.entries) }
{
    members.get(key)
}

/// The number of a key that must be there.
pub fn number_at(
    alloc: Global,
    path: &Path,
    members: &Map<String, Value>,
    key: &str,
    range: Range,
) -> Result<u64, DescFault>
    requires step { 0 < range.step }
    ensures found { Gives (λ n. n) result
        (required (number_within range) path.now key.now (members_view members.now.entries)) }
    ensures most { IfOk result (λ n. n ≤ range.most) }
    ensures inside { IfOk result (λ n. is_in range n ≡ true) }
{
    match find(members, key) {
        None => Err(DescFault::Missing(path.key(alloc, key)?)),
        Some(value) => number(alloc, path, key, value, range),
    }
}

/// The number of a key, or what it is where the key is missing.
pub fn number_or(
    alloc: Global,
    path: &Path,
    members: &Map<String, Value>,
    key: &str,
    range: Range,
    missing: u64,
) -> Result<u64, DescFault>
    requires step { 0 < range.step }
    requires missing { is_in range missing ≡ true }
    ensures found { Gives (λ n. n) result
        (optional (number_within range) missing path.now key.now (members_view members.now.entries)) }
    ensures most { IfOk result (λ n. n ≤ range.most) }
    ensures inside { IfOk result (λ n. is_in range n ≡ true) }
{
    match find(members, key) {
        None => Ok(missing),
        Some(value) => number(alloc, path, key, value, range),
    }
}

fn number(
    alloc: Global,
    path: &Path,
    key: &str,
    value: &Value,
    range: Range,
) -> Result<u64, DescFault>
    requires step { 0 < range.step }
    ensures found { Gives (λ n. n) result (number_within range (at_key path.now key.now) (view value.now)) }
    ensures most { IfOk result (λ n. n ≤ range.most) }
    ensures inside { IfOk result (λ n. is_in range n ≡ true) }
{
    match number_of(value) {
        None => Err(DescFault::Kind(path.key(alloc, key)?)),
        Some(n) => {
            if n >= range.least && n <= range.most && n % range.step == range.rest {
                Ok(n)
            } else {
                Err(DescFault::Range(path.key(alloc, key)?))
            }
        }
    }
}

fn number_of(value: &Value) -> Option<u64>
    ensures { result ≡ number_of (view value.now) }
{
    match value.as_u64() {
        Some(n) => Some(n),
        None => match value.as_str() {
            Some(text) => hex_of(text.as_bytes()),
            None => None,
        },
    }
}

fn hex_of(text: &[u8]) -> Option<u64>
    ensures { result ≡ hex_of text.now }
{
    if text.len() < 3 || text.len() > 18 || text[0] != b'0' || text[1] != b'x' {
        return None;
    }
    digits_of(&text[2..])
}

fn digits_of(digits: &[u8]) -> Option<u64>
    requires { length digits.now ≤ 16 }
    ensures { result ≡ digits_after 0 digits.now }
{
    let mut n = 0;
    for octet in digits {
        match digit(*octet) {
            None => return None,
            Some(d) => n = 16 * n + d,
        }
    }
    Some(n)
}

fn digit(octet: u8) -> Option<u64>
    ensures { result ≡ digit octet }
{
    match octet {
        48..=57 => Some(u64::from(octet) - 48),
        65..=70 => Some(u64::from(octet) - 55),
        97..=102 => Some(u64::from(octet) - 87),
        _ => None,
    }
}
