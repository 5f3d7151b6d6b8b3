//! The bytes that a case gives: a text, or a list of texts, of bytes by their numbers, and of texts with how often they occur.

use anyhow::Context;
use serde_json::Value;
use std::alloc::Global;

/// Adds a text so often.
fn add_often(bytes: &mut Vec<u8>, text: &str, count: u64) -> anyhow::Result<()> {
    for _ in 0..count {
        bytes.extend_from_slice(text.as_bytes())?;
    }
    Ok(())
}

/// Adds the bytes of one piece of a list.
fn add_piece(bytes: &mut Vec<u8>, piece: &Value) -> anyhow::Result<()> {
    if let Some(byte) = piece.as_u64() {
        bytes.push(u8::try_from(byte)?)?;
        return Ok(());
    }
    if let Some(text) = piece.as_str() {
        return add_often(bytes, text, 1);
    }
    let text = piece.get(0).and_then(Value::as_str);
    let count = piece.get(1).and_then(Value::as_u64);
    add_often(bytes, text.context("no text")?, count.context("no count")?)
}

/// The bytes of nothing, a text or a list.
pub fn bytes_of(alloc: Global, value: Option<&Value>) -> anyhow::Result<Vec<u8>> {
    let mut bytes = Vec::new(alloc);
    let Some(value) = value else {
        return Ok(bytes);
    };
    let Some(pieces) = value.as_array() else {
        add_piece(&mut bytes, value)?;
        return Ok(bytes);
    };
    for piece in pieces {
        add_piece(&mut bytes, piece)?;
    }
    Ok(bytes)
}
