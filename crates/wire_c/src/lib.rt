//! The meta and the frames for callers in C: metas read, shown and written again, and frames taken from pieces, many
//! times over. It serves the benchmarks and the comparison with `protoc`.
//!
//! Each function answers a count, and 0 where the bytes are no meta or memory runs out.
#![tactic(auto)]

use prpc_frames::Frames;
use rpc_meta::{Meta, is_writable, read_meta, write_meta};
use std::alloc::Global;

/// The meta that these bytes say, if they are one.
fn meta_of(alloc: Global, bytes: &[u8]) -> Option<Meta> {
    if bytes.len() as u64 > u32::MAX as u64 {
        return None;
    }
    read_meta(alloc, bytes).ok()
}

/// Puts bytes at the front of `to`, and answers how many; 0 where they have no room.
fn put(bytes: &[u8], to: &mut [u8]) -> usize {
    match to.get_mut(..bytes.len()) {
        Some(front) => {
            front.copy_from_slice(bytes);
            bytes.len()
        }
        None => 0,
    }
}

/// The meta as text for a programmer.
#[unsafe(no_mangle)]
pub extern "C" fn wire_meta_shown(alloc: Global, bytes: &[u8], to: &mut [u8]) -> usize {
    let Some(meta) = meta_of(alloc, bytes) else {
        return 0;
    };
    match format!(in alloc; "{meta:?}") {
        Ok(text) => put(text.as_bytes(), to),
        Err(_) => 0,
    }
}

/// The meta read and written again.
#[unsafe(no_mangle)]
pub extern "C" fn wire_meta_respelled(alloc: Global, bytes: &[u8], to: &mut [u8]) -> usize {
    let Some(meta) = meta_of(alloc, bytes) else {
        return 0;
    };
    let mut spelled = Vec::new(alloc);
    if is_writable(&meta) && write_meta(&meta, &mut spelled).is_ok() {
        put(&spelled, to)
    } else {
        0
    }
}

/// Reads the meta so many times, and answers how often that went well.
#[unsafe(no_mangle)]
pub extern "C" fn wire_meta_reads(alloc: Global, bytes: &[u8], times: u32) -> u32 {
    let mut done = 0u32;
    for _ in 0..times {
        if meta_of(alloc, bytes).is_some() {
            done = done.saturating_add(1);
        }
    }
    done
}

/// Writes the meta so many times, each time into the same emptied list, and answers how often that went well.
#[unsafe(no_mangle)]
pub extern "C" fn wire_meta_writes(alloc: Global, bytes: &[u8], times: u32) -> u32 {
    let Some(meta) = meta_of(alloc, bytes) else {
        return 0;
    };
    let mut to = Vec::new(alloc);
    let mut done = 0u32;
    for _ in 0..times {
        to.clear();
        if is_writable(&meta) && write_meta(&meta, &mut to).is_ok() {
            done = done.saturating_add(1);
        }
    }
    done
}

/// Takes out the frames that are whole, and answers how many.
fn take_frames(frames: &mut Frames) -> u64 {
    let mut taken = 0u64;
    while let Some(_frame) = frames.next() {
        taken = taken.saturating_add(1);
    }
    taken
}

/// Feeds a stream in pieces of so many bytes, takes each frame as it comes, and answers how many came before a fault.
#[unsafe(no_mangle)]
pub extern "C" fn wire_frames_taken(alloc: Global, stream: &[u8], piece: u32) -> u64 {
    if piece == 0 {
        return 0;
    }
    let mut frames = Frames::open(alloc);
    let mut taken = 0u64;
    for bytes in stream.chunks(piece as usize) {
        if frames.feed(bytes).is_err() {
            break;
        }
        taken = taken.saturating_add(take_frames(&mut frames));
    }
    taken
}
