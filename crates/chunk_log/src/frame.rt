// Frames: a body with its gates, ready to be written.
ghost use Rattle.std.specs.Prelude.{◌≡◌, ◌+◌, ◌^◌, ◌≤◌, ◌++◌, [], ◌∷◌, length, IfOk, vec_len, vec_capacity};
ghost use Rattle.std.specs.Int.{w32, to_be_bytes};
ghost use Rattle.site_forms.specs.Logs.{framed};

use seed_model::NoMemory;
use site_forms::LONGEST_BODY;
use std::alloc::Global;
use std::marker::Model;

/// Room for one body with the gates around it, which are written together.
#[derive(Drop)]
pub struct Frame {
    room: u32,
    bytes: Vec<u8>,
}

impl Model for Frame {
    ghost use Rattle.chunk_log.specs.Frames.{FrameValue, frame_code, body_in, KeepsFrame};

    ghost Value = { FrameValue };

    ghost coded = { frame_code };

    ghost view = { λ f. record { room = f.room; body = body_in f.bytes.items } };

    ghost invariant = { λ f. KeepsFrame f.room f.bytes };
}

impl Frame {
    /// Room for bodies of up to `len` bytes, from 1 to 16,777,216. No body is set.
    pub fn room(alloc: Global, len: u32) -> Result<Frame, NoMemory>
        requires some { 1 ≤ len }
        requires most { len ≤ LONGEST_BODY }
        ensures { IfOk result (λ f. f ≡ record { room = len; body = [] }) }
    {
        let bytes = Vec::with_capacity(alloc, len as usize + 6)?;
        Ok(Frame { room: len, bytes })
    }

    /// Sets the body.
    pub fn set(&mut self, body: &[u8])
        requires some { 1 ≤ length body.now }
        requires fits { length body.now ≤ self.old.room }
        ensures { self.new ≡ record { room = self.old.room; body = body.now } }
    {
        self.bytes.clear();
        put(&mut self.bytes, &[1]);
        let len = body.len() as u32;
        put(&mut self.bytes, &len.to_be_bytes());
        put(&mut self.bytes, body);
        put(&mut self.bytes, &[0]);
    }

    /// The length of the body.
    pub fn len(&self) -> u32
        requires { 1 ≤ length self.now.body }
        ensures len { result ≡ length self.now.body }
        ensures most { result ≤ LONGEST_BODY }
    {
        (self.bytes.len() - 6) as u32
    }

    /// What is written behind a gate: the length, the body and a closed gate.
    pub(crate) fn behind_gate(&self) -> &[u8]
        requires { 1 ≤ length self.now.body }
        ensures bytes { result.now ≡ framed self.now.body }
        ensures most { length self.now.body ≤ LONGEST_BODY }
    {
        &self.bytes[1..]
    }

    /// The block of the body: the open gate, the length and the body.
    pub(crate) fn block(&self) -> &[u8]
        requires { 1 ≤ length self.now.body }
        ensures { result.now ≡ 1 ∷ to_be_bytes w32 (length self.now.body) ++ self.now.body }
    {
        &self.bytes[..self.bytes.len() - 1]
    }

    /// The block of the body without its gate.
    pub(crate) fn first_block(&self) -> &[u8]
        requires { 1 ≤ length self.now.body }
        ensures { result.now ≡ to_be_bytes w32 (length self.now.body) ++ self.now.body }
    {
        &self.bytes[1..self.bytes.len() - 1]
    }
}

// Adds bytes for which there is room.
fn put(out: &mut Vec<u8>, bytes: &[u8])
    requires { vec_len out.old + length bytes.now ≤ vec_capacity out.old }
    ensures items { out.new.items ≡ out.old.items ++ bytes.now }
    ensures capacity { vec_capacity out.old ≤ vec_capacity out.new }
{
    out.extend_from_slice(bytes).unwrap();
}
