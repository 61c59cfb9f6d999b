// The bodies of records, built and framed, ready to be appended.
ghost use Rattle.std.specs.Prelude.{◌≡◌, ◌+◌, ◌*◌, ◌≤◌, ◌++◌, [], ◌∷◌, length, map, IfOk, All, vec_len, vec_capacity};
ghost use Rattle.std.specs.List.{concat};
ghost use Rattle.site_forms.specs.VolumeRecords.{volume_body, IsChunkName};
ghost use Rattle.site_forms.specs.VolumeRecords.VolumeRecord.{ChunkRecord, FileRecord, DropFileRecord, DropChunkRecord};

use chunk_log::{Frame, LONGEST_BODY};
use seed_model::NoMemory;
use std::alloc::Global;
use std::marker::Model;

/// Room for the body of one record, and for its frame.
#[derive(Drop)]
pub(crate) struct RecordFrame {
    longest: u32,
    body: Vec<u8>,
    frame: Frame,
}

impl Model for RecordFrame {
    ghost use Rattle.std.specs.Prelude.{◌≡◌, ◌≤◌, vec_capacity};
    ghost use Rattle.chunk_log.specs.Frames.{FrameValue, frame_code};

    ghost Value = { FrameValue };

    ghost coded = { frame_code };

    ghost view = { λ r. r.frame };

    ghost invariant = { λ r. (r.longest ≡ r.frame.room) × (r.frame.room ≤ vec_capacity r.body) };
}

impl RecordFrame {
    /// Room for bodies of up to `len` bytes, from 1 to 16,777,216. No body is set.
    pub(crate) fn room(alloc: Global, len: u32) -> Result<Self, NoMemory>
        requires some { 1 ≤ len }
        requires most { len ≤ LONGEST_BODY }
        ensures { IfOk result (λ r. r ≡ record { room = len; body = [] }) }
    {
        let frame = Frame::room(alloc, len)?;
        let body = Vec::with_capacity(alloc, len as usize)?;
        Ok(RecordFrame {
            longest: len,
            body,
            frame,
        })
    }

    /// The longest body that has room.
    pub(crate) fn longest(&self) -> usize
        ensures { result ≡ self.now.room }
    {
        self.longest as usize
    }

    /// The frame of the body that was set last.
    pub(crate) fn frame(&self) -> &Frame
        ensures { result.now ≡ self.now }
    {
        &self.frame
    }

    /// Sets the record of a chunk.
    pub(crate) fn set_chunk(&mut self, name: &[u8; 32], bytes: &[u8])
        requires fits { 33 + length bytes.now ≤ self.old.room }
        ensures { self.new ≡ record { room = self.old.room; body = volume_body (ChunkRecord name.now bytes.now) } }
    {
        begin(&mut self.body, 1);
        put(&mut self.body, name);
        put(&mut self.body, bytes);
        self.frame.set(&self.body);
    }

    /// Sets the record of a file: its name, of at most 255 bytes, and the names of its chunks.
    #[tactic(auto, using(crate::proofs::Names::flattened))]
    pub(crate) fn set_file(&mut self, name: &str, chunks: &[[u8; 32]])
        requires short { length name.now ≤ 255 }
        requires fits { 2 + length name.now + 32 * length chunks.now ≤ self.old.room }
        ensures framed { self.new ≡ record { room = self.old.room; body = volume_body (FileRecord name.now chunks.now) } }
        ensures lawful { All IsChunkName chunks.now }
    {
        begin(&mut self.body, 2);
        put(&mut self.body, &[name.len() as u8]);
        put(&mut self.body, name.as_bytes());
        put(&mut self.body, chunks.as_flattened());
        self.frame.set(&self.body);
    }

    /// Sets the record that drops a file.
    pub(crate) fn set_drop_file(&mut self, name: &str)
        requires fits { 1 + length name.now ≤ self.old.room }
        ensures { self.new ≡ record { room = self.old.room; body = volume_body (DropFileRecord name.now) } }
    {
        begin(&mut self.body, 3);
        put(&mut self.body, name.as_bytes());
        self.frame.set(&self.body);
    }

    /// Sets the record that drops a chunk.
    pub(crate) fn set_drop_chunk(&mut self, name: &[u8; 32])
        requires fits { 33 ≤ self.old.room }
        ensures { self.new ≡ record { room = self.old.room; body = volume_body (DropChunkRecord name.now) } }
    {
        begin(&mut self.body, 4);
        put(&mut self.body, name);
        self.frame.set(&self.body);
    }
}

// Adds bytes for which there is room.
fn put(out: &mut Vec<u8>, bytes: &[u8])
    requires { vec_len out.old + length bytes.now ≤ vec_capacity out.old }
    ensures items { out.new.items ≡ out.old.items ++ bytes.now }
    ensures capacity { vec_capacity out.old ≤ vec_capacity out.new }
{
    out.extend_from_slice(bytes).unwrap();
}

// Empties a body, and sets its kind.
fn begin(body: &mut Vec<u8>, kind: u8)
    requires { 1 ≤ vec_capacity body.old }
    ensures items { body.new.items ≡ kind ∷ [] }
    ensures capacity { vec_capacity body.old ≤ vec_capacity body.new }
{
    body.clear();
    put(body, &[kind]);
}
