//! Files and sinks in memory.
ghost use Rattle.std.specs.Prelude.{◌≡◌, ℕ, ◌+◌, ◌-◌, ◌^◌, ◌<◌, ◌≤◌, ◌++◌, ◌↔◌, IsTrue, IfSome, IfOk, Option, Some, None, Err, List, [], length, min, map, option_map, string_bytes, if◌then◌else◌};
ghost use Rattle.memory_files.specs.Memory as memory;
ghost use Rattle.ipdl_base.specs.Outside.{HasAtMost, IsHeldWithin, Rose};

use ipdl_base::{Failure, FileBytes, Files, Sink, WriteAnswer};
use std::alloc::{AllocError, Global};
use std::marker::Model;

/// Returns whether the next call is one of those that fail. `fails` has the numbers of these, from 1.
fn fails_next(fails: &[u64], calls: u64) -> bool
    ensures { result ≡ memory.is_next fails.now calls }
{
    for n in fails {
        if *n > 0 && *n - 1 == calls {
            return true;
        }
    }
    false
}

/// Returns the bytes of the first file of that name.
fn find<'a>(files: &'a [(String, Vec<u8>)], name: &str) -> Option<&'a [u8]>
    ensures { option_map (λ bytes. bytes.now) result ≡ memory.file_named (map (λ f. (string_bytes f.0, f.1.items)) files.now) name.now }
{
    for (file, bytes) in files {
        if file.as_str() == name {
            return Some(bytes.as_slice());
        }
    }
    None
}

/// Returns what a read gives of the first file of that name. Fails only if memory runs out.
fn read_named(
    alloc: Global,
    files: &[(String, Vec<u8>)],
    name: &str,
    limit: usize,
) -> Result<FileBytes, AllocError>
    ensures small { IfOk result (HasAtMost limit) }
    ensures held { IfOk result (IsHeldWithin limit (memory.file_named (map (λ f. (string_bytes f.0, f.1.items)) files.now) name.now)) }
{
    match find(files, name) {
        None => Ok(FileBytes::Absent),
        Some(bytes) => FileBytes::of_bytes(alloc, bytes, limit),
    }
}

/// Files in memory, for tests. The calls with the given numbers, from 1, fail.
#[derive(Debug, Drop)]
pub struct MemoryFiles {
    files: Vec<(String, Vec<u8>)>,
    fails: Vec<u64>,
    calls: u64,
    faults: u64,
}

impl Model for MemoryFiles {
    ghost use Rattle.std.specs.Prelude.{map, string_bytes};
    ghost use Rattle.memory_files.specs.Memory as memory;

    ghost Value = { memory.MemoryFilesView };

    ghost view = { λ m. record {
      files = map (λ f. (string_bytes f.0, f.1.items)) m.files.items;
      fails = m.fails.items;
      calls = m.calls;
      faults = m.faults;
    } };
}

impl MemoryFiles {
    /// Creates files with these names and bytes. Of two with one name the first counts. The n-th read, from 1, fails if
    /// n is in `fails`.
    pub fn new(files: Vec<(String, Vec<u8>)>, fails: Vec<u64>) -> MemoryFiles
        ensures { result ≡ record {
          files = map (λ f. (string_bytes f.0, f.1.items)) files.items;
          fails = fails.items;
          calls = 0;
          faults = 0;
        } }
    {
        MemoryFiles {
            files,
            fails,
            calls: 0,
            faults: 0,
        }
    }

    /// Counts a call, and returns whether it fails.
    fn count(&mut self) -> bool
        ensures fails { result ≡ memory.is_next self.old.fails self.old.calls }
        ensures counted { self.new ≡ memory.after_read self.old }
        ensures rose { IsTrue result → Rose self.old.faults self.new.faults }
        ensures monotone { self.old.faults ≤ self.new.faults }
    {
        let fails = fails_next(self.fails.as_slice(), self.calls);
        self.calls = self.calls.saturating_add(1);
        if fails {
            self.faults = self.faults.saturating_add(1);
        }
        fails
    }
}

impl Files for MemoryFiles {
    ghost use Rattle.ipdl_base.specs.Outside.{FileMap, HasAtMost, IsHeldWithin};

    ghost known = { λ m. Some (memory.file_named m.files) };

    ghost faults = { λ m. m.faults };

    fn read(&mut self, alloc: Global, name: &str, limit: usize) -> Result<FileBytes, Failure>
        ensures map { Some (memory.file_named self.new.files) ≡ Some (memory.file_named self.old.files) }
        ensures count { self.old.faults ≤ self.new.faults }
        ensures failed { result ≡ Err Failure.ReadFault → Rose self.old.faults self.new.faults }
        ensures small { IfOk result (HasAtMost limit) }
        ensures held { IfOk result (IsHeldWithin limit (memory.file_named self.old.files name.now)) }

        // In addition to the contract of `Files`: the read fails at the given calls and at no others.
        ensures fails { (result ≡ Err Failure.ReadFault) ↔ IsTrue (memory.is_next self.old.fails self.old.calls) }
        ensures counted { self.new ≡ memory.after_read self.old }
    {
        if self.count() {
            return Err(Failure::ReadFault);
        }
        Ok(read_named(alloc, self.files.as_slice(), name, limit)?)
    }
}

/// A sink in memory, for tests.
#[derive(Debug, Drop)]
pub struct MemorySink {
    written: Vec<u8>,
    piece: usize,
    room: usize,
    fails: Vec<u64>,
    calls: u64,
    faults: u64,
}

impl Model for MemorySink {
    ghost use Rattle.std.specs.Prelude.{◌≤◌, vec_len};
    ghost use Rattle.std.specs.Vec.{vec_capacity};
    ghost use Rattle.memory_files.specs.Memory as memory;

    ghost Value = { memory.MemorySinkView };

    ghost view = { λ s. record {
      written = s.written.items;
      piece = s.piece;
      room = s.room;
      fails = s.fails.items;
      calls = s.calls;
      faults = s.faults;
    } };

    ghost invariant = { λ s. (1 ≤ s.piece) × (vec_len s.written ≤ s.room) × (s.room ≤ vec_capacity s.written) };
}

impl MemorySink {
    /// Creates an empty sink with room for `room` bytes, for which it takes memory here. A write fails if its number,
    /// from 1, is in `fails`, or if it has bytes and the sink is full. Every other write takes all bytes for which there is
    /// room, but at most `piece`. Fails only if memory runs out.
    pub fn new(
        alloc: Global,
        piece: usize,
        room: usize,
        fails: Vec<u64>,
    ) -> Result<MemorySink, AllocError>
        requires { 1 ≤ piece }
        ensures { IfOk result (λ s. s ≡ record {
          written = [];
          piece = piece;
          room = room;
          fails = fails.items;
          calls = 0;
          faults = 0;
        }) }
    {
        Ok(MemorySink {
            written: Vec::with_capacity(alloc, room)?,
            piece,
            room,
            fails,
            calls: 0,
            faults: 0,
        })
    }

    /// Returns the bytes written so far.
    pub fn written(&self) -> &[u8]
        ensures { result.now ≡ self.now.written }
    {
        self.written.as_slice()
    }

    /// Returns the number of bytes of a piece that the next write takes, or `None` if it fails.
    fn room_for(&self, piece: &[u8]) -> Option<usize>
        ensures taken { result ≡ memory.room_for self.now piece.now }
        ensures some { IfSome result (λ n. (n ≤ length piece.now) × (0 < length piece.now → 1 ≤ n)) }
        ensures fits { IfSome result (λ n. length self.now.written + n ≤ self.now.room) }
    {
        let left = self.room - self.written.len();
        if fails_next(self.fails.as_slice(), self.calls) || (left == 0 && !piece.is_empty()) {
            None
        } else {
            Some(piece.len().min(self.piece).min(left))
        }
    }
}

impl Sink for MemorySink {
    ghost use Rattle.ipdl_base.specs.Outside.{Appends, TakesSome, taken};

    ghost written = { λ s. Some s.written };

    ghost faults = { λ s. s.faults };

    fn write(&mut self, piece: &[u8]) -> WriteAnswer
        ensures count { self.old.faults ≤ self.new.faults }
        ensures failed { result ≡ WriteAnswer.Failed → Rose self.old.faults self.new.faults }
        ensures took { TakesSome result piece.now }
        ensures appended { Some self.new.written ≡ Some (self.old.written ++ taken result piece.now) }

        // In addition to the contract of `Sink`: how much the write takes, and that it fails nowhere else.
        ensures answer { result ≡ memory.answer_to (memory.room_for self.old piece.now) }
        ensures after { self.new ≡ memory.after_write self.old piece.now }
    {
        let room = self.room_for(piece);
        self.calls = self.calls.saturating_add(1);
        match room {
            None => {
                self.faults = self.faults.saturating_add(1);
                WriteAnswer::Failed
            }
            Some(n) => {
                let front = &piece[..n];
                self.written.extend_from_slice(front).unwrap();
                WriteAnswer::Took(n)
            }
        }
    }
}
