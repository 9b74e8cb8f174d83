ghost use Rattle.std.specs.Prelude.{◌≡◌, ◌≢◌, ◌≤◌, ◌<◌, ◌⊎◌, ◌↔◌, ℕ, List, length, Contains, IfOk, IsTrue, None, Some, true, option_map};
ghost use Rattle.files.specs.Held.{first_at};

use crate::cause::Cause;
use crate::faults::Faults;
use crate::file::{FileAnswer, FileBytes};
use crate::files::Files;
use std::alloc::Global;

/// The bytes of the first file of the path.
fn find<'a>(files: &'a [(String, Vec<u8>)], path: &str) -> Option<&'a [u8]>
    ensures { option_map (λ bytes. bytes.now) result ≡ first_at files.now path.now }
{
    files
        .iter()
        .find(|file| file.0.as_str() == path)
        .map(|file| file.1.as_slice())
}

/// Whether the number is one of these.
fn is_among(numbers: &[usize], number: usize) -> bool
    ensures { IsTrue result ↔ Contains numbers.now number }
{
    numbers.contains(&number)
}

/// Files in memory, read without fault: only a path that holds none fails. For a caller that has their bytes at hand, in place
/// of the system's files.
#[derive(Drop)]
pub struct HonestFiles {
    files: Vec<(String, Vec<u8>)>,
    faults: Faults,
}

impl HonestFiles {
    /// These files, each at its path. Of equal paths the first counts.
    pub fn new(files: Vec<(String, Vec<u8>)>) -> HonestFiles
        ensures tells { IsTrue (⟦<HonestFiles as Files>⟧.tells result) }
        ensures held { (path : List ℕ) →
            ⟦<HonestFiles as Files>⟧.held result path ≡ first_at files.items path }
        ensures failed { ⟦<HonestFiles as Files>⟧.failed result ≡ None }
        ensures faults { ⟦<HonestFiles as Files>⟧.faults result ≡ 0 }
    {
        HonestFiles {
            files,
            faults: Faults::none(),
        }
    }
}

impl Files for HonestFiles {
    ghost use Rattle.streams.specs.Faults.{CountsFault};
    ghost use Rattle.files.specs.Memory.{honest_held, honest_failed, honest_why, honest_faults};

    ghost tells = { λ _. true };

    ghost held = { λ files. honest_held files };

    ghost failed = { λ files. honest_failed files };

    ghost why = { λ files. honest_why files };

    ghost faults = { λ files. honest_faults files };

    fn read_file(&mut self, alloc: Global, path: &str, most: usize) -> Result<FileBytes, FileAnswer>
        ensures bytes { IfOk result (λ bytes. honest_held self.old path.now ≡ Some bytes) }
        ensures short { IfOk result (λ bytes. length bytes ≤ most) }
        ensures longer { result ≡ Err FileAnswer.Longer →
            (text : List ℕ) × (honest_held self.old path.now ≡ Some text) × (most < length text) }
        ensures missing { honest_held self.old path.now ≡ None →
            (result ≡ Err FileAnswer.Failed) ⊎ (result ≡ Err FileAnswer.Memory) }
        ensures same { (other : List ℕ) → honest_held self.new other ≡ honest_held self.old other }
        ensures later { honest_faults self.old ≤ honest_faults self.new }
        ensures kept { result ≢ Err FileAnswer.Failed →
            honest_faults self.new ≡ honest_faults self.old }
        ensures counted { result ≡ Err FileAnswer.Failed →
            CountsFault (honest_faults self.old) (honest_faults self.new) }
        ensures path_kept { result ≢ Err FileAnswer.Failed →
            honest_failed self.new ≡ honest_failed self.old }
        ensures path { result ≡ Err FileAnswer.Failed → honest_failed self.new ≡ Some path.now }
        ensures why_kept { result ≢ Err FileAnswer.Failed → honest_why self.new ≡ honest_why self.old }
        ensures why_missing { result ≡ Err FileAnswer.Failed → honest_why self.new ≡ Cause.Missing →
            honest_held self.old path.now ≡ None }

        // a call fails only where no file is held at the path
        ensures failing { result ≡ Err FileAnswer.Failed → honest_held self.old path.now ≡ None }
    {
        match find(&self.files, path) {
            None => Err(self.faults.raise(alloc, path, Cause::Missing)),
            Some(bytes) if bytes.len() > most => Err(FileAnswer::Longer),
            Some(bytes) => Ok(FileBytes::from(bytes.to_vec(alloc)?)),
        }
    }

    fn cause(&self) -> Cause {
        self.faults.cause
    }
}

/// Files in memory, of which chosen calls fail: for tests of what a caller does about a fault.
#[derive(Drop)]
pub struct MemoryFiles {
    honest: HonestFiles,
    fails: Vec<usize>,
    calls: usize,
}

impl MemoryFiles {
    ghost use Rattle.files.specs.Memory.{memory_fails, memory_calls};

    /// These files, each at its path. Of equal paths the first counts. The calls whose numbers, from 0, are in `fails`
    /// fail, and so do those at a path that holds no file.
    pub fn new(files: Vec<(String, Vec<u8>)>, fails: Vec<usize>) -> MemoryFiles
        ensures tells { IsTrue (⟦<MemoryFiles as Files>⟧.tells result) }
        ensures held { (path : List ℕ) →
            ⟦<MemoryFiles as Files>⟧.held result path ≡ first_at files.items path }
        ensures failed { ⟦<MemoryFiles as Files>⟧.failed result ≡ None }
        ensures faults { ⟦<MemoryFiles as Files>⟧.faults result ≡ 0 }
        ensures fails { memory_fails result ≡ fails.items }
        ensures calls { memory_calls result ≡ 0 }
    {
        MemoryFiles {
            honest: HonestFiles::new(files),
            fails,
            calls: 0,
        }
    }
}

impl Files for MemoryFiles {
    ghost use Rattle.streams.specs.Faults.{CountsFault};
    ghost use Rattle.files.specs.Memory.{memory_held, memory_failed, memory_why, memory_faults, memory_fails, memory_calls, MemoryCounts};

    ghost tells = { λ _. true };

    ghost held = { λ files. memory_held files };

    ghost failed = { λ files. memory_failed files };

    ghost why = { λ files. memory_why files };

    ghost faults = { λ files. memory_faults files };

    fn read_file(&mut self, alloc: Global, path: &str, most: usize) -> Result<FileBytes, FileAnswer>
        ensures bytes { IfOk result (λ bytes. memory_held self.old path.now ≡ Some bytes) }
        ensures short { IfOk result (λ bytes. length bytes ≤ most) }
        ensures longer { result ≡ Err FileAnswer.Longer →
            (text : List ℕ) × (memory_held self.old path.now ≡ Some text) × (most < length text) }
        ensures missing { memory_held self.old path.now ≡ None →
            (result ≡ Err FileAnswer.Failed) ⊎ (result ≡ Err FileAnswer.Memory) }
        ensures same { (other : List ℕ) → memory_held self.new other ≡ memory_held self.old other }
        ensures later { memory_faults self.old ≤ memory_faults self.new }
        ensures kept { result ≢ Err FileAnswer.Failed →
            memory_faults self.new ≡ memory_faults self.old }
        ensures counted { result ≡ Err FileAnswer.Failed →
            CountsFault (memory_faults self.old) (memory_faults self.new) }
        ensures path_kept { result ≢ Err FileAnswer.Failed →
            memory_failed self.new ≡ memory_failed self.old }
        ensures path { result ≡ Err FileAnswer.Failed → memory_failed self.new ≡ Some path.now }
        ensures why_kept { result ≢ Err FileAnswer.Failed → memory_why self.new ≡ memory_why self.old }
        ensures why_missing { result ≡ Err FileAnswer.Failed → memory_why self.new ≡ Cause.Missing →
            memory_held self.old path.now ≡ None }

        // a call fails where its number is among those or no file is held at the path, and nowhere else
        ensures to_fail { Contains (memory_fails self.old) (memory_calls self.old) →
            (result ≡ Err FileAnswer.Failed) ⊎ (result ≡ Err FileAnswer.Memory) }
        ensures failing { result ≡ Err FileAnswer.Failed →
            Contains (memory_fails self.old) (memory_calls self.old)
            ⊎ (memory_held self.old path.now ≡ None) }
        ensures call { MemoryCounts self.old self.new }
    {
        let call = self.calls;
        self.calls = call.saturating_add(1);
        if is_among(&self.fails, call) {
            return Err(self.honest.faults.raise(alloc, path, Cause::Unknown));
        }
        self.honest.read_file(alloc, path, most)
    }

    fn cause(&self) -> Cause {
        self.honest.faults.cause
    }
}
