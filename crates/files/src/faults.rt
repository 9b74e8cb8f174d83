ghost use Rattle.std.specs.Prelude.{◌≡◌, ◌≢◌, ◌≤◌, ◌⊎◌, None, Some};
ghost use Rattle.streams.specs.Faults.{CountsFault};
ghost use Rattle.files.specs.Faults.{fault_path};

use crate::cause::Cause;
use crate::file::FileAnswer;
use std::alloc::Global;

/// How many calls failed, up to 2^64 - 1, and the path and the cause of the last of them.
#[derive(Drop)]
pub(crate) struct Faults {
    pub(crate) count: u64,
    pub(crate) path: Option<String>,
    pub(crate) cause: Cause,
}

impl Faults {
    /// No call failed yet.
    pub(crate) fn none() -> Faults
        ensures count { result.count ≡ 0 }
        ensures path { fault_path result ≡ None }
    {
        Faults {
            count: 0,
            path: None,
            cause: Cause::Unknown,
        }
    }

    /// Counts a fault at the path, of this cause, and answers `Failed`. Where there is no memory to keep the path, it
    /// answers `Memory` and counts nothing.
    pub(crate) fn raise(&mut self, alloc: Global, path: &str, cause: Cause) -> FileAnswer
        ensures answer { (result ≡ FileAnswer.Failed) ⊎ (result ≡ FileAnswer.Memory) }
        ensures later { self.old.count ≤ self.new.count }
        ensures kept { result ≢ FileAnswer.Failed → self.new ≡ self.old }
        ensures counted { result ≡ FileAnswer.Failed → CountsFault self.old.count self.new.count }
        ensures path { result ≡ FileAnswer.Failed → fault_path self.new ≡ Some path.now }
        ensures cause { result ≡ FileAnswer.Failed → self.new.cause ≡ cause }
    {
        match String::from_str(alloc, path) {
            Ok(own) => {
                self.path = Some(own);
                self.cause = cause;
                self.count = self.count.saturating_add(1);
                FileAnswer::Failed
            }
            Err(_) => FileAnswer::Memory,
        }
    }
}
