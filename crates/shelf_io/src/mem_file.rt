//! A file in memory, and the calls that are to fail.

ghost use Rattle.std.specs.Prelude.{◌≡◌, ◌↔◌, if◌then◌else◌, Contains, IsTrue, position, bytes_eq, string_bytes};
ghost use Rattle.shelf_io.specs.Count.{count_after};

/// A file in memory.
#[derive(Drop)]
pub(crate) struct File {
    pub(crate) name: String,
    pub(crate) bytes: Vec<u8>,
}

/// The number of the first file with this name.
pub(crate) fn position_of(files: &[File], name: &str) -> Option<usize>
    ensures { result ≡ position (λ file. bytes_eq (string_bytes file.name) name.now) files.now }
{
    files.iter().position(|file| file.name.as_str() == name)
}

/// Counts a call, and a fault where the call's number is listed: then the call is to fail.
pub(crate) fn fails(listed: &[u64], calls: &mut u64, faults: &mut u64) -> bool
    ensures listed { IsTrue result ↔ Contains listed.now calls.old }
    ensures calls { calls.new ≡ count_after calls.old 1 }
    ensures faults { faults.new ≡ (if result then count_after faults.old 1 else faults.old) }
{
    let fails = listed.contains(calls);
    *calls = calls.saturating_add(1);
    if fails {
        *faults = faults.saturating_add(1);
    }
    fails
}
