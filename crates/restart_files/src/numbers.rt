// Numbers of a restart file that are read.
ghost use Rattle.std.specs.Prelude.{◌≡◌, ◌≤◌, ◌+◌, length};
ghost use Rattle.restart_files.specs.RestartFile.{word128_at};

use fixed_point::word64;

// The number in the sixteen bytes from `at` on, the lowest first.
#[tactic(auto, unfolding(crate::specs::RestartFile::word128_at))]
pub(crate) fn word128(bytes: &[u8], at: usize) -> u128
    requires { at + 16 ≤ length bytes.now }
    ensures { result ≡ word128_at bytes.now at }
{
    u128::from(word64(bytes, at)) + (u128::from(word64(bytes, at + 8)) << 64)
}
