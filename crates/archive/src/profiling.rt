// The archive profile, as C callers ask for it.
ghost use Rattle.std.specs.Prelude.{◌≡◌};
ghost use Rattle.profile.specs.Profile.{profiled};
ghost use Rattle.profile.specs.Judged.{judged};

use profile::Verdict;

// 0: the package is in the archive profile. 1: it is not. 21: it is no good package.
#[unsafe(no_mangle)]
pub extern "C" fn barthovin_archive_profile(package: &[u8]) -> u32
    ensures { result ≡ profiled «package».now }
{
    let verdict = profile::judge(package);
    verdict.code
}

// The same, and beside it a bit for each condition that fails, in the profile's order: 1 version 5, 2 little-endian, 4 offset width 4, 8 address
// size 8, 16 no macro section, 32 a cu_index, 64 its version 5, 128 a row in it.
#[unsafe(no_mangle)]
pub extern "C" fn barthovin_archive_profile_conditions(package: &[u8]) -> Verdict
    ensures { result ≡ judged «package».now }
{
    profile::judge(package)
}
