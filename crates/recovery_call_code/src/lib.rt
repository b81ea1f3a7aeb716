// Recover: the index of an image is rebuilt.

#![tactic(auto)]

ghost use Rattle.std.specs.Prelude.{◌≡◌};
ghost use Rattle.layout.specs.Record.{Layout};
ghost use Rattle.recovery.specs.Recover.{recover_result, recover_end};
ghost use Rattle.recovery.specs.inner.Report.{RecoveredWith};

use layout_code::header::check_lent;
use recovery::{Classes, RecoverAnswer, Recovered, RecoveryReport};
use recovery_judge_code::settling::no_invalidations;
use recovery_scratch_code::scratch::recover_sized;

// Recover, in layout l, and how many slots are of each class.
pub fn recover_in(image: &[u8], l: usize, heads: &mut [u32], next: &mut [u32]) -> RecoveryReport
    requires { Layout l }
    ensures result { RecoveredWith l image.now heads.old next.old heads.new next.new result }
{
    let n = match check_lent(image, l, heads.len(), next.len()) {
        Ok(n) => n,
        Err(refusal) => {
            return RecoveryReport {
                answer: RecoverAnswer {
                    recovered: Recovered::Refused {
                        number: refusal.code(),
                        slot: 0,
                    },
                    invalidations: no_invalidations(),
                },
                classes: Classes {
                    broken: 0,
                    empty: 0,
                    puts: 0,
                    removes: 0,
                },
            };
        }
    };
    match n {
        ..64 => recover_sized::<64>(image, l, heads, next, n),
        64..256 => recover_sized::<256>(image, l, heads, next, n),
        256..1024 => recover_sized::<1024>(image, l, heads, next, n),
        1024..4096 => recover_sized::<4096>(image, l, heads, next, n),
        4096..16384 => recover_sized::<16384>(image, l, heads, next, n),
        _ => recover_sized::<65536>(image, l, heads, next, n),
    }
}

// The index of the image: the state beside the rebuilt heads and next with the invalidating stores, or a
// refusal, which changes neither.
pub fn recover(image: &[u8], heads: &mut [u32], next: &mut [u32]) -> RecoverAnswer
    ensures result { recover_end result.recovered result.invalidations heads.new next.new
        ≡ recover_result 1 image.now heads.old next.old }
{
    recover_in(image, 1, heads, next).answer
}

// Recover in layout 2.
pub fn recover2(image: &[u8], heads: &mut [u32], next: &mut [u32]) -> RecoverAnswer
    ensures result { recover_end result.recovered result.invalidations heads.new next.new
        ≡ recover_result 2 image.now heads.old next.old }
{
    recover_in(image, 2, heads, next).answer
}
