// The two work areas: which of them holds the image (01: the first when passes is even, else the second).
// A call that looks at the image has both areas lent for one time, since either may hold it.
ghost use Rattle.std.specs.Prelude.{◌≡◌, ◌≤◌, length};
ghost use Rattle.history.specs.State.{pixels};
ghost use Rattle.job.specs.Core.{at};

use history::Job;

// The present image: the first width × height bytes of the area that holds it.
pub(crate) fn image<'a>(job: &Job, first: &'a [u8], second: &'a [u8]) -> &'a [u8]
    requires { (pixels job.now ≤ length first.now) × (pixels job.now ≤ length second.now) }
    ensures { result.now ≡ Rattle.history.specs.State.image (at job.now first.now second.now) }
{
    let count = job.width * job.height;
    if job.passes % 2 == 0 {
        &first[..count]
    } else {
        &second[..count]
    }
}
