// A table's buckets made empty.
ghost use Rattle.std.specs.Prelude.{◌≡◌, ◌≤◌, length};
ghost use Rattle.model.specs.Calls.{cleared};

pub(crate) fn clear(buckets: &mut [u32], size: u32)
    requires { size ≤ length buckets.old }
    ensures { buckets.new ≡ cleared size buckets.old }
{
    buckets[..size as usize].fill(0);
}
