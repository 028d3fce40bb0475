// Bytes behind others in a lent slice.
ghost use Rattle.std.specs.Prelude.{◌≤◌, length};
ghost use Rattle.files.specs.Append.{Appends};

// Puts bytes behind the first `at` of a slice, as far as there is room. Returns how many it holds then.
pub fn append(slice: &mut [u8], at: usize, bytes: &[u8]) -> usize
    requires { at ≤ length slice.old }
    ensures { (result ≤ length slice.new) × Appends bytes.now slice.old at result slice.new }
{
    let n = bytes.len().min(slice.len() - at);
    let end = at + n;
    slice[at..end].copy_from_slice(&bytes[..n]);
    end
}
