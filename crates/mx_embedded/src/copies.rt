//! Copies into a caller's room.
ghost use Rattle.std.specs.Prelude.{◌≡◌, ◌-◌, ◌++◌, drop, length, min, option_copied, take};
ghost use Rattle.mx_embedded.specs.Contents.{IsCopiedFrom};

/// Copies what there is from a place on, as much as there is room for. The answer is how many bytes.
pub(crate) fn copy_from(bytes: &[u8], from: u64, out: &mut [u8]) -> usize
    ensures count { result ≡ min (length bytes.now - from) (length out.old) }
    ensures copied { out.new ≡ take result (drop from bytes.now) ++ drop result out.old }
{
    let from = usize::try_from(from).unwrap_or(usize::MAX);
    let rest = bytes.get(from..).unwrap_or(&[]);
    let many = rest.len().min(out.len());
    out[..many].copy_from_slice(&rest[..many]);
    many
}

/// The same, where there are bytes; else it copies none.
pub(crate) fn copy_some(bytes: Option<&[u8]>, from: u64, out: &mut [u8]) -> usize
    ensures { IsCopiedFrom (option_copied bytes.entry) from out.old out.new result }
{
    match bytes {
        Some(bytes) => copy_from(bytes, from, out),
        None => 0,
    }
}
