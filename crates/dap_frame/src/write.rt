ghost use Rattle.std.specs.Prelude.{◌≡◌, IfOk};
ghost use Rattle.dap_frame.specs.Frame.{framed};

use crate::memory::Memory;
use itoa::Buffer;
use std::alloc::Global;

/// The bytes that carry a content: a header with its length, and the content.
pub fn frame(alloc: Global, content: &[u8]) -> Result<Vec<u8>, Memory>
    ensures { IfOk result (λ bytes. bytes.items ≡ framed content.now) }
{
    let mut buffer = Buffer::new();
    let mut bytes = Vec::with_capacity(alloc, content.len() + 40)?;
    bytes.extend_from_slice(b"Content-Length: ")?;
    bytes.extend_from_slice(buffer.format(content.len()).as_bytes())?;
    bytes.extend_from_slice(b"\r\n\r\n")?;
    bytes.extend_from_slice(content)?;
    Ok(bytes)
}
