// Bytes in fixed memory. Nothing is allocated, so that the number of the bytes held stands beside their array.
ghost use Rattle.std.specs.Prelude.{◌≡◌, [], ◌∷◌, ◌+◌, ◌<◌, ◌≤◌, length};
ghost use Rattle.session.specs.Buffer.{held, empty, Appends};

#[derive(Clone, Copy)]
pub struct Buffer<const N: usize> {
    pub bytes: [u8; N],
    pub len: usize,
}

impl<const N: usize> Buffer<N> {
    pub fn new() -> Self
        ensures { result ≡ empty N }
    {
        Buffer {
            bytes: [0; N],
            len: 0,
        }
    }

    // The bytes held.
    pub fn as_slice(&self) -> &[u8]
        ensures { result.now ≡ held self.now }
    {
        &self.bytes[..self.len.min(N)]
    }

    pub(crate) fn push(&mut self, byte: u8)
        requires { self.old.len < N }
        ensures { Appends self.old (byte ∷ []) self.new }
    {
        self.bytes[self.len] = byte;
        self.len += 1;
    }

    pub(crate) fn append(&mut self, added: &[u8])
        requires { self.old.len + length added.now ≤ N }
        ensures { Appends self.old added.now self.new }
    {
        let end = self.len + added.len();
        let bytes = &mut self.bytes[..];
        bytes[self.len..end].copy_from_slice(added);
        self.len = end;
    }
}
