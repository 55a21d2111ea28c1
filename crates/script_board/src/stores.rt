// A store: fixed memory, and how many of its bytes the store has at present.
ghost use Rattle.std.specs.Prelude.{◌≤◌};

#[derive(Drop)]
pub(crate) struct Store {
    bytes: [u8; Store::MOST],
    len: usize,
}

impl Store {
    // The longest that a store may be.
    pub(crate) const MOST: usize = 8192;

    // A store of no bytes.
    pub(crate) fn new() -> Self {
        Store {
            bytes: [0; Store::MOST],
            len: 0,
        }
    }

    // A store of so many bytes 0.
    pub(crate) fn renew(&mut self, len: usize)
        requires { len ≤ 8192 }
    {
        self.bytes[..len].fill(0);
        self.len = len;
    }

    // A struct whose ghost field bounds the length cannot lend its bytes as `&mut`: the bound is
    // taken here.
    fn end(&self) -> usize
        ensures { result ≤ 8192 }
    {
        self.len.min(Store::MOST)
    }

    pub(crate) fn as_slice(&self) -> &[u8] {
        &self.bytes[..self.end()]
    }

    pub(crate) fn as_mut_slice(&mut self) -> &mut [u8] {
        let end = self.end();
        &mut self.bytes[..end]
    }

    // At another length: bytes 0 where it is longer.
    pub(crate) fn resize(&mut self, len: usize)
        requires { len ≤ 8192 }
    {
        let end = self.end();
        if end < len {
            self.bytes[end..len].fill(0);
        }
        self.len = len;
    }
}
