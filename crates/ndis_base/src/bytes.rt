//! Bytes that contracts see as lists: frames, and the values of OID requests.
ghost use Rattle.std.specs.Prelude.{◌≡◌, ◌≤◌, IfOk, length};

use crate::OutOfMemory;
use std::alloc::Global;
use std::marker::Model;

/// A frame, seen as its bytes.
#[derive(Drop)]
pub struct Frame {
    bytes: Vec<u8>,
}

impl Model for Frame {
    ghost use Rattle.std.specs.Prelude.{List, ℕ};

    ghost Value = { List ℕ };

    ghost view = { λ f. f.bytes.items };
}

impl Frame {
    /// Copies the bytes.
    pub fn make(alloc: Global, bytes: &[u8]) -> Result<Frame, OutOfMemory>
        ensures { IfOk result (λ f. f ≡ bytes.now) }
    {
        Ok(Frame {
            bytes: Vec::from_slice(alloc, bytes)?,
        })
    }

    /// The frame of these bytes. It takes no memory.
    pub fn of(bytes: Vec<u8>) -> Frame
        ensures { result ≡ bytes.items }
    {
        Frame { bytes }
    }

    pub fn bytes(&self) -> &[u8]
        ensures { result.now ≡ self.now }
    {
        self.bytes.as_slice()
    }
}

/// The value of an OID request, of at most 8 bytes, the least significant first.
pub struct OidValue {
    bytes: [u8; 8],
    len: usize,
}

impl Model for OidValue {
    ghost use Rattle.std.specs.Prelude.{List, ℕ, take, ◌≤◌};

    ghost Value = { List ℕ };

    ghost view = { λ v. take v.len v.bytes };

    ghost invariant = { λ v. v.len ≤ 8 };
}

impl Drop for OidValue {
    fn drop(self) {
        let OidValue { bytes: _, len: _ } = self;
    }
}

impl OidValue {
    pub fn of(bytes: &[u8]) -> OidValue
        requires { length bytes.now ≤ 8 }
        ensures { result ≡ bytes.now }
    {
        let mut value = [0; 8];
        value[..bytes.len()].copy_from_slice(bytes);
        OidValue {
            bytes: value,
            len: bytes.len(),
        }
    }

    pub fn bytes(&self) -> &[u8]
        ensures bytes { result.now ≡ self.now }
        ensures short { length self.now ≤ 8 }
    {
        &self.bytes[..self.len]
    }

    /// An equal value. It takes no memory.
    pub fn copy(&self) -> OidValue
        ensures { result ≡ self.now }
    {
        OidValue {
            bytes: self.bytes,
            len: self.len,
        }
    }
}
