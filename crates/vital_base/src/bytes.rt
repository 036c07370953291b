ghost use Rattle.std.specs.Prelude.{◌≡◌, ℕ, List};

use std::marker::{Model, PhantomData};

/// Bytes in order, of which the type parameter says what they are.
#[derive(Drop)]
pub struct BytesOf<What> {
    bytes: Vec<u8>,
    what: PhantomData<What>,
}

/// What a file holds.
#[derive(Drop)]
pub struct Content;

/// What something is called.
#[derive(Drop)]
pub struct Naming;

/// What a user types between blanks.
#[derive(Drop)]
pub struct Argument;

/// Bytes in order, such as those of a file.
pub type Bytes = BytesOf<Content>;

/// A name: of a file, as the bytes of its word, or of an identifier as it is printed.
pub type Name = BytesOf<Naming>;

/// One word of the command line, as its bytes.
pub type Word = BytesOf<Argument>;

impl<What> Model for BytesOf<What> {
    ghost Value = { List ℕ };

    ghost view = { λ b. b.bytes.items };
}

impl<What> BytesOf<What> {
    /// The bytes of a vector. It takes no memory.
    pub fn new(bytes: Vec<u8>) -> Self
        ensures { result ≡ bytes.items }
    {
        BytesOf {
            bytes,
            what: PhantomData,
        }
    }

    /// The bytes, borrowed.
    pub fn as_slice(&self) -> &[u8]
        ensures { result.now ≡ self.now }
    {
        self.bytes.as_slice()
    }

    /// The vector that holds the bytes. It takes no memory.
    pub fn into_vec(self) -> Vec<u8>
        ensures { result.items ≡ self }
    {
        let BytesOf { bytes, what: _ } = self;
        bytes
    }
}
