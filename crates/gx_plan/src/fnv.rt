ghost use Rattle.std.specs.Prelude.{◌≡◌};
ghost use Rattle.gx_meaning.specs.Place.{hash_of};

const START: u64 = 14695981039346656037;

const PRIME: u64 = 1099511628211;

// FNV-1a of 64 bits over the bytes of a text.
pub fn hash(bytes: &[u8]) -> u64
    ensures { result ≡ hash_of bytes.now }
{
    let mut hash = START;
    for byte in bytes {
        hash = (hash ^ u64::from(*byte)).wrapping_mul(PRIME);
    }
    hash
}
